//! Laws of the texts of answers.

ghost use Rattle.std.specs.Prelude.{◌≡◌, ◌++◌, ℕ, List, Option, None, IfSome};
ghost use Rattle.dr_base.specs.declared.answer.Answer.{Answer as AnswerValue};
ghost use Rattle.dr_base.specs.declared.answer.Answer.TheVariants.{Shown};
ghost use Rattle.dr_inventory.specs.declared.estate.Estate.{Estate as EstateValue};
ghost use Rattle.dr_inventory.specs.Sound.{IsSoundEstate};
ghost use Rattle.dr_plan.specs.declared.plan.Plan.{Plan as PlanValue};
ghost use Rattle.dr_report.specs.Reports.{TellsGroups, preview_text_of};
ghost use Rattle.dr_report.specs.Texts.{answer_text_of};
ghost use Rattle.dr_report.specs.Conditions.{HoldsNumbersOf};
ghost use Rattle.dr_report.specs.Values.{HasNames, IsToldAnswer};

/// Two different answers never have one text. Only two refusals for want of a method have, which are
/// told without the method that the target has.
pub fn texts_tell_answers()
    ensures { (estate : Option EstateValue) (a b : AnswerValue) → IfSome estate IsSoundEstate → HasNames estate →
        HoldsNumbersOf estate a → HoldsNumbersOf estate b → IsToldAnswer a → IsToldAnswer b →
        answer_text_of estate a ≡ answer_text_of estate b → a ≡ b }
{}

/// A report with its answer's line behind it is no other answer's line.
pub fn reports_tell_answers()
    ensures groups { (estate : EstateValue) (named : Option EstateValue) (report : List ℕ) (answer : AnswerValue) →
        TellsGroups estate report → IfSome named IsSoundEstate → HasNames named → HoldsNumbersOf named answer → IsToldAnswer answer →
        report ++ answer_text_of None Shown ≡ answer_text_of named answer → answer ≡ Shown }
    ensures preview { (estate : EstateValue) (plan : PlanValue) (named : Option EstateValue) (answer : AnswerValue) →
        IfSome named IsSoundEstate → HasNames named → HoldsNumbersOf named answer → IsToldAnswer answer →
        preview_text_of estate plan ++ answer_text_of None Shown ≡ answer_text_of named answer → answer ≡ Shown }
{}
