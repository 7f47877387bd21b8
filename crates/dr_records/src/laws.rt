//! Laws of the spellings of records.

ghost use Rattle.std.specs.Prelude.{◌≡◌, ℕ, List, [], ◌++◌};
ghost use Rattle.dr_records.specs.declared.records.Record.{Record};
ghost use Rattle.dr_records.specs.Spelling.{spelling, IsRecord, IsOther, IsFirstFault};

/// A spelling is that of one record.
pub fn one_record()
    ensures { (a b : Record) → IsRecord a → IsRecord b →
        spelling a ≡ spelling b → a ≡ b }
{}

/// No spelling begins another record's, but for those of Estates.
pub fn no_prefix()
    ensures { (a b : Record) (rest : List ℕ) → IsRecord a → IsOther a → IsRecord b →
        spelling b ≡ spelling a ++ rest → (a ≡ b) × (rest ≡ []) }
{}

/// Bytes have one first fault.
pub fn one_fault()
    ensures { (bytes : List ℕ) (m n : ℕ) → IsFirstFault bytes m → IsFirstFault bytes n →
        m ≡ n }
{}
