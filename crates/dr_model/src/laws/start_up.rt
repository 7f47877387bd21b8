//! Machines are started in order.

ghost use Rattle.std.specs.Prelude.{◌≡◌, ◌<◌, ◌⊎◌, ℕ, true, false, List, ◌∷◌, Some, Contains, take};
ghost use Rattle.std.specs.List.{list_any, AllByRecursion};
ghost use Rattle.dr_outside.specs.Pairs.{frame_of};
ghost use Rattle.dr_meaning.specs.Types.{Op as OpValue, Post as PostValue, PlanMachine as MachineValue, Record as RecordValue};
ghost use Rattle.dr_meaning.specs.declared.stage.StageKind.{StageKind as KindValue};
ghost use Rattle.dr_meaning.specs.Worlds.{World};
ghost use Rattle.dr_base.specs.Lists.{has};
ghost use Rattle.dr_meaning.specs.Visits.{Visit, visits};
ghost use Rattle.dr_meaning.specs.Runs.{Setting, Run, number, op, new, is_finished, is_open, run_at, last_of_group, root};
ghost use Rattle.dr_meaning.specs.Reach.{stage_of};
ghost use Rattle.dr_meaning.specs.Meaning.{is_left};
ghost use Rattle.dr_meaning.specs.Lawful.{tokens_from};
ghost use Rattle.dr_meaning.specs.Expected.{ExpectedPost};
ghost use Rattle.dr_meaning.specs.InOrder.{is_ready, is_aside, is_start_up, InOrder, has_code, is_ready_at_new, IsPairOfMachine, MayRun};
ghost use Rattle.dr_meaning.specs.Journals.{Stands};
ghost use Rattle.dr_meaning.specs.Sound.{IsSoundBy};
ghost use Rattle.dr_meaning.specs.Backing.{KeepsOrder, IsEntry, IsEarlier};

/// When a Start wave is begun, each machine of an earlier priority or depth is ready at the new side,
/// or has an Aside.
pub fn waves_start_in_order()
    ensures { (setting : Setting) (records : List RecordValue) (runs : List Run) → Stands setting records runs →
        (group : ℕ) (run : Run) (visit : Visit) (earlier : List Visit) (m : MachineValue) (y : PostValue) →
        last_of_group group runs ≡ Some run → is_finished run ≡ false → is_start_up (op run) ≡ true →
        visits run.log ≡ visit ∷ earlier → (stage_of run visit).kind ≡ KindValue.Start → IsEntry run.plan m →
        IsEarlier m (stage_of run visit) → ExpectedPost setting.estate group m.machine (new run) runs y →
        (is_ready y ≡ true) ⊎ (list_any (is_aside m.machine) run.log ≡ true) }
{}

/// While a Start wave is begun, a machine of it may be started, where its commands before power-on are
/// kept and a failover has left none of those that it depends on. It is enough that the outside was
/// sound, and that since then machines of other waves stayed ready, the runner kept its codes, and the
/// machine's pairs kept their frames.
pub fn wave_machines_may_run()
    ensures { (setting : Setting) (records : List RecordValue) (runs : List Run) → Stands setting records runs →
        (run : Run) (visit : Visit) (earlier : List Visit) (m : MachineValue) (old now : World) →
        run_at (number run) runs ≡ Some run → is_open run ≡ true →
        visits run.log ≡ visit ∷ earlier → (stage_of run visit).kind ≡ KindValue.Start →
        Contains run.plan.machines m → has (stage_of run visit).machines m.machine ≡ true →
        (op run ≡ OpValue.Failover → AllByRecursion (λ d. is_left run d ≡ false) m.after) →
        ((x : MachineValue) → Contains run.plan.machines x → x.machine < old.machine_count) →
        ((p : ℕ) → IsPairOfMachine run.estate m.machine p → p < old.pair_count) → IsSoundBy setting runs old →
        ((d : ℕ) → has (stage_of run visit).machines d ≡ false → is_ready_at_new old run d ≡ true → is_ready_at_new now run d ≡ true) →
        ((t : ℕ) → has_code old.runner t ≡ true → has_code now.runner t ≡ true) →
        ((p : ℕ) → IsPairOfMachine run.estate m.machine p → frame_of (now.pair p) ≡ frame_of (old.pair p)) →
        AllByRecursion (λ t. has_code (now.kept m.machine) t ≡ true) (tokens_from (root run) 0 (take 2 m.commands)) → MayRun now run m }
{}

/// Machines stay in order in each change in which nothing that they rest on is lost, and each that
/// is started anew may be so.
pub fn changes_keep_order()
    ensures { (old now : World) (runs : List Run) →
        ((group : ℕ) (run : Run) → last_of_group group runs ≡ Some run → AllByRecursion (λ h. last_of_group h runs ≡ Some run) run.start.groups → is_start_up (op run) ≡ true → KeepsOrder old now run) → InOrder old runs → InOrder now runs }
{}
