ghost use Rattle.std.specs.Prelude.{◌≡◌, ◌≢◌, ℕ, IsTrue, List, Option};
ghost use Rattle.core_tree.specs.declared.program.Program.{Program as ResolvedProgram};
ghost use Rattle.core_tree.specs.Typing.{is_throwable};
ghost use Rattle.core_tree.specs.WellTyped.{IsWellTyped};
ghost use Rattle.relation_bounds.specs.declared.journal.Entry.{Entry as JournalEntry};
ghost use Rattle.evaluation.specs.Run.{run, ending, Ending};

/// No run of a well-typed program is stuck, whatever its arguments, its number of steps and the answers to come are. An
/// exception that nothing caught is of a class at or below Throwable.
pub fn never_stuck()
    ensures never_stuck { (p : ResolvedProgram) (args : List (List ℕ)) (steps : ℕ) (journal : List JournalEntry) →
        IsWellTyped p → ending (run p args steps journal) ≢ Ending.Stuck }
    ensures uncaught { (p : ResolvedProgram) (args : List (List ℕ)) (steps : ℕ) (journal : List JournalEntry) (c : ℕ) (message : Option (List ℕ)) →
        IsWellTyped p → ending (run p args steps journal) ≡ Ending.Uncaught c message → IsTrue (is_throwable p c) }
{}
