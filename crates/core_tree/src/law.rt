//! Typing reads no contract but that of a method itself.

ghost use Rattle.std.specs.Prelude.{List, Option, IsTrue};
ghost use Rattle.core_tree.specs.declared.contract.Contract.{Contract as MethodContract};
ghost use Rattle.core_tree.specs.declared.program.Program.{Program as ResolvedProgram};
ghost use Rattle.core_tree.specs.WellTyped.{IsWellTyped};
ghost use Rattle.core_tree.specs.OtherContracts.{are_contracts, with_contracts};

/// A well-typed program stays well typed with other contracts, where those are well typed for its methods.
pub fn other_contracts_keep_a_program_well_typed()
    ensures { (p : ResolvedProgram) (contracts : List (Option MethodContract)) → IsWellTyped p
        → IsTrue (are_contracts p contracts) → IsWellTyped (with_contracts p contracts) }
{}
