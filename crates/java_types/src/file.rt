//! The public calls.

ghost use Rattle.std.specs.Prelude.{◌≡◌, List, [], IfErr, IfOk, OnOk};
ghost use Rattle.core_tree.specs.WellTyped.{IsWellTyped};
ghost use Rattle.java_tokens.specs.declared.token.Token.{Token};
ghost use Rattle.java_syntax.specs.Spells.{Spells};
ghost use Rattle.class_table.specs.Faults.{Clear};
ghost use Rattle.class_table.specs.Rules.{Breaks};
ghost use Rattle.class_table.specs.Table.{table_of};
ghost use Rattle.class_table.specs.TableFacts.{IsTable};
ghost use Rattle.java_names.specs.Refusals.{Refuses};
ghost use Rattle.java_members.specs.Files.{faults_of, first_env, program_of};

use class_table::ClassTable;
use core_tree::Program;
use java_exprs::Environment;
use java_members::{environment, resolve_file};
use java_syntax::{CheckError, FileTree};
use std::alloc::Global;
use typing_law::programs_are_typed;

/// The resolved program of a file, given the table of its classes (JLS 6, 8, 14, 15). It is well typed where the table
/// is that of the tree, and the tree spells some tokens and breaks none of rules 1 to 9.
///
/// # Errors
/// `Fault` with the number of a rule of 10 to 21 and the number of a token, counted from 0, at which that rule is
/// broken: any one of them where several are, but of declarations alone where one of these breaks a rule. `OutOfMemory`
/// where memory runs out.
pub fn resolve(alloc: Global, table: &ClassTable, tree: &FileTree) -> Result<Program, CheckError>
    ensures program { IfOk result (λ program. program ≡ program_of table.now tree.now) }
    ensures clear { OnOk result (faults_of table.now tree.now ≡ []) }
    ensures typed { (tokens : List Token) → Spells tree.now tokens → table.now ≡ table_of tree.now → IsTable table.now
        → Clear (Breaks tree.now) → IfOk result IsWellTyped }
    ensures fault { IfErr result (Refuses (faults_of table.now tree.now)) }
{
    let mut env = environment(alloc, table, tree)?;
    resolve_in(alloc, &mut env, table, tree)
}

/// The same, given what is known of the file before its constants are read. These are added to it, and its symbols
/// stay.
///
/// # Errors
/// Those of `resolve`.
pub fn resolve_in(
    alloc: Global,
    env: &mut Environment,
    table: &ClassTable,
    tree: &FileTree,
) -> Result<Program, CheckError>
    requires { env.old ≡ first_env table.now tree.now }
    ensures program { IfOk result (λ program. program ≡ program_of table.now tree.now) }
    ensures clear { OnOk result (faults_of table.now tree.now ≡ []) }
    ensures typed { (tokens : List Token) → Spells tree.now tokens → table.now ≡ table_of tree.now → IsTable table.now
        → Clear (Breaks tree.now) → IfOk result IsWellTyped }
    ensures symbols { OnOk result (env.new.symbols ≡ env.old.symbols) }
    ensures fault { IfErr result (Refuses (faults_of table.now tree.now)) }
{
    programs_are_typed();
    resolve_file(alloc, env, table, tree)
}
