//! The rules in turn, and the resolved program.

ghost use Rattle.std.specs.Prelude.{◌≡◌, ◌++◌, [], IfErr, IfOk, OnOk};
ghost use Rattle.core_tree.specs.BuiltIn.{first_class};
ghost use Rattle.java_names.specs.Refusals.{Refuses};
ghost use Rattle.java_members.specs.Answers as answer;
ghost use Rattle.java_members.specs.Files as spec;

use crate::classes::classes;
use crate::constants::read_constants;
use crate::declarations::check_declarations;
use crate::main_method::main_number;
use crate::members::{add_made_makers, resolve_members};
use class_table::ClassTable;
use core_tree::Program;
use java_exprs::{Constants, Environment};
use java_names::symbols;
use java_syntax::{CheckError, FileTree};
use sqlite_items::Items;
use std::alloc::{AllocError, Global};

/// What is known of a file, given the table of its classes, before its constants are read. `AllocError` where memory
/// runs out.
pub fn environment(
    alloc: Global,
    table: &ClassTable,
    tree: &FileTree,
) -> Result<Environment, AllocError>
    ensures { IfOk result (λ env. env ≡ spec.first_env table.now tree.now) }
{
    Ok(Environment {
        symbols: symbols(alloc, table)?,
        constants: Constants::new(alloc),
        places: Items::from_slice(alloc, tree.places.as_slice())?,
    })
}

// The resolved program, where all declarations are in order and the constants are read.
#[tactic(auto, using(java_exprs::proofs::RulesLemmas::joins))]
fn program(
    alloc: Global,
    env: &Environment,
    table: &ClassTable,
    tree: &FileTree,
) -> Result<Program, CheckError>
    ensures program { IfOk result (λ program. program ≡ spec.program_in env.now table.now tree.now) }
    ensures clear { OnOk result (spec.of_members (spec.member_faults env.now) first_class tree.now.classes ++ spec.of_made (spec.made_faults env.now) first_class tree.now.classes ≡ []) }
    ensures fault { IfErr result (Refuses (spec.of_members (answer.faults_in env.now) first_class tree.now.classes ++ spec.of_made (spec.made_faults env.now) first_class tree.now.classes)) }
{
    let mut bodies = resolve_members(alloc, env, tree.classes.as_slice())?;
    add_made_makers(alloc, env, tree.classes.as_slice(), &mut bodies.makers)?;
    let classes = classes(alloc, env, tree, table.classes.as_slice())?;
    let main = main_number(tree)?;
    Ok(Program {
        classes,
        methods: bodies.methods,
        makers: bodies.makers,
        main,
    })
}

/// The resolved program of a file (JLS 6, 8, 14, 15), given the table of its classes and what is known of it before its
/// constants are read, to which these are added. `java_types` adds that the program is well typed.
///
/// # Errors
/// `Fault` with the number of a rule of 10 to 21 and the number of a token, counted from 0, at which that rule is
/// broken: any one of them where several are, but of declarations alone where one of these breaks a rule. `OutOfMemory`
/// where memory runs out.
pub fn resolve_file(
    alloc: Global,
    env: &mut Environment,
    table: &ClassTable,
    tree: &FileTree,
) -> Result<Program, CheckError>
    requires { env.old ≡ spec.first_env table.now tree.now }
    ensures program { IfOk result (λ program. program ≡ spec.program_of table.now tree.now) }
    ensures clear { OnOk result (spec.faults_of table.now tree.now ≡ []) }
    ensures symbols { OnOk result (env.new.symbols ≡ env.old.symbols) }
    ensures fault { IfErr result (Refuses (spec.faults_of table.now tree.now)) }
{
    check_declarations(alloc, env, tree.classes.as_slice())?;
    read_constants(alloc, env, tree.classes.as_slice())?;
    program(alloc, env, table, tree)
}
