//! The stages from bytes to a program.

ghost use Rattle.std.specs.Prelude.{◌≡◌, ◌<◌, ◌≤◌, List, length, IfErr, IfOk, OnOk};
ghost use Rattle.core_tree.specs.WellTyped.{IsWellTyped};
ghost use Rattle.java_syntax.specs.Spells.{Spells};
ghost use Rattle.class_table.specs.Faults.{Blames};
ghost use Rattle.class_table.specs.Table.{table_of};
ghost use Rattle.java_members.specs.Files as types;
ghost use Rattle.java_source.specs.Accepted.{Accepted, BreaksNoRule, IsBroken, IsOnlyProgram};
ghost use Rattle.java_source.specs.Refused.{IsRefused, TellsNoTree, rule_refusal};

use crate::place::{place_of, stopped_at};
use crate::{SourceError, SourceRefusal};
use class_table::table;
use core_tree::Program;
use java_members::environment;
use java_parse::{ParseError, parse};
use java_syntax::{CheckError, Fault, FileTree};
use java_tokens::{Token, tokens};
use java_types::resolve_in;
use std::alloc::Global;
use throw_check::check_file;

/// The bytes of the longest source.
pub const MOST_BYTES: usize = 1_048_576;

/// The resolved program of a source: it has no other one, and is well typed.
///
/// # Errors
/// `Refused` where the source isn't accepted, by the first of these that refuses: its size, tokens, tree, and the
/// checks of classes, of names and types, and of thrown exceptions. `OutOfMemory` may come for any source.
pub fn program_of(alloc: Global, bytes: &[u8]) -> Result<Program, SourceError>
    ensures program { IfOk result (Accepted bytes.now) }
    ensures only { IfOk result (IsOnlyProgram bytes.now) }
    ensures typed { IfOk result IsWellTyped }
    ensures refused { IfErr result (IsRefused bytes.now) }
{
    if bytes.len() > MOST_BYTES {
        return Err(SourceError::Refused(SourceRefusal::TooLong));
    }
    let tokens = tokens(alloc, bytes)?;
    let tree = match parse(alloc, &tokens) {
        Ok(tree) => tree,
        Err(error) => return Err(unparsed(&tokens, error)),
    };
    match checked(alloc, &tree) {
        Ok(program) => Ok(program),
        Err(CheckError::Fault(fault)) => Err(broken(&tokens, fault)),
        Err(CheckError::OutOfMemory) => Err(SourceError::OutOfMemory),
    }
}

// The resolved program of a tree that breaks no rule. Where the tree spells some tokens, the program is well typed.
fn checked(alloc: Global, tree: &FileTree) -> Result<Program, CheckError>
    ensures program { IfOk result (λ program. program ≡ types.program_of (table_of tree.now) tree.now) }
    ensures clear { OnOk result (BreaksNoRule tree.now) }
    ensures typed { (tokens : List Token) → Spells tree.now tokens → IfOk result IsWellTyped }
    ensures fault { IfErr result (Blames (IsBroken tree.now)) }
{
    let table = table(alloc, tree)?;
    let mut env = environment(alloc, &table, tree)?;
    let program = resolve_in(alloc, &mut env, &table, tree)?;
    check_file(alloc, &env.symbols, tree)?;
    Ok(program)
}

// Why tokens have no tree.
fn unparsed(tokens: &[Token], error: ParseError) -> SourceError
    requires { 0 < length tokens.now }
    ensures { TellsNoTree tokens.now error result }
{
    match error {
        ParseError::Syntax(at) => {
            let place = stopped_at(tokens, at);
            SourceError::Refused(SourceRefusal::Syntax {
                line: place.line,
                column: place.column,
            })
        }
        ParseError::TooDeep => SourceError::Refused(SourceRefusal::TooDeep),
        ParseError::OutOfMemory => SourceError::OutOfMemory,
    }
}

// The refusal of a tree that breaks a rule.
fn broken(tokens: &[Token], fault: Fault) -> SourceError
    ensures { result ≡ SourceError.Refused (rule_refusal tokens.now fault) }
{
    let place = place_of(tokens, fault.at);
    SourceError::Refused(SourceRefusal::Fault {
        rule: fault.rule,
        line: place.line,
        column: place.column,
    })
}
