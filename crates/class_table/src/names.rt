//! The names of the classes, and the rules on them.

ghost use Rattle.std.specs.Prelude.{◌≡◌, false, [], ◌∷◌, ◌++◌, ◌⊎◌, ◌||◌, ◌≤◌, length, IfOk, IfErr, OnOk, map};
ghost use Rattle.token_reading.specs.declared.fault.Fault.{Fault};
ghost use Rattle.std.specs.List.{list_any};
ghost use Rattle.class_table.specs.BuiltIn.{built_in};
ghost use Rattle.class_table.specs.Names.{built_in_names, class_names, library_names, same_name};
ghost use Rattle.class_table.specs.Faults.{Blames, Clear, OfRule};
ghost use Rattle.class_table.specs.Rules.{IsAmong, NamesFault, NameReserved, is_reserved};

use crate::built_in::name;
use crate::declaration::Declaration;
use crate::keys::Keys;
use java_syntax::{CheckError, ClassTree, Fault};
use java_tokens::Name;
use std::alloc::{AllocError, Global};

/// How many classes a file may have.
pub const MAX_CLASSES: usize = 1000;

/// The error of a broken rule.
pub fn fault(rule: u8, at: u32) -> CheckError
    ensures { result ≡ CheckError.Fault (record { rule = rule; at = at }) }
{
    CheckError::Fault(Fault { rule, at })
}

/// The names that are known and are no class of the table.
#[tactic(auto, unfolding(crate::specs::Names::library_names))]
pub fn library_keys(alloc: Global) -> Result<Keys<Name>, AllocError>
    ensures { IfOk result (λ keys. keys ≡ library_names) }
{
    let mut keys = Keys::new(alloc);
    keys.insert(name(alloc, b"String")?)?;
    keys.insert(name(alloc, b"System")?)?;
    Ok(keys)
}

/// The names of the built-in classes.
#[tactic(auto, unfolding(crate::specs::Names::built_in_names, crate::specs::BuiltIn::built_in))]
fn built_in_keys(alloc: Global, built: &[Declaration]) -> Result<Keys<Name>, AllocError>
    requires { built.now ≡ built_in }
    ensures { IfOk result (λ keys. keys ≡ built_in_names) }
{
    let mut keys = Keys::new(alloc);
    for class in built {
        keys.insert(class.name.clone()?)?;
    }
    Ok(keys)
}

/// Checks that no class has the name of a built-in class, `String` or `System`.
fn check_reserved(
    built_names: &Keys<Name>,
    library: &Keys<Name>,
    class: &ClassTree,
) -> Result<(), CheckError>
    requires built { built_names.now ≡ built_in_names }
    requires library { library.now ≡ library_names }
    ensures fault { IfErr result (Blames (OfRule 8 (NameReserved class.now))) }
    ensures free { OnOk result (is_reserved class.now.name.name ≡ false) }
{
    let name = &class.name.name;
    if built_names.contains(name) || library.contains(name) {
        return Err(fault(8, class.name.at));
    }
    Ok(())
}

/// Adds a name, which is declared at token `at`, unless it is there; then `rule` is broken.
pub fn add_name(keys: &mut Keys<Name>, name: &Name, rule: u8, at: u32) -> Result<(), CheckError>
    ensures fault { IfErr result (Blames (OfRule rule (IsAmong keys.old name.now at))) }
    ensures new { OnOk result (list_any (same_name name.now) keys.old ≡ false) }
    ensures added { OnOk result (keys.new ≡ keys.old ++ name.now ∷ []) }
{
    if keys.insert(name.clone()?)? {
        Ok(())
    } else {
        Err(fault(rule, at))
    }
}

/// Numbers the names of the classes, the built-in ones first.
#[tactic(auto, using(crate::proofs::NamesLemmas::names_found))]
pub fn class_keys(
    alloc: Global,
    built: &[Declaration],
    library: &Keys<Name>,
    classes: &[ClassTree],
) -> Result<Keys<Name>, CheckError>
    requires built { built.now ≡ built_in }
    requires library { library.now ≡ library_names }
    ensures names { IfOk result (λ names. names ≡ class_names classes.now) }
    ensures fault { IfErr result (Blames (NamesFault classes.now)) }
    ensures clear { OnOk result (Clear (NamesFault classes.now)) }
    ensures few { OnOk result (length classes.now ≤ 1000) }
{
    if let Some(class) = classes.get(MAX_CLASSES) {
        return Err(fault(9, class.name.at));
    }
    let built_names = built_in_keys(alloc, built)?;
    let mut names = built_in_keys(alloc, built)?;
    for class in classes {
        check_reserved(&built_names, library, class)?;
        add_name(&mut names, &class.name.name, 1, class.name.at)?;
    }
    Ok(names)
}
