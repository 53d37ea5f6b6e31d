//! The rules on what methods and constructors of one class are called by.

ghost use Rattle.std.specs.Prelude.{◌≡◌, ◌==◌, ◌++◌, ◌∷◌, [], ℕ, length, map, false, not, nat_eq, IfOk, IfErr, OnOk};
ghost use Rattle.std.specs.List.{list_any};
ghost use Rattle.class_table.specs.Faults.{Blames, Clear, InSome, OfRule};
ghost use Rattle.class_table.specs.Index.{arities, signature_of, signatures, signatures_of, same_signature};
ghost use Rattle.class_table.specs.Members as member;
ghost use Rattle.class_table.specs.Rules.{ArityAmong, CalledAlike, SameArity, SignatureAmong};

use crate::declaration::Declaration;
use crate::keys::Keys;
use crate::names::fault;
use crate::row::{MakerRow, MethodRow, Signature};
use java_syntax::CheckError;
use sqlite_items::Items;
use std::alloc::{AllocError, Global};

/// What a method is called by.
pub fn signature(method: &MethodRow) -> Result<Signature, AllocError>
    ensures { IfOk result (λ s. s ≡ signature_of method.now) }
{
    Ok(Signature {
        name: method.name.clone()?,
        arity: method.params.len(),
    })
}

/// Adds what a method is called by, unless another is called so.
fn add_signature(keys: &mut Keys<Signature>, method: &MethodRow) -> Result<(), CheckError>
    ensures fault { IfErr result (Blames (OfRule 5 (SignatureAmong keys.old method.now))) }
    ensures new { OnOk result (list_any (same_signature (signature_of method.now)) keys.old ≡ false) }
    ensures added { OnOk result (keys.new ≡ keys.old ++ signature_of method.now ∷ []) }
{
    if keys.insert(signature(method)?)? {
        Ok(())
    } else {
        Err(fault(5, method.at))
    }
}

/// Adds the number of parameters of a constructor, unless another has it.
fn add_arity(keys: &mut Keys<usize>, maker: &MakerRow) -> Result<(), CheckError>
    ensures fault { IfErr result (Blames (OfRule 5 (ArityAmong keys.old maker.now))) }
    ensures new { OnOk result (list_any (nat_eq (length maker.now.params)) keys.old ≡ false) }
    ensures added { OnOk result (keys.new ≡ keys.old ++ length maker.now.params ∷ []) }
{
    if keys.insert(maker.params.len())? {
        Ok(())
    } else {
        Err(fault(5, maker.at))
    }
}

/// What the methods of a class are called by, which is all different.
fn signatures_in(alloc: Global, methods: &[MethodRow]) -> Result<Keys<Signature>, CheckError>
    ensures keys { IfOk result (λ keys. keys ≡ signatures methods.now) }
    ensures fault { IfErr result (Blames (InSome methods.now (λ place m. OfRule 5 (CalledAlike methods.now place m)))) }
    ensures clear { OnOk result (Clear (InSome methods.now (λ place m. OfRule 5 (CalledAlike methods.now place m)))) }
{
    let mut keys = Keys::new(alloc);
    for method in methods {
        add_signature(&mut keys, method)?;
    }
    Ok(keys)
}

/// What the methods of each class are called by, which is all different in a class.
#[tactic(auto, using(crate::proofs::Faults::loops))]
pub fn signatures_by_class(
    alloc: Global,
    declared: &[Declaration],
) -> Result<Items<Keys<Signature>>, CheckError>
    ensures keys { IfOk result (λ keys. keys ≡ signatures_of declared.now) }
    ensures fault { IfErr result (Blames (InSome declared.now (λ number d. InSome d.methods (λ place m. OfRule 5 (CalledAlike d.methods place m))))) }
    ensures clear { OnOk result (Clear (InSome declared.now (λ number d. InSome d.methods (λ place m. OfRule 5 (CalledAlike d.methods place m))))) }
{
    let mut keys = Items::new(alloc);
    for class in declared {
        keys.push(signatures_in(alloc, class.methods.get().as_slice())?)?;
    }
    Ok(keys)
}

/// Checks that no two constructors of a class have one number of parameters.
fn check_arities(alloc: Global, makers: &[MakerRow]) -> Result<(), CheckError>
    ensures fault { IfErr result (Blames (InSome makers.now (λ place m. OfRule 5 (SameArity makers.now place m)))) }
    ensures clear { OnOk result (Clear (InSome makers.now (λ place m. OfRule 5 (SameArity makers.now place m)))) }
{
    let mut keys = Keys::new(alloc);
    for maker in makers {
        add_arity(&mut keys, maker)?;
    }
    Ok(())
}

/// Checks that no two constructors of any class have one number of parameters.
#[tactic(auto, using(crate::proofs::Faults::loops))]
pub fn check_makers(alloc: Global, declared: &[Declaration]) -> Result<(), CheckError>
    ensures fault { IfErr result (Blames (InSome declared.now (λ number d. InSome d.makers (λ place m. OfRule 5 (SameArity d.makers place m))))) }
    ensures clear { OnOk result (Clear (InSome declared.now (λ number d. InSome d.makers (λ place m. OfRule 5 (SameArity d.makers place m))))) }
{
    for class in declared {
        check_arities(alloc, class.makers.get().as_slice())?;
    }
    Ok(())
}
