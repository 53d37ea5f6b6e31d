//! Which method a selector picks in a class.

ghost use Rattle.std.specs.Prelude.{◌≡◌, ℕ, IfOk, None, replicate};
ghost use Rattle.java_names.specs.Chosen as spec;

use crate::symbol::{MethodSymbol, Symbols};
use sqlite_items::Items;
use std::alloc::{AllocError, Global};

/// As many selectors that pick nothing.
fn no_picks(alloc: Global, count: usize) -> Result<Items<Option<u32>>, AllocError>
    ensures { IfOk result (λ picks. picks ≡ replicate count None) }
{
    Ok(Items::from_vec(vec![in alloc; None; count]?))
}

/// Whether a selector picks nothing yet.
fn is_free(picks: &[Option<u32>], selector: usize) -> bool
    ensures { result ≡ spec.is_free picks.now selector }
{
    match picks.get(selector) {
        Some(pick) => pick.is_none(),
        None => false,
    }
}

/// Lets selector number `selector` pick method number `method`, unless it picks another already.
#[tactic(auto, using(crate::proofs::ChosenLemmas::picks))]
fn pick(picks: &mut Items<Option<u32>>, selector: u32, method: u32)
    ensures { picks.new ≡ spec.completed 0 picks.old (spec.only selector method) }
{
    let at = selector as usize;
    if is_free(picks.as_slice(), at) {
        picks.set(at, Some(method));
    }
}

/// Lets the selector of a method pick it, unless it picks another already.
#[tactic(auto, using(crate::proofs::ChosenLemmas::nothing_picked))]
fn pick_method(picks: &mut Items<Option<u32>>, method: &MethodSymbol)
    ensures { picks.new ≡ spec.completed 0 picks.old (λ selector. spec.picked selector method.now) }
{
    if let Some(selector) = method.selector {
        if let Some(number) = method.number {
            pick(picks, selector, number);
        }
    }
}

/// Lets the selectors of some methods pick the first of them, unless they pick others already.
fn pick_all(picks: &mut Items<Option<u32>>, methods: &[MethodSymbol])
    ensures { picks.new ≡ spec.completed 0 picks.old (λ selector. spec.first_picked selector methods.now) }
{
    for method in methods {
        pick_method(picks, method);
    }
}

impl Symbols {
    /// The methods that a class declares itself.
    fn methods_at(&self, class: u32) -> &[MethodSymbol]
        ensures { result.now ≡ spec.methods_at self.now class }
    {
        match self.class(class) {
            Some(symbol) => symbol.methods.symbols.as_slice(),
            None => &[],
        }
    }

    /// The numbers of the methods that the selectors pick in class number `class`, by the numbers of the selectors: at
    /// each the nearest instance method of the file that the class declares or inherits; `None` where there is none, as
    /// for `getMessage` where no class of the file declares it (JLS 15.12.4.4). `AllocError` where memory runs out.
    pub fn chosen(&self, alloc: Global, class: u32) -> Result<Items<Option<u32>>, AllocError>
        ensures { IfOk result (λ picks. picks ≡ spec.chosen_of self.now class) }
    {
        let mut picks = no_picks(alloc, self.selectors.len())?;
        for above in self.line(class) {
            pick_all(&mut picks, self.methods_at(*above));
        }
        Ok(picks)
    }
}
