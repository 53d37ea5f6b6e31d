use indexmap::IndexMap;
use primitive_operators::Scalar;
use std::alloc::{AllocError, Global};
use std::marker::Model;

/// The constants that were read so far, by the tokens of their names, with their values; one that breaks a rule has
/// none. Contracts see a list of pairs.
#[derive(Drop)]
pub struct Constants {
    values: IndexMap<u32, Option<Scalar>>,
}

impl Model for Constants {
    ghost use Rattle.std.specs.Prelude.{List, ℕ, Option};
    ghost use Rattle.primitive_operators.specs.declared.scalar.Scalar.{Scalar};

    ghost Value = { List (ℕ × Option Scalar) };

    ghost view = { λ constants. constants.values.entries };
}

impl Constants {
    ghost use Rattle.std.specs.Prelude.{◌≡◌, ◌==◌, [], ◌∷◌, ◌++◌, OnOk, find, option_map};
    ghost use Rattle.std.specs.Option.{option_copied};

    /// No constants.
    pub fn new(alloc: Global) -> Constants
        ensures { result ≡ [] }
    {
        Constants {
            values: IndexMap::new(alloc),
        }
    }

    /// Adds the constant whose name is token number `at`. `AllocError` where memory runs out, or where a constant with
    /// that token was read already, which no file has.
    #[tactic(auto, using(crate::proofs::ConstantLemmas::new_constant))]
    pub fn push(&mut self, at: u32, value: Option<Scalar>) -> Result<(), AllocError>
        ensures { OnOk result (self.new ≡ self.old ++ (at, value) ∷ []) }
    {
        if self.values.contains_key(&at) {
            return Err(AllocError);
        }
        self.values.insert(at, value)?;
        Ok(())
    }

    /// The constant whose name is this token, with its value; `None` where no such constant was read. It takes no
    /// memory.
    #[tactic(auto, using(crate::proofs::ConstantLemmas::lookups))]
    pub fn get(&self, at: u32) -> Option<&Option<Scalar>>
        ensures { option_copied result ≡ option_map (λ c. c.1) (find (λ c. c.0 == at) self.now) }
    {
        self.values.get(&at)
    }
}
