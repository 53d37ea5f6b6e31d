ghost use Rattle.std.specs.Prelude.{◌≡◌, ◌<◌, ◌^◌, map};
ghost use Rattle.token_reading.specs.Height.{highest, params_height};
ghost use Rattle.spec_trees.specs.Height.{link_height, term_height, contract_height, spec_height};

use crate::contract::{ContractTree, SpecTree};
use crate::link::LinkTree;
use crate::term::TermTree;
use token_reading::ParamTree;

impl ContractTree {
    /// How many nodes the longest path through the contract has. The contract, a part in parentheses, a link and each
    /// application of an operator, a quantifier, `old` or a spec method is one node, and a name or a literal is one.
    pub fn height(&self) -> u32
        requires fits { contract_height self.now < 2 ^ 32 }
        ensures { result ≡ contract_height self.now }
    {
        highest_term(self.modifies.as_slice()).max(self.ensured.height()) + 1
    }
}

impl SpecTree {
    /// How many nodes the longest path through the spec method has: it is one node, its term counts as that of a
    /// contract does, and each pair of brackets of a type is one.
    pub fn height(&self) -> u32
        requires fits { spec_height self.now < 2 ^ 32 }
        ensures { result ≡ spec_height self.now }
    {
        let height = highest_parameter(self.params.as_slice()).max(self.term.height());
        self.ty.height().max(height) + 1
    }
}

/// The greatest height of the types of some parameters, and 0 of none.
fn highest_parameter(params: &[ParamTree]) -> u32
    ensures { result ≡ params_height params.now }
{
    let mut height = 0;
    for param in params {
        height = height.max(param.ty.height());
    }
    height
}

impl LinkTree {
    #[tactic(auto, using(crate::proofs::LinkHeights::heights))]
    fn height(&self) -> u32
        requires fits { link_height self.now < 2 ^ 32 }
        ensures { result ≡ link_height self.now }
    {
        match self {
            LinkTree::Field(_) => 1,
            LinkTree::Path(_, _, part) | LinkTree::Paren(_, part) => part.get().height() + 1,
            LinkTree::Binary(_, left, right) => {
                let left = left.get().height();
                left.max(right.get().height()) + 1
            }
        }
    }
}

impl TermTree {
    #[cycle(term_height)]
    #[tactic(auto, using(crate::proofs::TermHeights::heights))]
    fn height(&self) -> u32
        requires fits { term_height self.now < 2 ^ 32 }
        ensures { result ≡ term_height self.now }
    {
        match self {
            TermTree::Call(_, given) => highest_term(given.as_slice()) + 1,
            TermTree::Old(_, part) | TermTree::Paren(_, part) | TermTree::Prefix(_, _, part) => {
                part.get().height() + 1
            }
            TermTree::Image(set, link) => {
                let set = set.get().height();
                set.max(link.height()) + 1
            }
            TermTree::Binary(_, left, right) | TermTree::Quantified(_, _, _, left, right) => {
                let left = left.get().height();
                left.max(right.get().height()) + 1
            }
            _ => 1,
        }
    }
}

/// The greatest height of some terms, and 0 of none.
#[cycle(term_height)]
fn highest_term(terms: &[TermTree]) -> u32
    requires fits { highest (map term_height terms.now) < 2 ^ 32 }
    ensures { result ≡ highest (map term_height terms.now) }
{
    let mut height = 0;
    for term in terms {
        height = height.max(term.height());
    }
    height
}
