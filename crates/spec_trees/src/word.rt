ghost use Rattle.std.specs.Prelude.{◌≡◌};
ghost use Rattle.spec_trees.specs.Words as spec;

use java_tokens::Name;

/// The words that are no identifiers in contracts and in the terms of spec methods. Elsewhere they are.
#[derive(Clone, Copy, Debug, PartialEq, Eq)]
pub enum ContractWord {
    Requires,
    Ints,
    Modifies,
    Adds,
    Within,
    Ensures,
    All,
    /// `some`
    Exists,
    No,
    One,
    Lone,
    Sum,
    Old,
    /// `result`
    Answer,
    In,
}

/// Every word once.
const WORDS: [ContractWord; 15] = [
    ContractWord::Requires,
    ContractWord::Ints,
    ContractWord::Modifies,
    ContractWord::Adds,
    ContractWord::Within,
    ContractWord::Ensures,
    ContractWord::All,
    ContractWord::Exists,
    ContractWord::No,
    ContractWord::One,
    ContractWord::Lone,
    ContractWord::Sum,
    ContractWord::Old,
    ContractWord::Answer,
    ContractWord::In,
];

/// Whether a name is spelled as this word.
pub fn is_word(name: &Name, word: ContractWord) -> bool
    ensures { result ≡ spec.is_word name.now word }
{
    let letters = name.characters();
    match word {
        ContractWord::Requires => letters == ['r', 'e', 'q', 'u', 'i', 'r', 'e', 's'].as_slice(),
        ContractWord::Ints => letters == ['i', 'n', 't', 's'].as_slice(),
        ContractWord::Modifies => letters == ['m', 'o', 'd', 'i', 'f', 'i', 'e', 's'].as_slice(),
        ContractWord::Adds => letters == ['a', 'd', 'd', 's'].as_slice(),
        ContractWord::Within => letters == ['w', 'i', 't', 'h', 'i', 'n'].as_slice(),
        ContractWord::Ensures => letters == ['e', 'n', 's', 'u', 'r', 'e', 's'].as_slice(),
        ContractWord::All => letters == ['a', 'l', 'l'].as_slice(),
        ContractWord::Exists => letters == ['s', 'o', 'm', 'e'].as_slice(),
        ContractWord::No => letters == ['n', 'o'].as_slice(),
        ContractWord::One => letters == ['o', 'n', 'e'].as_slice(),
        ContractWord::Lone => letters == ['l', 'o', 'n', 'e'].as_slice(),
        ContractWord::Sum => letters == ['s', 'u', 'm'].as_slice(),
        ContractWord::Old => letters == ['o', 'l', 'd'].as_slice(),
        ContractWord::Answer => letters == ['r', 'e', 's', 'u', 'l', 't'].as_slice(),
        ContractWord::In => letters == ['i', 'n'].as_slice(),
    }
}

/// The word that a name is in a contract, if it is one.
#[tactic(auto, unfolding(crate::specs::Words::word_of))]
pub fn word_of(name: &Name) -> Option<ContractWord>
    ensures { result ≡ spec.word_of name.now }
{
    for word in WORDS {
        if is_word(name, word) {
            return Some(word);
        }
    }
    None
}
