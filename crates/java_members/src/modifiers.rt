//! The words before a declaration (JLS 8.3.1, 8.4.3, 8.8.3).

ghost use Rattle.std.specs.Prelude.{◌≡◌, [], filter, length};
ghost use Rattle.std.specs.List.{list_any};
ghost use Rattle.class_table.specs.Members as member;
ghost use Rattle.java_exprs.specs.Attr.{of_rule};
ghost use Rattle.java_names.specs.Refusals.{Allows};
ghost use Rattle.java_members.specs.Declarations as spec;

use java_exprs::fault::fault;
use java_names::is_static;
use java_syntax::{CheckError, Modifier, Mods};

// Whether a member is final.
fn is_final(mods: &Mods) -> bool
    ensures { result ≡ spec.is_final mods.now }
{
    mods.words
        .as_slice()
        .iter()
        .any(|word| matches!(word, Modifier::Final))
}

// Whether two words are the same.
fn same_word(word: Modifier, other: Modifier) -> bool
    ensures { result ≡ spec.same_word word other }
{
    matches!(
        (word, other),
        (Modifier::Public, Modifier::Public)
            | (Modifier::Protected, Modifier::Protected)
            | (Modifier::Private, Modifier::Private)
            | (Modifier::Static, Modifier::Static)
            | (Modifier::Final, Modifier::Final)
    )
}

// Whether a word says from where a member may be named.
fn is_access(word: &Modifier) -> bool
    ensures { result ≡ spec.is_access word.now }
{
    matches!(
        word,
        Modifier::Public | Modifier::Protected | Modifier::Private
    )
}

// Whether a word stands among these.
fn stands_in(word: Modifier, words: &[Modifier]) -> bool
    ensures { result ≡ list_any (spec.same_word word) words.now }
{
    words.iter().any(|other| same_word(word, *other))
}

// Whether a word stands twice. There are five words, so at most five are looked for.
fn has_repeated(mut words: &[Modifier]) -> bool
    ensures { result ≡ spec.has_repeated words.entry.now }
{
    while let [word, more @ ..] = words {
        if stands_in(*word, more) {
            return true;
        }
        words = more;
    }
    false
}

// How many words of access there are.
fn count_accesses(words: &[Modifier]) -> usize
    ensures { result ≡ length (filter spec.is_access words.now) }
{
    words.iter().filter(|word| is_access(word)).count()
}

// Whether there are two words of access.
fn has_two_accesses(words: &[Modifier]) -> bool
    ensures { result ≡ spec.has_two_accesses words.now }
{
    count_accesses(words) > 1
}

// Checks that no word stands twice, and that there is at most one word of access.
fn check_words(mods: &Mods, at: u32) -> Result<(), CheckError>
    ensures { Allows (of_rule 20 (spec.words_20 mods.now at) []) result }
{
    let words = mods.words.as_slice();
    if has_repeated(words) || has_two_accesses(words) {
        return Err(fault(20, at));
    }
    Ok(())
}

/// Checks that the words suit a field whose name is token number `at`: a static one is final, and a final one static.
///
/// # Errors
/// `Fault` of rule 20 at the name.
#[tactic(auto, using(java_exprs::proofs::RulesLemmas::both_places, java_exprs::proofs::RulesLemmas::joins))]
pub fn check_field_words(mods: &Mods, at: u32) -> Result<(), CheckError>
    ensures { Allows (of_rule 20 (spec.field_words_20 mods.now at) []) result }
{
    if is_static(mods) != is_final(mods) {
        return Err(fault(20, at));
    }
    check_words(mods, at)
}

/// Checks that the words suit a constructor whose name is token number `at`: it is neither static nor final.
///
/// # Errors
/// `Fault` of rule 20 at the name.
#[tactic(auto, using(java_exprs::proofs::RulesLemmas::both_places, java_exprs::proofs::RulesLemmas::joins))]
pub fn check_maker_words(mods: &Mods, at: u32) -> Result<(), CheckError>
    ensures { Allows (of_rule 20 (spec.maker_words_20 mods.now at) []) result }
{
    if is_static(mods) || is_final(mods) {
        return Err(fault(20, at));
    }
    check_words(mods, at)
}

/// Checks that the words suit a method whose name is token number `at`: it isn't final.
///
/// # Errors
/// `Fault` of rule 20 at the name.
#[tactic(auto, using(java_exprs::proofs::RulesLemmas::both_places, java_exprs::proofs::RulesLemmas::joins))]
pub fn check_method_words(mods: &Mods, at: u32) -> Result<(), CheckError>
    ensures { Allows (of_rule 20 (spec.method_words_20 mods.now at) []) result }
{
    if is_final(mods) {
        return Err(fault(20, at));
    }
    check_words(mods, at)
}
