//! The clauses of a contract.
//!
//! ```text
//! Contract = [ "ints" Bound ".." Bound ] [ "modifies" TPost { "," TPost } ]
//!            [ "adds" Number Ident { "," Number Ident } ] "ensures" Term
//! Bound    = [ "-" ] Number
//! ```

ghost use Rattle.std.specs.Prelude.{◌≡◌, ◌≤◌, [], if◌then◌else◌};
ghost use Rattle.spec_reading.specs.ReadContract as spec;
ghost use Rattle.spec_trees.specs.Words.{word_text};
ghost use Rattle.spec_trees.specs.declared.word.ContractWord.TheVariants as word;
ghost use Rattle.token_reading.specs.ReadType.{next};
ghost use Rattle.token_reading.specs.Reads.{Reads};

use crate::name::name;
use crate::term_grammar::read_term;
use java_tokens::{Operator, TokenKind};
use spec_trees::{AddedTree, BoundTree, ContractWord, IntsTree, NumberTree, TermTree, is_word};
use sqlite_items::Items;
use std::alloc::Global;
use token_reading::{Refusal, Tokens};

/// Whether this word of contracts comes next.
fn sees_word(tokens: &Tokens<'_>, word: ContractWord) -> bool
    ensures { result ≡ spec.sees_text (word_text word) tokens.now }
{
    match tokens.peek() {
        Some(TokenKind::Ident(name)) => is_word(name, word),
        _ => false,
    }
}

/// Goes after this word of contracts, where it comes next, and says whether it did.
fn eat_word(tokens: &mut Tokens<'_>, word: ContractWord) -> bool
    ensures found { result ≡ spec.sees_text (word_text word) tokens.old }
    ensures after { tokens.new ≡ (if spec.sees_text (word_text word) tokens.old then next tokens.old else tokens.old) }
{
    let found = sees_word(tokens, word);
    if found {
        tokens.skip();
    }
    found
}

/// Takes a number.
#[tactic(auto, unfolding(spec_reading::specs::ReadContract::number))]
fn number(tokens: &mut Tokens<'_>) -> Result<NumberTree, Refusal>
    ensures { Reads (spec.number tokens.old) result tokens.new }
{
    let at = tokens.at();
    if let Some(TokenKind::Number(value)) = tokens.peek() {
        let value = *value;
        tokens.skip();
        return Ok(NumberTree { at, value });
    }
    Err(Refusal::NoTree)
}

/// Takes the number after a sign or after none.
#[tactic(auto, unfolding(spec_reading::specs::ReadContract::signed))]
fn signed(tokens: &mut Tokens<'_>, is_negative: bool) -> Result<BoundTree, Refusal>
    ensures { Reads (spec.signed is_negative tokens.old) result tokens.new }
{
    let number = number(tokens)?;
    Ok(BoundTree {
        is_negative,
        number,
    })
}

/// Takes a number with a `-` before it, or without.
#[tactic(auto, unfolding(spec_reading::specs::ReadContract::bound))]
fn bound(tokens: &mut Tokens<'_>) -> Result<BoundTree, Refusal>
    ensures { Reads (spec.bound tokens.old) result tokens.new }
{
    if tokens.eat(Operator::Minus) {
        return signed(tokens, true);
    }
    signed(tokens, false)
}

/// What stands after `ints`.
#[tactic(auto, unfolding(spec_reading::specs::ReadContract::interval))]
fn interval(tokens: &mut Tokens<'_>) -> Result<IntsTree, Refusal>
    ensures { Reads (spec.interval tokens.old) result tokens.new }
{
    let low = bound(tokens)?;
    tokens.expect(Operator::DotDot)?;
    let high = bound(tokens)?;
    Ok(IntsTree { low, high })
}

/// The clause `ints`, or nothing.
#[tactic(auto, unfolding(spec_reading::specs::ReadContract::ints))]
pub fn ints(tokens: &mut Tokens<'_>) -> Result<Option<IntsTree>, Refusal>
    ensures { Reads (spec.ints tokens.old) result tokens.new }
{
    if !eat_word(tokens, ContractWord::Ints) {
        return Ok(None);
    }
    Ok(Some(interval(tokens)?))
}

/// A term of level `least` or above and of at most this height.
#[tactic(auto, unfolding(spec_reading::specs::ReadContract::term_from))]
pub fn term_from(
    alloc: Global,
    tokens: &mut Tokens<'_>,
    most: u32,
    least: u8,
) -> Result<TermTree, Refusal>
    requires { most ≤ 200 }
    ensures { Reads (spec.term_from most least tokens.old) result tokens.new }
{
    let (term, _) = read_term(alloc, tokens, most, least)?;
    Ok(term)
}

/// Places with commas between them, at most that many.
#[tactic(auto, unfolding(spec_reading::specs::ReadContract::more_items))]
fn places(
    alloc: Global,
    tokens: &mut Tokens<'_>,
    most: u32,
    turns: usize,
) -> Result<Items<TermTree>, Refusal>
    requires { most ≤ 200 }
    ensures { Reads (spec.more_items (spec.term_from most 11) turns [] tokens.old) result tokens.new }
{
    let mut found = Items::new(alloc);
    for _turn in 0..turns {
        let next = term_from(alloc, tokens, most, 11)?;
        found.push(next)?;
        if !tokens.eat(Operator::Comma) {
            return Ok(found);
        }
    }
    Err(Refusal::NoTree)
}

/// The clause `modifies`, whose terms have at most this height, or nothing.
#[tactic(auto, unfolding(spec_reading::specs::ReadContract::list_clause))]
pub fn modifies(
    alloc: Global,
    tokens: &mut Tokens<'_>,
    most: u32,
) -> Result<Items<TermTree>, Refusal>
    requires { most ≤ 200 }
    ensures { Reads (spec.list_clause (spec.term_from most 11) word.Modifies tokens.old) result tokens.new }
{
    let turns = tokens.left();
    if !eat_word(tokens, ContractWord::Modifies) {
        return Ok(Items::new(alloc));
    }
    places(alloc, tokens, most, turns)
}

/// A number and a class.
#[tactic(auto, unfolding(spec_reading::specs::ReadContract::added))]
fn added(tokens: &mut Tokens<'_>) -> Result<AddedTree, Refusal>
    ensures { Reads (spec.added tokens.old) result tokens.new }
{
    let count = number(tokens)?;
    let class = name(tokens)?;
    Ok(AddedTree { count, class })
}

/// Numbers and classes with commas between them, at most that many.
#[tactic(auto, unfolding(spec_reading::specs::ReadContract::more_items))]
fn more_added(
    alloc: Global,
    tokens: &mut Tokens<'_>,
    turns: usize,
) -> Result<Items<AddedTree>, Refusal>
    ensures { Reads (spec.more_items spec.added turns [] tokens.old) result tokens.new }
{
    let mut found = Items::new(alloc);
    for _turn in 0..turns {
        let next = added(tokens)?;
        found.push(next)?;
        if !tokens.eat(Operator::Comma) {
            return Ok(found);
        }
    }
    Err(Refusal::NoTree)
}

/// The clause `adds`, or nothing.
#[tactic(auto, unfolding(spec_reading::specs::ReadContract::list_clause))]
pub fn adds(alloc: Global, tokens: &mut Tokens<'_>) -> Result<Items<AddedTree>, Refusal>
    ensures { Reads (spec.list_clause spec.added word.Adds tokens.old) result tokens.new }
{
    let turns = tokens.left();
    if !eat_word(tokens, ContractWord::Adds) {
        return Ok(Items::new(alloc));
    }
    more_added(alloc, tokens, turns)
}

/// The clause `ensures`, whose term has at most this height.
#[tactic(auto, unfolding(spec_reading::specs::ReadContract::ensures_clause, spec_reading::specs::ReadContract::expect_text))]
pub fn ensures_clause(
    alloc: Global,
    tokens: &mut Tokens<'_>,
    most: u32,
) -> Result<TermTree, Refusal>
    requires { most ≤ 200 }
    ensures { Reads (spec.ensures_clause most tokens.old) result tokens.new }
{
    if !eat_word(tokens, ContractWord::Ensures) {
        return Err(Refusal::NoTree);
    }
    term_from(alloc, tokens, most, 1)
}
