//! Nodes over parts that are owned, each made by itself: a reader holds few trees while memory may run out.

ghost use Rattle.std.specs.Prelude.{◌≡◌, IfOk};

use spec_trees::{LinkOp, LinkTree, PathOp, PrefixOp, Quantifier, TermOp, TermTree};
use sqlite_items::Boxed;
use std::alloc::{AllocError, Global};
use token_reading::Ident;

pub fn path(alloc: Global, at: u32, op: PathOp, link: LinkTree) -> Result<LinkTree, AllocError>
    ensures { IfOk result (λ r. r ≡ LinkTree.Path at op link) }
{
    Ok(LinkTree::Path(at, op, Boxed::new(alloc, link)?))
}

pub fn link_paren(alloc: Global, at: u32, link: LinkTree) -> Result<LinkTree, AllocError>
    ensures { IfOk result (λ r. r ≡ LinkTree.Paren at link) }
{
    Ok(LinkTree::Paren(at, Boxed::new(alloc, link)?))
}

pub fn link_binary(
    alloc: Global,
    op: LinkOp,
    left: LinkTree,
    right: LinkTree,
) -> Result<LinkTree, AllocError>
    ensures { IfOk result (λ r. r ≡ LinkTree.Binary op left right) }
{
    Ok(LinkTree::Binary(op, Boxed::new(alloc, left)?, Boxed::new(alloc, right)?))
}

pub fn old(alloc: Global, at: u32, term: TermTree) -> Result<TermTree, AllocError>
    ensures { IfOk result (λ t. t ≡ TermTree.Old at term) }
{
    Ok(TermTree::Old(at, Boxed::new(alloc, term)?))
}

pub fn paren(alloc: Global, at: u32, term: TermTree) -> Result<TermTree, AllocError>
    ensures { IfOk result (λ t. t ≡ TermTree.Paren at term) }
{
    Ok(TermTree::Paren(at, Boxed::new(alloc, term)?))
}

pub fn image(alloc: Global, set: TermTree, link: LinkTree) -> Result<TermTree, AllocError>
    ensures { IfOk result (λ t. t ≡ TermTree.Image set link) }
{
    Ok(TermTree::Image(Boxed::new(alloc, set)?, link))
}

pub fn prefix(alloc: Global, at: u32, op: PrefixOp, term: TermTree) -> Result<TermTree, AllocError>
    ensures { IfOk result (λ t. t ≡ TermTree.Prefix at op term) }
{
    Ok(TermTree::Prefix(at, op, Boxed::new(alloc, term)?))
}

pub fn binary(
    alloc: Global,
    op: TermOp,
    left: TermTree,
    right: TermTree,
) -> Result<TermTree, AllocError>
    ensures { IfOk result (λ t. t ≡ TermTree.Binary op left right) }
{
    Ok(TermTree::Binary(op, Boxed::new(alloc, left)?, Boxed::new(alloc, right)?))
}

pub fn quantified(
    alloc: Global,
    at: u32,
    quantifier: Quantifier,
    variable: Ident,
    set: TermTree,
    body: TermTree,
) -> Result<TermTree, AllocError>
    ensures { IfOk result (λ t. t ≡ TermTree.Quantified at quantifier variable set body) }
{
    Ok(TermTree::Quantified(
        at,
        quantifier,
        variable,
        Boxed::new(alloc, set)?,
        Boxed::new(alloc, body)?,
    ))
}
