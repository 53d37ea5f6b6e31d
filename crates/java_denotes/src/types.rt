//! What expressions denote whose types are spelled, or made of the types of their parts.

ghost use Rattle.std.specs.Prelude.{◌≡◌, IfOk, option_map, option_and_then};
ghost use Rattle.std.specs.Option.{option_copied};
ghost use Rattle.core_tree.specs.Types as of;
ghost use Rattle.core_tree.specs.declared.ty.Ty.TheViews as view;
ghost use Rattle.java_names.specs.Types as types;
ghost use Rattle.java_denotes.specs.Denotes as spec;
ghost use Rattle.java_denotes.specs.Members.{value_type};
ghost use Rattle.java_denotes.specs.Sides.{on_side};

use crate::assignability::is_assignable;
use crate::denotation::Denotation;
use crate::known::{Known, copy};
use core_tree::Ty;
use core_tree::forms::{elements_of, is_boolean, is_string};
use java_names::{Symbols, arrays, resolve_base, type_of};
use java_syntax::{BaseType, BinaryOp, CheckError, TypeTree, UnaryOp};
use sqlite_items::Boxed;
use std::alloc::{AllocError, Global};

/// A value of the type that is spelled, as a cast gives; `None` where its name is unknown (JLS 15.16). `AllocError`
/// where memory runs out, or where the type has more than 255 pairs of brackets.
pub fn spelled(
    alloc: Global,
    symbols: &Symbols,
    tree: &TypeTree,
) -> Result<Option<Denotation>, AllocError>
    ensures { IfOk result (λ d. d ≡ spec.value (types.type_of symbols.now.names tree.now)) }
{
    match type_of(alloc, &symbols.names, tree)? {
        Some(ty) => Ok(Some(Denotation::Value(ty))),
        None => Ok(None),
    }
}

/// A new array whose elements have this base and that many pairs of brackets; `None` where the base's name is unknown
/// (JLS 15.10.1). `AllocError` where memory runs out, or where there are more than 255 pairs.
#[tactic(auto, using(crate::proofs::BaseLemmas::no_base))]
pub fn array(
    alloc: Global,
    symbols: &Symbols,
    base: &BaseType,
    dimensions: u32,
) -> Result<Option<Denotation>, AllocError>
    ensures { IfOk result (λ d. d ≡ spec.value (option_map view.Array (option_map (types.arrays dimensions) (types.base_type symbols.now.names base.now)))) }
{
    match resolve_base(&symbols.names, base) {
        Ok(ty) => {
            let elements = arrays(alloc, ty, dimensions)?;
            Ok(Some(Denotation::Value(Ty::Array(Boxed::new(alloc, elements)?))))
        }
        Err(CheckError::Fault(_)) => Ok(None),
        Err(CheckError::OutOfMemory) => Err(AllocError),
    }
}

// A value of this type, where there is one.
fn value(alloc: Global, ty: Option<&Ty>) -> Result<Option<Denotation>, AllocError>
    ensures { IfOk result (λ d. d ≡ spec.value (option_copied ty.entry)) }
{
    match ty {
        Some(ty) => Ok(Some(Denotation::Value(copy(alloc, ty)?))),
        None => Ok(None),
    }
}

// The type of the elements of an array.
fn elements(a: &Known) -> Option<&Ty>
    ensures { option_copied result ≡ option_and_then of.elements_of (value_type a.now.denotes) }
{
    match a.value_type() {
        Some(ty) => elements_of(ty),
        None => None,
    }
}

/// An element of an array; `None` where `a` is no array. `AllocError` where memory runs out.
pub fn element(alloc: Global, a: &Known) -> Result<Option<Denotation>, AllocError>
    ensures { IfOk result (λ d. d ≡ spec.value (option_and_then of.elements_of (value_type a.now.denotes))) }
{
    value(alloc, elements(a))
}

// Whether the type is that of a String.
fn is_text(ty: Option<&Ty>) -> bool
    ensures { result ≡ spec.is_text (option_copied ty.entry) }
{
    match ty {
        Some(ty) => is_string(ty),
        None => false,
    }
}

// The type of `&`, `|` and `^`.
fn bitwise_type(l: Option<&Ty>) -> Option<Ty>
    ensures { result ≡ spec.bitwise_type (option_copied l.entry) }
{
    match l {
        Some(ty) => {
            if is_boolean(ty) {
                Some(Ty::Bool)
            } else {
                Some(Ty::Int)
            }
        }
        None => None,
    }
}

// The type of `+`.
fn sum_type(l: Option<&Ty>, r: Option<&Ty>) -> Option<Ty>
    ensures { result ≡ spec.sum_type (option_copied l.entry) (option_copied r.entry) }
{
    if is_text(l) || is_text(r) {
        return Some(Ty::Text);
    }
    match l {
        Some(_) => match r {
            Some(_) => Some(Ty::Int),
            None => None,
        },
        None => None,
    }
}

// The type of an operator's result.
fn binary_type(op: BinaryOp, l: Option<&Ty>, r: Option<&Ty>) -> Option<Ty>
    ensures { result ≡ spec.binary_type op (option_copied l.entry) (option_copied r.entry) }
{
    match op {
        BinaryOp::BitOr | BinaryOp::BitXor | BinaryOp::BitAnd => bitwise_type(l),
        BinaryOp::Add => sum_type(l, r),
        BinaryOp::ShiftLeft
        | BinaryOp::ShiftRight
        | BinaryOp::UnsignedShiftRight
        | BinaryOp::Subtract
        | BinaryOp::Multiply
        | BinaryOp::Divide
        | BinaryOp::Remainder => Some(Ty::Int),
        _ => Some(Ty::Bool),
    }
}

/// What an operator between two operands gives; `None` where their types decide, and aren't known (JLS 15.17 to 15.24).
pub fn binary(op: BinaryOp, l: &Known, r: &Known) -> Option<Denotation>
    ensures { result ≡ spec.value (spec.binary_type op (value_type l.now.denotes) (value_type r.now.denotes)) }
{
    match binary_type(op, l.value_type(), r.value_type()) {
        Some(ty) => Some(Denotation::Value(ty)),
        None => None,
    }
}

/// One of two operands.
#[derive(Clone, Copy, Debug, PartialEq, Eq, Drop)]
pub enum Side {
    First,
    Second,
}

// The side of the wider of two types; `None` where neither can be assigned to the other.
fn wider(symbols: &Symbols, a: Option<&Ty>, b: Option<&Ty>) -> Option<Side>
    ensures { option_and_then (λ side. on_side side (option_copied a.entry) (option_copied b.entry)) result ≡ spec.choice_type symbols.now (option_copied a.entry) (option_copied b.entry) }
{
    match a {
        Some(a) => match b {
            Some(b) => {
                if is_assignable(symbols, a, b) {
                    Some(Side::Second)
                } else if is_assignable(symbols, b, a) {
                    Some(Side::First)
                } else {
                    None
                }
            }
            None => None,
        },
        None => None,
    }
}

/// A conditional with these operands after `?`: a value of the wider type; `None` where neither type can be assigned to
/// the other (JLS 15.25).
pub fn conditional(symbols: &Symbols, a: Known, b: Known) -> Option<Denotation>
    ensures { result ≡ spec.value (spec.choice_type symbols.now (value_type a.denotes) (value_type b.denotes)) }
{
    match wider(symbols, a.value_type(), b.value_type()) {
        Some(Side::First) => a.into_value(),
        Some(Side::Second) => b.into_value(),
        None => None,
    }
}

/// The type of what an operator before an operand gives (JLS 15.15).
pub fn unary(op: UnaryOp) -> Ty
    ensures { result ≡ spec.unary_type op }
{
    match op {
        UnaryOp::Not => Ty::Bool,
        _ => Ty::Int,
    }
}
