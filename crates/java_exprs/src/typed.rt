use core_tree::Expr;
use java_denotes::Denotation;

/// Which form an expression has, where a statement or an operator asks for one.
#[derive(Clone, Copy, Debug, PartialEq, Eq, Drop)]
pub enum Form {
    /// A local, an instance field or an element, in parentheses or not: what can be assigned to (JLS 15.26).
    Variable,
    /// A constant that is named at this token, in parentheses or not.
    Constant(u32),
    /// A call or a `new` of an object, which may stand as a statement (JLS 14.8).
    Call,
    Other,
}

/// What is known of an expression that breaks no rule.
#[derive(Drop)]
pub struct Typed {
    /// The number of its first token.
    pub at: u32,
    pub denotes: Denotation,
    pub form: Form,
    /// Whether it is the number 2147483648, which only stands after a minus (JLS 3.10.1).
    pub needs_minus: bool,
    /// The resolved expression. Where it denotes no value and isn't called, it means nothing.
    pub core: Expr,
}
