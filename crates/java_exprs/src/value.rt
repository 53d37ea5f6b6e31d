//! Expressions that stand where a value is needed.

ghost use Rattle.std.specs.Prelude.{◌≡◌, IfOk, IfErr};
ghost use Rattle.java_exprs.specs.Attr.{value_faults};
ghost use Rattle.java_names.specs.Refusals.{Refuses};
ghost use Rattle.java_exprs.specs.Checks.{clean, of_value};

use crate::fault::fault;
use crate::typed::{Form, Typed};
use core_tree::{Expr, Ty};
use java_denotes::Denotation;
use java_syntax::CheckError;

/// What is known of an expression that breaks no rule and has a value.
#[derive(Drop)]
pub struct Value {
    /// The number of its first token.
    pub at: u32,
    pub ty: Ty,
    pub form: Form,
    /// The resolved expression.
    pub core: Expr,
}

impl Typed {
    /// The expression as a value.
    ///
    /// # Errors
    /// `Fault` of rule 10 where it is a class or the library, of rule 11 where it is a call without a result, and of
    /// rule 19 where it is the number 2147483648; each at its first token.
    pub fn value(self) -> Result<Value, CheckError>
        ensures value { IfOk result (λ v. clean self ≡ of_value v) }
        ensures fault { IfErr result (Refuses (value_faults (clean self))) }
    {
        let Typed {
            at,
            denotes,
            form,
            needs_minus,
            core,
        } = self;
        match denotes {
            Denotation::Value(ty) => {
                if needs_minus {
                    return Err(fault(19, at));
                }
                Ok(Value { at, ty, form, core })
            }
            Denotation::Nothing | Denotation::Print(_) => Err(fault(11, at)),
            Denotation::Class(_) | Denotation::System | Denotation::Output => Err(fault(10, at)),
        }
    }
}
