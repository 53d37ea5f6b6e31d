//! Methods (JLS 8.4).

ghost use Rattle.std.specs.Prelude.{◌≡◌, [], IfErr, IfOk, OnOk};
ghost use Rattle.java_syntax.specs.declared.class.Member.TheVariants as member;
ghost use Rattle.java_names.specs.Refusals.{Refuses};
ghost use Rattle.java_members.specs.Bodies as spec;
ghost use Rattle.java_members.specs.Answers.{faults_in};

use crate::parameters::declare_params;
use crate::slots::other_locals;
use crate::types::{answer_type, param_types};
use core_tree::Method;
use java_exprs::Environment;
use java_exprs::literals::text_of;
use java_names::{is_static, method_scope};
use java_statements::statements::body;
use java_syntax::{CheckError, MethodTree};
use std::alloc::Global;

/// A method of class number `class`, with its body, checked and resolved; it has no contract yet.
///
/// # Errors
/// `Fault` of a rule that its parameters or its body break, at the token where they do. `OutOfMemory` where there is no
/// memory left.
pub fn method(
    alloc: Global,
    env: &Environment,
    class: u32,
    tree: &MethodTree,
) -> Result<Method, CheckError>
    ensures method { IfOk result (λ m. m ≡ spec.core_method env.now class tree.now) }
    ensures clear { OnOk result ((spec.method_effects env.now class tree.now).faults ≡ []) }
    ensures fault { IfErr result (Refuses (faults_in env.now class (member.Method tree.now))) }
{
    let name = text_of(alloc, tree.name.name.characters())?;
    let params = param_types(alloc, env, tree.params.as_slice())?;
    let answer = answer_type(alloc, env, &tree.answer)?;
    let mut scope = method_scope(alloc, &env.symbols, class, tree)?;
    declare_params(alloc, env, tree.params.as_slice(), &mut scope)?;
    let steps = body(alloc, env, &mut scope, tree.body.as_slice())?;
    let locals = other_locals(alloc, &scope, tree.params.len())?;
    Ok(Method {
        name,
        owner: class,
        on_object: !is_static(&tree.mods),
        params,
        answer,
        locals,
        body: steps,
        contract: None,
    })
}
