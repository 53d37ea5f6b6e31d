ghost use Rattle.std.specs.Prelude.{◌≡◌, ◌<◌, ◌^◌, map, option_map};
ghost use Rattle.token_reading.specs.Height.{highest, params_height};
ghost use Rattle.java_syntax.specs.Classes.{answer_height};
ghost use Rattle.java_syntax.specs.Height.{expr_height, value_height, part_height, stmt_height, catch_height, member_height, class_height, file_height};

use crate::class::{ClassTree, FileTree, Member};
use crate::expression::Expr;
use crate::statement::{CatchTree, Stmt};
use sqlite_items::Boxed;
use token_reading::{ParamTree, TypeTree};

impl FileTree {
    /// How many nodes the longest path through the file has. A class, a member, a statement, a part in parentheses and
    /// each application of an operator is one node, a name or a literal is one, and so is each pair of brackets of a
    /// type; base types, modifiers, parameters and catch clauses are none. The height of a file without classes is 0.
    pub fn height(&self) -> u32
        requires fits { file_height self.now < 2 ^ 32 }
        ensures { result ≡ file_height self.now }
    {
        let mut height = 0;
        for class in self.classes.as_slice() {
            height = height.max(class.height());
        }
        height
    }
}

impl ClassTree {
    fn height(&self) -> u32
        requires fits { class_height self.now < 2 ^ 32 }
        ensures { result ≡ class_height self.now }
    {
        let mut height = 0;
        for member in self.members.as_slice() {
            height = height.max(member.height());
        }
        height + 1
    }
}

impl Member {
    fn height(&self) -> u32
        requires fits { member_height self.now < 2 ^ 32 }
        ensures { result ≡ member_height self.now }
    {
        match self {
            Member::Field(field) => field.ty.height().max(value_height(&field.value)) + 1,
            Member::Method(method) => {
                let height = highest_parameter(method.params.as_slice());
                let height = height.max(highest_statement(method.body.as_slice()));
                answer_height(&method.answer).max(height) + 1
            }
            Member::Maker(maker) => {
                let height = highest_parameter(maker.params.as_slice());
                height.max(highest_statement(maker.body.as_slice())) + 1
            }
            Member::Empty => 1,
        }
    }
}

/// The height of the type of a method's result, and 0 of `void`.
fn answer_height(answer: &Option<TypeTree>) -> u32
    ensures { result ≡ answer_height answer.now }
{
    match answer {
        Some(ty) => ty.height(),
        None => 0,
    }
}

/// The greatest height of the types of some parameters, and 0 of none.
fn highest_parameter(params: &[ParamTree]) -> u32
    ensures { result ≡ params_height params.now }
{
    let mut height = 0;
    for param in params {
        height = height.max(param.ty.height());
    }
    height
}

impl Stmt {
    #[cycle(statement_height)]
    #[tactic(auto, using(crate::proofs::StmtHeights::heights))]
    fn height(&self) -> u32
        requires fits { stmt_height self.now < 2 ^ 32 }
        ensures { result ≡ stmt_height self.now }
    {
        match self {
            Stmt::Block(all) => highest_statement(all.as_slice()) + 1,
            Stmt::Local(local) => local.ty.height().max(value_height(&local.value)) + 1,
            Stmt::Assign(target, _, value) => target.height().max(value.height()) + 1,
            Stmt::Step(_, _, part) => part.height() + 1,
            Stmt::Eval(part) => part.height() + 1,
            Stmt::Throw(part) => part.height() + 1,
            Stmt::Super(_, given) => highest_expression(given.as_slice()) + 1,
            Stmt::If(test, then, other) => {
                let height = test.height().max(then.get().height());
                height.max(part_height(other)) + 1
            }
            Stmt::While(test, body) => test.height().max(body.get().height()) + 1,
            Stmt::DoWhile(body, test) => body.get().height().max(test.height()) + 1,
            Stmt::For(start, test, update, body) => {
                let height = highest_statement(start.as_slice()).max(value_height(test));
                let height = height.max(highest_statement(update.as_slice()));
                height.max(body.get().height()) + 1
            }
            Stmt::Return(_, value) => value_height(value) + 1,
            Stmt::Try(body, clauses, last) => {
                let height = body.get().height().max(highest_clause(clauses.as_slice()));
                height.max(part_height(last)) + 1
            }
            Stmt::Empty => 1,
            Stmt::Break(_) => 1,
            Stmt::Continue(_) => 1,
        }
    }
}

/// The height of a part that may be left out, and 0 of none.
#[cycle(statement_height)]
fn part_height(part: &Option<Boxed<Stmt>>) -> u32
    requires fits { part_height (option_map stmt_height part.now) < 2 ^ 32 }
    ensures { result ≡ part_height (option_map stmt_height part.now) }
{
    match part {
        Some(part) => part.get().height(),
        None => 0,
    }
}

/// The greatest height of some statements, and 0 of none.
#[cycle(statement_height)]
fn highest_statement(statements: &[Stmt]) -> u32
    requires fits { highest (map stmt_height statements.now) < 2 ^ 32 }
    ensures { result ≡ highest (map stmt_height statements.now) }
{
    let mut height = 0;
    for statement in statements {
        height = height.max(statement.height());
    }
    height
}

/// The greatest height of the blocks of some catch clauses, and 0 of none.
#[cycle(statement_height)]
#[tactic(auto, using(crate::proofs::StmtHeights::heights))]
fn highest_clause(clauses: &[CatchTree]) -> u32
    requires fits { highest (map catch_height clauses.now) < 2 ^ 32 }
    ensures { result ≡ highest (map catch_height clauses.now) }
{
    let mut height = 0;
    for clause in clauses {
        height = height.max(clause.body.get().height());
    }
    height
}

impl Expr {
    #[cycle(expression_height)]
    #[tactic(auto, using(crate::proofs::ExprHeights::heights))]
    fn height(&self) -> u32
        requires fits { expr_height self.now < 2 ^ 32 }
        ensures { result ≡ expr_height self.now }
    {
        match self {
            Expr::Call(_, given) | Expr::Super(_, _, given) | Expr::New(_, _, given) => {
                highest_expression(given.as_slice()) + 1
            }
            Expr::Paren(_, part) | Expr::Field(part, _) | Expr::Unary(_, _, part) => {
                part.get().height() + 1
            }
            Expr::NewArray(_, _, size, dimensions) => {
                let size = size.get().height();
                size.max(*dimensions) + 1
            }
            Expr::Cast(_, ty, part) | Expr::InstanceOf(part, ty) => {
                let part = part.get().height();
                part.max(ty.height()) + 1
            }
            Expr::Method(object, _, given) => {
                let object = object.get().height();
                object.max(highest_expression(given.as_slice())) + 1
            }
            Expr::Element(left, right) | Expr::Binary(_, left, right) => {
                let left = left.get().height();
                left.max(right.get().height()) + 1
            }
            Expr::Conditional(test, then, other) => {
                let test = test.get().height();
                let then = then.get().height();
                test.max(then.max(other.get().height())) + 1
            }
            _ => 1,
        }
    }
}

/// The height of an expression that may be left out, and 0 of none.
fn value_height(value: &Option<Expr>) -> u32
    requires fits { value_height value.now < 2 ^ 32 }
    ensures { result ≡ value_height value.now }
{
    match value {
        Some(value) => value.height(),
        None => 0,
    }
}

/// The greatest height of some expressions, and 0 of none.
#[cycle(expression_height)]
fn highest_expression(expressions: &[Expr]) -> u32
    requires fits { highest (map expr_height expressions.now) < 2 ^ 32 }
    ensures { result ≡ highest (map expr_height expressions.now) }
{
    let mut height = 0;
    for expression in expressions {
        height = height.max(expression.height());
    }
    height
}
