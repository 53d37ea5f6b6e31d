//! The height of a tree. No text gives a tree that is higher than 200 nodes, so these are built by hand.

ghost use Rattle.std.specs.Prelude.{◌≡◌, ◌+◌, ◌<◌, IfOk};
ghost use Rattle.java_syntax.specs.Height.{expr_height, stmt_height, member_height, file_height};

use crate::reading::name;
use java_syntax::{
    BaseType, ClassTree, Expr, FileTree, Ident, LocalTree, Member, MethodTree, Mods, Stmt, TypeTree,
};
use sqlite_items::{Boxed, Items};
use std::alloc::{AllocError, Global};
use std::test::Fail;

/// `(..(1)..)` with that many pairs of parentheses.
#[tactic(auto, using(java_syntax::proofs::ExprHeights::heights))]
fn in_parentheses(alloc: Global, pairs: u32) -> Result<Expr, AllocError>
    requires small { pairs < 1000 }
    ensures { IfOk result (λ e. expr_height e ≡ pairs + 1) }
{
    let mut expr = Expr::Number(0, 1);
    for _pair in 0..pairs {
        expr = Expr::Paren(0, Boxed::new(alloc, expr)?);
    }
    Ok(expr)
}

fn ident(alloc: Global) -> Result<Ident, AllocError> {
    Ok(Ident {
        at: 0,
        name: name(alloc, "a")?,
    })
}

/// `int a = value;`
#[tactic(auto, using(java_syntax::proofs::StmtHeights::heights))]
fn local(alloc: Global, value: Expr) -> Result<Stmt, AllocError>
    ensures { IfOk result (λ s. stmt_height s ≡ expr_height value + 1) }
{
    Ok(Stmt::Local(LocalTree {
        ty: TypeTree {
            base: BaseType::Int,
            dimensions: 0,
        },
        name: ident(alloc)?,
        value: Some(value),
    }))
}

/// `void a() { statement }`
fn method(alloc: Global, statement: Stmt) -> Result<Member, AllocError>
    ensures { IfOk result (λ m. member_height m ≡ stmt_height statement + 1) }
{
    Ok(Member::Method(MethodTree {
        mods: Mods {
            words: Items::new(alloc),
        },
        answer: None,
        name: ident(alloc)?,
        params: Items::new(alloc),
        throws: Items::new(alloc),
        body: Items::from_vec(vec![in alloc; statement]?),
    }))
}

/// `class a { member }`
fn file(alloc: Global, member: Member) -> Result<FileTree, AllocError>
    ensures { IfOk result (λ f. file_height f ≡ member_height member + 1) }
{
    let class = ClassTree {
        is_public: false,
        name: ident(alloc)?,
        parent: None,
        members: Items::from_vec(vec![in alloc; member]?),
    };
    Ok(FileTree {
        classes: Items::from_vec(vec![in alloc; class]?),
        places: Items::new(alloc),
    })
}

/// The class, the member, the declaration and the number are four nodes more than there are parentheses.
#[test]
fn heights_of_files(rt: HostRuntime) -> Result<(), Fail> {
    let alloc = rt.alloc();
    let none = FileTree {
        classes: Items::new(alloc),
        places: Items::new(alloc),
    };
    assert_eq!(rt; none.height(), 0);
    assert_eq!(rt; file(alloc, Member::Empty)?.height(), 2);
    for (pairs, height) in [(0, 4), (196, 200), (197, 201)] {
        let statement = local(alloc, in_parentheses(alloc, pairs)?)?;
        let member = method(alloc, statement)?;
        assert_eq!(rt; file(alloc, member)?.height(), height, "{pairs} pairs");
    }
    Ok(())
}
