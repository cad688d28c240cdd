use ocl_core::{
    BinaryOp, CollOp, End, Expr, IntOp, IterOp, Kind, OclType, Part, PlainOp, TypeTest, UnaryOp,
    Value, When,
};
use std::alloc::{AllocError, Global};
use std::test::Fail;
use use_lists::{Boxed, Items};

fn one(alloc: Global) -> Result<Boxed<Expr>, AllocError> {
    Boxed::new(alloc, Expr::Literal(Value::Int(1)))
}

fn two(alloc: Global) -> Result<Items<Expr>, AllocError> {
    let mut all = Items::new(alloc);
    all.push(Expr::Local(0))?;
    all.push(Expr::Extent(3, When::Pre))?;
    Ok(all)
}

fn parts(alloc: Global) -> Result<Items<Part>, AllocError> {
    let mut all = Items::new(alloc);
    all.push(Part::One(Expr::Local(2)))?;
    all.push(Part::Range(Expr::Local(0), Expr::Local(1)))?;
    Ok(all)
}

fn boxed(alloc: Global, e: Expr) -> Result<Boxed<Expr>, AllocError> {
    Boxed::new(alloc, e)
}

fn operations(alloc: Global) -> Result<Expr, AllocError> {
    let plain = boxed(alloc, Expr::Plain(PlainOp::Int(IntOp::Max), two(alloc)?))?;
    let coll = boxed(alloc, Expr::Coll(CollOp::At, two(alloc)?))?;
    Ok(Expr::If(one(alloc)?, plain, coll))
}

fn operators(alloc: Global) -> Result<Expr, AllocError> {
    let left = boxed(alloc, operations(alloc)?)?;
    let both = boxed(alloc, Expr::Binary(BinaryOp::And, left, one(alloc)?))?;
    Ok(Expr::Let(one(alloc)?, both))
}

fn accumulated(alloc: Global) -> Result<Expr, AllocError> {
    let source = boxed(alloc, Expr::Make(Kind::Bag, parts(alloc)?))?;
    let body = boxed(alloc, operators(alloc)?)?;
    Ok(Expr::Iter(IterOp::Iterate, source, 1, Some(one(alloc)?), body))
}

fn selected(alloc: Global) -> Result<Expr, AllocError> {
    let source = boxed(alloc, accumulated(alloc)?)?;
    Ok(Expr::Iter(IterOp::Select, source, 2, None, one(alloc)?))
}

fn read(alloc: Global) -> Result<Expr, AllocError> {
    let attr = Expr::Attr(boxed(alloc, selected(alloc)?)?, 4, When::Pre);
    let derived = Expr::Derived(boxed(alloc, attr)?, 5, When::Now);
    Ok(Expr::Nav(boxed(alloc, derived)?, 6, End::Second, When::Now))
}

fn tested(alloc: Global) -> Result<Expr, AllocError> {
    let receiver = boxed(alloc, read(alloc)?)?;
    let query = boxed(alloc, Expr::Query(receiver, 7, two(alloc)?))?;
    Ok(Expr::Test(TypeTest::AsType, query, OclType::Int, When::Now))
}

// An expression with a node of each form.
fn every_form(alloc: Global) -> Result<Expr, AllocError> {
    let is_new = Expr::IsNew(boxed(alloc, tested(alloc)?)?);
    let negated = Expr::Unary(UnaryOp::Not, boxed(alloc, is_new)?);
    Ok(Expr::ToSet(boxed(alloc, negated)?))
}

#[test]
fn a_copy_of_every_form_is_equal(rt: HostRuntime) -> Result<(), Fail> {
    let alloc = rt.alloc();
    let e = every_form(alloc)?;
    let copy = e.try_copy(alloc)?;
    assert!(rt; copy == e);
    assert!(rt; copy != Expr::Local(0));
    Ok(())
}
