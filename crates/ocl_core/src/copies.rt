ghost use Rattle.std.specs.Prelude.{◌≡◌, IfOk};

use crate::{Expr, Part};
use std::alloc::{AllocError, Global};
use use_lists::{Boxed, Items};

impl Expr {
    /// An equal expression.
    #[cycle(copy)]
    pub fn try_copy(&self, alloc: Global) -> Result<Expr, AllocError>
        ensures { IfOk result (λ e. e ≡ self.now) }
    {
        match self {
            Expr::Literal(value) => Ok(Expr::Literal(value.try_copy(alloc)?)),
            Expr::Local(number) => Ok(Expr::Local(*number)),
            Expr::Unary(op, a) => {
                let a = Boxed::new(alloc, a.get().try_copy(alloc)?)?;
                Ok(Expr::Unary(*op, a))
            }
            Expr::Binary(op, a, b) => {
                let a = Boxed::new(alloc, a.get().try_copy(alloc)?)?;
                let b = Boxed::new(alloc, b.get().try_copy(alloc)?)?;
                Ok(Expr::Binary(*op, a, b))
            }
            Expr::If(c, a, b) => {
                let c = Boxed::new(alloc, c.get().try_copy(alloc)?)?;
                let a = Boxed::new(alloc, a.get().try_copy(alloc)?)?;
                let b = Boxed::new(alloc, b.get().try_copy(alloc)?)?;
                Ok(Expr::If(c, a, b))
            }
            Expr::Let(a, b) => {
                let a = Boxed::new(alloc, a.get().try_copy(alloc)?)?;
                let b = Boxed::new(alloc, b.get().try_copy(alloc)?)?;
                Ok(Expr::Let(a, b))
            }
            Expr::Make(kind, parts) => Ok(Expr::Make(*kind, copy_parts(alloc, parts.as_slice())?)),
            Expr::Plain(op, all) => Ok(Expr::Plain(*op, copy_all(alloc, all.as_slice())?)),
            Expr::Coll(op, all) => Ok(Expr::Coll(*op, copy_all(alloc, all.as_slice())?)),
            Expr::Iter(op, source, count, None, body) => {
                let source = Boxed::new(alloc, source.get().try_copy(alloc)?)?;
                let body = Boxed::new(alloc, body.get().try_copy(alloc)?)?;
                Ok(Expr::Iter(*op, source, *count, None, body))
            }
            Expr::Iter(op, source, count, Some(start), body) => {
                let source = Boxed::new(alloc, source.get().try_copy(alloc)?)?;
                let start = Boxed::new(alloc, start.get().try_copy(alloc)?)?;
                let body = Boxed::new(alloc, body.get().try_copy(alloc)?)?;
                Ok(Expr::Iter(*op, source, *count, Some(start), body))
            }
            Expr::Attr(a, number, when) => {
                let a = Boxed::new(alloc, a.get().try_copy(alloc)?)?;
                Ok(Expr::Attr(a, *number, *when))
            }
            Expr::Derived(a, number, when) => {
                let a = Boxed::new(alloc, a.get().try_copy(alloc)?)?;
                Ok(Expr::Derived(a, *number, *when))
            }
            Expr::Nav(a, assoc, end, when) => {
                let a = Boxed::new(alloc, a.get().try_copy(alloc)?)?;
                Ok(Expr::Nav(a, *assoc, *end, *when))
            }
            Expr::Extent(class, when) => Ok(Expr::Extent(*class, *when)),
            Expr::Query(a, op, all) => {
                let a = Boxed::new(alloc, a.get().try_copy(alloc)?)?;
                let all = copy_all(alloc, all.as_slice())?;
                Ok(Expr::Query(a, *op, all))
            }
            Expr::Test(test, a, of_type, when) => {
                let a = Boxed::new(alloc, a.get().try_copy(alloc)?)?;
                let of_type = of_type.try_copy(alloc)?;
                Ok(Expr::Test(*test, a, of_type, *when))
            }
            Expr::IsNew(a) => {
                let a = Boxed::new(alloc, a.get().try_copy(alloc)?)?;
                Ok(Expr::IsNew(a))
            }
            Expr::ToSet(a) => {
                let a = Boxed::new(alloc, a.get().try_copy(alloc)?)?;
                Ok(Expr::ToSet(a))
            }
        }
    }
}

impl Part {
    /// An equal part.
    #[cycle(copy)]
    pub fn try_copy(&self, alloc: Global) -> Result<Part, AllocError>
        ensures { IfOk result (λ p. p ≡ self.now) }
    {
        match self {
            Part::One(e) => Ok(Part::One(e.try_copy(alloc)?)),
            Part::Range(first, last) => {
                let first = first.try_copy(alloc)?;
                let last = last.try_copy(alloc)?;
                Ok(Part::Range(first, last))
            }
        }
    }
}

#[cycle(copy)]
fn copy_all(alloc: Global, all: &[Expr]) -> Result<Items<Expr>, AllocError>
    ensures { IfOk result (λ items. items ≡ all.now) }
{
    let mut list = Vec::with_capacity(alloc, all.len())?;
    'copy: for e in all {
        list.push(e.try_copy(alloc)?)?;
    }
    Ok(Items::from_vec(list))
}

#[cycle(copy)]
fn copy_parts(alloc: Global, all: &[Part]) -> Result<Items<Part>, AllocError>
    ensures { IfOk result (λ items. items ≡ all.now) }
{
    let mut list = Vec::with_capacity(alloc, all.len())?;
    'copy: for p in all {
        list.push(p.try_copy(alloc)?)?;
    }
    Ok(Items::from_vec(list))
}
