use crate::Expr;
use class_model::{AssocNo, AttrNo, ClassNo, OclType, OpNo};
use ocl_values::Text;
use use_lists::Items;
use use_text::Place;

/// A checked statement of SOIL, and its first token's place.
#[cycle(statements)]
#[derive(Drop)]
pub struct Stmt {
    pub place: Place,
    pub act: Act,
}

/// What a statement does.
#[cycle(statements)]
#[derive(Drop)]
pub enum Act {
    /// `new`: an object of a class, named by a String or by the class.
    New {
        class: ClassNo,
        name: Option<Expr>,
        target: Option<Target>,
    },
    Create {
        names: Items<Text>,
        class: ClassNo,
    },
    Destroy(Items<Expr>),
    Insert {
        assoc: AssocNo,
        first: Expr,
        second: Expr,
    },
    Delete {
        assoc: AssocNo,
        first: Expr,
        second: Expr,
    },
    Assign {
        target: Target,
        value: Expr,
    },
    Call {
        receiver: Expr,
        op: OpNo,
        args: Items<Expr>,
        target: Option<Target>,
    },
    If {
        test: Expr,
        yes: Items<Stmt>,
        no: Items<Stmt>,
    },
    For {
        each: Expr,
        body: Items<Stmt>,
    },
    While {
        test: Expr,
        body: Items<Stmt>,
    },
    /// So many variables that hold null.
    Declare(u32),
}

/// Where a value is stored.
#[derive(Drop)]
pub enum Target {
    /// An entry of the environment; the one past its last adds a variable.
    Local(u32),
    /// A shell variable, and the type that it gets.
    Shell(Text, OclType),
    /// A stored attribute of an object.
    Attr(Expr, AttrNo),
}
