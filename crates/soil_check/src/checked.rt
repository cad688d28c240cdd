use class_model::{ClassNo, OclType, OpNo};
use ocl_core::{Expr, Stmt};
use ocl_values::Text;
use use_lists::Items;

/// What `info` tells of.
#[derive(Clone, Copy, Debug, PartialEq, Eq)]
pub enum Topic {
    Class(ClassNo),
    Model,
    /// The objects and links.
    State,
    /// The variables of the state.
    Vars,
    /// The open operations.
    Opstack,
    /// The state as commands.
    Script,
    /// The text of the model.
    Use,
}

/// A checked command. The environment of its expressions is the values of its names of the shell, in
/// their order, then what the open operation binds, then local variables.
#[derive(Drop)]
pub enum Checked {
    /// It does nothing.
    Empty,
    /// `? e`
    Query {
        expr: Expr,
        of_type: OclType,
        shell: Items<Text>,
    },
    /// `?? e`
    Explain {
        expr: Expr,
        of_type: OclType,
        shell: Items<Text>,
    },
    Statements {
        body: Items<Stmt>,
        shell: Items<Text>,
    },
    /// `openter`
    Enter {
        receiver: Expr,
        op: OpNo,
        args: Items<Expr>,
        shell: Items<Text>,
    },
    /// `opexit`
    Exit {
        value: Option<Expr>,
        shell: Items<Text>,
    },
    Check {
        detail: bool,
    },
    Info(Topic),
    Undo,
    Redo,
    Reset,
    /// `view N`; the number 0 is one that no view has.
    Show(u32),
    /// `view drop N`
    Drop(u32),
    Quit,
}
