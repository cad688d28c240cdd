ghost use Rattle.std.specs.Prelude.{◌≡◌, ◌<◌, IfOk, Some, length, slice_get};
ghost use Rattle.ocl_program.specs.Programs.{IsProgram, contracts_of};

use crate::by_operation::{contract_rows, row_at};
use class_model::{ClassModel, DerNo, OpNo};
use ocl_core::{Contract, ContractNo, Expr, Invariant, OpBody, ProgramParts};
use std::alloc::{AllocError, Global};
use std::marker::Model;
use use_lists::Items;

/// A program: what a model's text says, checked. Only its postconditions read the state at entry.
#[derive(Drop)]
pub struct Program {
    parts: ProgramParts,
    /// For each operation, the contracts that hold of it.
    contracts: Items<Items<ContractNo>>,
}

impl Model for Program {
    ghost use Rattle.ocl_core.specs.declared.program.ProgramParts.{ProgramParts};

    ghost Value = { ProgramParts };

    ghost use Rattle.class_model.specs.contracts.types.OclType as types;
    ghost use Rattle.ocl_values.specs.contracts.value.Value as values;
    ghost use Rattle.ocl_core.specs.contracts.expression.Expr as expressions;
    ghost use Rattle.ocl_core.specs.contracts.statement.Stmt as statements;
    ghost use Rattle.std.specs.Coded.{codes};

    ghost coded = { Prim.hlevel (codes, types.the_row.coded, values.the_row.coded, expressions.the_row.coded, statements.the_row.coded) };

    ghost view = { λ p. p.parts };

    ghost use Rattle.ocl_program.specs.Indexed.{IsIndexed};

    ghost invariant = { IsIndexed };
}

impl Program {
    /// A program of these parts.
    pub fn new(alloc: Global, parts: ProgramParts) -> Result<Program, AllocError>
        requires { IsProgram parts }
        ensures { IfOk result (λ p. p ≡ parts) }
    {
        let contracts = contract_rows(alloc, &parts)?;
        Ok(Program { parts, contracts })
    }

    /// The parts.
    pub fn as_parts(&self) -> &ProgramParts
        ensures { result.now ≡ self.now }
    {
        &self.parts
    }

    /// What holds of the parts of each program: a law, which costs nothing.
    pub fn is_checked(&self)
        ensures { IsProgram self.now }
    {
        let _ = &self.parts;
    }

    /// The class model.
    pub fn model(&self) -> &ClassModel
        ensures { result.now ≡ self.now.model }
    {
        &self.parts.model
    }

    /// The invariants in the order of the text.
    pub fn invariants(&self) -> &[Invariant]
        ensures { result.now ≡ self.now.invariants }
    {
        self.parts.invariants.as_slice()
    }

    /// The contracts of an operation: those of each declaration that it is or overrides, the
    /// declarations of ancestors first, and within a declaration in the order of the text.
    pub fn contracts(&self, op: OpNo) -> &[ContractNo]
        requires { op < length self.now.model.ops }
        ensures { result.now ≡ contracts_of self.now op }
    {
        row_at(self.contracts.as_slice(), op)
    }

    /// The contract of a number.
    pub fn contract(&self, number: ContractNo) -> &Contract
        requires { number < length self.now.contracts }
        ensures { slice_get self.now.contracts number ≡ Some result.now }
    {
        &self.parts.contracts.as_slice()[number as usize]
    }

    /// What is carried out where an operation is called.
    pub fn op_body(&self, op: OpNo) -> &OpBody
        requires { op < length self.now.model.ops }
        ensures { slice_get self.now.bodies op ≡ Some result.now }
    {
        &self.parts.bodies.as_slice()[op as usize]
    }

    /// The body of a derived attribute.
    pub fn derived_body(&self, number: DerNo) -> &Expr
        requires { number < length self.now.model.derived }
        ensures { slice_get self.now.derived number ≡ Some result.now }
    {
        &self.parts.derived.as_slice()[number as usize]
    }
}
