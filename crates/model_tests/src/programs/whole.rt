use super::{ACCOUNTS, is_of, program};
use class_model::{ClassModel, ObjectModel};
use ocl_core::{Contract, Expr, Invariant, OpBody, ProgramParts};
use ocl_program::Program;
use ocl_values::Text;
use std::alloc::{AllocError, Global};
use std::test::Fail;
use use_lists::Items;

/// Departments, their persons and their projects.
const EMPLOYEES: &str = "model Employees
enum Grade {junior, senior}
abstract class Being
attributes
  name : String
end
class Person < Being
attributes
  age : Integer
  salary : Integer
  grade : Grade
operations
  raise(amount : Integer) : Integer
  begin
    self.salary := self.salary + amount;
    result := self.salary
  end
    pre positive: amount > 0
    post paid: self.salary = self.salary@pre + amount
  label() : String = self.name.concat('!')
end
class Department < Being
attributes
  budget : Integer
end
class Project < Being
end
association WorksIn between
  Person[*] role staff
  Department[1] role dept
end
association WorksOn between
  Person[*] role member
  Project[*] role project ordered
end
composition Controls between
  Department[1] role owner
  Project[*] role owned
end
constraints
context Person
  inv adult: age >= 18
  inv paid: salary > 0
context Department
  inv afford: budget >= staff.salary->sum()
  inv named: name.size() > 0
context Project
  inv staffed: member->notEmpty()
  inv local: member->forAll(m | m.dept = owner)
";

/// A class below two others, which are below one. Each declares the operation, and the class that is
/// above all stands last.
const DIAMOND: &str = "model Diamond
class D < B, C operations f() pre d: true end
class C < A operations f() pre c: true end
class B < A operations f() pre b: true end
class A operations f() pre first: true post second: true end
constraints context A::f() pre: true
context C::f() post third: true
";

fn class_name(model: &ClassModel, number: u32) -> &str {
    if number < model.class_count() {
        model.class_name(number)
    } else {
        "no class"
    }
}

/// Each invariant after its class, in the order of the program.
fn shown_invariants(
    alloc: Global,
    model: &ClassModel,
    invariants: &[Invariant],
) -> Result<String, AllocError> {
    let mut out = String::new(alloc);
    'invariants: for invariant in invariants {
        out.push_str(class_name(model, invariant.class))?;
        out.push_str(".")?;
        out.push_str(invariant.name.as_str())?;
        out.push_str(" ")?;
    }
    Ok(out)
}

/// Each contract, in the order of the program.
fn shown_contracts(alloc: Global, contracts: &[Contract]) -> Result<String, AllocError> {
    let mut out = String::new(alloc);
    'contracts: for contract in contracts {
        out.push_str(if contract.is_post { "post " } else { "pre " })?;
        out.push_str(contract.name.as_str())?;
        out.push_str(" ")?;
    }
    Ok(out)
}

/// How many statements a body has.
fn statements(body: &OpBody) -> usize {
    match body {
        OpBody::Soil(body) => body.len(),
        _ => 0,
    }
}

#[test]
fn a_whole_model_is_checked(rt: HostRuntime) -> Result<(), Fail> {
    let found = program(rt.alloc(), EMPLOYEES)?;
    assert!(rt; found.is_some());
    if let Some(program) = found {
        let invariants = shown_invariants(rt.alloc(), program.model(), program.invariants())?;
        assert_eq!(rt;
            invariants.as_str(),
            "Person.adult Person.paid Department.afford Department.named Project.staffed Project.local "
        );
        let contracts = shown_contracts(rt.alloc(), program.as_parts().contracts.as_slice())?;
        assert_eq!(rt; contracts.as_str(), "pre positive post paid ");
        if 1 < program.model().op_count() {
            assert_eq!(rt; statements(program.op_body(0)), 2);
            assert!(rt; is_of(program.op_body(1), 'q'));
            assert_eq!(rt; program.contracts(0), [0, 1].as_slice());
            assert_eq!(rt; program.contracts(1).len(), 0);
        }
    }
    Ok(())
}

#[test]
fn contracts_over_a_diamond_are_those_of_each_class_once(rt: HostRuntime) -> Result<(), Fail> {
    let found = program(rt.alloc(), DIAMOND)?;
    assert!(rt; found.is_some());
    if let Some(program) = found {
        if 3 < program.model().op_count() {
            assert_eq!(rt; program.contracts(0), [3, 4, 5].as_slice());
            assert_eq!(rt; program.contracts(1), [3, 4, 5, 1, 6].as_slice());
            assert_eq!(rt; program.contracts(2), [3, 4, 5, 2].as_slice());
            assert_eq!(rt; program.contracts(3), [3, 4, 5, 1, 6, 2, 0].as_slice());
        }
    }
    Ok(())
}

#[test]
fn contracts_and_derived_attributes_are_read_by_number(rt: HostRuntime) -> Result<(), Fail> {
    let found = program(rt.alloc(), ACCOUNTS)?;
    assert!(rt; found.is_some());
    if let Some(program) = found {
        program.is_checked();
        if 1 < program.as_parts().contracts.len() {
            assert_eq!(rt; program.contract(1).name.as_str(), "more");
            assert_eq!(rt; program.contract(1).op, 3);
            assert!(rt; program.contract(1).is_post);
        }
        if 0 < program.model().derived_count() {
            assert!(rt; matches!(program.derived_body(0), Expr::Binary(_, _, _)));
        }
    }
    Ok(())
}

/// The program of a model without classes.
fn empty(alloc: Global) -> Result<Program, Fail> {
    let model = ObjectModel {
        name: Text::copy_of(alloc, "Empty")?,
        enums: Items::new(alloc),
        classes: Items::new(alloc),
        attrs: Items::new(alloc),
        derived: Items::new(alloc),
        ops: Items::new(alloc),
        assocs: Items::new(alloc),
    };
    let parts = ProgramParts {
        model: ClassModel::of(alloc, model)?,
        invariants: Items::new(alloc),
        contracts: Items::new(alloc),
        bodies: Items::new(alloc),
        derived: Items::new(alloc),
    };
    Ok(Program::new(alloc, parts)?)
}

#[test]
fn a_program_is_made_of_its_parts(rt: HostRuntime) -> Result<(), Fail> {
    let program = empty(rt.alloc())?;
    assert_eq!(rt; program.model().name(), "Empty");
    assert_eq!(rt; program.as_parts().bodies.len(), 0);
    assert_eq!(rt; program.invariants().len(), 0);
    Ok(())
}
