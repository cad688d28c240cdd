ghost use Rattle.std.specs.Prelude.{◌≡◌, ◌+◌, ◌<◌, ◌^◌, OnErr, OnOk};
ghost use Rattle.std.specs.Option.{option_copied};
ghost use Rattle.ocl_scope.specs.Environments.{back_to, has_name, no_variables, renamed, scope_of, variable_named, with_name, with_values, with_variable};

use class_model::OclType;
use ocl_values::Text;
use std::alloc::{AllocError, Global};
use std::mem;
use use_lists::Items;

/// What a name may stand for.
#[derive(Debug, Drop)]
pub struct Variable {
    pub name: Option<Text>,
    pub of_type: OclType,
    /// Which value of the environment it stands for, counted from the outermost.
    pub number: u32,
    /// Its properties and operations may be named without it.
    pub is_implicit: bool,
}

/// The variables of an expression, outermost first, and how many values stand in the environment.
/// A name is sought from the innermost variable outward, in time in proportion to the variables.
#[derive(Debug, Drop)]
pub struct Environment {
    variables: Items<Variable>,
    size: u32,
}

/// How far an environment reaches.
#[derive(Clone, Copy, Debug, PartialEq, Eq)]
pub struct Scope {
    count: usize,
    size: u32,
}

fn has_name(variable: &Variable, name: &str) -> bool
    ensures { result ≡ has_name name.now variable.now }
{
    match &variable.name {
        None => false,
        Some(text) => text.as_str() == name,
    }
}

impl Environment {
    /// No variable.
    pub fn new(alloc: Global) -> Environment
        ensures { result ≡ no_variables }
    {
        Environment {
            variables: Items::new(alloc),
            size: 0,
        }
    }

    /// How many values stand in it.
    pub fn size(&self) -> u32
        ensures { result ≡ self.now.size }
    {
        self.size
    }

    /// The variables, outermost first.
    pub fn variables(&self) -> &[Variable]
        ensures { result.now ≡ self.now.variables }
    {
        self.variables.as_slice()
    }

    /// One variable more, the innermost.
    pub fn push(
        &mut self,
        name: Option<Text>,
        of_type: OclType,
        is_implicit: bool,
    ) -> Result<(), AllocError>
        requires { self.old.size + 1 < 2 ^ 32 }
        ensures ok { OnOk result (self.new ≡ with_variable self.old name of_type is_implicit) }
        ensures err { OnErr result (self.new ≡ self.old) }
    {
        self.variables.push(Variable {
            name,
            of_type,
            number: self.size,
            is_implicit,
        })?;
        self.size += 1;
        Ok(())
    }

    /// One name more, the innermost, of a value that has a number already.
    pub fn push_name(&mut self, name: Text, of_type: OclType, number: u32) -> Result<(), AllocError>
        ensures ok { OnOk result (self.new ≡ with_name self.old name of_type number) }
        ensures err { OnErr result (self.new ≡ self.old) }
    {
        self.variables.push(Variable {
            name: Some(name),
            of_type,
            number,
            is_implicit: false,
        })
    }

    /// Another name and another type for the variable at a place, counted from the outermost. Its value
    /// keeps its number.
    pub fn rename(&mut self, alloc: Global, at: usize, name: Text, of_type: OclType)
        ensures { self.new ≡ renamed self.old at name of_type }
    {
        let mut variables = mem::replace(&mut self.variables, Items::new(alloc)).into_vec();
        if let Some(variable) = variables.get_mut(at) {
            variable.name = Some(name);
            variable.of_type = of_type;
        }
        self.variables = Items::from_vec(variables);
    }

    /// So many values more, which no name stands for.
    pub fn push_values(&mut self, count: u32)
        requires { self.old.size + count < 2 ^ 32 }
        ensures { self.new ≡ with_values self.old count }
    {
        self.size += count;
    }

    /// How far it reaches, for a later `leave`.
    pub fn scope(&self) -> Scope
        ensures { result ≡ scope_of self.now }
    {
        Scope {
            count: self.variables.len(),
            size: self.size,
        }
    }

    /// Takes back what was pushed since it reached so far.
    pub fn leave(&mut self, scope: Scope)
        ensures { self.new ≡ back_to self.old scope }
    {
        'last: while self.variables.len() > scope.count {
            let _ = self.variables.pop();
        }
        self.size = scope.size;
    }

    /// The innermost variable of a name.
    #[tactic(auto, using(crate::proofs::Scopes::last_found, crate::proofs::Scopes::last_passed))]
    pub fn variable_named(&self, name: &str) -> Option<&Variable>
        ensures { option_copied result ≡ variable_named self.now name.now }
    {
        let variables = self.variables.as_slice();
        let mut i = variables.len();
        'variables: while i > 0 {
            i -= 1;
            if has_name(&variables[i], name) {
                return Some(&variables[i]);
            }
        }
        None
    }
}
