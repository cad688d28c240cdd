ghost use Rattle.std.specs.Prelude.{◌≡◌, ◌+◌, ◌<◌, ◌^◌, OnOk};
ghost use Rattle.soil_scope.specs.Variables.{back_at, no_values, reach_of, role_of, standing, with_value};

use class_model::OclType;
use ocl_scope::{Environment, Scope};
use ocl_values::Text;
use std::alloc::{AllocError, Global};
use std::mem;
use use_lists::Items;

/// What a value of the environment is to statements.
#[derive(Clone, Copy, Debug, PartialEq, Eq)]
pub enum Role {
    /// It stands for a name of the shell that names nothing yet.
    Free,
    /// A live object, or one that an earlier statement of the command creates.
    Object,
    /// A variable of the shell.
    Shell,
    /// A local variable.
    Local,
    /// `self`, a parameter or the variable of a `for`: nothing is assigned to it.
    Fixed,
}

/// The variables that statements see, and what each value of the environment is.
#[derive(Debug, Drop)]
pub struct Variables {
    pub environment: Environment,
    pub roles: Items<Role>,
}

/// How far variables reach.
#[derive(Clone, Copy, Debug, PartialEq, Eq)]
pub struct Reach {
    scope: Scope,
    count: usize,
}

impl Variables {
    /// No value.
    pub fn new(alloc: Global) -> Variables
        ensures { result ≡ no_values }
    {
        Variables {
            environment: Environment::new(alloc),
            roles: Items::new(alloc),
        }
    }

    /// A value more, the innermost, and the name that stands for it.
    pub fn push(
        &mut self,
        role: Role,
        name: Option<Text>,
        of_type: OclType,
        is_implicit: bool,
    ) -> Result<(), AllocError>
        requires { self.old.environment.size + 1 < 2 ^ 32 }
        ensures { OnOk result (self.new ≡ with_value role self.old name of_type is_implicit) }
    {
        self.environment.push(name, of_type, is_implicit)?;
        self.roles.push(role)
    }

    /// What the value of a number is; past the last there is nothing to assign to.
    pub fn role_of(&self, number: usize) -> Role
        ensures { result ≡ role_of self.now number }
    {
        match self.roles.get(number) {
            None => Role::Fixed,
            Some(role) => *role,
        }
    }

    /// From now on a name of the shell stands for something of this type.
    pub fn stands_for(
        &mut self,
        alloc: Global,
        slot: usize,
        name: Text,
        of_type: OclType,
        role: Role,
    )
        ensures { self.new ≡ standing self.old slot name of_type role }
    {
        self.environment.rename(alloc, slot, name, of_type);
        let mut roles = mem::replace(&mut self.roles, Items::new(alloc)).into_vec();
        if let Some(found) = roles.get_mut(slot) {
            *found = role;
        }
        self.roles = Items::from_vec(roles);
    }

    /// How far they reach, for a later `leave`.
    pub fn reach(&self) -> Reach
        ensures { result ≡ reach_of self.now }
    {
        Reach {
            scope: self.environment.scope(),
            count: self.roles.len(),
        }
    }

    /// Takes back what was added since they reached so far.
    pub fn leave(&mut self, reach: Reach)
        ensures { self.new ≡ back_at self.old reach }
    {
        self.environment.leave(reach.scope);
        'last: while self.roles.len() > reach.count {
            let _ = self.roles.pop();
        }
    }
}
