ghost use Rattle.std.specs.Prelude.{◌≡◌, ℕ, List, None, Option};
ghost use Rattle.std.specs.Option.{option_copied, option_map};
ghost use Rattle.soil_check.specs.Scopes.{Known, known_as};

use class_model::{ClassNo, OclType};
use ocl_values::Text;
use use_lists::Items;

/// What a name of the shell stands for.
#[derive(Drop)]
pub enum ShellName<'a> {
    /// A live object of this class.
    Object(ClassNo),
    /// A variable of this type.
    Variable(&'a OclType),
}

/// What the open operation binds: `self` and its parameters, and the type of its result.
#[derive(Drop)]
pub struct Bindings {
    pub names: Items<(Text, OclType)>,
    pub result_type: Option<OclType>,
}

/// What the names of a shell stand for, and what its open operation binds.
pub trait Scope {
    ghost use Rattle.soil_check.specs.declared.scope.Bindings.{Bindings};

    /// What a name stands for.
    ghost known: { Self → List ℕ → Option Known };

    /// What the innermost open operation binds.
    ghost bound: { Self → Option Bindings };

    /// What a name stands for, if it stands for anything.
    fn shell(&self, name: &str) -> Option<ShellName<'_>>
        ensures { option_map known_as result ≡ known self.now name.now };

    /// What the innermost open operation binds, if one is open.
    fn frame(&self) -> Option<&Bindings>
        ensures { option_copied result ≡ bound self.now };
}

/// No name stands for anything, and no operation is open.
#[derive(Clone, Copy, Debug, PartialEq, Eq)]
pub struct NoScope;

impl Scope for NoScope {
    ghost use Rattle.std.specs.Prelude.{None};

    ghost known = { λ s name. None };

    ghost bound = { λ s. None };

    fn shell(&self, _name: &str) -> Option<ShellName<'_>> {
        None
    }

    fn frame(&self) -> Option<&Bindings> {
        None
    }
}
