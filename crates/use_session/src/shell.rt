ghost use Rattle.std.specs.Prelude.{◌≡◌};
ghost use Rattle.std.specs.Option.{option_map};
ghost use Rattle.soil_check.specs.Scopes.{known_as};
ghost use Rattle.use_session.specs.Shell.{known_object};

use object_referrers::ReferrerStore;
use object_state::StateReader;
use ocl_values::ObjNo;
use soil_check::{Bindings, Scope, ShellName};

/// The names of a store's variables and objects, and what the top call binds.
#[derive(Drop)]
pub(crate) struct StoreScope<'a> {
    pub(crate) store: &'a ReferrerStore,
    pub(crate) bindings: Option<Bindings>,
}

/// What the name of an object stands for.
fn known_object(store: &ReferrerStore, number: ObjNo) -> Option<ShellName<'_>>
    ensures { option_map known_as result ≡ known_object store.now.state number }
{
    match store.object(number) {
        None => None,
        Some(live) => Some(ShellName::Object(live.class)),
    }
}

impl Scope for StoreScope<'_> {
    ghost use Rattle.use_session.specs.Shell.{known};

    ghost known = { λ s name. known s.store.now.state name };

    ghost bound = { λ s. s.bindings };

    fn shell(&self, name: &str) -> Option<ShellName<'_>> {
        match self.store.variable(name) {
            Some(variable) => Some(ShellName::Variable(&variable.of_type)),
            None => match self.store.object_named(name) {
                None => None,
                Some(number) => known_object(self.store, number),
            },
        }
    }

    fn frame(&self) -> Option<&Bindings> {
        self.bindings.as_ref()
    }
}
