ghost use Rattle.std.specs.Prelude.{◌≡◌, IfOk};
ghost use Rattle.object_names.specs.Names.{is_free, made_name, numbered};

use object_state::StateReader;
use ocl_values::Text;
use std::alloc::{AllocError, Global};

/// A word with a number behind it.
fn numbered(alloc: Global, word: &str, number: u64) -> Result<Text, AllocError>
    ensures { IfOk result (λ t. t ≡ numbered word.now number) }
{
    let name = format!(in alloc; "{word}{number}")?;
    Ok(Text::from_string(name))
}

/// Whether no object and no variable has a name.
fn is_free<S: StateReader>(store: &S, name: &str) -> bool
    ensures { result ≡ is_free (S.held store.now).state name.now }
{
    store.object_named(name).is_none() && store.variable(name).is_none()
}

/// The name that a new object gets where none is given: the name of its class with the least number,
/// from its own on, that makes a name which no object and no variable has.
pub fn made_name<S: StateReader>(alloc: Global, store: &S, class: &str) -> Result<Text, AllocError>
    ensures { IfOk result (λ t. t ≡ made_name (S.held store.now).state class.now) }
{
    store.state_is_valid();
    let mut number = store.counters().0 as u64;
    let last = number + store.weight();
    'seek: while number < last {
        let name = numbered(alloc, class, number)?;
        if is_free(store, name.as_str()) {
            return Ok(name);
        }
        number += 1;
    }
    numbered(alloc, class, number)
}
