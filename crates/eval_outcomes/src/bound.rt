ghost use Rattle.std.specs.Prelude.{IfOk};
ghost use Rattle.ocl_values.specs.Shape.{IsWellMade};

use ocl_eval::Env;
use ocl_values::{Text, Value};
use std::alloc::{AllocError, Global};
use use_lists::Items;

/// Many bytes.
const CHUNK: &str = "xxxxxxxxxxxxxxxxxxxxxxxxxxxxxxxxxxxxxxxxxxxxxxxxxxxxxxxxxxxxxxxx";

/// How many chunks `filler` has: its size is 49,921.
const CHUNKS: usize = 780;

/// A String of so many bytes.
fn long(alloc: Global, bytes: usize) -> Result<Value, AllocError>
    ensures { IfOk result IsWellMade }
{
    let mut text = CHUNK.repeat(alloc, bytes / 64)?;
    let rest = "x".repeat(alloc, bytes % 64)?;
    text.push_str(rest.as_str())?;
    Ok(Value::Str(Text::from_string(text)))
}

fn push_objects(env: &mut Env, objects: &[u32]) -> Result<(), AllocError> {
    'objects: for object in objects {
        env.push(Value::Obj(*object))?;
    }
    Ok(())
}

/// Objects, null, and two Strings, the last of so many bytes.
pub fn environment(alloc: Global, tail: usize) -> Result<Env, AllocError> {
    let mut env = Env::new(Items::new(alloc));
    push_objects(&mut env, &[1, 2, 3, 7, 5])?;
    env.push(Value::Null)?;
    push_objects(&mut env, &[4, 6])?;
    let filler = long(alloc, 64 * CHUNKS)?;
    env.push(filler)?;
    let tail = long(alloc, tail)?;
    env.push(tail)?;
    Ok(env)
}
