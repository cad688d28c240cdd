ghost use Rattle.std.specs.Prelude.{◌≡◌, ◌+◌, min, max};
ghost use Rattle.ocl_values.specs.Shape.{levels_of, max_levels, most_levels};

use ocl_values::Value;

// How deep collections may nest.
pub(crate) const MAX_LEVELS: u32 = 256;

// How deep collections nest in a value; past the limit, one more than it.
#[cycle(levels)]
pub(crate) fn levels(v: &Value) -> u32
    ensures { result ≡ min (levels_of v.now) (max_levels + 1) }
{
    match v {
        Value::Coll(_, items) => one_more(most(items.as_slice())),
        _ => 0,
    }
}

fn one_more(n: u32) -> u32
    ensures { result ≡ min (1 + n) (max_levels + 1) }
{
    if n < MAX_LEVELS {
        n + 1
    } else {
        MAX_LEVELS + 1
    }
}

// How deep collections nest in some values; past the limit, one more than it.
#[cycle(levels)]
pub(crate) fn most(all: &[Value]) -> u32
    ensures { result ≡ min (most_levels all.now) (max_levels + 1) }
{
    let mut deepest = 0;
    'look: for v in all {
        deepest = larger(deepest, levels(v));
    }
    deepest
}

fn larger(a: u32, b: u32) -> u32
    ensures { result ≡ max a b }
{
    a.max(b)
}
