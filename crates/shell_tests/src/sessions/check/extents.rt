use crate::sessions::Line;

/// A model in which a class inherits twice from another.
pub const DIAMOND: &str = "model Dia
class A
end
class B < A
end
class C < A
end
class D < B, C
end
constraints
context A inv few: A.allInstances()->size() <= 3
";

/// An invariant is judged once for each object of its class and of its subclasses.
pub static EXTENTS: &[Line] = &[
    (
        "check",
        "structure: OK\ninv A::few: OK\n1 invariants, 1 evaluated, 0 not OK\n",
    ),
    ("!create d : D", ""),
    (
        "check",
        "structure: OK\ninv A::few: OK\n1 invariants, 1 evaluated, 0 not OK\n",
    ),
    (
        "check",
        "structure: OK\ninv A::few: OK\n1 invariants, 1 evaluated, 0 not OK\n",
    ),
    ("!create a : A; create b : B; create c : C", ""),
    (
        "check -d",
        "structure: OK\ninv A::few: FAILED\n  d: Fails\n  a: Fails\n  b: Fails\n  c: Fails\n1 invariants, 1 evaluated, 1 not OK\n",
    ),
    ("undo", ""),
    (
        "check -d",
        "structure: OK\ninv A::few: OK\n1 invariants, 1 evaluated, 0 not OK\n",
    ),
];
