use crate::sessions::Line;

/// A model of two classes.
pub const TWO: &str = "model Two
class A
attributes
  v : Integer
end
class B
end
constraints
context A inv given: self.v <> null
";

/// Objects of other classes are not judged.
pub static OTHERS: &[Line] = &[
    (
        "check",
        "structure: OK\ninv A::given: OK\n1 invariants, 1 evaluated, 0 not OK\n",
    ),
    ("!create x : A", ""),
    (
        "check",
        "structure: OK\ninv A::given: FAILED\n1 invariants, 1 evaluated, 1 not OK\n",
    ),
    ("undo", ""),
    (
        "check",
        "structure: OK\ninv A::given: OK\n1 invariants, 1 evaluated, 0 not OK\n",
    ),
    ("!create y : B", ""),
    (
        "check",
        "structure: OK\ninv A::given: OK\n1 invariants, 1 evaluated, 0 not OK\n",
    ),
    ("info state", "objects 1\ny : B\nlinks 0\n"),
];
