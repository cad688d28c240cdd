use crate::sessions::Line;

/// A model of two invariants.
pub const PEOPLE: &str = "model People
class Person
attributes
  age : Integer
  name : String
end
constraints
context Person inv adult: age >= 18
context Person inv named: name <> ''
";

/// Invariants hold, fail and are repaired; the objects for which they do not hold are listed.
pub static VERDICTS: &[Line] = &[
    ("!create p : Person", ""),
    ("!p.age := 20; p.name := 'Ada'", ""),
    (
        "check",
        "structure: OK\ninv Person::adult: OK\ninv Person::named: OK\n2 invariants, 2 evaluated, 0 not OK\n",
    ),
    ("!set p.age := 3", ""),
    (
        "check",
        "structure: OK\ninv Person::adult: FAILED\ninv Person::named: OK\n2 invariants, 2 evaluated, 1 not OK\n",
    ),
    (
        "check",
        "structure: OK\ninv Person::adult: FAILED\ninv Person::named: OK\n2 invariants, 2 evaluated, 1 not OK\n",
    ),
    ("!set p.age := p.age", ""),
    (
        "check",
        "structure: OK\ninv Person::adult: FAILED\ninv Person::named: OK\n2 invariants, 2 evaluated, 1 not OK\n",
    ),
    ("undo", ""),
    ("? p.age", "-> 3 : Integer\n"),
    ("undo", ""),
    ("? p.age", "-> 20 : Integer\n"),
    ("redo", ""),
    ("redo", ""),
    ("redo", "refused U2 at 15:1: nothing to redo\n"),
    (
        "check -d",
        "structure: OK\ninv Person::adult: FAILED\n  p: Fails\ninv Person::named: OK\n2 invariants, 2 evaluated, 1 not OK\n",
    ),
    ("!create q, r : Person; q.age := 17; q.name := ''", ""),
    (
        "check",
        "structure: OK\ninv Person::adult: FAILED\ninv Person::named: FAILED\n2 invariants, 2 evaluated, 2 not OK\n",
    ),
    (
        "check -d",
        "structure: OK\ninv Person::adult: FAILED\n  p: Fails\n  q: Fails\n  r: Undefined\ninv Person::named: FAILED\n  q: Fails\n2 invariants, 2 evaluated, 2 not OK\n",
    ),
    ("!p.age := 30; q.age := 18; q.name := 'Bo'", ""),
    (
        "check -d",
        "structure: OK\ninv Person::adult: N/A\n  r: Undefined\ninv Person::named: OK\n2 invariants, 2 evaluated, 1 not OK\n",
    ),
    ("!destroy r", ""),
    (
        "check -d",
        "structure: OK\ninv Person::adult: OK\ninv Person::named: OK\n2 invariants, 2 evaluated, 0 not OK\n",
    ),
    (
        " check - d",
        "structure: OK\ninv Person::adult: OK\ninv Person::named: OK\n2 invariants, 2 evaluated, 0 not OK\n",
    ),
    (
        "check-d",
        "structure: OK\ninv Person::adult: OK\ninv Person::named: OK\n2 invariants, 2 evaluated, 0 not OK\n",
    ),
    ("check -d -d", "refused S1 at 26:10: unexpected token\n"),
    ("check d", "refused S1 at 27:7: unexpected token\n"),
    (
        "check -D",
        "refused N3 at 28:8: unknown literal, association, topic or switch\n",
    ),
    (
        "check -x",
        "refused N3 at 29:8: unknown literal, association, topic or switch\n",
    ),
    ("check 1", "refused S1 at 30:7: unexpected token\n"),
];
