use crate::sessions::Line;

/// A model of a multiplicity and an invariant.
pub const WORK: &str = "model Work
class Person
attributes
  age : Integer
end
class Company
end
association WorksFor between
  Person[*] role staff
  Company[1] role employer
end
constraints
context Person inv adult: age >= 18
";

/// A check judges what undo, redo, reset and refused commands leave, and is not kept itself.
pub static KEPT: &[Line] = &[
    ("!create p : Person", ""),
    (
        "check",
        "structure: WorksFor.employer: p has 0, expected 1\ninv Person::adult: N/A\n1 invariants, 1 evaluated, 1 not OK\n",
    ),
    (
        "!create c : Company; insert (p, c) into WorksFor; p.age := 20",
        "",
    ),
    (
        "check",
        "structure: OK\ninv Person::adult: OK\n1 invariants, 1 evaluated, 0 not OK\n",
    ),
    ("!p.age := 3; delete (p, c) from WorksFor", ""),
    (
        "check",
        "structure: WorksFor.employer: p has 0, expected 1\ninv Person::adult: FAILED\n1 invariants, 1 evaluated, 1 not OK\n",
    ),
    ("undo", ""),
    (
        "check",
        "structure: OK\ninv Person::adult: OK\n1 invariants, 1 evaluated, 0 not OK\n",
    ),
    ("redo", ""),
    (
        "check -d",
        "structure: WorksFor.employer: p has 0, expected 1\ninv Person::adult: FAILED\n  p: Fails\n1 invariants, 1 evaluated, 1 not OK\n",
    ),
    ("redo", "refused U2 at 11:1: nothing to redo\n"),
    (
        "!p.age := 30; insert (p, c) into WorksFor; p.age := p.age div 0",
        "refused X12 at 12:44: value is invalid or holds a destroyed object\n",
    ),
    (
        "check",
        "structure: WorksFor.employer: p has 0, expected 1\ninv Person::adult: FAILED\n1 invariants, 1 evaluated, 1 not OK\n",
    ),
    ("undo", ""),
    (
        "check",
        "structure: OK\ninv Person::adult: OK\n1 invariants, 1 evaluated, 0 not OK\n",
    ),
    (
        "check",
        "structure: OK\ninv Person::adult: OK\n1 invariants, 1 evaluated, 0 not OK\n",
    ),
    ("redo", ""),
    (
        "check",
        "structure: WorksFor.employer: p has 0, expected 1\ninv Person::adult: FAILED\n1 invariants, 1 evaluated, 1 not OK\n",
    ),
    ("undo", ""),
    ("!destroy c", ""),
    (
        "check",
        "structure: WorksFor.employer: p has 0, expected 1\ninv Person::adult: OK\n1 invariants, 1 evaluated, 0 not OK\n",
    ),
    ("undo", ""),
    (
        "check",
        "structure: OK\ninv Person::adult: OK\n1 invariants, 1 evaluated, 0 not OK\n",
    ),
    ("!destroy p", ""),
    (
        "check",
        "structure: OK\ninv Person::adult: OK\n1 invariants, 1 evaluated, 0 not OK\n",
    ),
    ("undo", ""),
    (
        "check",
        "structure: OK\ninv Person::adult: OK\n1 invariants, 1 evaluated, 0 not OK\n",
    ),
    ("reset", ""),
    (
        "check",
        "structure: OK\ninv Person::adult: OK\n1 invariants, 1 evaluated, 0 not OK\n",
    ),
    ("undo", "refused U1 at 30:1: nothing to undo\n"),
    ("redo", "refused U2 at 31:1: nothing to redo\n"),
    ("!create q : Person", ""),
    (
        "check",
        "structure: WorksFor.employer: q has 0, expected 1\ninv Person::adult: N/A\n1 invariants, 1 evaluated, 1 not OK\n",
    ),
    ("undo", ""),
    (
        "check",
        "structure: OK\ninv Person::adult: OK\n1 invariants, 1 evaluated, 0 not OK\n",
    ),
    ("redo", ""),
    (
        "check -d",
        "structure: WorksFor.employer: q has 0, expected 1\ninv Person::adult: N/A\n  q: Undefined\n1 invariants, 1 evaluated, 1 not OK\n",
    ),
    (
        "check",
        "structure: WorksFor.employer: q has 0, expected 1\ninv Person::adult: N/A\n1 invariants, 1 evaluated, 1 not OK\n",
    ),
    ("undo", ""),
    ("undo", "refused U1 at 40:1: nothing to undo\n"),
];
