use crate::sessions::Line;

/// A model in which a person may have an employer.
pub const FEW_EMPLOYERS: &str = "model W
class Person
end
class Company
end
association WorksFor between
  Person[*] role staff
  Company[0..1] role employer
end
";

/// There is one link too many.
pub static DOUBLED: &[Line] = &[
    ("!create p : Person", ""),
    ("!create c, d : Company", ""),
    ("!insert (p, c) into WorksFor", ""),
    (
        "!insert (p, c) into WorksFor",
        "refused X3 at 4:2: link is there already\n",
    ),
    ("!insert (p, d) into WorksFor", ""),
    (
        "check",
        "structure: WorksFor.employer: p has 2, expected 0..1\n0 invariants, 0 evaluated, 0 not OK\n",
    ),
    ("? p.employer", "-> invalid : Company\n"),
    ("? c.staff", "-> Set{p} : Set(Person)\n"),
    ("!delete (p, d) from WorksFor", ""),
    (
        "!delete (p, d) from WorksFor",
        "refused X4 at 10:2: no such link\n",
    ),
    (
        "check",
        "structure: OK\n0 invariants, 0 evaluated, 0 not OK\n",
    ),
];
