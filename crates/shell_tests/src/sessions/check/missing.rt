use crate::sessions::Line;

/// A model in which each person has an employer.
pub const ONE_EMPLOYER: &str = "model W
class Person
end
class Company
end
association WorksFor between
  Person[*] role staff
  Company[1] role employer
end
";

/// A link is missing.
pub static MISSING: &[Line] = &[
    ("!create p : Person", ""),
    (
        "check",
        "structure: WorksFor.employer: p has 0, expected 1\n0 invariants, 0 evaluated, 0 not OK\n",
    ),
    ("info state", "objects 1\np : Person\nlinks 0\n"),
];
