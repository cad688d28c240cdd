use crate::sessions::Line;

/// A model of multiplicities, also of several parts.
pub const STAFF: &str = "model Staff
abstract class Party
end
class Company < Party
end
class Person < Party
end
class Manager < Person
end
association WorksFor between
  Person[2..3, 5] role staff
  Company[1] role employer
end
association Leads between
  Manager[1] role boss
  Company[0..1] role led
end
association Teaches between
  Person[*] role teacher ordered
  Person[0 .. 1] role pupil
end
";

/// Links are counted at each end, for each object of the other end's class and of its subclasses.
pub static COUNTED: &[Line] = &[
    (
        "check",
        "structure: OK\n0 invariants, 0 evaluated, 0 not OK\n",
    ),
    (
        "!create c : Company; create p : Person; create m : Manager",
        "",
    ),
    (
        "check",
        "structure: WorksFor.staff: c has 0, expected 2..3,5\nstructure: WorksFor.employer: p has 0, expected 1\nstructure: WorksFor.employer: m has 0, expected 1\nstructure: Leads.boss: c has 0, expected 1\n0 invariants, 0 evaluated, 0 not OK\n",
    ),
    (
        "!insert (p, c) into WorksFor; insert (m, c) into WorksFor; insert (m, c) into Leads",
        "",
    ),
    (
        "check",
        "structure: OK\n0 invariants, 0 evaluated, 0 not OK\n",
    ),
    (
        "check -d",
        "structure: OK\n0 invariants, 0 evaluated, 0 not OK\n",
    ),
    (
        "!insert (p, m) into Teaches; insert (p, p) into Teaches",
        "",
    ),
    (
        "check",
        "structure: Teaches.pupil: p has 2, expected 0..1\n0 invariants, 0 evaluated, 0 not OK\n",
    ),
    ("!delete (p, p) from Teaches", ""),
    (
        "check",
        "structure: OK\n0 invariants, 0 evaluated, 0 not OK\n",
    ),
    (
        "!for i in Sequence{1..2} do q := new Person; insert (q, c) into WorksFor end",
        "",
    ),
    (
        "check",
        "structure: WorksFor.staff: c has 4, expected 2..3,5\n0 invariants, 0 evaluated, 0 not OK\n",
    ),
    ("!create z : Person; insert (z, c) into WorksFor", ""),
    (
        "check",
        "structure: OK\n0 invariants, 0 evaluated, 0 not OK\n",
    ),
    ("!create y : Person; insert (y, c) into WorksFor", ""),
    (
        "check",
        "structure: WorksFor.staff: c has 6, expected 2..3,5\n0 invariants, 0 evaluated, 0 not OK\n",
    ),
    (
        "!create d : Company; insert (m, d) into Leads; insert (m, d) into WorksFor",
        "",
    ),
    (
        "check",
        "structure: WorksFor.staff: c has 6, expected 2..3,5\nstructure: WorksFor.staff: d has 1, expected 2..3,5\nstructure: WorksFor.employer: m has 2, expected 1\nstructure: Leads.led: m has 2, expected 0..1\n0 invariants, 0 evaluated, 0 not OK\n",
    ),
    ("!destroy m", ""),
    (
        "check",
        "structure: WorksFor.staff: d has 0, expected 2..3,5\nstructure: Leads.boss: c has 0, expected 1\nstructure: Leads.boss: d has 0, expected 1\n0 invariants, 0 evaluated, 0 not OK\n",
    ),
    ("undo", ""),
    (
        "check",
        "structure: WorksFor.staff: c has 6, expected 2..3,5\nstructure: WorksFor.staff: d has 1, expected 2..3,5\nstructure: WorksFor.employer: m has 2, expected 1\nstructure: Leads.led: m has 2, expected 0..1\n0 invariants, 0 evaluated, 0 not OK\n",
    ),
    ("!destroy c, d", ""),
    (
        "check",
        "structure: WorksFor.employer: p has 0, expected 1\nstructure: WorksFor.employer: m has 0, expected 1\nstructure: WorksFor.employer: Person4 has 0, expected 1\nstructure: WorksFor.employer: Person5 has 0, expected 1\nstructure: WorksFor.employer: z has 0, expected 1\nstructure: WorksFor.employer: y has 0, expected 1\n0 invariants, 0 evaluated, 0 not OK\n",
    ),
];
