use super::files::shelf_with;
use super::{played_over, words_of};
use std::alloc::Global;
use std::marker::Brand;
use std::sync::ledger::Blank;
use std::test::Fail;
use use_shell::Status;

/// A run over a file with commands, which is named `a`, and the model.
struct Run {
    words: &'static [&'static str],
    file: &'static str,
    input: &'static str,
    output: &'static str,
    status: Status,
}

const WORK: &str = "model Work
class Person
attributes
  age : Integer
end
class Company
end
association WorksFor between
  Person[*] role staff
  Company[1] role employer
end
constraints
context Person inv adult: age >= 18
context Person inv alive: Sequence{1..age}->size() < 150
";

static RUNS: &[Run] = &[
    // A broken multiplicity.
    Run {
        words: &["--strict", "W.use"],
        file: "",
        input: "!create p : Person\n!p.age := 20\ncheck\n",
        output: "structure: WorksFor.employer: p has 0, expected 1\ninv Person::adult: OK\ninv Person::alive: OK\n2 invariants, 2 evaluated, 0 not OK\n",
        status: Status::Strict,
    },
    Run {
        words: &["W.use"],
        file: "",
        input: "!create p : Person\n!p.age := 20\ncheck\n",
        output: "structure: WorksFor.employer: p has 0, expected 1\ninv Person::adult: OK\ninv Person::alive: OK\n2 invariants, 2 evaluated, 0 not OK\n",
        status: Status::Done,
    },
    // Each verdict but OK.
    Run {
        words: &["W.use", "--strict"],
        file: "!create p : Person; create c : Company; insert (p, c) into WorksFor\n",
        input: "open a\n!p.age := 3\ncheck\nquit\n",
        output: "structure: OK\ninv Person::adult: FAILED\ninv Person::alive: OK\n2 invariants, 2 evaluated, 1 not OK\n",
        status: Status::Strict,
    },
    Run {
        words: &["W.use", "--strict"],
        file: "!create p : Person; create c : Company; insert (p, c) into WorksFor\n",
        input: "open a\ncheck -d\n",
        output: "structure: OK\ninv Person::adult: N/A\n  p: Undefined\ninv Person::alive: N/A\n  p: Undefined\n2 invariants, 2 evaluated, 2 not OK\n",
        status: Status::Strict,
    },
    Run {
        words: &["W.use", "--strict"],
        file: "!create p : Person; create c : Company; insert (p, c) into WorksFor\n",
        input: "open a\n!p.age := 1000000\ncheck\n",
        output: "structure: OK\ninv Person::adult: OK\ninv Person::alive: OVER\n2 invariants, 2 evaluated, 1 not OK\n",
        status: Status::Strict,
    },
    Run {
        words: &["W.use", "--strict"],
        file: "!create p : Person; create c : Company; insert (p, c) into WorksFor\n",
        input: "check\nopen a\n!p.age := 20\ncheck\n",
        output: "structure: OK\ninv Person::adult: OK\ninv Person::alive: OK\n2 invariants, 2 evaluated, 0 not OK\nstructure: OK\ninv Person::adult: OK\ninv Person::alive: OK\n2 invariants, 2 evaluated, 0 not OK\n",
        status: Status::Done,
    },
    // What is repaired was found all the same, in a file too.
    Run {
        words: &["--strict", "--echo", "W.use"],
        file: "!create p : Person\ncheck\nreset\n",
        input: "open a\ncheck\n",
        output: "use> open a\nuse> !create p : Person\nuse> check\nstructure: WorksFor.employer: p has 0, expected 1\ninv Person::adult: N/A\ninv Person::alive: N/A\n2 invariants, 2 evaluated, 2 not OK\nuse> reset\nuse> check\nstructure: OK\ninv Person::adult: OK\ninv Person::alive: OK\n2 invariants, 2 evaluated, 0 not OK\n",
        status: Status::Strict,
    },
    // What stands behind the command that ends the run is not found.
    Run {
        words: &["--strict", "W.use"],
        file: "!create p : Person\nexit\ncheck\n",
        input: "open a\ncheck\n? nope\n",
        output: "",
        status: Status::Done,
    },
    Run {
        words: &["--echo", "--strict", "W.use"],
        file: "? nope\nquit\n? 1\n",
        input: "open a\n? 2\n",
        output: "use> open a\nuse> ? nope\nrefused N1 at 1:3: unknown name\nuse> quit\n",
        status: Status::Strict,
    },
    // A model that is refused comes first.
    Run {
        words: &["--strict", "none.use"],
        file: "",
        input: "? nope\n",
        output: "refused F1 at 0:0: no such file\n",
        status: Status::ModelRefused,
    },
];

#[test]
fn refusals_and_failed_checks_are_told_by_the_status(rt: HostRuntime) -> Result<(), Fail> {
    let alloc = rt.alloc();
    for r in RUNS.iter() {
        for piece in 1..5 {
            let words = words_of(alloc, r.words)?;
            let shelf = shelf_with(alloc, &[("W.use", WORK), ("a", r.file)])?;
            let input = r.input.as_bytes().to_vec(alloc)?;
            let (out, status) = played_over::<Brand>(
                alloc,
                &words,
                shelf,
                input,
                piece,
                Blank::new(1),
            )?;
            assert_eq!(rt; out.as_slice(), r.output.as_bytes(), "in pieces of {piece}");
            assert_eq!(rt; status, r.status, "in pieces of {piece}");
        }
    }
    Ok(())
}
