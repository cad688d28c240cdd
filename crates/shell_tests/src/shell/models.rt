ghost use Rattle.std.specs.Prelude.{◌≡◌, ◌<◌};

use super::played;
use std::alloc::Global;
use std::marker::Brand;
use std::sync::ledger::{Blank, Ledger};
use std::test::Fail;

/// A model that is refused, its answer, and the nearest one that is accepted.
struct Rule {
    refused: &'static str,
    answer: &'static str,
    accepted: &'static str,
}

const RULES: [Rule; 17] = [
    Rule {
        refused: "model M\nclass A end\nenum A {x}\n",
        answer: "refused M1 at 3:6: name is declared twice\n",
        accepted: "model M\nclass A end\nenum B {A, x}\n",
    },
    Rule {
        refused: "model M\nclass Integer end\n",
        answer: "refused M1 at 2:7: name is declared twice\n",
        accepted: "model M\nclass integer end\n",
    },
    Rule {
        refused: "model M\nenum E {x, y, x}\n",
        answer: "refused M1 at 2:15: name is declared twice\n",
        accepted: "model M\nenum E {x, y, X}\n",
    },
    Rule {
        refused: "model M\nclass A operations f(self : Integer) end\n",
        answer: "refused M1 at 2:22: name is declared twice\n",
        accepted: "model M\nclass A operations f(own : Integer) end\n",
    },
    Rule {
        refused: "model M\nclass A attributes b : B end\n",
        answer: "refused M2 at 2:24: unknown class or type\n",
        accepted: "model M\nclass A attributes b : B end\nclass B end\n",
    },
    Rule {
        refused: "model M\nenum E {x}\nclass A < E end\n",
        answer: "refused M2 at 3:11: unknown class or type\n",
        accepted: "model M\nenum E {x}\nclass A attributes e : Set(E) end\n",
    },
    Rule {
        refused: "model M\nclass A end\nclass B < A, A end\n",
        answer: "refused M3 at 3:14: parent is named twice\n",
        accepted: "model M\nclass A end\nclass B < A, C end\nclass C end\n",
    },
    Rule {
        refused: "model C\nclass A < B\nend\nclass B < A\nend\n",
        answer: "refused M4 at 4:7: inheritance has a cycle\n",
        accepted: "model C\nclass A < B\nend\nclass B\nend\n",
    },
    Rule {
        refused: "model M\nclass A < A end\n",
        answer: "refused M4 at 2:7: inheritance has a cycle\n",
        accepted: "model M\nclass A end\n",
    },
    Rule {
        refused: "model M\nclass A attributes y : Integer end\nclass B attributes y : Integer end\nclass D < A, B end\n",
        answer: "refused M5 at 4:7: attribute is met twice\n",
        accepted: "model M\nclass A attributes y : Integer end\nclass B < A end\nclass C < A end\nclass D < B, C end\n",
    },
    Rule {
        refused: "model M\nclass A attributes b : Integer end\nclass B end\nassociation R between A[*] B[*] end\n",
        answer: "refused M6 at 2:7: role clashes\n",
        accepted: "model M\nclass A attributes b : Integer end\nclass B end\nassociation R between A[*] B[*] role c end\n",
    },
    Rule {
        refused: "model M\nclass A operations f() f(x : Integer) end\n",
        answer: "refused M7 at 2:24: operation is declared twice\n",
        accepted: "model M\nclass A operations f() g(x : Integer) end\n",
    },
    Rule {
        refused: "model M\nclass A operations f() : Integer end\nclass B < A operations f() : String end\n",
        answer: "refused M8 at 3:24: overriding changes the signature\n",
        accepted: "model M\nclass A operations f(x : Set(A)) : Integer end\nclass B < A operations f(y : Set(A)) : Integer end\n",
    },
    Rule {
        refused: "model M\nclass A operations f() end\nclass B operations f() end\nclass C < A, B end\n",
        answer: "refused M9 at 4:7: operation is ambiguous\n",
        accepted: "model M\nclass A operations f() end\nclass B operations f() end\nclass C < A, B operations f() end\n",
    },
    Rule {
        refused: "model M\nclass A end\nassociation R between A[2..1] role x A[*] role y end\n",
        answer: "refused M11 at 3:25: bad multiplicity\n",
        accepted: "model M\nclass A end\nassociation R between A[1..1] role x A[*] role y end\n",
    },
    Rule {
        refused: "model M\nclass A end\nassociation R between A[*, 0] role x A[*] role y end\n",
        answer: "refused M11 at 3:28: bad multiplicity\n",
        accepted: "model M\nclass A end\nassociation R between A[*, 0..1] role x A[*] role y end\n",
    },
    Rule {
        refused: "model M\nclass A end\nassociation R between A[1] role x A[4294967296] role y end\n",
        answer: "refused M11 at 3:37: bad multiplicity\n",
        accepted: "model M\nclass A end\nassociation R between A[1] role x A[4294967295] role y end\n",
    },
];

/// Models that break two rules, and the answer, which names the one of the lesser number.
const ORDERS: [(&str, &str); 11] = [
    (
        "model M\nclass A attributes b : B end\nclass A end\n",
        "refused M1 at 3:7: name is declared twice\n",
    ),
    (
        "model M\nclass A end\nclass B < A, A end\nclass C < D end\n",
        "refused M2 at 4:11: unknown class or type\n",
    ),
    (
        "model M\nclass A < A end\nclass B end\nclass C < B, B end\n",
        "refused M3 at 4:14: parent is named twice\n",
    ),
    (
        "model M\nclass A attributes y : Integer y : Integer end\nclass B < B end\n",
        "refused M4 at 3:7: inheritance has a cycle\n",
    ),
    (
        "model M\nclass A attributes b : Integer end\nclass B end\nassociation R between A[*] B[*] end\nclass C attributes y : Integer y : Integer end\n",
        "refused M5 at 5:7: attribute is met twice\n",
    ),
    (
        "model M\nclass A operations f() f() end\nclass B attributes a : Integer end\nassociation R between A[*] B[*] end\n",
        "refused M6 at 3:7: role clashes\n",
    ),
    (
        "model M\nclass A operations f() end\nclass B < A operations f(x : Integer) end\nclass C operations g() g() end\n",
        "refused M7 at 4:24: operation is declared twice\n",
    ),
    (
        "model M\nclass A operations f() end\nclass B operations f() end\nclass C < A, B end\nclass D < A operations f() : Integer end\n",
        "refused M8 at 5:24: overriding changes the signature\n",
    ),
    (
        "model M\nclass A operations f() : Integer = 1 end\nclass B < A operations f() : Integer begin end end\nclass C operations f() : Integer end\nclass D < A, C end\n",
        "refused M9 at 5:7: operation is ambiguous\n",
    ),
    (
        "model M\nclass A operations f() : Integer = 1 end\nassociation R between A[0] A[*] role x end\nclass B < A operations f() : Integer begin end end\n",
        "refused M10 at 4:24: query and statement bodies are mixed\n",
    ),
    (
        "model M\nclass A end\nconstraints context A::f() pre: true\nassociation R between A[0] A[*] role x end\n",
        "refused M11 at 4:25: bad multiplicity\n",
    ),
];

/// Models with bodies and conditions: the rules of declarations come before those of names and types,
/// which are told in the order of the text.
const BODIES: [(&str, &str); 12] = [
    (
        "model M\nclass A operations f() : Integer = 1 end\nclass B < A operations f() : Integer begin result := 2 end end\n",
        "refused M10 at 3:24: query and statement bodies are mixed\n",
    ),
    (
        "model M\nclass A operations f() : Integer = 1 end\nclass B < A operations f() : Integer = 2 end\n",
        "",
    ),
    (
        "model M\nclass A operations f() end\nconstraints\ncontext A::f(x : Integer) pre: true\n",
        "refused M12 at 4:12: no such operation\n",
    ),
    (
        "model M\nclass A operations f() end\nconstraints\ncontext A::f() pre: true\n",
        "",
    ),
    ("model M\nclass A attributes x : Integer = 1 end\n", ""),
    (
        "model M\nclass A attributes x : Integer = 'a' end\n",
        "refused T5 at 2:34: value does not conform\n",
    ),
    (
        "model M\nclass A operations f() = 1 end\n",
        "refused T12 at 2:26: result is missing or not wanted\n",
    ),
    (
        "model M\nclass A end constraints context A inv: 1\n",
        "refused T4 at 2:40: condition is not Boolean\n",
    ),
    (
        "model M\nclass A operations f() : Integer\npre: result = 1 end\n",
        "refused N1 at 3:6: unknown name\n",
    ),
    (
        "model M\nclass A operations f() : Integer\npost: result = 1 and self.oclIsNew() end\n",
        "",
    ),
    (
        "model M\nclass A operations f()\nbegin self := null end end\n",
        "refused T11 at 3:7: cannot be assigned or called\n",
    ),
    (
        "model M\nclass A operations f() : Integer\nbegin nobody.x := 1; result := 1 end\npre: 1 end\n",
        "refused N1 at 3:7: unknown name\n",
    ),
];

/// Something that a model may have so many of: what stands before, one of them with `#` for its
/// number, what stands behind, how many there may be, and the answers to so many and to one more.
struct Limit {
    front: &'static str,
    one: &'static str,
    back: &'static str,
    most: u32,
    within: &'static str,
    answer: &'static str,
}

const LIMITS: [Limit; 9] = [
    Limit {
        front: "model M\n",
        one: "class C# end\n",
        back: "",
        most: 200,
        within: "",
        answer: "refused M13 at 202:7: too many classes\n",
    },
    Limit {
        front: "model M\nclass A attributes\n",
        one: "a# : Integer\n",
        back: "end\n",
        most: 64,
        within: "",
        answer: "refused M14 at 2:7: too many attributes or operations\n",
    },
    Limit {
        front: "model M\nclass A operations\n",
        one: "f#()\n",
        back: "end\n",
        most: 64,
        within: "",
        answer: "refused M14 at 2:7: too many attributes or operations\n",
    },
    Limit {
        front: "model M\nclass A end\n",
        one: "association R# between A[*] role a# A[*] role b# end\n",
        back: "",
        most: 200,
        within: "",
        answer: "refused M15 at 203:13: too many associations\n",
    },
    Limit {
        front: "model M\nclass A operations\nf(p : Integer\n",
        one: ", p# : Integer\n",
        back: ") end\n",
        most: 15,
        within: "",
        answer: "refused M17 at 3:1: too many parameters or contracts\n",
    },
    Limit {
        front: "model M\n",
        one: "enum E# {x}\n",
        back: "",
        most: 200,
        within: "",
        answer: "refused M18 at 202:6: too many enumerations or literals\n",
    },
    Limit {
        front: "model M\nenum E {x\n",
        one: ", x#\n",
        back: "}\n",
        most: 999,
        within: "",
        answer: "refused M18 at 1002:3: too many enumerations or literals\n",
    },
    Limit {
        front: "model M\nclass A end\nconstraints\n",
        one: "context A inv i#: true\n",
        back: "",
        most: 200,
        within: "",
        answer: "refused M16 at 204:15: too many invariants\n",
    },
    Limit {
        front: "model M\nclass A operations f()\n",
        one: "pre p#: true\n",
        back: "end\n",
        most: 64,
        within: "",
        answer: "refused M17 at 2:20: too many parameters or contracts\n",
    },
];

/// How a model is answered: nothing where it is accepted.
fn answer<L: Ledger>(alloc: Global, model: &[u8], blank: Blank) -> Result<Vec<u8>, Fail>
    requires name { blank.name ≡ L.name }
    requires parts { blank.parts ≡ L.parts }
    requires some { 0 < blank.parts }
{
    let (out, _) = played::<L>(alloc, &["M.use"], model, Vec::new(alloc), 1, blank)?;
    Ok(out)
}

fn add_numbered(alloc: Global, one: &str, number: u32, text: &mut Vec<u8>) -> Result<(), Fail> {
    for byte in one.as_bytes() {
        if *byte == b'#' {
            let digits = format!(in alloc; "{number}")?;
            text.extend_from_slice(digits.as_bytes())?;
        } else {
            text.push(*byte)?;
        }
    }
    Ok(())
}

fn model_with(alloc: Global, limit: &Limit, count: u32) -> Result<Vec<u8>, Fail> {
    let mut text = limit.front.as_bytes().to_vec(alloc)?;
    for number in 0..count {
        add_numbered(alloc, limit.one, number, &mut text)?;
    }
    text.extend_from_slice(limit.back.as_bytes())?;
    Ok(text)
}

#[test]
fn each_rule_refuses_a_model_and_accepts_the_nearest(rt: HostRuntime) -> Result<(), Fail> {
    let alloc = rt.alloc();
    for rule in RULES.iter() {
        let refused = answer::<Brand>(alloc, rule.refused.as_bytes(), Blank::new(1))?;
        assert_eq!(rt; refused.as_slice(), rule.answer.as_bytes());
        let accepted = answer::<Brand>(alloc, rule.accepted.as_bytes(), Blank::new(1))?;
        assert_eq!(rt; accepted.as_slice(), b"".as_slice(), "{}", rule.accepted);
    }
    Ok(())
}

#[test]
fn of_two_broken_rules_the_lesser_is_told(rt: HostRuntime) -> Result<(), Fail> {
    let alloc = rt.alloc();
    for (model, wanted) in ORDERS.iter() {
        let out = answer::<Brand>(alloc, model.as_bytes(), Blank::new(1))?;
        assert_eq!(rt; out.as_slice(), wanted.as_bytes());
    }
    Ok(())
}

#[test]
fn bodies_and_conditions_are_judged_in_the_order_of_the_text(rt: HostRuntime) -> Result<(), Fail> {
    let alloc = rt.alloc();
    for (model, wanted) in BODIES.iter() {
        let out = answer::<Brand>(alloc, model.as_bytes(), Blank::new(1))?;
        assert_eq!(rt; out.as_slice(), wanted.as_bytes());
    }
    Ok(())
}

#[test]
fn a_model_has_as_much_as_it_may_and_no_more(rt: HostRuntime) -> Result<(), Fail> {
    let alloc = rt.alloc();
    for limit in LIMITS.iter() {
        let most = model_with(alloc, limit, limit.most)?;
        let accepted = answer::<Brand>(alloc, &most, Blank::new(1))?;
        assert_eq!(rt;
            accepted.as_slice(),
            limit.within.as_bytes(),
            "{}",
            limit.one
        );
        let more = model_with(alloc, limit, limit.most.saturating_add(1))?;
        let refused = answer::<Brand>(alloc, &more, Blank::new(1))?;
        assert_eq!(rt; refused.as_slice(), limit.answer.as_bytes());
    }
    Ok(())
}
