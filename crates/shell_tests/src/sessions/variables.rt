use super::Line;

/// A variable of the shell has the type of what it was last given; a local one ends with its block.
pub static VARIABLES: &[Line] = &[
    ("!x := 1", ""),
    ("? x", "-> 1 : Integer\n"),
    ("!x := 'one'", ""),
    ("info vars", "x : String = 'one'\n"),
    ("!x := Set{1, 2}; y := x->including(3)", ""),
    (
        "info vars",
        "x : Set(Integer) = Set{1,2}\ny : Set(Integer) = Set{1,2,3}\n",
    ),
    ("!declare d : Integer; d := 5; x := Set{d}", ""),
    (
        "info vars",
        "x : Set(Integer) = Set{5}\ny : Set(Integer) = Set{1,2,3}\n",
    ),
    ("? d", "refused N1 at 9:3: unknown name\n"),
    ("!if true then k := 1; x := Set{k} end", ""),
    ("? k", "refused N1 at 11:3: unknown name\n"),
    (
        "!if true then x := 'no' end",
        "refused T5 at 12:20: value does not conform\n",
    ),
    ("!y := null", ""),
    (
        "info vars",
        "x : Set(Integer) = Set{1}\ny : OclVoid = null\n",
    ),
    ("!y := OrderedSet{}", ""),
    ("? y", "-> OrderedSet{} : OrderedSet(OclVoid)\n"),
    ("!z := Sequence{#red, #green, null}", ""),
    (
        "? z",
        "-> Sequence{Colour::red,Colour::green,null} : Sequence(Colour)\n",
    ),
    ("!create x : Box", "refused X1 at 19:2: name is taken\n"),
    ("!create b : Box", ""),
    ("!b := b", ""),
    ("!b := 3", "refused X1 at 22:2: name is taken\n"),
    ("!if true then b := b end", ""),
    (
        "!if true then b := 3 end",
        "refused X1 at 24:15: name is taken\n",
    ),
    ("!u := b; destroy u", ""),
    (
        "info vars",
        "u : Box = null\nx : Set(Integer) = Set{1}\ny : OrderedSet(OclVoid) = OrderedSet{}\nz : Sequence(Colour) = Sequence{Colour::red,Colour::green,null}\n",
    ),
    ("!q := null; q := 1; declare q : Integer", ""),
    ("!q := if true then 1 else 'a' endif", ""),
    (
        "info vars",
        "q : OclAny = 1\nu : Box = null\nx : Set(Integer) = Set{1}\ny : OrderedSet(OclVoid) = OrderedSet{}\nz : Sequence(Colour) = Sequence{Colour::red,Colour::green,null}\n",
    ),
    (
        "!x := invalid",
        "refused X12 at 30:2: value is invalid or holds a destroyed object\n",
    ),
    (
        "!x := 1 div 0",
        "refused X12 at 31:2: value is invalid or holds a destroyed object\n",
    ),
    (
        "!self := 1",
        "refused T11 at 32:2: cannot be assigned or called\n",
    ),
    ("!result := 2", ""),
    ("? result", "-> 2 : Integer\n"),
];
