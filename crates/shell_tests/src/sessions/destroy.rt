use super::Line;

/// A destroyed object leaves no link, and goes out of attributes, variables and collections.
pub static DESTROYED: &[Line] = &[
    ("!create s : Shelf; create a, b, c : Box", ""),
    (
        "!insert (s, a) into Holds; insert (a, b) into Knows; insert (c, a) into Knows",
        "",
    ),
    (
        "!a.inner := b; b.inner := b; c.parts := Set{a, b}; c.inner := a",
        "",
    ),
    (
        "!v := b; w := Sequence{Set{a}, Set{b, a}, Set{b}}; n := 4",
        "",
    ),
    ("!destroy b", ""),
    (
        "info state",
        "objects 3\ns : Shelf\n  label = null\na : Box\n  label = null\n  size = null\n  colour = null\n  inner = null\n  parts = null\nc : Box\n  label = null\n  size = null\n  colour = null\n  inner = a\n  parts = Set{a}\nlinks 2\nHolds (s,a)\nKnows (c,a)\n",
    ),
    (
        "info vars",
        "n : Integer = 4\nv : Box = null\nw : Sequence(Set(Box)) = Sequence{Set{a},Set{a},Set{}}\n",
    ),
    ("!destroy b", "refused N1 at 8:10: unknown name\n"),
    ("!destroy a, a", "refused X5 at 9:2: no such object\n"),
    ("!x := Set{a}; destroy x->any(true); y := x", ""),
    ("? x", "-> Set{} : Set(Box)\n"),
    ("? a.isDefined()", "refused N1 at 12:3: unknown name\n"),
    (
        "info vars",
        "n : Integer = 4\nv : Box = null\nw : Sequence(Set(Box)) = Sequence{Set{},Set{},Set{}}\nx : Set(Box) = Set{}\ny : Set(Box) = Set{}\n",
    ),
    (
        "info state",
        "objects 2\ns : Shelf\n  label = null\nc : Box\n  label = null\n  size = null\n  colour = null\n  inner = null\n  parts = Set{}\nlinks 0\n",
    ),
    ("undo", ""),
    ("undo", ""),
    (
        "info vars",
        "n : Integer = 4\nv : Box = b\nw : Sequence(Set(Box)) = Sequence{Set{a},Set{a,b},Set{b}}\n",
    ),
    ("!for i in Box.allInstances() do destroy i end", ""),
    (
        "info state",
        "objects 1\ns : Shelf\n  label = null\nlinks 0\n",
    ),
    ("!create a : Box", ""),
    ("? Box.allInstances()", "-> Set{a} : Set(Box)\n"),
    ("!destroy null", "refused X5 at 22:2: no such object\n"),
    (
        "!for i in Set{a} do destroy i; i.size := 1 end",
        "refused X5 at 23:32: no such object\n",
    ),
    (
        "!for i in Set{a} do destroy i; z := i end",
        "refused X12 at 24:32: value is invalid or holds a destroyed object\n",
    ),
    (
        "!for i in Set{a} do destroy i; insert (s, i) into Holds end",
        "refused X5 at 25:32: no such object\n",
    ),
    (
        "!for i in Set{a} do destroy i; w := Sequence{Set{i}} end",
        "refused X12 at 26:32: value is invalid or holds a destroyed object\n",
    ),
    ("? a", "-> a : Box\n"),
];
