use super::Line;

/// Links are walked from both ends, in the order in which they were made where that is wanted.
pub static LINKS: &[Line] = &[
    ("!create s, t : Shelf; create a, b, c : Box", ""),
    ("!insert (s, b) into Holds; insert (s, a) into Holds", ""),
    ("? s.boxes", "-> OrderedSet{b,a} : OrderedSet(Box)\n"),
    ("? a.shelf", "-> s : Shelf\n"),
    ("!insert (t, a) into Holds", ""),
    ("? a.shelf", "-> invalid : Shelf\n"),
    (
        "!insert (s, a) into Holds",
        "refused X3 at 7:2: link is there already\n",
    ),
    ("!delete (t, a) from Holds", ""),
    (
        "!delete (t, a) from Holds",
        "refused X4 at 9:2: no such link\n",
    ),
    ("? a.shelf", "-> s : Shelf\n"),
    (
        "!insert (a, b) into Knows; insert (b, a) into Knows; insert (a, a) into Knows; insert (a, c) into Knows",
        "",
    ),
    ("? a.idol", "-> Set{a,b,c} : Set(Box)\n"),
    ("? a.fan.idol", "-> Bag{a,a,b,c} : Bag(Box)\n"),
    (
        "? a.idol->collect(x | x.fan->size())",
        "-> Bag{1,1,2} : Bag(Integer)\n",
    ),
    ("? c.idol", "-> Set{} : Set(Box)\n"),
    ("!delete (s, b) from Holds; insert (s, b) into Holds", ""),
    ("? s.boxes", "-> OrderedSet{a,b} : OrderedSet(Box)\n"),
    (
        "info state",
        "objects 5\ns : Shelf\n  label = null\nt : Shelf\n  label = null\na : Box\n  label = null\n  size = null\n  colour = null\n  inner = null\n  parts = null\nb : Box\n  label = null\n  size = null\n  colour = null\n  inner = null\n  parts = null\nc : Box\n  label = null\n  size = null\n  colour = null\n  inner = null\n  parts = null\nlinks 6\nHolds (s,a)\nHolds (s,b)\nKnows (a,b)\nKnows (b,a)\nKnows (a,a)\nKnows (a,c)\n",
    ),
    ("undo", ""),
    ("? s.boxes", "-> OrderedSet{b,a} : OrderedSet(Box)\n"),
    (
        "!insert (null, a) into Holds",
        "refused X5 at 21:2: no such object\n",
    ),
    (
        "!delete (s, invalid) from Holds",
        "refused X5 at 22:2: no such object\n",
    ),
];
