use super::Line;

/// A refused list of statements leaves no trace, whatever it had done before.
pub static ROLLED_BACK: &[Line] = &[
    (
        "!create s : Shelf; create a, b : Box; a.size := 1; b.inner := a; v := a; insert (s, a) into Holds; insert (a, b) into Knows",
        "",
    ),
    (
        "info state",
        "objects 3\ns : Shelf\n  label = null\na : Box\n  label = null\n  size = 1\n  colour = null\n  inner = null\n  parts = null\nb : Box\n  label = null\n  size = null\n  colour = null\n  inner = a\n  parts = null\nlinks 2\nHolds (s,a)\nKnows (a,b)\n",
    ),
    ("info vars", "v : Box = a\n"),
    (
        "!a.size := 2; create c : Box; insert (s, b) into Holds; destroy a; w := 1; v := null; if true then x := 1; b.inner := c; for i in Box.allInstances() do i.size := 9; delete (s, i) from Holds end end; b.size := 1 div 0",
        "refused X4 at 4:166: no such link\n",
    ),
    (
        "info state",
        "objects 3\ns : Shelf\n  label = null\na : Box\n  label = null\n  size = 1\n  colour = null\n  inner = null\n  parts = null\nb : Box\n  label = null\n  size = null\n  colour = null\n  inner = a\n  parts = null\nlinks 2\nHolds (s,a)\nKnows (a,b)\n",
    ),
    ("info vars", "v : Box = a\n"),
    (
        "!for i in Sequence{1..2} do new Box; destroy b end",
        "refused X5 at 7:38: no such object\n",
    ),
    (
        "info state",
        "objects 3\ns : Shelf\n  label = null\na : Box\n  label = null\n  size = 1\n  colour = null\n  inner = null\n  parts = null\nb : Box\n  label = null\n  size = null\n  colour = null\n  inner = a\n  parts = null\nlinks 2\nHolds (s,a)\nKnows (a,b)\n",
    ),
    ("!create d : Box", ""),
    ("? d", "-> d : Box\n"),
    ("? Thing.allInstances()", "-> Set{s,a,b,d} : Set(Thing)\n"),
    ("!new Box", ""),
    (
        "? Thing.allInstances()",
        "-> Set{s,a,b,d,Box5} : Set(Thing)\n",
    ),
    ("undo", ""),
    ("undo", ""),
    ("undo", ""),
    ("undo", "refused U1 at 17:1: nothing to undo\n"),
    ("info state", "objects 0\nlinks 0\n"),
    ("redo", ""),
    ("redo", ""),
    ("!create z : Shelf", ""),
    ("redo", "refused U2 at 22:1: nothing to redo\n"),
    (
        "info state",
        "objects 5\ns : Shelf\n  label = null\na : Box\n  label = null\n  size = 1\n  colour = null\n  inner = null\n  parts = null\nb : Box\n  label = null\n  size = null\n  colour = null\n  inner = a\n  parts = null\nd : Box\n  label = null\n  size = null\n  colour = null\n  inner = null\n  parts = null\nz : Shelf\n  label = null\nlinks 2\nHolds (s,a)\nKnows (a,b)\n",
    ),
];
