use super::Line;

/// Objects come with attributes that hold null, and keep what is stored in them.
pub static OBJECTS: &[Line] = &[
    ("!create a, b : Box", ""),
    ("? a", "-> a : Box\n"),
    ("? a.size", "-> null : Integer\n"),
    ("!a.size := 3; set b.size := a.size + 1", ""),
    (
        "? Sequence{a.size, b.size, a.twice, a.bigger(4)}",
        "-> Sequence{3,4,6,7} : Sequence(Integer)\n",
    ),
    (
        "!a.label := 'it''s\\n' ",
        "refused S1 at 6:17: unexpected token\n",
    ),
    ("!a.label := 'it\\'s\\n'", ""),
    ("? a.label", "-> 'it\\'s\\n' : String\n"),
    ("!a.colour := #green", ""),
    ("? a.colour", "-> Colour::green : Colour\n"),
    ("!new Box('c')", ""),
    ("!new Box", ""),
    ("? Box.allInstances()", "-> Set{a,b,c,Box4} : Set(Box)\n"),
    ("!Box5 := 5; new Box", ""),
    ("? Thing.allInstances()->size()", "-> 5 : Integer\n"),
    ("!a.inner := new Box('e'); a.parts := Set{b, a}", ""),
    ("? a.inner.inner", "-> null : Box\n"),
    ("? a.parts", "-> Set{a,b} : Set(Box)\n"),
    ("? a.parts.size", "-> Bag{3,4} : Bag(Integer)\n"),
    ("!set a.size := a.size", ""),
    ("!create view, undo : Shelf", ""),
    ("? Shelf.allInstances()", "-> Set{view,undo} : Set(Shelf)\n"),
    (
        "info state",
        "objects 8\na : Box\n  label = 'it\\'s\\n'\n  size = 3\n  colour = Colour::green\n  inner = e\n  parts = Set{a,b}\nb : Box\n  label = null\n  size = 4\n  colour = null\n  inner = null\n  parts = null\nc : Box\n  label = null\n  size = null\n  colour = null\n  inner = null\n  parts = null\nBox4 : Box\n  label = null\n  size = null\n  colour = null\n  inner = null\n  parts = null\nBox6 : Box\n  label = null\n  size = null\n  colour = null\n  inner = null\n  parts = null\ne : Box\n  label = null\n  size = null\n  colour = null\n  inner = null\n  parts = null\nview : Shelf\n  label = null\nundo : Shelf\n  label = null\nlinks 0\n",
    ),
];
