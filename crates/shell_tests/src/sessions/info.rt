use super::Line;

/// What is told of classes, the model, the state and the variables.
pub static INFO: &[Line] = &[
    (
        "info model",
        "model Boxes\nenums 1\nclasses 3\nassociations 2\ninvariants 1\n",
    ),
    (
        "info class Box",
        "class Box < Thing\nattribute label : String\nattribute size : Integer\nattribute colour : Colour\nattribute inner : Box\nattribute parts : Set(Box)\noperation bigger(by : Integer) : Integer\noperation grow(by : Integer)\ninstances 0\n",
    ),
    (
        "info class Thing",
        "abstract class Thing\nattribute label : String\ninstances 0\n",
    ),
    (
        "info class Shelf",
        "class Shelf < Thing\nattribute label : String\ninstances 0\n",
    ),
    ("info class Nope", "refused T13 at 5:12: not a class\n"),
    ("info class Colour", "refused T13 at 6:12: not a class\n"),
    (
        "info nope",
        "refused N3 at 7:6: unknown literal, association, topic or switch\n",
    ),
    ("info state", "objects 0\nlinks 0\n"),
    ("info vars", "no variables\n"),
    (
        "!create a, b : Box; create s : Shelf; x := Set{Set{a, b}}; y := null",
        "",
    ),
    (
        "info class Thing",
        "abstract class Thing\nattribute label : String\ninstances 3\n",
    ),
    (
        "info class Box",
        "class Box < Thing\nattribute label : String\nattribute size : Integer\nattribute colour : Colour\nattribute inner : Box\nattribute parts : Set(Box)\noperation bigger(by : Integer) : Integer\noperation grow(by : Integer)\ninstances 2\n",
    ),
    (
        "info vars",
        "x : Set(Set(Box)) = Set{Set{a,b}}\ny : OclVoid = null\n",
    ),
    ("info", "refused S1 at 14:5: unexpected token\n"),
    ("info class", "refused S1 at 15:11: unexpected token\n"),
];
