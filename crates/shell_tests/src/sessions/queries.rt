use super::Line;

/// Values with their types.
pub static QUERIES: &[Line] = &[
    ("? 1 + 2 * 3", "-> 7 : Integer\n"),
    ("? -7 div 2", "-> -3 : Integer\n"),
    ("? -7 mod 2", "-> -1 : Integer\n"),
    ("? 2 - 3 - 4", "-> -5 : Integer\n"),
    (
        "? 170141183460469231731687303715884105727 + 1",
        "-> invalid : Integer\n",
    ),
    (
        "? -170141183460469231731687303715884105727 - 1",
        "-> -170141183460469231731687303715884105728 : Integer\n",
    ),
    ("? (1 div 0 = 1) or true", "-> true : Boolean\n"),
    ("? (null < 1) and true", "-> invalid : Boolean\n"),
    ("? null implies true", "-> true : Boolean\n"),
    ("? not null", "-> null : Boolean\n"),
    ("? null = null", "-> true : Boolean\n"),
    ("? Set{3,1,3,2}", "-> Set{1,2,3} : Set(Integer)\n"),
    ("? Sequence{}->first()", "-> invalid : OclVoid\n"),
    (
        "? Bag{2,1}->union(Bag{2})",
        "-> Bag{1,2,2} : Bag(Integer)\n",
    ),
    (
        "? Sequence{3,1}->collect(x | Set{x, x+1})",
        "-> Sequence{3,4,1,2} : Sequence(Integer)\n",
    ),
    (
        "? Sequence{1..4}->iterate(x; s : Integer = 0 | s + x)",
        "-> 10 : Integer\n",
    ),
    (
        "? Sequence{1,2}->forAll(a, b | a <= b)",
        "-> false : Boolean\n",
    ),
    ("? Set{1, null}->sum()", "-> invalid : Integer\n"),
    (
        "? OrderedSet{2, 1, 2}->append(5)",
        "-> OrderedSet{2,1,5} : OrderedSet(Integer)\n",
    ),
    ("? 'Grüße'.size()", "-> 5 : Integer\n"),
    ("? 'Grüße'.toUpperCase()", "-> 'GRüßE' : String\n"),
    ("? 'abc'.substring(2, 3)", "-> 'bc' : String\n"),
    ("? 'a\\\\\\'\\n\\t'", "-> 'a\\\\\\'\\n\\t' : String\n"),
    ("? 12.toString()", "-> '12' : String\n"),
    (
        "? Sequence{'cc','b','a'}->sortedBy(s | s.size())",
        "-> Sequence{'b','a','cc'} : Sequence(String)\n",
    ),
    ("? let a : Integer = 3, b = 4 in a * b", "-> 12 : Integer\n"),
    ("? if 1 < 2 then 'yes' else 0 endif", "-> 'yes' : OclAny\n"),
    ("? Colour::red", "-> Colour::red : Colour\n"),
    ("? #green = Colour::green", "-> true : Boolean\n"),
    (
        "? Sequence{#green, #red}->sortedBy(c | c)",
        "-> Sequence{Colour::red,Colour::green} : Sequence(Colour)\n",
    ),
    ("? null", "-> null : OclVoid\n"),
    ("? Undefined", "-> null : OclVoid\n"),
    ("? invalid", "-> invalid : OclVoid\n"),
    ("? 1->size()", "-> 1 : Integer\n"),
    ("? null->size()", "-> 0 : Integer\n"),
    ("? 3.oclIsTypeOf(Integer)", "-> true : Boolean\n"),
    (
        "? Set{1,2}->select(x | x > 1)->notEmpty()",
        "-> true : Boolean\n",
    ),
    (
        "? Set{Set{1}, Set{}}->flatten()",
        "-> Set{1} : Set(Integer)\n",
    ),
    (
        "? Sequence{Set{2, 1}, Bag{1}}",
        "-> Sequence{Set{1,2},Bag{1}} : Sequence(OclAny)\n",
    ),
    ("? Set{1, 'a', true}", "-> Set{true,1,'a'} : Set(OclAny)\n"),
    (
        "? Box.allInstances()->collect(label)",
        "-> Bag{} : Bag(String)\n",
    ),
    ("? Sequence{1..400000}->size()", "-> 400000 : Integer\n"),
];
