use super::Line;

/// Branches and loops.
pub static CONTROL: &[Line] = &[
    (
        "!create a, b, c : Box; a.size := 1; b.size := 2; c.size := 3",
        "",
    ),
    (
        "!sum := 0; for i in Box.allInstances() do sum := sum + i.size end",
        "",
    ),
    ("? sum", "-> 6 : Integer\n"),
    (
        "!n := 3; while n > 0 do n := n - 1; create b1 : Shelf; destroy b1 end",
        "",
    ),
    ("? n", "-> 0 : Integer\n"),
    (
        "!for i in Sequence{3, 1, 2} do if i > 1 then last := i else last := 0 end; sum := sum * 10 + i end",
        "",
    ),
    ("? sum", "-> 6312 : Integer\n"),
    ("!for i in Set{} do sum := 0 end", ""),
    (
        "!for x in Box.allInstances() do x.size := x.size + 1; for y in x.parts do y.size := 0 end end",
        "refused X11 at 9:55: collection is null or invalid\n",
    ),
    (
        "? Box.allInstances()->collect(size)",
        "-> Bag{1,2,3} : Bag(Integer)\n",
    ),
    (
        "!if null then sum := 1 end",
        "refused X10 at 11:2: condition is null or invalid\n",
    ),
    (
        "!if 1 div 0 = 1 then sum := 1 else sum := 2 end",
        "refused X10 at 12:2: condition is null or invalid\n",
    ),
    (
        "!while null do sum := 1 end",
        "refused X10 at 13:2: condition is null or invalid\n",
    ),
    (
        "!for i in null do sum := 1 end",
        "refused X11 at 14:2: collection is null or invalid\n",
    ),
    (
        "!for i in Set{1, 2} do for j in Sequence{i..2} do sum := sum + i * j end end",
        "",
    ),
    ("? sum", "-> 6319 : Integer\n"),
    ("!;; ;", ""),
    ("!", ""),
    ("? sum", "-> 6319 : Integer\n"),
    (
        "!for i in Sequence{1..3} do sum := i; sum := sum div (2 - i) end",
        "refused X12 at 20:39: value is invalid or holds a destroyed object\n",
    ),
    ("? sum", "-> 6319 : Integer\n"),
    ("undo", ""),
    ("? sum", "-> 6319 : Integer\n"),
];
