use super::Line;

/// For each rule a command that it refuses.
pub static REFUSALS: &[Line] = &[
    ("$", "refused L2 at 1:1: no token begins here\n"),
    (
        "? 170141183460469231731687303715884105728",
        "refused L3 at 2:3: number past the range\n",
    ),
    (
        "? 'x",
        "refused L4 at 3:3: string or comment is not closed\n",
    ),
    (
        "? /* x",
        "refused L4 at 4:3: string or comment is not closed\n",
    ),
    (
        "? aaaaaaaaaabbbbbbbbbbaaaaaaaaaabbbbbbbbbbaaaaaaaaaabbbbbbbbbbaaaaax",
        "refused L5 at 5:3: name is too long\n",
    ),
    ("? 1 +", "refused S1 at 6:6: unexpected token\n"),
    ("!create a", "refused S1 at 7:10: unexpected token\n"),
    ("undo 1", "refused S1 at 8:6: unexpected token\n"),
    ("?", "refused S1 at 9:2: unexpected token\n"),
    ("! x", "refused N1 at 10:3: unknown name\n"),
    ("? nobody", "refused N1 at 11:3: unknown name\n"),
    ("? Nope::a", "refused N1 at 12:3: unknown name\n"),
    ("!create a : Nope", "refused T13 at 13:13: not a class\n"),
    ("!create a : Colour", "refused T13 at 14:13: not a class\n"),
    ("!create a, b : Box; a.label := 'l'", ""),
    ("? a.nope", "refused N2 at 16:5: unknown property\n"),
    (
        "!insert (a, b) into Nope",
        "refused N3 at 17:21: unknown literal, association, topic or switch\n",
    ),
    (
        "? #blue",
        "refused N3 at 18:4: unknown literal, association, topic or switch\n",
    ),
    (
        "? 1 + 'a'",
        "refused T1 at 19:5: operand of the wrong type\n",
    ),
    (
        "? 'a'.substring(1)",
        "refused T2 at 20:7: wrong number of arguments\n",
    ),
    (
        "? 'a'.at('x')",
        "refused T3 at 21:7: argument of the wrong type\n",
    ),
    (
        "!if 1 then a.size := 1 end",
        "refused T4 at 22:5: condition is not Boolean\n",
    ),
    (
        "!a.size := 'x'",
        "refused T5 at 23:12: value does not conform\n",
    ),
    (
        "? Set{1}->first()",
        "refused T6 at 24:11: operation is not for this collection\n",
    ),
    (
        "? Set{1}->select(x, y | true)",
        "refused T7 at 25:11: iterator is not well formed\n",
    ),
    (
        "? Box",
        "refused T8 at 26:3: type where a value is wanted, or the contrary\n",
    ),
    (
        "? a.oclIsNew()",
        "refused T9 at 27:5: only in postconditions\n",
    ),
    (
        "? a.grow(1)",
        "refused T10 at 28:5: operation is not a query\n",
    ),
    ("!a", "refused T11 at 29:2: cannot be assigned or called\n"),
    (
        "!a.twice := 1",
        "refused T11 at 30:2: cannot be assigned or called\n",
    ),
    ("!a.grow", "refused N2 at 31:4: unknown property\n"),
    ("!x := a.size()", "refused N2 at 32:9: unknown property\n"),
    (
        "!x := a.grow(1)",
        "refused T12 at 33:2: result is missing or not wanted\n",
    ),
    (
        "? Set{1}->sum(2)",
        "refused T2 at 34:11: wrong number of arguments\n",
    ),
    ("!new Colour", "refused T13 at 35:6: not a class\n"),
    ("!destroy 1", "refused T14 at 36:10: object is wanted\n"),
    (
        "!for i in 1 do end",
        "refused T15 at 37:11: collection is wanted\n",
    ),
    (
        "!insert (a, b) into Holds",
        "refused T5 at 38:10: value does not conform\n",
    ),
    (
        "? a.oclIsTypeOf(Nope)",
        "refused N1 at 39:17: unknown name\n",
    ),
    ("!create a : Box", "refused X1 at 40:2: name is taken\n"),
    ("!create c, c : Box", "refused X1 at 41:2: name is taken\n"),
    (
        "!create t : Thing",
        "refused X2 at 42:2: class is abstract\n",
    ),
    ("!new Thing", "refused X2 at 43:2: class is abstract\n"),
    (
        "!insert (a, b) into Knows; insert (a, b) into Knows",
        "refused X3 at 44:28: link is there already\n",
    ),
    (
        "!delete (a, b) from Knows",
        "refused X4 at 45:2: no such link\n",
    ),
    ("!destroy null", "refused X5 at 46:2: no such object\n"),
    ("!a.inner.size := 1", "refused X5 at 47:2: no such object\n"),
    (
        "!if null then end",
        "refused X10 at 48:2: condition is null or invalid\n",
    ),
    (
        "!for i in a.parts do end",
        "refused X11 at 49:2: collection is null or invalid\n",
    ),
    (
        "!a.size := 1 div 0",
        "refused X12 at 50:2: value is invalid or holds a destroyed object\n",
    ),
    ("!new Box('x y')", "refused X14 at 51:2: not a name\n"),
    ("!new Box('')", "refused X14 at 52:2: not a name\n"),
    ("!new Box(null)", "refused X14 at 53:2: not a name\n"),
    ("!new Box('self')", ""),
    ("!new Box('Box')", ""),
    ("!new Box('class')", "refused X14 at 56:2: not a name\n"),
    (
        "? Sequence{1..1000000}->size()",
        "refused B1 at 57:3: evaluation budget is spent\n",
    ),
    (
        "!a.size := Sequence{1..1000000}->size()",
        "refused B1 at 58:2: evaluation budget is spent\n",
    ),
    (
        "!a.size := 1; while true do a.size := a.size + 1 end",
        "refused X13 at 59:29: command changes too much\n",
    ),
    ("!for i in Sequence{1..20000} do x := i end", ""),
    (
        "!for i in Sequence{1..20000} do x := i; x := i end",
        "refused B2 at 61:2: statement budget is spent\n",
    ),
    (
        "!while true do x := 1 end",
        "refused B2 at 62:2: statement budget is spent\n",
    ),
    ("undo", ""),
    ("undo", ""),
    ("redo", ""),
    ("redo", ""),
    ("redo", "refused U2 at 67:1: nothing to redo\n"),
    ("undo", ""),
    ("undo", ""),
    ("undo", ""),
    ("? a", "-> a : Box\n"),
];
