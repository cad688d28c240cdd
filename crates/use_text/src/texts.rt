// The texts of refusals, each with its number in its family.

pub const K_TEXTS: [(u8, &str); 2] = [(1, "command is too long"), (2, "block is not closed")];

pub const L_TEXTS: [(u8, &str); 5] = [
    (1, "text is not UTF-8"),
    (2, "no token begins here"),
    (3, "number past the range"),
    (4, "string or comment is not closed"),
    (5, "name is too long"),
];

pub const S_TEXTS: [(u8, &str); 3] = [
    (0, "form is not built yet"),
    (1, "unexpected token"),
    (2, "nested too deeply"),
];

pub const M_TEXTS: [(u8, &str); 18] = [
    (1, "name is declared twice"),
    (2, "unknown class or type"),
    (3, "parent is named twice"),
    (4, "inheritance has a cycle"),
    (5, "attribute is met twice"),
    (6, "role clashes"),
    (7, "operation is declared twice"),
    (8, "overriding changes the signature"),
    (9, "operation is ambiguous"),
    (10, "query and statement bodies are mixed"),
    (11, "bad multiplicity"),
    (12, "no such operation"),
    (13, "too many classes"),
    (14, "too many attributes or operations"),
    (15, "too many associations"),
    (16, "too many invariants"),
    (17, "too many parameters or contracts"),
    (18, "too many enumerations or literals"),
];

pub const N_TEXTS: [(u8, &str); 3] = [
    (1, "unknown name"),
    (2, "unknown property"),
    (3, "unknown literal, association, topic or switch"),
];

pub const T_TEXTS: [(u8, &str); 16] = [
    (1, "operand of the wrong type"),
    (2, "wrong number of arguments"),
    (3, "argument of the wrong type"),
    (4, "condition is not Boolean"),
    (5, "value does not conform"),
    (6, "operation is not for this collection"),
    (7, "iterator is not well formed"),
    (8, "type where a value is wanted, or the contrary"),
    (9, "only in postconditions"),
    (10, "operation is not a query"),
    (11, "cannot be assigned or called"),
    (12, "result is missing or not wanted"),
    (13, "not a class"),
    (14, "object is wanted"),
    (15, "collection is wanted"),
    (16, "expression is too deep"),
];

pub const X_TEXTS: [(u8, &str); 15] = [
    (1, "name is taken"),
    (2, "class is abstract"),
    (3, "link is there already"),
    (4, "no such link"),
    (5, "no such object"),
    (6, "too many objects"),
    (7, "too many links"),
    (8, "state is too large"),
    (9, "operation has no body"),
    (10, "condition is null or invalid"),
    (11, "collection is null or invalid"),
    (12, "value is invalid or holds a destroyed object"),
    (13, "command changes too much"),
    (14, "not a name"),
    (15, "counter is spent"),
];

pub const B_TEXTS: [(u8, &str); 3] = [
    (1, "evaluation budget is spent"),
    (2, "statement budget is spent"),
    (3, "nesting budget is spent"),
];

pub const C_TEXTS: [(u8, &str); 4] = [
    (1, "precondition C::N is V"),
    (2, "postcondition C::N is V"),
    (3, "no operation is open"),
    (4, "too many open operations"),
];

pub const U_TEXTS: [(u8, &str); 2] = [(1, "nothing to undo"), (2, "nothing to redo")];

pub const F_TEXTS: [(u8, &str); 3] = [
    (1, "no such file"),
    (2, "file is too long"),
    (3, "files are open 8 deep"),
];

pub const V_TEXTS: [(u8, &str); 1] = [(1, "no such view")];
