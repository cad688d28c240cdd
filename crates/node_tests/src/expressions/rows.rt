/// A query, and what is written in it.
#[derive(Clone, Copy, Debug)]
pub(super) struct Row {
    pub text: &'static str,
    pub want: &'static str,
}

pub(super) static FORMS: &[Row] = &[
    Row {
        text: "? 1",
        want: " 1@1:3",
    },
    Row {
        text: "? true",
        want: " true@1:3",
    },
    Row {
        text: "? null",
        want: " null@1:3",
    },
    Row {
        text: "? Undefined",
        want: " null@1:3",
    },
    Row {
        text: "? invalid",
        want: " invalid@1:3",
    },
    Row {
        text: "? 'a\\'b'",
        want: " 'a'b'@1:3",
    },
    Row {
        text: "? #red",
        want: " #@1:3 red@1:4",
    },
    Row {
        text: "? E::a",
        want: " (name E@1:3 :: a@1:6)",
    },
    Row {
        text: "? x@pre",
        want: " (name x@1:3 @pre)",
    },
    Row {
        text: "? f(1, 2)",
        want: " (name f@1:3 [ , 1@1:5 , 2@1:8 ])",
    },
    Row {
        text: "? - 1",
        want: " (Neg@1:3 1@1:5)",
    },
    Row {
        text: "? not true",
        want: " (Not@1:3 true@1:7)",
    },
    Row {
        text: "? (1)",
        want: " (group@1:3 1@1:4)",
    },
    Row {
        text: "? if true then 1 else 2 endif",
        want: " (if@1:3 true@1:6 1@1:16 2@1:23)",
    },
    Row {
        text: "? Set{1, 2..3}",
        want: " (Set@1:3 1@1:7 (..@1:11 2@1:10 3@1:13))",
    },
];

pub(super) static OPERATORS: &[Row] = &[
    Row {
        text: "? 1 - 2 - 3",
        want: " (Sub@1:9 (Sub@1:5 1@1:3 2@1:7) 3@1:11)",
    },
    Row {
        text: "? 1 + 2 * 3",
        want: " (Add@1:5 1@1:3 (Mul@1:9 2@1:7 3@1:11))",
    },
    Row {
        text: "? 1 - (2 - 3)",
        want: " (Sub@1:5 1@1:3 (group@1:7 (Sub@1:10 2@1:8 3@1:12)))",
    },
    Row {
        text: "? 1 <= 2 and 3 <> 4",
        want: " (And@1:10 (Le@1:5 1@1:3 2@1:8) (Ne@1:16 3@1:14 4@1:19))",
    },
    Row {
        text: "? true implies false xor true",
        want: " (Implies@1:8 true@1:3 (Xor@1:22 false@1:16 true@1:26))",
    },
];

pub(super) static STEPS: &[Row] = &[
    Row {
        text: "? a.b.c",
        want: " (dot (dot (name a@1:3) b@1:5) c@1:7)",
    },
    Row {
        text: "? 7.div(2)",
        want: " (dot 7@1:3 div@1:5 [ , 2@1:9 ])",
    },
    Row {
        text: "? s->size",
        want: " (arrow (name s@1:3) size@1:6)",
    },
    Row {
        text: "? s->select(x : Integer | x > 1)",
        want: " (arrow (name s@1:3) select@1:6 [ , (name x@1:13) : Integer@1:17 | (Gt@1:29 (name x@1:27) 1@1:31) ])",
    },
    Row {
        text: "? s->iterate(e; a : Integer = 0 | a)",
        want: " (arrow (name s@1:3) iterate@1:6 [ , (name e@1:14) ; (name a@1:17) : Integer@1:21 = 0@1:31 | (name a@1:35) ])",
    },
    Row {
        text: "? let x = 1, y : Integer = 2 in x",
        want: " (let@1:3 x@1:7 1@1:11 (let@1:14 y@1:14 : Integer@1:18 2@1:28 (name x@1:33)))",
    },
];
