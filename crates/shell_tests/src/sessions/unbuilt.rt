use super::Line;

/// Forms that are not built yet: that is told behind rules of names and types.
pub static UNBUILT: &[Line] = &[
    ("!create a : Box", ""),
    ("view 1", "refused S0 at 2:1: form is not built yet\n"),
    ("view drop 1", "refused S0 at 3:1: form is not built yet\n"),
    (
        "view nope 1",
        "refused N3 at 4:6: unknown literal, association, topic or switch\n",
    ),
    ("info script", "refused S0 at 5:1: form is not built yet\n"),
    ("info use", "refused S0 at 6:1: form is not built yet\n"),
    ("?? 1", "refused S0 at 7:1: form is not built yet\n"),
    ("? ? a.size", "refused S0 at 8:1: form is not built yet\n"),
    ("?? nobody", "refused N1 at 9:4: unknown name\n"),
];
