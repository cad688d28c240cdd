ghost use Rattle.std.specs.Prelude.{◌≡◌, ℕ, List, None, length, true, take};
ghost use Rattle.class_decls.specs.declared.decls.Decls.{Decls};
ghost use Rattle.class_rules.specs.Ancestors.{IsDownward, IsLeastAbove, ancestors, parent_numbers};
ghost use Rattle.class_rules.specs.Cycles.{GoRound, NumbersEach, unnumbered};
ghost use Rattle.class_rules.specs.Numbering.{has_cycle, inheritance_cycle, numbering, parent_places};

/// A law: the first classes hold a cycle exactly where there are some among them each of which has a
/// parent among these; where they hold one, the classes without a number are such.
pub fn cycles_go_round()
    ensures found { (parents : List (List ℕ)) (n : ℕ) (cs : List ℕ) → GoRound (take n parents) cs → has_cycle parents n ≡ true }
    ensures shown { (parents : List (List ℕ)) (n : ℕ) → has_cycle parents n ≡ true → GoRound (take n parents) (unnumbered (take n parents)) }
{}

/// A law: where inheritance has no cycle, each class has one number. Parents have smaller numbers
/// than their children, whether it has one or not.
pub fn classes_are_numbered()
    ensures each { (ds : Decls) → inheritance_cycle ds ≡ None → NumbersEach (numbering (parent_places ds)) (length ds.classes) }
    ensures downward { (ds : Decls) → IsDownward (parent_numbers ds) }
{}

/// A law: a class and its ancestors are the least set that holds the class and the parents of its
/// members.
pub fn ancestors_are_least()
    ensures { (parents : List (List ℕ)) (c : ℕ) → IsDownward parents → IsLeastAbove parents c (ancestors parents c) }
{}
