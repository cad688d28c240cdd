/// A query, and the type of what it asks for, or the rule that it breaks with its place.
#[derive(Clone, Copy, Debug)]
pub(super) struct Row {
    pub text: &'static str,
    pub want: &'static str,
}

/// Rule N1: names that stand for nothing.
pub(super) static NAMES: &[Row] = &[
    Row {
        text: "? nobody",
        want: "N1 at 1:3",
    },
    Row {
        text: "? Person.allInstances->collect(p | q)",
        want: "N1 at 1:36",
    },
    Row {
        text: "? Nobody.allInstances",
        want: "N1 at 1:3",
    },
    Row {
        text: "? Person.allInstances->collect(p | p)",
        want: "Bag(Person)",
    },
];

/// Rule N2: properties that values do not have.
pub(super) static PROPERTIES: &[Row] = &[
    Row {
        text: "? 1.nobody",
        want: "N2 at 1:5",
    },
    Row {
        text: "? Person.allInstances.salary",
        want: "N2 at 1:23",
    },
    Row {
        text: "? Set{1}->nobody()",
        want: "N2 at 1:11",
    },
    Row {
        text: "? Person.allInstances.age",
        want: "Bag(Integer)",
    },
];

/// Rule N3: literals that no enumeration has, or more than one.
pub(super) static LITERALS: &[Row] = &[
    Row {
        text: "? Color::blue",
        want: "N3 at 1:10",
    },
    Row {
        text: "? #blue",
        want: "N3 at 1:4",
    },
    Row {
        text: "? #red",
        want: "N3 at 1:4",
    },
    Row {
        text: "? Color::red",
        want: "Color",
    },
    Row {
        text: "? #green",
        want: "Color",
    },
];

/// Rule T1: operands of the wrong type.
pub(super) static OPERANDS: &[Row] = &[
    Row {
        text: "? 1 + true",
        want: "T1 at 1:5",
    },
    Row {
        text: "? Set{1} - Bag{1}",
        want: "T1 at 1:10",
    },
    Row {
        text: "? Set{'a'..'b'}",
        want: "T1 at 1:10",
    },
    Row {
        text: "? 1 + null",
        want: "Integer",
    },
];

/// Rule T2: more or fewer arguments than parameters.
pub(super) static COUNTS: &[Row] = &[
    Row {
        text: "? 'a'.concat()",
        want: "T2 at 1:7",
    },
    Row {
        text: "? Set{1}->size(1)",
        want: "T2 at 1:11",
    },
    Row {
        text: "? Person.allInstances.older()",
        want: "T2 at 1:23",
    },
    Row {
        text: "? 'a'.concat('b')",
        want: "String",
    },
];

/// Rule T3: arguments of the wrong type.
pub(super) static ARGUMENTS: &[Row] = &[
    Row {
        text: "? 'a'.concat(1)",
        want: "T3 at 1:7",
    },
    Row {
        text: "? Set{1}->union(Sequence{2})",
        want: "T3 at 1:11",
    },
    Row {
        text: "? Person.allInstances->select(p : Manager | true)",
        want: "T3 at 1:24",
    },
    Row {
        text: "? Manager.allInstances->select(p : Person | true)",
        want: "Set(Manager)",
    },
];

/// Rule T4: conditions that are not Boolean.
pub(super) static CONDITIONS: &[Row] = &[
    Row {
        text: "? if 1 then 2 else 3 endif",
        want: "T4 at 1:6",
    },
    Row {
        text: "? Set{1}->select(1)",
        want: "T4 at 1:18",
    },
    Row {
        text: "? Set{1}->forAll(x | x)",
        want: "T4 at 1:22",
    },
    Row {
        text: "? if null then 2 else 'a' endif",
        want: "OclAny",
    },
];

/// Rule T5: values that do not conform.
pub(super) static VALUES: &[Row] = &[
    Row {
        text: "? let x : Integer = 'a' in x",
        want: "T5 at 1:21",
    },
    Row {
        text: "? Set{1}->iterate(x; a : Integer = 'a' | a)",
        want: "T5 at 1:36",
    },
    Row {
        text: "? Set{1}->iterate(x; a : Integer = 0 | true)",
        want: "T5 at 1:40",
    },
    Row {
        text: "? let x : OclAny = 'a' in x",
        want: "OclAny",
    },
    Row {
        text: "? Set{1}->iterate(x; a : Integer = 0 | a + x)",
        want: "Integer",
    },
];

/// Rule T6: operations that are not for the collection.
pub(super) static COLLECTIONS: &[Row] = &[
    Row {
        text: "? Bag{1}->reverse()",
        want: "T6 at 1:11",
    },
    Row {
        text: "? Set{1}->first()",
        want: "T6 at 1:11",
    },
    Row {
        text: "? Sequence{'a'}->sum()",
        want: "T6 at 1:18",
    },
    Row {
        text: "? Sequence{1}->reverse()",
        want: "Sequence(Integer)",
    },
    Row {
        text: "? 1->including('a')",
        want: "Set(OclAny)",
    },
];

/// Rule T7: iterators that are not well formed.
pub(super) static ITERATORS: &[Row] = &[
    Row {
        text: "? Set{1}->select(x, y | true)",
        want: "T7 at 1:11",
    },
    Row {
        text: "? Set{1}->iterate(x | x)",
        want: "T7 at 1:11",
    },
    Row {
        text: "? Set{1}->collect(x : Integer = 1 | x)",
        want: "T7 at 1:11",
    },
    Row {
        text: "? Set{1}->forAll(x, y | x = y)",
        want: "Boolean",
    },
];

/// Rule T8: types where values are wanted, and the contrary.
pub(super) static TYPES: &[Row] = &[
    Row {
        text: "? Color",
        want: "T8 at 1:3",
    },
    Row {
        text: "? 1.oclIsTypeOf(1)",
        want: "T8 at 1:17",
    },
    Row {
        text: "? let x = 1 in x.allInstances",
        want: "T8 at 1:16",
    },
    Row {
        text: "? 1.oclAsType(String)",
        want: "String",
    },
];

/// Rule T10: operations that are no queries.
pub(super) static QUERIES: &[Row] = &[
    Row {
        text: "? Person.allInstances.rename('x')",
        want: "T10 at 1:23",
    },
    Row {
        text: "? Person.allInstances->collect(p | p.rename('x'))",
        want: "T10 at 1:38",
    },
    Row {
        text: "? Person.allInstances->collect(rename('x'))",
        want: "T10 at 1:32",
    },
    Row {
        text: "? Person.allInstances.older(1)",
        want: "Bag(Integer)",
    },
];

/// Rule T13: instances of other types than classes.
pub(super) static INSTANCES: &[Row] = &[
    Row {
        text: "? Color.allInstances",
        want: "T13 at 1:3",
    },
    Row {
        text: "? Integer.allInstances()",
        want: "T13 at 1:3",
    },
    Row {
        text: "? OclAny.allInstances",
        want: "T13 at 1:3",
    },
    Row {
        text: "? Company.allInstances()",
        want: "Set(Company)",
    },
];

/// Rule T9: what stands in postconditions alone.
pub(super) static BEFORE: &[Row] = &[
    Row {
        text: "? Person.allInstances@pre",
        want: "T9 at 1:10",
    },
    Row {
        text: "? Person.allInstances->collect(p | p.age@pre)",
        want: "T9 at 1:38",
    },
    Row {
        text: "? Person.allInstances->collect(p | p.oclIsNew())",
        want: "T9 at 1:38",
    },
];

/// Of two broken rules the one of the part that stands first, and that of a part before that of its node.
pub(super) static FIRST: &[Row] = &[
    Row {
        text: "? (1 + true) - nobody",
        want: "T1 at 1:6",
    },
    Row {
        text: "? nobody - (1 + true)",
        want: "N1 at 1:3",
    },
    Row {
        text: "? Set{1}->select(x : String | nobody)",
        want: "N1 at 1:31",
    },
    Row {
        text: "? let x : Integer = 'a' in nobody",
        want: "N1 at 1:28",
    },
];

/// The same in a postcondition.
pub(super) static IN_POSTCONDITIONS: &[Row] = &[
    Row {
        text: "? Person.allInstances@pre",
        want: "Set(Person)",
    },
    Row {
        text: "? Person.allInstances->collect(p | p.age@pre)",
        want: "Bag(Integer)",
    },
    Row {
        text: "? Person.allInstances->collect(p | p.oclIsNew())",
        want: "Bag(Boolean)",
    },
];

/// Queries that name no variable.
pub(super) static QUERIED: &[Row] = &[
    Row {
        text: "? 1 + 2 * 3",
        want: "Integer",
    },
    Row {
        text: "? 170141183460469231731687303715884105727 + 1",
        want: "Integer",
    },
    Row {
        text: "? (1 div 0 = 1) or true",
        want: "Boolean",
    },
    Row {
        text: "? (null < 1) and true",
        want: "Boolean",
    },
    Row {
        text: "? null implies true",
        want: "Boolean",
    },
    Row {
        text: "? Set{3,1,3,2}",
        want: "Set(Integer)",
    },
    Row {
        text: "? Sequence{}->first()",
        want: "OclVoid",
    },
    Row {
        text: "? Sequence{1..400000}->size()",
        want: "Integer",
    },
    Row {
        text: "? -7 div 2",
        want: "Integer",
    },
    Row {
        text: "? -7 mod 2",
        want: "Integer",
    },
    Row {
        text: "? 'Grüße'.size()",
        want: "Integer",
    },
    Row {
        text: "? 'Grüße'.toUpperCase()",
        want: "String",
    },
    Row {
        text: "? 'abc'.substring(2, 3)",
        want: "String",
    },
    Row {
        text: "? Sequence{3,1}->collect(x | Set{x, x+1})",
        want: "Sequence(Integer)",
    },
    Row {
        text: "? Sequence{1..4}->iterate(x; s : Integer = 0 | s + x)",
        want: "Integer",
    },
    Row {
        text: "? Sequence{1,2}->forAll(a, b | a <= b)",
        want: "Boolean",
    },
    Row {
        text: "? Set{1, null}->sum()",
        want: "Integer",
    },
    Row {
        text: "? Bag{2,1}->union(Bag{2})",
        want: "Bag(Integer)",
    },
    Row {
        text: "? 12.toString()",
        want: "String",
    },
    Row {
        text: "? Sequence{'cc','b','a'}->sortedBy(s | s.size())",
        want: "Sequence(String)",
    },
];

/// Queries of a session with a Department, a Person, a Project and a number.
pub(super) static IN_SESSION: &[Row] = &[
    Row {
        text: "? d.staff.salary->sum()",
        want: "Integer",
    },
    Row {
        text: "? x",
        want: "Integer",
    },
    Row {
        text: "? apollo.member->select(age > 20)",
        want: "Set(Person)",
    },
    Row {
        text: "? Being.allInstances()->size()",
        want: "Integer",
    },
    Row {
        text: "? ada.project->collect(q | q.member->size())",
        want: "Sequence(Integer)",
    },
    Row {
        text: "? ada.label()",
        want: "String",
    },
    Row {
        text: "? ada.dept",
        want: "Department",
    },
];

/// Each operation of a value once with its type, and once refused.
pub(super) static OF_VALUES: &[Row] = &[
    Row {
        text: "? 1.abs()",
        want: "Integer",
    },
    Row {
        text: "? 'a'.abs()",
        want: "N2 at 1:7",
    },
    Row {
        text: "? 1.max(2)",
        want: "Integer",
    },
    Row {
        text: "? 1.max('a')",
        want: "T3 at 1:5",
    },
    Row {
        text: "? 1.min(2)",
        want: "Integer",
    },
    Row {
        text: "? 1.min()",
        want: "T2 at 1:5",
    },
    Row {
        text: "? 1.div(2)",
        want: "Integer",
    },
    Row {
        text: "? 1.div(true)",
        want: "T3 at 1:5",
    },
    Row {
        text: "? 1.mod(2)",
        want: "Integer",
    },
    Row {
        text: "? 1.mod(1, 2)",
        want: "T2 at 1:5",
    },
    Row {
        text: "? 1.toString()",
        want: "String",
    },
    Row {
        text: "? 1.toString(1)",
        want: "T2 at 1:5",
    },
    Row {
        text: "? true.toString()",
        want: "String",
    },
    Row {
        text: "? 'a'.toString()",
        want: "N2 at 1:7",
    },
    Row {
        text: "? 'a'.size()",
        want: "Integer",
    },
    Row {
        text: "? 1.size()",
        want: "N2 at 1:5",
    },
    Row {
        text: "? 'a'.concat('b')",
        want: "String",
    },
    Row {
        text: "? 'a'.concat(1)",
        want: "T3 at 1:7",
    },
    Row {
        text: "? 'a'.substring(1, 1)",
        want: "String",
    },
    Row {
        text: "? 'a'.substring(1)",
        want: "T2 at 1:7",
    },
    Row {
        text: "? 'a'.at(1)",
        want: "String",
    },
    Row {
        text: "? 'a'.at('b')",
        want: "T3 at 1:7",
    },
    Row {
        text: "? 'a'.indexOf('b')",
        want: "Integer",
    },
    Row {
        text: "? 'a'.indexOf(1)",
        want: "T3 at 1:7",
    },
    Row {
        text: "? 'a'.toUpperCase()",
        want: "String",
    },
    Row {
        text: "? 'a'.toUpperCase(1)",
        want: "T2 at 1:7",
    },
    Row {
        text: "? 'a'.toUpper()",
        want: "String",
    },
    Row {
        text: "? 1.toUpper()",
        want: "N2 at 1:5",
    },
    Row {
        text: "? 'a'.toLowerCase()",
        want: "String",
    },
    Row {
        text: "? 'a'.toLowerCase('b')",
        want: "T2 at 1:7",
    },
    Row {
        text: "? 'a'.toLower()",
        want: "String",
    },
    Row {
        text: "? true.toLower()",
        want: "N2 at 1:8",
    },
    Row {
        text: "? 'a'.characters()",
        want: "Sequence(String)",
    },
    Row {
        text: "? 1.characters()",
        want: "N2 at 1:5",
    },
    Row {
        text: "? 'a'.toInteger()",
        want: "Integer",
    },
    Row {
        text: "? 1.toInteger()",
        want: "N2 at 1:5",
    },
];

/// Each operation of a collection once with its type, and once refused.
pub(super) static OF_COLLECTIONS: &[Row] = &[
    Row {
        text: "? Set{1}->size()",
        want: "Integer",
    },
    Row {
        text: "? Set{1}->size(1)",
        want: "T2 at 1:11",
    },
    Row {
        text: "? Set{1}->isEmpty()",
        want: "Boolean",
    },
    Row {
        text: "? Set{1}->isEmpty(1)",
        want: "T2 at 1:11",
    },
    Row {
        text: "? Set{1}->notEmpty()",
        want: "Boolean",
    },
    Row {
        text: "? Set{1}->notEmpty(1)",
        want: "T2 at 1:11",
    },
    Row {
        text: "? Set{1}->includes(1)",
        want: "Boolean",
    },
    Row {
        text: "? Set{1}->includes()",
        want: "T2 at 1:11",
    },
    Row {
        text: "? Set{1}->excludes('a')",
        want: "Boolean",
    },
    Row {
        text: "? Set{1}->excludes(1, 2)",
        want: "T2 at 1:11",
    },
    Row {
        text: "? Bag{1}->count(1)",
        want: "Integer",
    },
    Row {
        text: "? Bag{1}->count()",
        want: "T2 at 1:11",
    },
    Row {
        text: "? Set{1}->includesAll(Bag{'a'})",
        want: "Boolean",
    },
    Row {
        text: "? Set{1}->includesAll(1)",
        want: "T3 at 1:11",
    },
    Row {
        text: "? Set{1}->excludesAll(null)",
        want: "Boolean",
    },
    Row {
        text: "? Set{1}->excludesAll(1)",
        want: "T3 at 1:11",
    },
    Row {
        text: "? Set{1}->including('a')",
        want: "Set(OclAny)",
    },
    Row {
        text: "? Set{1}->including()",
        want: "T2 at 1:11",
    },
    Row {
        text: "? Set{1}->excluding('a')",
        want: "Set(Integer)",
    },
    Row {
        text: "? Set{1}->excluding()",
        want: "T2 at 1:11",
    },
    Row {
        text: "? Set{1}->union(Bag{'a'})",
        want: "Bag(OclAny)",
    },
    Row {
        text: "? Set{1}->union(Sequence{1})",
        want: "T3 at 1:11",
    },
    Row {
        text: "? Bag{1}->intersection(Set{1})",
        want: "Set(Integer)",
    },
    Row {
        text: "? Sequence{1}->intersection(Set{1})",
        want: "T6 at 1:16",
    },
    Row {
        text: "? Set{1}->symmetricDifference(Set{'a'})",
        want: "Set(OclAny)",
    },
    Row {
        text: "? Bag{1}->symmetricDifference(Set{1})",
        want: "T6 at 1:11",
    },
    Row {
        text: "? Sequence{1}->append(2)",
        want: "Sequence(Integer)",
    },
    Row {
        text: "? Set{1}->append(2)",
        want: "T6 at 1:11",
    },
    Row {
        text: "? OrderedSet{1}->prepend('a')",
        want: "OrderedSet(OclAny)",
    },
    Row {
        text: "? Bag{1}->prepend(1)",
        want: "T6 at 1:11",
    },
    Row {
        text: "? Sequence{1}->insertAt(1, 2)",
        want: "Sequence(Integer)",
    },
    Row {
        text: "? Sequence{1}->insertAt('a', 2)",
        want: "T3 at 1:16",
    },
    Row {
        text: "? Sequence{'a'}->at(1)",
        want: "String",
    },
    Row {
        text: "? Sequence{1}->at('a')",
        want: "T3 at 1:16",
    },
    Row {
        text: "? Sequence{'a'}->first()",
        want: "String",
    },
    Row {
        text: "? Set{1}->first()",
        want: "T6 at 1:11",
    },
    Row {
        text: "? OrderedSet{1}->last()",
        want: "Integer",
    },
    Row {
        text: "? Bag{1}->last()",
        want: "T6 at 1:11",
    },
    Row {
        text: "? Sequence{1}->indexOf(1)",
        want: "Integer",
    },
    Row {
        text: "? Set{1}->indexOf(1)",
        want: "T6 at 1:11",
    },
    Row {
        text: "? Sequence{1}->subSequence(1, 1)",
        want: "Sequence(Integer)",
    },
    Row {
        text: "? OrderedSet{1}->subSequence(1, 1)",
        want: "T6 at 1:18",
    },
    Row {
        text: "? OrderedSet{1}->subOrderedSet(1, 1)",
        want: "OrderedSet(Integer)",
    },
    Row {
        text: "? Sequence{1}->subOrderedSet(1, 1)",
        want: "T6 at 1:16",
    },
    Row {
        text: "? OrderedSet{1}->reverse()",
        want: "OrderedSet(Integer)",
    },
    Row {
        text: "? Set{1}->reverse()",
        want: "T6 at 1:11",
    },
    Row {
        text: "? Set{1}->sum()",
        want: "Integer",
    },
    Row {
        text: "? Set{'a'}->sum()",
        want: "T6 at 1:13",
    },
    Row {
        text: "? Bag{1}->max()",
        want: "Integer",
    },
    Row {
        text: "? Bag{true}->max()",
        want: "T6 at 1:14",
    },
    Row {
        text: "? Set{1}->min()",
        want: "Integer",
    },
    Row {
        text: "? Set{1}->min(1)",
        want: "T2 at 1:11",
    },
    Row {
        text: "? Bag{1}->asSet()",
        want: "Set(Integer)",
    },
    Row {
        text: "? Bag{1}->asSet(1)",
        want: "T2 at 1:11",
    },
    Row {
        text: "? Set{1}->asBag()",
        want: "Bag(Integer)",
    },
    Row {
        text: "? Set{1}->asBag(1)",
        want: "T2 at 1:11",
    },
    Row {
        text: "? Set{1}->asSequence()",
        want: "Sequence(Integer)",
    },
    Row {
        text: "? Set{1}->asSequence(1)",
        want: "T2 at 1:11",
    },
    Row {
        text: "? Set{1}->asOrderedSet()",
        want: "OrderedSet(Integer)",
    },
    Row {
        text: "? Set{1}->asOrderedSet(1)",
        want: "T2 at 1:11",
    },
    Row {
        text: "? Set{Bag{Set{1}}}->flatten()",
        want: "Set(Integer)",
    },
    Row {
        text: "? Set{1}->flatten(1)",
        want: "T2 at 1:11",
    },
];
