use eval_scene::{ALONE, Row, rows_hold};
use std::test::Fail;

/// Operations of collections that count and find.
static COUNTED: &[Row] = &[
    ("Set{3,1}->size()", "2", 6),
    ("Bag{1,1}->size()", "2", 6),
    ("Set{}->size()", "0", 2),
    ("Sequence{}->isEmpty()", "true", 2),
    ("Sequence{null}->isEmpty()", "false", 4),
    ("Set{}->notEmpty()", "false", 2),
    ("Set{1}->notEmpty()", "true", 4),
    ("Set{1,null}->includes(null)", "true", 7),
    ("Bag{1}->includes(2)", "false", 5),
    ("Set{1}->excludes(2)", "true", 5),
    ("OrderedSet{1}->excludes(1)", "false", 5),
    ("Set{1}->includes(1 div 0)", "invalid", 7),
    ("Bag{1,2,1}->count(1)", "2", 9),
    ("Sequence{1}->count(null)", "0", 5),
    ("Set{1,2}->includesAll(Sequence{2,2})", "true", 11),
    ("Bag{1}->includesAll(Set{1,2})", "false", 9),
    ("Set{1}->includesAll(Set{})", "true", 5),
    ("Set{1}->includesAll(null)", "invalid", 5),
    ("Set{1}->excludesAll(Bag{2,3})", "true", 9),
    ("Sequence{1,2}->excludesAll(Set{2})", "false", 9),
    ("Sequence{2,3}->sum()", "5", 6),
    ("Set{}->sum()", "0", 2),
    ("Bag{2,2}->sum()", "4", 6),
    ("Set{1,null}->sum()", "invalid", 6),
    (
        "Sequence{170141183460469231731687303715884105727,1,-1}->sum()",
        "invalid",
        9,
    ),
    ("Set{3,1,2}->max()", "3", 8),
    ("Set{3,1,2}->min()", "1", 8),
    ("Sequence{}->max()", "invalid", 2),
    ("Sequence{1,null}->min()", "invalid", 6),
];

/// Operations of collections that make others.
static MADE: &[Row] = &[
    ("Set{1}->including(2)", "Set{1,2}", 7),
    ("Sequence{2,1}->including(1)", "Sequence{2,1,1}", 10),
    ("OrderedSet{2,1}->including(2)", "OrderedSet{2,1}", 9),
    ("OrderedSet{2}->including(1)", "OrderedSet{2,1}", 7),
    ("Bag{1}->including(null)", "Bag{null,1}", 7),
    ("Bag{1,2,1}->excluding(1)", "Bag{2}", 10),
    ("Sequence{1,2,1}->excluding(1)", "Sequence{2}", 10),
    ("Set{1}->union(Set{2})", "Set{1,2}", 9),
    ("Set{1}->union(Bag{1})", "Bag{1,1}", 9),
    ("Bag{1}->union(Set{1})", "Bag{1,1}", 9),
    ("Bag{2,1}->union(Bag{2})", "Bag{1,2,2}", 12),
    ("Sequence{2}->union(Sequence{1})", "Sequence{2,1}", 9),
    (
        "OrderedSet{2,1}->union(OrderedSet{3,2})",
        "OrderedSet{2,1,3}",
        14,
    ),
    ("Set{1}->union(null)", "invalid", 5),
    ("Set{1,2}->intersection(Set{2,3})", "Set{2}", 12),
    ("Set{1}->intersection(Bag{1,1})", "Set{1}", 10),
    ("Bag{1,1}->intersection(Set{1})", "Set{1}", 10),
    ("Bag{1,1,2}->intersection(Bag{1,1,1})", "Bag{1,1}", 17),
    ("Set{1,2}->symmetricDifference(Set{2,3})", "Set{1,3}", 13),
];

/// Operations of collections with an order, and conversions.
static PLACED: &[Row] = &[
    ("Sequence{1}->append(2)", "Sequence{1,2}", 7),
    ("OrderedSet{1,2}->append(1)", "OrderedSet{1,2}", 9),
    ("Sequence{1}->prepend(2)", "Sequence{2,1}", 7),
    ("OrderedSet{1,2}->prepend(2)", "OrderedSet{1,2}", 9),
    ("Sequence{1,2}->insertAt(2, 5)", "Sequence{1,5,2}", 11),
    ("Sequence{1,2}->insertAt(3, 5)", "Sequence{1,2,5}", 11),
    ("Sequence{1}->insertAt(0, 5)", "invalid", 6),
    ("Sequence{1}->insertAt(3, 5)", "invalid", 6),
    ("OrderedSet{1,2}->insertAt(4, 1)", "invalid", 8),
    ("OrderedSet{1,2}->insertAt(3, 1)", "OrderedSet{1,2}", 10),
    ("Sequence{1}->insertAt(null, 5)", "invalid", 6),
    ("Sequence{7,8}->at(2)", "8", 7),
    ("Sequence{7}->at(0)", "invalid", 5),
    ("Sequence{7}->at(2)", "invalid", 5),
    ("Sequence{7,8}->first()", "7", 6),
    ("OrderedSet{7,8}->last()", "8", 6),
    ("Sequence{}->first()", "invalid", 2),
    ("OrderedSet{}->last()", "invalid", 2),
    ("Sequence{7,8,7}->indexOf(7)", "1", 9),
    ("OrderedSet{7,8}->indexOf(8)", "2", 7),
    ("Sequence{7}->indexOf(8)", "invalid", 5),
    ("Sequence{1,2,3}->subSequence(2, 3)", "Sequence{2,3}", 12),
    ("Sequence{1,2,3}->subSequence(3, 2)", "invalid", 10),
    ("Sequence{1}->subSequence(1, 2)", "invalid", 6),
    (
        "OrderedSet{3,1,2}->subOrderedSet(1, 2)",
        "OrderedSet{3,1}",
        12,
    ),
    ("OrderedSet{3}->subOrderedSet(0, 1)", "invalid", 6),
    ("Sequence{1,2}->reverse()", "Sequence{2,1}", 8),
    ("OrderedSet{3,1}->reverse()", "OrderedSet{1,3}", 8),
    ("Bag{2,1,2}->asSet()", "Set{1,2}", 10),
    ("Sequence{2,1}->asBag()", "Bag{1,2}", 8),
    ("Set{2,1}->asSequence()", "Sequence{1,2}", 8),
    ("Sequence{2,1,2}->asOrderedSet()", "OrderedSet{2,1}", 10),
    (
        "Sequence{Set{2,1},Set{3}}->flatten()",
        "Sequence{1,2,3}",
        18,
    ),
    ("Set{Bag{1,1},Bag{2}}->flatten()", "Set{1,2}", 17),
    (
        "Sequence{Sequence{Set{1}},Sequence{}}->flatten()",
        "Sequence{1}",
        14,
    ),
    ("Bag{null}->flatten()", "Bag{null}", 5),
];

/// What is no collection, as the source of an operation of collections.
static SOURCES: &[Row] = &[
    ("5->size()", "1", 4),
    ("5->including(4)", "Set{4,5}", 7),
    ("ada->asSequence()", "Sequence{ada}", 5),
    ("'a'->notEmpty()", "true", 6),
    ("null->size()", "0", 3),
    ("nobody->isEmpty()", "true", 3),
    ("(1 div 0)->size()", "invalid", 5),
    ("invalid->isEmpty()", "invalid", 3),
    ("gone->size()", "1", 4),
    ("bob.friend->size()", "0 reads Slot(2,3)", 5),
    ("ada.friend->size()", "1 reads Slot(1,3)", 6),
    ("bob.marks->size()", "0 reads Slot(2,4)", 4),
    (
        "(1 div 0)->including(ada.age)",
        "invalid reads Slot(1,1)",
        8,
    ),
    ("(if true then Set{1,2} else 3 endif)->size()", "2", 13),
];

#[test]
fn operations_that_count_and_find(rt: HostRuntime) -> Result<(), Fail> {
    rows_hold(rt.alloc(), ALONE, COUNTED)?;
    Ok(())
}

#[test]
fn operations_that_make_collections(rt: HostRuntime) -> Result<(), Fail> {
    rows_hold(rt.alloc(), ALONE, MADE)?;
    Ok(())
}

#[test]
fn operations_of_ordered_collections(rt: HostRuntime) -> Result<(), Fail> {
    rows_hold(rt.alloc(), ALONE, PLACED)?;
    Ok(())
}

#[test]
fn what_is_no_collection_as_a_source(rt: HostRuntime) -> Result<(), Fail> {
    rows_hold(rt.alloc(), ALONE, SOURCES)?;
    Ok(())
}
