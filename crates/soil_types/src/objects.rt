ghost use Rattle.std.specs.Prelude.{◌≡◌, [], ◌<◌, ◌^◌, IfOk, OnOk, false, fold, map};
ghost use Rattle.class_model.specs.Parts.{end_class};
ghost use Rattle.class_model.specs.declared.types.OclType.TheVariants as T;
ghost use Rattle.ocl_rules.specs.Typings.{Tells};
ghost use Rattle.ocl_shapes.specs.Combining.{each, if_there};
ghost use Rattle.soil_scope.specs.Expressions.{expression_at};
ghost use Rattle.soil_scope.specs.Scenes.{Leaves, place_of_tree, scene};
ghost use Rattle.soil_types.specs.ObjectForms.{association_wanted, both, class_wanted, conforming, create, delete, destroy, ends_of, insert, is_object, known, known_at, linked, names_in, new_object, object_of, object_wanted};
ghost use Rattle.use_decls.specs.Names.{name_at, text_at};

use class_decls::Name;
use class_model::{AssocNo, ClassModel, ClassNo, End, OclType};
use ocl_core::{Act, Expr};
use ocl_rules::{TypeFault, breaks_n, breaks_t};
use ocl_scope::Environment;
use ocl_values::Text;
use soil_scope::{Placed, Role, Setting, Variables, expression_at, expression_if, first_leaf};
use std::alloc::{AllocError, Global};
use use_decls::Lexed;
use use_lists::Items;
use use_nodes::{
    CreateNode, DeleteNode, DestroyNode, InsertNode, NamesNode, NewNode, NodeRef, Parts,
};
use use_text::Place;

/// A new object: its class, and the expression of its name.
#[derive(Drop)]
pub(crate) struct NewObject {
    pub(crate) class: ClassNo,
    pub(crate) name: Option<Expr>,
}

/// Two objects that are linked.
#[derive(Drop)]
struct Ends {
    assoc: AssocNo,
    first: Expr,
    second: Expr,
}

/// Where the first token of a node stands.
pub(crate) fn place_of(setting: &Setting<'_>, node: &NodeRef<'_>) -> Place
    ensures { result ≡ place_of_tree (scene setting.now) node.now }
{
    setting.lexed.place_at(&first_leaf(node))
}

/// A class by its name, or T13.
pub fn class_wanted(model: &ClassModel, name: &Name) -> Result<ClassNo, TypeFault>
    ensures { Tells (class_wanted model.now name.now) result }
{
    match model.class_by_name(name.text.as_str()) {
        None => Err(breaks_t(13, name.place)),
        Some(class) => Ok(class),
    }
}

/// An association by its name, or N3.
fn association_wanted(model: &ClassModel, name: &Name) -> Result<AssocNo, TypeFault>
    ensures { Tells (association_wanted model.now name.now) result }
{
    match model.assoc_by_name(name.text.as_str()) {
        None => Err(breaks_n(3, name.place)),
        Some(assoc) => Ok(assoc),
    }
}

/// A value of a type, or T5 at its first token.
fn conforming(model: &ClassModel, of_type: &OclType, placed: Placed) -> Result<Expr, TypeFault>
    ensures { Tells (conforming model.now of_type.now placed) result }
{
    if !model.conforms(&placed.typed.of_type, of_type) {
        return Err(breaks_t(5, placed.place));
    }
    Ok(placed.typed.expr)
}

/// Whether values of a type may be objects; null is one of every class.
pub fn is_object(of_type: &OclType) -> bool
    ensures { result ≡ is_object of_type.now }
{
    match of_type {
        OclType::Class(_) | OclType::Void => true,
        _ => false,
    }
}

/// An object, or T14 at its first token.
fn object_wanted(placed: Placed) -> Result<Expr, TypeFault>
    ensures { Tells (object_wanted placed) result }
{
    if !is_object(&placed.typed.of_type) {
        return Err(breaks_t(14, placed.place));
    }
    Ok(placed.typed.expr)
}

/// An object of a class.
fn object_of(model: &ClassModel, class: ClassNo, placed: Placed) -> Result<Expr, TypeFault>
    ensures { Tells (object_of model.now class placed) result }
{
    if !is_object(&placed.typed.of_type) {
        return Err(breaks_t(14, placed.place));
    }
    conforming(model, &OclType::Class(class), placed)
}

/// The names that a node lists.
pub(crate) fn names_in(
    alloc: Global,
    lexed: &Lexed<'_>,
    node: &NodeRef<'_>,
) -> Result<Items<Text>, AllocError>
    ensures { IfOk result (λ names. names ≡ names_in lexed.now node.now) }
{
    match NamesNode::of(node) {
        None => Ok(Items::new(alloc)),
        Some(found) => texts(alloc, lexed, found.names),
    }
}

fn texts(alloc: Global, lexed: &Lexed<'_>, nodes: Parts<'_>) -> Result<Items<Text>, AllocError>
    ensures { IfOk result (λ names. names ≡ map (text_at lexed.now) nodes.entry) }
{
    let mut names = Items::new(alloc);
    'names: for node in nodes {
        let name = lexed.text_at(alloc, &node)?;
        names.push(name)?;
    }
    Ok(names)
}

/// From now on a name of the shell is that of an object of a class, unless it is a variable's.
fn know_at(
    alloc: Global,
    class: ClassNo,
    variables: &mut Variables,
    slot: usize,
    name: &str,
) -> Result<(), AllocError>
    ensures { OnOk result (variables.new ≡ known_at class variables.old slot name.now) }
{
    match variables.role_of(slot) {
        Role::Shell => Ok(()),
        _ => {
            let text = Text::copy_of(alloc, name)?;
            variables.stands_for(alloc, slot, text, OclType::Class(class), Role::Object);
            Ok(())
        }
    }
}

fn know(
    setting: &Setting<'_>,
    class: ClassNo,
    variables: &mut Variables,
    name: &str,
) -> Result<(), AllocError>
    ensures { OnOk result (variables.new ≡ known (scene setting.now) class variables.old name.now) }
{
    match setting.shell.slot_of(name) {
        None => Ok(()),
        Some(slot) => know_at(setting.alloc, class, variables, slot, name),
    }
}

fn know_all(
    setting: &Setting<'_>,
    class: ClassNo,
    variables: &mut Variables,
    names: &[Text],
) -> Result<(), AllocError>
    ensures { OnOk result (variables.new ≡ fold (known (scene setting.now) class) variables.old names.now) }
{
    let mut rest = names;
    'names: while let [name, more @ ..] = rest {
        know(setting, class, variables, name.as_str())?;
        rest = more;
    }
    Ok(())
}

/// `create`: objects of a class, known by their names from here on.
#[tactic(auto, unfolding(crate::specs::ObjectForms::create))]
pub(crate) fn create(
    setting: &Setting<'_>,
    variables: &mut Variables,
    node: &CreateNode<'_>,
) -> Result<Act, TypeFault>
    ensures { Leaves (create (scene setting.now) variables.old node.now) result variables.new }
{
    let name = setting.lexed.name_at(setting.alloc, &node.class)?;
    let class = class_wanted(setting.model, &name)?;
    let names = names_in(setting.alloc, setting.lexed, &node.names)?;
    know_all(setting, class, variables, names.as_slice())?;
    Ok(Act::Create { names, class })
}

/// The name of a new object, which is a String: T5.
fn string_if(model: &ClassModel, name: Option<Placed>) -> Result<Option<Expr>, TypeFault>
    ensures { Tells (if_there (conforming model.now T.Str) name) result }
{
    match name {
        None => Ok(None),
        Some(name) => {
            let expr = conforming(model, &OclType::Str, name)?;
            Ok(Some(expr))
        }
    }
}

/// `new`: its name is looked at before its class.
#[tactic(auto, unfolding(crate::specs::ObjectForms::new_object))]
pub(crate) fn new_object(
    setting: &Setting<'_>,
    env: &mut Environment,
    node: &NewNode<'_>,
) -> Result<NewObject, TypeFault>
    requires { env.old.size < 2 ^ 31 }
    ensures value { Tells (new_object (scene setting.now) env.old node.now) result }
    ensures environment { env.new ≡ env.old }
{
    let placed = expression_if(setting, env, node.name.as_ref())?;
    let name = string_if(setting.model, placed)?;
    let class = setting.lexed.name_at(setting.alloc, &node.class)?;
    let class = class_wanted(setting.model, &class)?;
    Ok(NewObject { class, name })
}

/// The class at an end of an association.
fn end_class(model: &ClassModel, assoc: AssocNo, end: End) -> ClassNo
    ensures { result ≡ end_class model.now assoc end }
{
    match model.as_model().assocs.get(assoc as usize) {
        None => 0,
        Some(found) => found.end(end).class,
    }
}

/// An object at an end of an association.
fn object_at(
    model: &ClassModel,
    assoc: AssocNo,
    end: End,
    placed: Placed,
) -> Result<Expr, TypeFault>
    ensures { Tells (object_of model.now (end_class model.now assoc end) placed) result }
{
    object_of(model, end_class(model, assoc, end), placed)
}

/// Both expressions of `insert` and `delete`.
#[tactic(auto, unfolding(crate::specs::ObjectForms::both))]
fn both(
    setting: &Setting<'_>,
    env: &mut Environment,
    first: &NodeRef<'_>,
    second: &NodeRef<'_>,
) -> Result<(Placed, Placed), TypeFault>
    requires { env.old.size < 2 ^ 31 }
    ensures value { Tells (both (scene setting.now) env.old first.now second.now) result }
    ensures environment { env.new ≡ env.old }
{
    let first = expression_at(setting, env, false, first)?;
    let second = expression_at(setting, env, false, second)?;
    Ok((first, second))
}

/// The association of a name.
fn association_at(setting: &Setting<'_>, node: &NodeRef<'_>) -> Result<AssocNo, TypeFault>
    ensures { Tells (association_wanted setting.now.model.now (name_at setting.now.lexed.now node.now)) result }
{
    let name = setting.lexed.name_at(setting.alloc, node)?;
    association_wanted(setting.model, &name)
}

/// The objects at the ends of an association, from left to right.
#[tactic(auto, unfolding(crate::specs::ObjectForms::ends_of))]
fn ends_of(
    model: &ClassModel,
    assoc: AssocNo,
    first: Placed,
    second: Placed,
) -> Result<Ends, TypeFault>
    ensures { Tells (ends_of model.now assoc first second) result }
{
    let first = object_at(model, assoc, End::First, first)?;
    let second = object_at(model, assoc, End::Second, second)?;
    Ok(Ends {
        assoc,
        first,
        second,
    })
}

/// The objects of `insert` and `delete`: both expressions, the association, then each end from left to
/// right.
#[tactic(auto, unfolding(crate::specs::ObjectForms::linked))]
fn linked(
    setting: &Setting<'_>,
    env: &mut Environment,
    first: &NodeRef<'_>,
    second: &NodeRef<'_>,
    association: &NodeRef<'_>,
) -> Result<Ends, TypeFault>
    requires { env.old.size < 2 ^ 31 }
    ensures value { Tells (linked (scene setting.now) env.old first.now second.now association.now) result }
    ensures environment { env.new ≡ env.old }
{
    let (first, second) = both(setting, env, first, second)?;
    let assoc = association_at(setting, association)?;
    ends_of(setting.model, assoc, first, second)
}

/// `insert`.
#[tactic(auto, unfolding(crate::specs::ObjectForms::insert))]
pub(crate) fn insert(
    setting: &Setting<'_>,
    env: &mut Environment,
    node: &InsertNode<'_>,
) -> Result<Act, TypeFault>
    requires { env.old.size < 2 ^ 31 }
    ensures value { Tells (insert (scene setting.now) env.old node.now) result }
    ensures environment { env.new ≡ env.old }
{
    let found = linked(setting, env, &node.first, &node.second, &node.association)?;
    let Ends {
        assoc,
        first,
        second,
    } = found;
    Ok(Act::Insert {
        assoc,
        first,
        second,
    })
}

/// `delete`.
#[tactic(auto, unfolding(crate::specs::ObjectForms::delete))]
pub(crate) fn delete(
    setting: &Setting<'_>,
    env: &mut Environment,
    node: &DeleteNode<'_>,
) -> Result<Act, TypeFault>
    requires { env.old.size < 2 ^ 31 }
    ensures value { Tells (delete (scene setting.now) env.old node.now) result }
    ensures environment { env.new ≡ env.old }
{
    let found = linked(setting, env, &node.first, &node.second, &node.association)?;
    let Ends {
        assoc,
        first,
        second,
    } = found;
    Ok(Act::Delete {
        assoc,
        first,
        second,
    })
}

/// The expressions at nodes, from left to right.
#[tactic(auto, using(crate::proofs::Steps::each_ends, crate::proofs::Steps::each_steps, crate::proofs::Steps::each_stops))]
fn expressions(
    setting: &Setting<'_>,
    env: &mut Environment,
    nodes: Parts<'_>,
) -> Result<Items<Placed>, TypeFault>
    requires { env.old.size < 2 ^ 31 }
    ensures value { Tells (each (expression_at (scene setting.now) false env.old) [] nodes.entry) result }
    ensures environment { env.new ≡ env.old }
{
    let mut done = Items::new(setting.alloc);
    'objects: for node in nodes {
        let placed = expression_at(setting, env, false, &node)?;
        done.push(placed)?;
    }
    Ok(done)
}

/// Objects, from left to right.
#[tactic(auto, using(crate::proofs::Steps::each_ends, crate::proofs::Steps::each_steps, crate::proofs::Steps::each_stops))]
fn all_objects(alloc: Global, all: Items<Placed>) -> Result<Items<Expr>, TypeFault>
    ensures { Tells (each object_wanted [] all) result }
{
    let mut done = Items::new(alloc);
    'objects: for placed in all.into_vec() {
        let object = object_wanted(placed)?;
        done.push(object)?;
    }
    Ok(done)
}

/// `destroy`: all expressions, then each from left to right.
#[tactic(auto, unfolding(crate::specs::ObjectForms::destroy))]
pub(crate) fn destroy(
    setting: &Setting<'_>,
    env: &mut Environment,
    node: DestroyNode<'_>,
) -> Result<Act, TypeFault>
    requires { env.old.size < 2 ^ 31 }
    ensures value { Tells (destroy (scene setting.now) env.old node.entry) result }
    ensures environment { env.new ≡ env.old }
{
    let DestroyNode { objects: nodes } = node;
    let all = expressions(setting, env, nodes)?;
    let all = all_objects(setting.alloc, all)?;
    Ok(Act::Destroy(all))
}
