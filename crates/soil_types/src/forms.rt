ghost use Rattle.std.specs.Prelude.{◌≡◌, ◌+◌, ◌<◌, ◌^◌, [], OnOk, length};
ghost use Rattle.ocl_rules.specs.Typings.{Tells};
ghost use Rattle.soil_scope.specs.Scenes.{Leaves, each_after, scene};
ghost use Rattle.soil_types.specs.Parts.{Blocks, LeavesOnly, block_at};
ghost use Rattle.soil_types.specs.Statements.{assign_or_say, block_if, block_under, branch, condition, declare, element_of, for_each, form, form_in, has_room, make, plain_form, say, statement, while_true, with_locals};
ghost use Rattle.soil_types.specs.Walk.{statements};

use crate::Level;
use crate::objects::{NewObject, create, delete, destroy, insert, names_in, new_object, place_of};
use crate::storing::assign;
use class_model::{ClassModel, OclType};
use ocl_core::{Act, Expr, Stmt};
use ocl_rules::{TypeFault, breaks_t};
use ocl_scope::declared_type;
use ocl_syntax::written;
use ocl_values::Text;
use soil_scope::{Placed, Role, Setting, Variables, expression_at, said};
use std::alloc::Global;
use use_decls::type_decl;
use use_lists::Items;
use use_nodes::{
    AssignNode, BlockNode, BranchNode, CreateNode, DeclareNode, DeleteNode, DestroyNode, ForNode,
    InsertNode, NewNode, NodeRef, Parts, SetNode, StmtNode, WhileNode,
};
use use_text::Place;

/// How many values an environment may hold for a statement: their numbers, and those of what is bound in
/// expressions, fit into 32 bits. No text that is read has so many.
const MAX_VALUES: u32 = 2_147_483_648;

fn has_room(variables: &Variables) -> bool
    ensures { result ≡ has_room variables.now }
{
    variables.environment.size() < MAX_VALUES
}

/// A local variable of a type for each of some names.
fn with_locals(
    alloc: Global,
    place: Place,
    of_type: &OclType,
    variables: &mut Variables,
    names: &[Text],
) -> Result<(), TypeFault>
    ensures value { LeavesOnly (with_locals place of_type.now variables.old names.now) result variables.new }
    ensures size { OnOk result (variables.new.environment.size ≡ variables.old.environment.size + length names.now) }
{
    let mut rest = names;
    'names: while let [name, more @ ..] = rest {
        if !has_room(variables) {
            return Err(breaks_t(16, place));
        }
        let text = Text::copy_of(alloc, name.as_str())?;
        let of_type = of_type.try_copy(alloc)?;
        variables.push(Role::Local, Some(text), of_type, false)?;
        rest = more;
    }
    Ok(())
}

/// `declare`: local variables, which hold null.
#[tactic(auto, unfolding(crate::specs::Statements::declare))]
fn declare(
    setting: &Setting<'_>,
    variables: &mut Variables,
    place: Place,
    node: &DeclareNode<'_>,
) -> Result<Act, TypeFault>
    ensures { Leaves (declare (scene setting.now) variables.old place node.now) result variables.new }
{
    let written = type_decl(setting.alloc, setting.lexed, &node.of_type)?;
    let of_type = declared_type(
        setting.alloc,
        setting.model,
        &variables.environment,
        &written,
    )?;
    let names = names_in(setting.alloc, setting.lexed, &node.names)?;
    let before = variables.environment.size();
    with_locals(setting.alloc, place, &of_type, variables, names.as_slice())?;
    Ok(Act::Declare(variables.environment.size() - before))
}

/// A condition, or T4 at its first token.
fn condition(model: &ClassModel, placed: Placed) -> Result<Expr, TypeFault>
    ensures { Tells (condition model.now placed) result }
{
    if !model.conforms(&placed.typed.of_type, &OclType::Bool) {
        return Err(breaks_t(4, placed.place));
    }
    Ok(placed.typed.expr)
}

/// The type of what a `for` visits, or T15 at the first token of its source.
fn element_of(alloc: Global, source: &Placed) -> Result<OclType, TypeFault>
    ensures { Tells (element_of source.now) result }
{
    match &source.typed.of_type {
        OclType::Coll(_, element) => Ok(element.get().try_copy(alloc)?),
        OclType::Void => Ok(OclType::Void),
        _ => Err(breaks_t(15, source.place)),
    }
}

/// `new` alone.
#[tactic(auto, unfolding(crate::specs::Statements::make))]
fn make(
    setting: &Setting<'_>,
    variables: &mut Variables,
    node: &NewNode<'_>,
) -> Result<Act, TypeFault>
    requires { variables.old.environment.size < 2 ^ 31 }
    ensures { Leaves (make (scene setting.now) variables.old node.now) result variables.new }
{
    let made = new_object(setting, &mut variables.environment, node)?;
    let NewObject { class, name } = made;
    Ok(Act::New {
        class,
        name,
        target: None,
    })
}

/// An expression alone.
#[tactic(auto, unfolding(crate::specs::Statements::say), using(crate::proofs::Leaving::left_alone))]
fn say(
    setting: &Setting<'_>,
    variables: &mut Variables,
    place: Place,
    node: &NodeRef<'_>,
) -> Result<Act, TypeFault>
    requires { variables.old.environment.size < 2 ^ 31 }
    ensures { Leaves (say (scene setting.now) variables.old place node.now) result variables.new }
{
    let expression = written(setting.alloc, setting.lexed, node)?;
    said(setting, &mut variables.environment, place, &expression)
}

/// An assignment, or an expression alone.
fn assign_or_say(
    setting: &Setting<'_>,
    is_outermost: bool,
    variables: &mut Variables,
    place: Place,
    node: &AssignNode<'_>,
) -> Result<Act, TypeFault>
    requires { variables.old.environment.size < 2 ^ 31 }
    ensures { Leaves (assign_or_say (scene setting.now) is_outermost variables.old place node.now) result variables.new }
{
    match &node.value {
        None => say(setting, variables, place, &node.target),
        Some(value) => assign(setting, is_outermost, variables, place, &node.target, value),
    }
}

/// The forms without blocks; anything else breaks T11.
#[tactic(auto, using(crate::proofs::Leaving::left_alone))]
fn plain_form(
    setting: &Setting<'_>,
    is_outermost: bool,
    variables: &mut Variables,
    place: Place,
    node: &NodeRef<'_>,
) -> Result<Act, TypeFault>
    requires { variables.old.environment.size < 2 ^ 31 }
    ensures { Leaves (plain_form (scene setting.now) is_outermost variables.old place node.now) result variables.new }
{
    if let Some(found) = CreateNode::of(node) {
        return create(setting, variables, &found);
    }
    if let Some(found) = SetNode::of(node) {
        return assign(
            setting,
            is_outermost,
            variables,
            place,
            &found.target,
            &found.value,
        );
    }
    if let Some(found) = NewNode::of(node) {
        return make(setting, variables, &found);
    }
    if let Some(found) = DestroyNode::of(node) {
        return destroy(setting, &mut variables.environment, found);
    }
    if let Some(found) = InsertNode::of(node) {
        return insert(setting, &mut variables.environment, &found);
    }
    if let Some(found) = DeleteNode::of(node) {
        return delete(setting, &mut variables.environment, &found);
    }
    if let Some(found) = DeclareNode::of(node) {
        return declare(setting, variables, place, &found);
    }
    match AssignNode::of(node) {
        None => Err(breaks_t(11, place)),
        Some(found) => assign_or_say(setting, is_outermost, variables, place, &found),
    }
}

/// The forms of statements, by what types the blocks in them.
#[derive(Drop)]
pub(crate) struct Forms<'a, F> {
    pub(crate) level: Level<'a>,
    pub(crate) is_outermost: bool,
    pub(crate) block_of: F,
}

impl<F> Forms<'_, F>
where
    F: Fn(&Level<'_>, &mut Variables, &NodeRef<'_>) -> Result<Items<Stmt>, TypeFault>,
{
    /// The statements of a block.
    fn block(&self, variables: &mut Variables, node: &NodeRef<'_>) -> Result<Items<Stmt>, TypeFault>
        requires { Blocks self.now.level.nesting (F.pre self.now.block_of) (F.post self.now.block_of) }
        ensures { Leaves (block_at self.now.level variables.old node.now) result variables.new }
    {
        (self.block_of)(&self.level, variables, node)
    }

    /// The statements of a block that may be left out.
    fn block_if(
        &self,
        variables: &mut Variables,
        node: &Option<NodeRef<'_>>,
    ) -> Result<Items<Stmt>, TypeFault>
        requires { Blocks self.now.level.nesting (F.pre self.now.block_of) (F.post self.now.block_of) }
        ensures { Leaves (block_if (scene self.now.level.setting.now) (block_at self.now.level) variables.old node.now) result variables.new }
    {
        match node {
            None => Ok(Items::new(self.level.setting.alloc)),
            Some(node) => self.block(variables, node),
        }
    }

    /// `if`: the condition, both blocks, then T4.
    #[tactic(auto, unfolding(crate::specs::Statements::branch))]
    fn branch(&self, variables: &mut Variables, node: &BranchNode<'_>) -> Result<Act, TypeFault>
        requires blocks { Blocks self.now.level.nesting (F.pre self.now.block_of) (F.post self.now.block_of) }
        requires room { variables.old.environment.size < 2 ^ 31 }
        ensures { Leaves (branch (scene self.now.level.setting.now) (block_at self.now.level) variables.old node.now) result variables.new }
    {
        let setting = self.level.setting;
        let placed = expression_at(setting, &mut variables.environment, false, &node.condition)?;
        let yes = self.block(variables, &node.consequence)?;
        let no = self.block_if(variables, &node.alternative)?;
        let test = condition(setting.model, placed)?;
        Ok(Act::If { test, yes, no })
    }

    /// A block where the variable of a `for` is known.
    #[tactic(auto, using(crate::proofs::Leaving::left_behind))]
    fn block_under(
        &self,
        variables: &mut Variables,
        name: Text,
        of_type: OclType,
        node: &NodeRef<'_>,
    ) -> Result<Items<Stmt>, TypeFault>
        requires blocks { Blocks self.now.level.nesting (F.pre self.now.block_of) (F.post self.now.block_of) }
        requires room { variables.old.environment.size < 2 ^ 31 }
        ensures { Leaves (block_under (scene self.now.level.setting.now) (block_at self.now.level) variables.old name of_type node.now) result variables.new }
    {
        let reach = variables.reach();
        variables.push(Role::Fixed, Some(name), of_type, false)?;
        let body = self.block(variables, node);
        variables.leave(reach);
        body
    }

    /// `for`: the source, T15, then the block.
    #[tactic(auto, unfolding(crate::specs::Statements::for_each))]
    fn for_each(&self, variables: &mut Variables, node: &ForNode<'_>) -> Result<Act, TypeFault>
        requires blocks { Blocks self.now.level.nesting (F.pre self.now.block_of) (F.post self.now.block_of) }
        requires room { variables.old.environment.size < 2 ^ 31 }
        ensures { Leaves (for_each (scene self.now.level.setting.now) (block_at self.now.level) variables.old node.now) result variables.new }
    {
        let setting = self.level.setting;
        let placed = expression_at(setting, &mut variables.environment, false, &node.source)?;
        let of_type = element_of(setting.alloc, &placed)?;
        let name = setting.lexed.text_at(setting.alloc, &node.variable)?;
        let body = self.block_under(variables, name, of_type, &node.body)?;
        Ok(Act::For {
            each: placed.typed.expr,
            body,
        })
    }

    /// `while`: the condition, the block, then T4.
    #[tactic(auto, unfolding(crate::specs::Statements::while_true))]
    fn while_true(&self, variables: &mut Variables, node: &WhileNode<'_>) -> Result<Act, TypeFault>
        requires blocks { Blocks self.now.level.nesting (F.pre self.now.block_of) (F.post self.now.block_of) }
        requires room { variables.old.environment.size < 2 ^ 31 }
        ensures { Leaves (while_true (scene self.now.level.setting.now) (block_at self.now.level) variables.old node.now) result variables.new }
    {
        let setting = self.level.setting;
        let placed = expression_at(setting, &mut variables.environment, false, &node.condition)?;
        let body = self.block(variables, &node.body)?;
        let test = condition(setting.model, placed)?;
        Ok(Act::While { test, body })
    }

    fn form(
        &self,
        variables: &mut Variables,
        place: Place,
        node: &NodeRef<'_>,
    ) -> Result<Act, TypeFault>
        requires blocks { Blocks self.now.level.nesting (F.pre self.now.block_of) (F.post self.now.block_of) }
        requires room { variables.old.environment.size < 2 ^ 31 }
        ensures { Leaves (form (scene self.now.level.setting.now) (block_at self.now.level) self.now.is_outermost variables.old place node.now) result variables.new }
    {
        if let Some(found) = BranchNode::of(node) {
            return self.branch(variables, &found);
        }
        if let Some(found) = ForNode::of(node) {
            return self.for_each(variables, &found);
        }
        if let Some(found) = WhileNode::of(node) {
            return self.while_true(variables, &found);
        }
        plain_form(
            self.level.setting,
            self.is_outermost,
            variables,
            place,
            node,
        )
    }

    /// The form that stands at a statement, unless there are too many variables.
    fn form_in(
        &self,
        variables: &mut Variables,
        place: Place,
        node: &NodeRef<'_>,
    ) -> Result<Act, TypeFault>
        requires { Blocks self.now.level.nesting (F.pre self.now.block_of) (F.post self.now.block_of) }
        ensures { Leaves (form_in (scene self.now.level.setting.now) (block_at self.now.level) self.now.is_outermost variables.old place node.now) result variables.new }
    {
        if !has_room(variables) {
            return Err(breaks_t(16, place));
        }
        match StmtNode::of(node) {
            None => self.form(variables, place, node),
            Some(found) => self.form(variables, place, &found.form),
        }
    }

    /// A statement, with the place of its first token.
    #[tactic(auto, unfolding(crate::specs::Statements::statement))]
    fn statement(&self, variables: &mut Variables, node: &NodeRef<'_>) -> Result<Stmt, TypeFault>
        requires { Blocks self.now.level.nesting (F.pre self.now.block_of) (F.post self.now.block_of) }
        ensures { Leaves (statement (scene self.now.level.setting.now) (block_at self.now.level) self.now.is_outermost variables.old node.now) result variables.new }
    {
        let place = place_of(self.level.setting, node);
        let act = self.form_in(variables, place, node)?;
        Ok(Stmt { place, act })
    }

    /// Statements one after another.
    #[tactic(auto, using(crate::proofs::Steps::after_ends, crate::proofs::Steps::after_steps, crate::proofs::Steps::after_stops))]
    fn each(&self, variables: &mut Variables, nodes: Parts<'_>) -> Result<Items<Stmt>, TypeFault>
        requires { Blocks self.now.level.nesting (F.pre self.now.block_of) (F.post self.now.block_of) }
        ensures { Leaves (each_after (statement (scene self.now.level.setting.now) (block_at self.now.level) self.now.is_outermost) [] variables.old nodes.entry) result variables.new }
    {
        let mut done = Items::new(self.level.setting.alloc);
        'statements: for node in nodes {
            let stmt = self.statement(variables, &node)?;
            done.push(stmt)?;
        }
        Ok(done)
    }

    /// The statements of a block, one after another.
    #[tactic(auto, unfolding(crate::specs::Walk::statements))]
    pub(crate) fn statements(
        &self,
        variables: &mut Variables,
        node: &NodeRef<'_>,
    ) -> Result<Items<Stmt>, TypeFault>
        requires { Blocks self.now.level.nesting (F.pre self.now.block_of) (F.post self.now.block_of) }
        ensures { Leaves (statements (scene self.now.level.setting.now) (block_at self.now.level) self.now.is_outermost variables.old node.now) result variables.new }
    {
        match BlockNode::of(node) {
            None => Ok(Items::new(self.level.setting.alloc)),
            Some(block) => self.each(variables, block.statements),
        }
    }
}
