ghost use Rattle.std.specs.Prelude.{◌≡◌, ◌<◌, ◌≤◌, length};
ghost use Rattle.class_model.specs.Parts.{op_params};
ghost use Rattle.model_check.specs.Adding.{Adds};
ghost use Rattle.model_check.specs.Walk.{contract, contract_of, contracts, reading};

use crate::checked::Checked;
use crate::rules::condition_rule;
use crate::seen::seen_by_contract;
use crate::source::Source;
use class_model::OpNo;
use ocl_core::Contract;
use ocl_rules::TypeFault;
use ocl_values::Text;
use soil_scope::expression_at;
use use_nodes::{CondNode, NodeRef, Parts};
use use_text::TokenKind;

/// A contract of this name.
#[tactic(auto, unfolding(crate::specs::Walk::contract_of))]
fn add_named(
    source: &Source<'_>,
    op: OpNo,
    names: &[Text],
    is_post: bool,
    node: &NodeRef<'_>,
    name: &Text,
    found: &mut Checked,
) -> Result<(), TypeFault>
    requires op { op < length source.now.setting.model.now.ops }
    requires few { length (op_params source.now.setting.model.now op) ≤ 16 }
    ensures { Adds (contract_of (reading source.now) op names.now found.old is_post node.now name.now) result found.new }
{
    let setting = &source.setting;
    let mut seen = seen_by_contract(setting.alloc, setting.model, op, names, is_post)?;
    let condition = expression_at(setting, &mut seen.environment, is_post, node)?;
    let expr = condition_rule(setting.model, condition)?;
    let name = Text::copy_of(setting.alloc, name.as_str())?;
    found.add_contract(Contract {
        op,
        name,
        is_post,
        expr,
    })?;
    Ok(())
}

#[tactic(auto, unfolding(crate::specs::Walk::contract))]
fn add_contract(
    source: &Source<'_>,
    op: OpNo,
    names: &[Text],
    node: &NodeRef<'_>,
    found: &mut Checked,
) -> Result<(), TypeFault>
    requires op { op < length source.now.setting.model.now.ops }
    requires few { length (op_params source.now.setting.model.now op) ≤ 16 }
    ensures { Adds (contract (reading source.now) op names.now found.old node.now) result found.new }
{
    let Some(cond) = CondNode::of(node) else {
        return Ok(());
    };
    match found.next_name(source.names) {
        None => Ok(()),
        Some(name) => {
            let is_post = !cond.kind.is_token(TokenKind::Pre);
            add_named(source, op, names, is_post, &cond.condition, name, found)
        }
    }
}

/// The contracts of an operation that knows its parameters by these names.
pub(crate) fn add_contracts(
    source: &Source<'_>,
    op: OpNo,
    names: &[Text],
    nodes: Parts<'_>,
    found: &mut Checked,
) -> Result<(), TypeFault>
    requires op { op < length source.now.setting.model.now.ops }
    requires few { length (op_params source.now.setting.model.now op) ≤ 16 }
    ensures { Adds (contracts (reading source.now) op names.now found.old nodes.entry) result found.new }
{
    'nodes: for node in nodes {
        add_contract(source, op, names, &node, found)?;
    }
    Ok(())
}
