ghost use Rattle.std.specs.Prelude.{◌≡◌, ◌++◌, ◌∷◌, [], List, ℕ, IfOk, OnOk, if◌then◌else◌};
ghost use Rattle.class_decls.specs.Texts.{same_text};
ghost use Rattle.class_rules.specs.Features.{roles_at, roles_of_class};
ghost use Rattle.class_rules.specs.Groups.{listed};
ghost use Rattle.class_rules.specs.Operations.{contract_classes, is_contract_of};

use crate::groups::{Groups, add_to, of_name};
use crate::hierarchy::Hierarchy;
use class_decls::{AssocDecl, CondDecl, CondKind, Decls, Name, op_text};
use ocl_values::Text;
use std::alloc::{AllocError, Global};
use std::collections::BTreeMap;
use std::marker::Model;

/// Declarations, with what their rules look up by name.
#[derive(Drop)]
pub(crate) struct Index<'a> {
    hierarchy: Hierarchy<'a>,
    roles: Groups<Text>,
    contracts: Groups<Text>,
}

impl<'a> Model for Index<'a> {
    ghost use Rattle.class_decls.specs.declared.decls.Decls.{Decls};
    ghost use Rattle.class_rules.specs.Index.{IsIndexOf};

    ghost Value = { Decls };

    ghost view = { λ i. i.hierarchy };

    ghost invariant = { λ i. IsIndexOf i.hierarchy i.roles i.contracts };
}

/// Adds a text under a name.
fn add_text(
    alloc: Global,
    groups: &mut Groups<Text>,
    name: &str,
    text: &Text,
) -> Result<(), AllocError>
    ensures { OnOk result ((t : List ℕ) → listed groups.new t ≡ listed groups.old t ++ (if same_text name.now t then text.now ∷ [] else [])) }
{
    let name = Text::copy_of(alloc, name)?;
    let text = Text::copy_of(alloc, text.as_str())?;
    add_to(alloc, groups, &name, text)
}

/// The role at the other end, for the class at an end.
fn add_role(
    alloc: Global,
    roles: &mut Groups<Text>,
    class: &Name,
    role: &Name,
) -> Result<(), AllocError>
    ensures { OnOk result ((t : List ℕ) → listed roles.new t ≡ listed roles.old t ++ (if same_text class.now.text t then role.now.text ∷ [] else [])) }
{
    add_text(alloc, roles, class.text.as_str(), &role.text)
}

/// Both roles of an association.
fn add_roles(alloc: Global, roles: &mut Groups<Text>, assoc: &AssocDecl) -> Result<(), AllocError>
    ensures { OnOk result ((t : List ℕ) → listed roles.new t ≡ listed roles.old t ++ roles_at assoc.now t) }
{
    add_role(alloc, roles, &assoc.first.class, &assoc.second.role)?;
    add_role(alloc, roles, &assoc.second.class, &assoc.first.role)
}

/// The roles at the other ends of the associations that each class takes part in.
fn roles_by_class(alloc: Global, assocs: &[AssocDecl]) -> Result<Groups<Text>, AllocError>
    ensures { IfOk result (λ roles. (t : List ℕ) → listed roles t ≡ roles_of_class assocs.now t) }
{
    let mut roles = BTreeMap::new(alloc);
    'assocs: for assoc in assocs {
        add_roles(alloc, &mut roles, assoc)?;
    }
    Ok(roles)
}

/// The class of a condition, where it is a contract.
fn add_contract(
    alloc: Global,
    contracts: &mut Groups<Text>,
    decls: &Decls,
    cond: &CondDecl,
) -> Result<(), AllocError>
    ensures { OnOk result ((t : List ℕ) → listed contracts.new t
        ≡ listed contracts.old t ++ (if is_contract_of decls.now t cond.now then cond.now.class.text ∷ [] else [])) }
{
    let heads = decls.context_heads.as_slice();
    match &cond.kind {
        CondKind::Inv => Ok(()),
        CondKind::Pre(op) => add_text(alloc, contracts, op_text(heads, op), &cond.class.text),
        CondKind::Post(op) => add_text(alloc, contracts, op_text(heads, op), &cond.class.text),
    }
}

/// The classes of the contracts of the operations of each name.
fn contracts_by_operation(
    alloc: Global,
    decls: &Decls,
    conds: &[CondDecl],
) -> Result<Groups<Text>, AllocError>
    requires { conds.now ≡ decls.now.conds }
    ensures { IfOk result (λ contracts. (t : List ℕ) → listed contracts t ≡ contract_classes decls.now t) }
{
    let mut contracts = BTreeMap::new(alloc);
    'conds: for cond in conds {
        add_contract(alloc, &mut contracts, decls, cond)?;
    }
    Ok(contracts)
}

impl<'a> Index<'a> {
    /// What the rules of these declarations look up.
    pub(crate) fn of(alloc: Global, hierarchy: Hierarchy<'a>) -> Result<Index<'a>, AllocError>
        ensures { IfOk result (λ index. index ≡ hierarchy.entry) }
    {
        let decls = hierarchy.decls();
        let roles = roles_by_class(alloc, decls.assocs.as_slice())?;
        let contracts = contracts_by_operation(alloc, decls, decls.conds.as_slice())?;
        Ok(Index {
            hierarchy,
            roles,
            contracts,
        })
    }

    /// The classes by number.
    pub(crate) fn hierarchy(&self) -> &Hierarchy<'a>
        ensures { result.now ≡ self.now }
    {
        &self.hierarchy
    }

    /// The roles at the other ends for a class.
    pub(crate) fn roles(&self, class: &Text) -> &[Text]
        ensures { result.now ≡ roles_of_class self.now.assocs class.now }
    {
        of_name(&self.roles, class)
    }

    /// The classes in whose contexts the contracts of the operations of a name stand.
    pub(crate) fn contract_classes(&self, op: &Text) -> &[Text]
        ensures { result.now ≡ contract_classes self.now op.now }
    {
        of_name(&self.contracts, op)
    }
}
