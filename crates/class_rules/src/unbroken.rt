ghost use Rattle.std.specs.Prelude.{◌≡◌, IfOk, None, true};
ghost use Rattle.std.specs.Cmp.Lexicographic.{slice_cmp};
ghost use Rattle.std.specs.Ordering.{nat_cmp};
ghost use Rattle.use_orders.specs.Canon.{all_differ};
ghost use Rattle.class_rules.specs.ClassRules.{first_broken};
ghost use Rattle.class_rules.specs.Features.{attrs_of};

use crate::agreeing::{bodies_agree, signatures_agree};
use crate::by_class::ClassRule;
use crate::hierarchy::Hierarchy;
use class_decls::{ClassDecl, add_texts};
use ocl_values::Text;
use std::alloc::{AllocError, Global};
use use_orders::all_differ;

/// The names of all attributes.
fn all_attr_texts(alloc: Global, classes: &[ClassDecl]) -> Result<Vec<Text>, AllocError>
    ensures { IfOk result (λ v. v.items ≡ attrs_of classes.now) }
{
    let mut texts = Vec::new(alloc);
    'classes: for class in classes {
        add_texts(alloc, class.attrs.as_slice(), &mut texts)?;
    }
    Ok(texts)
}

/// Whether all attributes of all classes have different names.
fn attributes_differ(alloc: Global, classes: &[ClassDecl]) -> Result<bool, AllocError>
    ensures { IfOk result (λ b. b ≡ all_differ (slice_cmp nat_cmp) (attrs_of classes.now)) }
{
    let texts = all_attr_texts(alloc, classes)?;
    let differ = all_differ(alloc, texts.as_slice())?;
    Ok(differ)
}

/// Whether the declarations as a whole tell that no class breaks a rule, so that no class need be
/// looked at. No attribute is met twice where all have different names, no role clashes without
/// associations, no operation is ambiguous where no class has two parents, and none clashes with
/// another where all of one name agree.
pub(crate) fn is_unbroken(
    alloc: Global,
    hierarchy: &Hierarchy<'_>,
    rule: ClassRule,
) -> Result<bool, AllocError>
    ensures { IfOk result (λ b. b ≡ true → first_broken rule hierarchy.now ≡ None) }
{
    let decls = hierarchy.decls();
    match rule {
        ClassRule::AttributeMetTwice => {
            let differ = attributes_differ(alloc, decls.classes.as_slice())?;
            Ok(differ)
        }
        ClassRule::RoleClashes => Ok(decls.assocs.is_empty()),
        ClassRule::OperationAmbiguous => Ok(hierarchy.inherits_singly()),
        ClassRule::SignatureChanges => {
            let agree = signatures_agree(alloc, decls.classes.as_slice())?;
            Ok(agree)
        }
        ClassRule::BodiesMixed => {
            let agree = bodies_agree(alloc, decls.classes.as_slice())?;
            Ok(agree)
        }
        ClassRule::TooManyFeatures | ClassRule::TooManyContracts => Ok(false),
    }
}
