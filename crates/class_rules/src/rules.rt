ghost use Rattle.std.specs.Prelude.{◌≡◌};
ghost use Rattle.use_text.specs.declared.refusal.Refusal.{Refusal};
ghost use Rattle.class_rules.specs.WellFormed.{Tells, broken_at, broken_counts, broken_features, broken_names, broken_overriding};
ghost use Rattle.class_rules.specs.WellFormed.{broken_parts, broken_rule, broken_sizes};
ghost use Rattle.class_rules.specs.declared.rules.RuleFault.TheVariants.{Memory};

use crate::by_class::{ClassRule, first_broken};
use crate::cycles::inheritance_cycle;
use crate::heads::no_such_operation;
use crate::hierarchy::Hierarchy;
use crate::index::Index;
use crate::places::parent_places;
use class_decls::{
    Decls, bad_multiplicity, name_declared_twice, operation_declared_twice, parent_named_twice,
    too_many_assocs, too_many_classes, too_many_invariants, too_many_literals, unknown_type,
};
use std::alloc::{AllocError, Global};
use thiserror::Error;
use use_text::{Code, Family, Place, Refusal};

/// Why declarations are not well formed.
#[derive(Clone, Copy, Debug, PartialEq, Eq, Error)]
pub enum RuleFault {
    #[error("out of memory")]
    Memory,
    #[error("{0}")]
    Refused(Refusal),
}

impl From<AllocError> for RuleFault {
    ghost from_gives = { λ _ e. e ≡ Memory };

    fn from(_: AllocError) -> Self {
        RuleFault::Memory
    }
}

/// The rule of a number is broken at a place, if there is one.
fn tell(number: u8, place: Option<Place>) -> Result<(), RuleFault>
    ensures { Tells (broken_at number place) result }
{
    match place {
        None => Ok(()),
        Some(place) => Err(RuleFault::Refused(Refusal {
            code: Code {
                family: Family::M,
                number,
            },
            place,
        })),
    }
}

fn judge_names(alloc: Global, decls: &Decls) -> Result<(), RuleFault>
    ensures { Tells (broken_names decls.now) result }
{
    tell(1, name_declared_twice(alloc, decls)?)?;
    tell(2, unknown_type(alloc, decls)?)?;
    tell(3, parent_named_twice(alloc, decls)?)
}

fn judge_features(alloc: Global, index: &Index<'_>) -> Result<(), RuleFault>
    ensures { Tells (broken_features index.now) result }
{
    tell(5, first_broken(alloc, index, ClassRule::AttributeMetTwice)?)?;
    tell(6, first_broken(alloc, index, ClassRule::RoleClashes)?)?;
    tell(
        7,
        operation_declared_twice(alloc, index.hierarchy().decls())?,
    )
}

fn judge_overriding(alloc: Global, index: &Index<'_>) -> Result<(), RuleFault>
    ensures { Tells (broken_overriding index.now) result }
{
    tell(8, first_broken(alloc, index, ClassRule::SignatureChanges)?)?;
    tell(
        9,
        first_broken(alloc, index, ClassRule::OperationAmbiguous)?,
    )?;
    tell(10, first_broken(alloc, index, ClassRule::BodiesMixed)?)
}

fn judge_parts(alloc: Global, decls: &Decls) -> Result<(), RuleFault>
    ensures { Tells (broken_parts decls.now) result }
{
    tell(11, bad_multiplicity(decls))?;
    tell(12, no_such_operation(alloc, decls)?)?;
    tell(13, too_many_classes(decls))
}

fn judge_sizes(alloc: Global, index: &Index<'_>) -> Result<(), RuleFault>
    ensures { Tells (broken_sizes index.now) result }
{
    tell(14, first_broken(alloc, index, ClassRule::TooManyFeatures)?)?;
    tell(15, too_many_assocs(index.hierarchy().decls()))?;
    tell(16, too_many_invariants(index.hierarchy().decls()))
}

fn judge_counts(alloc: Global, index: &Index<'_>) -> Result<(), RuleFault>
    ensures { Tells (broken_counts index.now) result }
{
    tell(17, first_broken(alloc, index, ClassRule::TooManyContracts)?)?;
    tell(18, too_many_literals(index.hierarchy().decls()))
}

/// Whether declarations are well formed. Refused with the least rule of M1 to M18 that they break,
/// at the first place where they break it.
pub fn judge(alloc: Global, decls: &Decls) -> Result<(), RuleFault>
    ensures { Tells (broken_rule decls.now) result }
{
    judge_names(alloc, decls)?;
    let parents = parent_places(alloc, decls)?;
    tell(4, inheritance_cycle(alloc, decls, parents.as_slice())?)?;
    let hierarchy = Hierarchy::of_places(alloc, decls, parents.as_slice())?;
    let index = Index::of(alloc, hierarchy)?;
    judge_features(alloc, &index)?;
    judge_overriding(alloc, &index)?;
    judge_parts(alloc, decls)?;
    judge_sizes(alloc, &index)?;
    judge_counts(alloc, &index)
}
