//! Reading a topology.

ghost use Rattle.std.specs.Prelude.{◌≡◌, IfOk, map};
ghost use Rattle.toml.specs.View.{table_view};
ghost use Rattle.ide_types.specs.Fits.{FitsPlan};
ghost use Rattle.toml_walk.specs.Fault.{Gives};
ghost use Rattle.topology.specs.Meaning.{hop_of, link_of, drafted_plan, table_plan, plan_of};

use crate::draft::{LinkDraft, PlanDraft};
use crate::links::top_of;
use crate::rules::check;
use ide_types::{HopPlan, Items, LinkPlan, Plan};
use std::alloc::{AllocError, Global};
use toml::Table;
use toml_walk::{Keys, Path, PlanError, PlanFault};

// The hop that its keys say: without classes it takes none.
fn drafted_hop(alloc: Global, hop: Option<u8>, classes: Option<Items<u8>>) -> Option<HopPlan>
    ensures { result ≡ hop_of hop classes }
{
    match (hop, classes) {
        (None, _) => None,
        (Some(id), Some(classes)) => Some(HopPlan { id, classes }),
        (Some(id), None) => Some(HopPlan {
            id,
            classes: Items::new(Vec::new(alloc)),
        }),
    }
}

// The link that its keys say.
fn drafted_link(alloc: Global, draft: LinkDraft) -> Result<LinkPlan, AllocError>
    ensures { IfOk result (λ l. l ≡ link_of draft) }
{
    let LinkDraft {
        nonces,
        streams,
        interfaces,
        hop,
        hop_classes,
    } = draft;
    let plans = interfaces
        .into_vec()
        .into_iter()
        .map(|draft| draft.interface);
    let interfaces = Items::new(plans.collect(alloc)?);
    let hop = drafted_hop(alloc, hop, hop_classes);
    Ok(LinkPlan {
        nonces,
        streams,
        interfaces,
        hop,
    })
}

// The plan that the keys say.
fn plan_of_draft(alloc: Global, draft: PlanDraft) -> Result<Plan, AllocError>
    ensures { IfOk result (λ p. p ≡ drafted_plan draft) }
{
    let PlanDraft {
        version,
        portion,
        units_per_key,
        pool,
        links,
        memory,
        peers,
    } = draft;
    let mut all = Vec::new(alloc);
    for draft in links.into_vec() {
        all.push(drafted_link(alloc, draft)?)?;
    }
    Ok(Plan {
        version,
        portion,
        units_per_key,
        pool,
        links: Items::new(all),
        memory,
        peers,
    })
}

/// The plan that a table means.
pub(crate) fn plan_of_table(alloc: Global, table: &Table) -> Result<Plan, PlanError>
    ensures { Gives (λ p. p) result (table_plan (table_view table.now)) }
{
    let path = &Path::top();
    let draft = top_of(&Keys { alloc, path, table })?;
    check(alloc, &draft)?;
    Ok(plan_of_draft(alloc, draft)?)
}

/// The plan that a topology's text means, or the first fault of the walk through its tables, each key by its kind,
/// bounds and default, and of the rules over several values (this profile).
pub fn read(alloc: Global, bytes: &[u8]) -> Result<Plan, PlanError>
    ensures gives { Gives (λ p. p) result (plan_of bytes.now) }
    ensures fits { IfOk result FitsPlan }
{
    match toml::table_from_slice(alloc, bytes) {
        Ok(table) => plan_of_table(alloc, &table),
        Err(error) => {
            if error.is_memory() {
                Err(PlanError::Memory)
            } else {
                Err(PlanError::Fault(PlanFault::NotToml))
            }
        }
    }
}
