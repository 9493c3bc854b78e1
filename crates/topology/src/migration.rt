//! Topologies of version 1 as topologies of version 2.

ghost use Rattle.std.specs.Prelude.{◌≡◌, ◌≤◌, true, Some, IfOk, IfErr, List, Ok, OnOk, ℕ};
ghost use Rattle.toml.specs.Data.{integer, is_sorted, items_are_sorted, members_are_sorted, members_depth};
ghost use Rattle.toml.specs.View.{view, array_view, table_view};
ghost use Rattle.ide_types.specs.declared.plan.Plan.{Plan};
ghost use Rattle.toml_walk.specs.Fault.{Fails};
ghost use Rattle.topology.specs.Meaning.{document, table_plan, plan_of};
ghost use Rattle.topology.specs.Migration.{IsMigrated, MigText, in_version_2, migrated_members};

use crate::reading::plan_of_table;
use ide_types::Bytes;
use std::alloc::{AllocError, Global};
use toml::{Table, Value};
use toml_walk::{PlanError, PlanFault};

// Walks through a value: the keys of each table in it ascend.
#[cycle(ascents)]
fn ascend_in(value: &Value)
    ensures { is_sorted (view value.now) ≡ true }
{
    match value {
        Value::Array(array) => ascend_in_items(array),
        Value::Table(table) => ascend_in_members(table),
        _ => {}
    }
}

#[cycle(ascents)]
fn ascend_in_items(array: &Vec<Value>)
    ensures { items_are_sorted (array_view array.now) ≡ true }
{
    'items: for item in array {
        ascend_in(item);
    }
}

#[cycle(ascents)]
fn ascend_in_members(table: &Table)
    ensures { members_are_sorted (table_view table.now) ≡ true }
{
    'members: for (_key, member) in table.iter() {
        ascend_in(member);
    }
}

// Sets `version` to 2.
fn set_version(alloc: Global, table: &mut Table) -> Result<(), PlanError>
    ensures set { OnOk result (table_view table.new ≡ migrated_members (table_view table.old)) }
    ensures memory { IfErr result (λ e. e ≡ PlanError.Memory) }
{
    let key = String::from_str(alloc, "version")?;
    table.insert(key, Value::Integer(2))?;
    Ok(())
}

// The text of a table, which is not deep.
fn text_of(alloc: Global, table: &Table) -> Result<Bytes, PlanError>
    requires { members_are_sorted (table_view table.now) ≡ true → members_depth (table_view table.now) ≤ 80 }
    ensures text { IfOk result (λ text. document text ≡ Some (table_view table.now)) }
    ensures memory { IfErr result (λ e. e ≡ PlanError.Memory) }
{
    ascend_in_members(table);
    match toml::table_to_string(alloc, table) {
        Ok(text) => Ok(Bytes::new(text.into_bytes())),
        Err(_) => Err(PlanError::Memory),
    }
}

// The text of a table that means a plan, in version 2.
fn text_in_version_2(alloc: Global, mut table: Table) -> Result<Bytes, PlanError>
    requires { (p : Plan) × (table_plan (table_view table) ≡ Ok p) }
    ensures text { IfOk result (MigText (table_view table)) }
    ensures memory { IfErr result (λ e. e ≡ PlanError.Memory) }
{
    match set_version(alloc, &mut table) {
        Err(_) => Err(PlanError::Memory),
        Ok(()) => text_of(alloc, &table),
    }
}

/// The text of a topology in version 2 (this profile): it reads to the table that the bytes read to, with `version` 2.
/// Returns the fault of the bytes if they mean no plan, or `Memory` for want of memory.
pub fn migrate(alloc: Global, bytes: &[u8]) -> Result<Bytes, PlanError>
    ensures text { IfOk result (IsMigrated bytes.now) }
    ensures fault { IfErr result (λ e. Fails e (plan_of bytes.now)) }
{
    match toml::table_from_slice(alloc, bytes) {
        Ok(table) => match plan_of_table(alloc, &table) {
            Ok(_) => text_in_version_2(alloc, table),
            Err(e) => Err(e),
        },
        Err(error) => {
            if error.is_memory() {
                Err(PlanError::Memory)
            } else {
                Err(PlanError::Fault(PlanFault::NotToml))
            }
        }
    }
}

/// The plan of a text in version 2 is the plan of the topology, version aside.
pub fn migrated_plan()
    ensures { (bytes text : List ℕ) (m : IsMigrated bytes text) → plan_of text ≡ Ok (in_version_2 m.plan) }
{}
