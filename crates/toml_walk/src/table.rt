//! Walking through a table.

ghost use Rattle.std.specs.Prelude.{◌≡◌, map, option_map, string_bytes};
ghost use Rattle.std.specs.BTreeMap.{IsOrdered, keys};
ghost use Rattle.std.specs.String.{string_cmp};
ghost use Rattle.toml.specs.Data.{get_member, as_table};
ghost use Rattle.toml.specs.View.{view, table_view};
ghost use Rattle.toml_walk.specs.declared.fault.KeyFault.TheVariants.{Kind};
ghost use Rattle.toml_walk.specs.Fault.{Gives, refused, or_fault};
ghost use Rattle.toml_walk.specs.Walk.{is_known, unknown_in, only_known, key_names, Ascend, required_value, optional};

use crate::{KeyFault, Path, PlanError, Reader};
use std::alloc::Global;
use toml::{Table, Value};

fn is_in(known: &[&str], key: &str) -> bool
    ensures { result ≡ is_known (map (λ s. s.now) known.now) key.now }
{
    for name in known {
        if *name == key {
            return true;
        }
    }
    false
}

// The first key that is none of the known ones.
fn first_unknown<'a>(known: &[&str], table: &'a Table) -> Option<&'a str>
    ensures first { option_map (λ s. s.now) result
        ≡ unknown_in (map (λ s. s.now) known.now) (map string_bytes (keys table.now)) }
    ensures ordered { IsOrdered string_cmp table.now }
{
    for key in table.keys() {
        if !is_in(known, key.as_str()) {
            return Some(key.as_str());
        }
    }
    None
}

/// The keys of a table, to be read one after the other.
#[derive(Clone, Copy)]
pub struct Keys<'a> {
    pub alloc: Global,
    /// The table's path.
    pub path: &'a Path<'a>,
    pub table: &'a Table,
}

/// The value of a key, if it is there.
pub fn found<'a>(table: &'a Table, name: &str) -> Option<&'a Value>
    ensures { option_map (λ v. view v.now) result ≡ get_member name.now (table_view table.now) }
{
    table.get(name)
}

impl Keys<'_> {
    /// Refuses the least key of the table, in byte order, that is none of the known ones, with the fault `Unknown`.
    #[tactic(auto, using(crate::proofs::Lists::keys_of_view, crate::proofs::Unknown::table_ascends))]
    pub fn only(&self, known: &[&str]) -> Result<(), PlanError>
        ensures gives { Gives (λ u. u) result
            (only_known self.now.path.now (map (λ s. s.now) known.now) (table_view self.now.table.now)) }
        // So the first unknown key is the least.
        ensures ascend { Ascend (key_names (table_view self.now.table.now)) }
    {
        match first_unknown(known, self.table) {
            None => Ok(()),
            Some(key) => Err(self.path.key(key).refuse(self.alloc, KeyFault::Unknown)),
        }
    }

    /// The value of a key that has to be there. Refused, in this order: `Missing` if it is not, then as its reader
    /// refuses its value.
    pub fn required<R: Reader>(&self, name: &str, reader: &R) -> Result<R::Out, PlanError>
        ensures { Gives (λ x. x) result
            (required_value self.now.path.now (table_view self.now.table.now) name.now (R.reads reader.now)) }
    {
        let path = self.path.key(name);
        match found(self.table, name) {
            None => Err(path.refuse(self.alloc, KeyFault::Missing)),
            Some(value) => reader.read(self.alloc, &path, value),
        }
    }

    /// The value of a key, or its default if it is not there; refused as its reader refuses its value.
    pub fn optional<R: Reader>(
        &self,
        name: &str,
        default: R::Out,
        reader: &R,
    ) -> Result<R::Out, PlanError>
        ensures { Gives (λ x. x) result
            (optional self.now.path.now (table_view self.now.table.now) name.now default (R.reads reader.now)) }
    {
        match found(self.table, name) {
            None => Ok(default),
            Some(value) => reader.read(self.alloc, &self.path.key(name), value),
        }
    }
}

/// The table that a value is, or the fault `Kind` of this path.
pub fn table_of<'a>(alloc: Global, path: &Path, value: &'a Value) -> Result<&'a Table, PlanError>
    ensures { Gives (λ t. table_view t.now) result
        (or_fault (as_table (view value.now)) (refused path.now Kind)) }
{
    match value.as_table() {
        None => Err(path.refuse(alloc, KeyFault::Kind)),
        Some(table) => Ok(table),
    }
}
