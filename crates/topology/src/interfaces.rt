//! The tables of device interfaces.

ghost use Rattle.std.specs.Prelude.{◌≡◌, codes, map};
ghost use Rattle.toml.specs.View.{view, table_view};
ghost use Rattle.toml_walk.specs.Bounds.{within, bounds_of_form};
ghost use Rattle.toml_walk.specs.Fault.{Gives};
ghost use Rattle.toml_walk.specs.Values.{integer};
ghost use Rattle.toml_walk.specs.Walk.{table};
ghost use Rattle.topology.specs.Tables.{bar_keys, stream_id_of, register_keys, interface_names, interface_keys};

use crate::draft::{InterfaceDraft, RegisterDraft};
use ide_types::{BarPlan, Bytes, InterfacePlan, Items};
use std::alloc::Global;
use toml::Value;
use toml_walk::{
    Byte, Form, GREATEST, HexBytes, Keys, ListOf, Long, Path, PlanError, Reader, Truth, Wide, Word,
    integer_of, table_of,
};

// The keys of a base address register's table.
#[tactic(auto, unfolding(crate::specs::Tables::bar_keys))]
fn bar_of(keys: &Keys) -> Result<BarPlan, PlanError>
    ensures { Gives (λ x. x) result (bar_keys keys.now.path.now (table_view keys.now.table.now)) }
{
    keys.only(&["base", "pages", "attributes"])?;
    let base = keys.required("base", &Wide::within(0, GREATEST))?;
    let pages = keys.required("pages", &Long::within(0, 1048576))?;
    let attributes = keys.optional("attributes", 0, &Byte::within(0, 15))?;
    Ok(BarPlan {
        base,
        pages,
        attributes,
    })
}

#[derive(Clone, Copy)]
struct Bars;

impl Reader for Bars {
    type Out = BarPlan;

    ghost reads = { λ _. table bar_keys };

    fn read(&self, alloc: Global, path: &Path, value: &Value) -> Result<BarPlan, PlanError> {
        let table = table_of(alloc, path, value)?;
        bar_of(&Keys { alloc, path, table })
    }
}

// Any number.
#[derive(Clone, Copy)]
struct Integer;

impl Reader for Integer {
    type Out = i64;

    ghost reads = { λ _. integer };

    fn read(&self, alloc: Global, path: &Path, value: &Value) -> Result<i64, PlanError> {
        integer_of(alloc, path, value)
    }
}

// The stream ID that a number is, or 0 if it is none.
fn id_in(number: i64) -> u8
    ensures { result ≡ stream_id_of number }
{
    if number >= 0 && number <= 255 {
        number as u8
    } else {
        0
    }
}

// The keys of an interface in version 1.
const NAMES: &[&str] = &[
    "rid",
    "stream",
    "flags",
    "offset",
    "command",
    "msix",
    "lnr",
    "cacheline",
    "tph",
    "info",
    "bars",
];

// The keys of an interface in version 2.
const NEWER_NAMES: &[&str] = &[
    "pasid",
    "ats",
    "reads",
    "rid",
    "stream",
    "flags",
    "offset",
    "command",
    "msix",
    "lnr",
    "cacheline",
    "tph",
    "info",
    "bars",
];

fn names_of(version: u8) -> &'static [&'static str]
    ensures { map (λ s. s.now) result.now ≡ interface_names version }
{
    if version == 2 { NEWER_NAMES } else { NAMES }
}

// The keys of an interface's table that are registers.
#[tactic(auto, unfolding(crate::specs::Tables::register_keys))]
fn registers_of(keys: &Keys) -> Result<RegisterDraft, PlanError>
    ensures { Gives (λ x. x) result (register_keys keys.now.path.now (table_view keys.now.table.now)) }
{
    let command = keys.optional("command", 0, &Word::within(0, 65535))?;
    let msix = keys.optional("msix", 0, &Word::within(0, 65535))?;
    let lnr = keys.optional("lnr", 0, &Word::within(0, 65535))?;
    let cache_line = keys.optional("cacheline", 0, &Byte::within(0, 255))?;
    let tph = keys.optional("tph", 0, &Long::within(0, 4294967295))?;
    let pasid = keys.optional("pasid", 0, &Word::within(0, 65535))?;
    let ats = keys.optional("ats", 0, &Word::within(0, 65535))?;
    Ok(RegisterDraft {
        command,
        msix,
        lnr,
        cache_line,
        tph,
        pasid,
        ats,
    })
}

// The keys of an interface's table.
#[tactic(auto, unfolding(crate::specs::Tables::interface_keys))]
fn interface_of(version: u8, keys: &Keys) -> Result<InterfaceDraft, PlanError>
    ensures { Gives (λ x. x) result (interface_keys version keys.now.path.now (table_view keys.now.table.now)) }
{
    keys.only(names_of(version))?;
    let requester = keys.required("rid", &Word::within(0, 65535))?;
    let stream = keys.required("stream", &Integer)?;
    let flags = keys.optional("flags", 0, &Word::within(0, 31))?;
    let offset = keys.optional("offset", 0, &Wide::formed(0, Form::Pages))?;
    let registers = registers_of(keys)?;
    let reads = keys.optional("reads", false, &Truth)?;
    let none = Bytes::new(Vec::new(keys.alloc));
    let info = keys.optional("info", none, &HexBytes { most: 1024 })?;
    let none = Items::new(Vec::new(keys.alloc));
    let bars = keys.optional("bars", none, &ListOf::between(0, 6, Bars))?;
    Ok(InterfaceDraft {
        stream,
        interface: InterfacePlan {
            requester,
            stream: id_in(stream),
            flags,
            offset,
            command: registers.command,
            cache_line: registers.cache_line,
            msix: registers.msix,
            lnr: registers.lnr,
            tph: registers.tph,
            pasid: registers.pasid,
            ats: registers.ats,
            reads,
            info,
            bars,
        },
    })
}

/// The table of an interface, of a topology of a version.
#[derive(Clone, Copy)]
pub(crate) struct Interfaces {
    pub version: u8,
}

impl Reader for Interfaces {
    type Out = InterfaceDraft;

    ghost reads = { λ r. table (interface_keys r.version) };

    fn read(&self, alloc: Global, path: &Path, value: &Value) -> Result<InterfaceDraft, PlanError> {
        let table = table_of(alloc, path, value)?;
        interface_of(self.version, &Keys { alloc, path, table })
    }
}
