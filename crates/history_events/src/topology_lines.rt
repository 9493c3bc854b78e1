//! The topology of generated events as a text.

ghost use Rattle.std.specs.Prelude.{◌≡◌, ◌++◌, IfOk, OnOk, string_bytes};
ghost use Rattle.history_events.specs.GeneratedTopology.{keys_below};
ghost use Rattle.history_events.specs.TopologyText.{bar_text, generated_topology, interface_text, key_item, key_items};
ghost use Rattle.history_events.specs.TopologyText.{link_text, memory_text, range_text, stream_text};

use crate::numbered_keys;
use ide_types::OutOfMemory;
use std::alloc::{AllocError, Global};

// The digits of 32 zero bytes.
const ZEROS: &str = "0000000000000000000000000000000000000000000000000000000000000000";

fn push_key(alloc: Global, text: &mut String, key: &[u8]) -> Result<(), AllocError>
    ensures { OnOk result (string_bytes text.new ≡ string_bytes text.old ++ key_item key.now) }
{
    let digits = hex::encode(alloc, key)?;
    write!(text, "\n    \"{digits}\",")
}

// The keys of the numbers from 0 on, each on a line of its own.
fn push_keys(alloc: Global, text: &mut String, count: u64) -> Result<(), OutOfMemory>
    ensures { OnOk result (string_bytes text.new ≡ string_bytes text.old ++ key_items (keys_below count)) }
{
    let keys = numbered_keys(alloc, count)?;
    for key in keys.as_slice() {
        push_key(alloc, text, key)?;
    }
    Ok(())
}

#[tactic(auto, unfolding(crate::specs::TopologyText::link_text))]
fn push_link(text: &mut String) -> Result<(), AllocError>
    ensures { OnOk result (string_bytes text.new ≡ string_bytes text.old ++ link_text) }
{
    text.push_str("\n]\nversion = 1\n\n[[link]]\nnonces = [")
}

#[tactic(auto, unfolding(crate::specs::TopologyText::interface_text))]
fn push_interface(text: &mut String) -> Result<(), AllocError>
    ensures { OnOk result (string_bytes text.new ≡ string_bytes text.old ++ interface_text) }
{
    write!(
        text,
        "\n]\n\n[[link.interface]]\ncacheline = 16\ncommand = 6\ninfo = \"{ZEROS}{ZEROS}\"\nrid = 256\nstream = 5\n"
    )
}

#[tactic(auto, unfolding(crate::specs::TopologyText::bar_text))]
fn push_bar(text: &mut String) -> Result<(), AllocError>
    ensures { OnOk result (string_bytes text.new ≡ string_bytes text.old ++ bar_text) }
{
    text.push_str("\n[[link.interface.bars]]\nbase = 1073741824\npages = 16\n")
}

#[tactic(auto, unfolding(crate::specs::TopologyText::stream_text))]
fn push_stream(text: &mut String) -> Result<(), AllocError>
    ensures { OnOk result (string_bytes text.new ≡ string_bytes text.old ++ stream_text) }
{
    text.push_str("\n[[link.stream]]\nid = 5\nkind = \"selective\"\n")
}

#[tactic(auto, unfolding(crate::specs::TopologyText::range_text))]
fn push_ranges(text: &mut String) -> Result<(), AllocError>
    ensures { OnOk result (string_bytes text.new ≡ string_bytes text.old ++ range_text) }
{
    text.push_str(
        "ranges = [[\n    1073741824,\n    1074790399,\n]]\nrid = [\n    256,\n    256,\n]\n",
    )
}

#[tactic(auto, unfolding(crate::specs::TopologyText::memory_text))]
fn push_memory(text: &mut String) -> Result<(), AllocError>
    ensures { OnOk result (string_bytes text.new ≡ string_bytes text.old ++ memory_text) }
{
    text.push_str("\n[[memory]]\nbase = 268435456\nsize = 65536\n")
}

/// The topology of generated events as TOML, of half a million bytes. It takes memory for the whole of it (this
/// profile).
pub fn topology_text(alloc: Global) -> Result<Vec<u8>, OutOfMemory>
    ensures { IfOk result (λ text. text.items ≡ generated_topology) }
{
    let mut text = String::from_str(alloc, "pool = [")?;
    push_keys(alloc, &mut text, 6144)?;
    push_link(&mut text)?;
    push_keys(alloc, &mut text, 1024)?;
    push_interface(&mut text)?;
    push_bar(&mut text)?;
    push_stream(&mut text)?;
    push_ranges(&mut text)?;
    push_memory(&mut text)?;
    Ok(text.into_bytes())
}
