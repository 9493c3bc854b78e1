//! The choice of a stream.

ghost use Rattle.std.specs.Prelude.{◌≡◌, ◌==◌, Some, IfSome};
ghost use Rattle.std.specs.List.{list_any};
ghost use Rattle.std.specs.Option.{option_map};
ghost use Rattle.tlp_layout.specs.Choice.{address_of, id_of, holds, holds_address, holds_id, takes_by_range};
ghost use Rattle.tlp_layout.specs.Choice.{takes_the_rest, takes_class, least_of, choice_of, choice_of_stream};
ghost use Rattle.tlp_layout.specs.Choice.{plan_place};
ghost use Rattle.tlp_layout.specs.Ways.{test_of, one_before};

use crate::{ChosenStream, Fields, HeadView, Routing, Way};
use ide_types::{AddressRange, IdRange, Items, Selector, Side, StreamPlan};

/// The streams of a link, as its topology lists them.
pub type Table = Items<StreamPlan>;

// The address of a memory request.
fn address(fields: &Fields) -> Option<u64>
    ensures { result ≡ address_of fields.now }
{
    match fields {
        Fields::Memory(memory) => Some(memory.address),
        _ => None,
    }
}

// The ID that the TLP goes by.
fn id(side: Side, fields: &Fields) -> Option<u16>
    ensures { result ≡ id_of side fields.now }
{
    match (side, fields) {
        (Side::Host, Fields::Memory(_)) => None,
        (Side::Host, Fields::Config(config)) => Some(config.destination),
        (Side::Host, Fields::Message(message)) => match message.routing {
            Routing::ById => Some(message.destination),
            _ => None,
        },
        (Side::Host, Fields::Completion(completion)) => Some(completion.requester),
        (Side::Device, Fields::Memory(memory)) => Some(memory.requester),
        (Side::Device, Fields::Config(config)) => Some(config.requester),
        (Side::Device, Fields::Message(message)) => Some(message.requester),
        (Side::Device, Fields::Completion(completion)) => Some(completion.completer),
    }
}

/// The ID of the function that owns a TLP which it sends: the requester of a request, the completer of a completion.
pub fn owner(head: &HeadView) -> Option<u16>
    ensures { result ≡ id_of Side.Device head.now.fields }
{
    id(Side::Device, &head.fields)
}

fn range_holds(range: &AddressRange, address: Option<u64>) -> bool
    ensures { result ≡ holds range.now.base range.now.limit address }
{
    match address {
        None => false,
        Some(address) => range.base <= address && address <= range.limit,
    }
}

fn holds_address(ranges: &[AddressRange], address: Option<u64>) -> bool
    ensures { result ≡ holds_address ranges.now address }
{
    for range in ranges {
        if range_holds(range, address) {
            return true;
        }
    }
    false
}

fn holds_id(range: Option<IdRange>, id: Option<u16>) -> bool
    ensures { result ≡ holds_id range id }
{
    match (range, id) {
        (Some(range), Some(id)) => range.base <= id && id <= range.limit,
        _ => false,
    }
}

fn takes_by_range(side: Side, tlp: &HeadView, selector: &Selector) -> bool
    ensures { result ≡ takes_by_range side tlp.now selector.now }
{
    match selector {
        Selector::Selective { ids, addresses, .. } => {
            holds_address(addresses.as_slice(), address(&tlp.fields))
                || holds_id(*ids, id(side, &tlp.fields))
        }
        Selector::Link { .. } => false,
    }
}

fn takes_the_rest(selector: &Selector) -> bool
    ensures { result ≡ takes_the_rest selector.now }
{
    match selector {
        Selector::Selective { default, .. } => *default,
        Selector::Link { .. } => false,
    }
}

fn lists(classes: &[u8], tc: u8) -> bool
    ensures { result ≡ list_any (λ c. c == tc) classes.now }
{
    for class in classes {
        if *class == tc {
            return true;
        }
    }
    false
}

fn takes_class(tlp: &HeadView, selector: &Selector) -> bool
    ensures { result ≡ takes_class tlp.now selector.now }
{
    match selector {
        Selector::Selective { .. } => false,
        Selector::Link { classes } => lists(classes.as_slice(), tlp.lead.tc),
    }
}

fn takes(way: Way, side: Side, tlp: &HeadView, selector: &Selector) -> bool
    ensures { result ≡ test_of way side tlp.now selector.now }
{
    match way {
        Way::ByRange => takes_by_range(side, tlp, selector),
        Way::ByDefault => takes_the_rest(selector),
        Way::ByClass => takes_class(tlp, selector),
    }
}

// The stream of the least ID, with one more stream before those that were looked at.
fn with_stream(
    least: Option<ChosenStream>,
    way: Way,
    side: Side,
    tlp: &HeadView,
    place: usize,
    stream: &StreamPlan,
) -> Option<ChosenStream>
    ensures { result ≡ one_before (test_of way side tlp.now stream.now.selector) way stream.now.id place least }
{
    let this = ChosenStream {
        way,
        id: stream.id,
        place,
    };
    match least {
        Some(other) if other.id == stream.id => Some(this),
        Some(other) if other.id < stream.id => least,
        _ if takes(way, side, tlp, &stream.selector) => Some(this),
        _ => least,
    }
}

// Of the streams that take the TLP in this way, that of the least ID. The last is looked at first, so that the place
// is the first of the ID.
fn least_by(way: Way, streams: &[StreamPlan], side: Side, tlp: &HeadView) -> Option<ChosenStream>
    ensures id { option_map (λ (c : ChosenStream). c.id) result ≡ least_of (test_of way side tlp.now) streams.now }
    ensures way { IfSome result (λ c. c.way ≡ way) }
    ensures place { IfSome result (λ c. plan_place streams.now c.id ≡ Some c.place) }
{
    let mut least = None;
    for place in (0..streams.len()).rev() {
        least = with_stream(least, way, side, tlp, place, &streams[place]);
    }
    least
}

/// The stream that takes a TLP at the port of a link's side, from the table of that link; `None` if the TLP goes plain.
/// First the selective stream of the least ID that has an address range for a memory request's address or a requester
/// range for the TLP's ID: at a host's port the destination of a configuration request or of a message routed by ID,
/// the requester of a completion; at a device's port the requester of a request, the completer of a completion. Then
/// the default stream, then the link stream that lists its traffic class (PCI Express Base 6.0 section 6.33, in this
/// profile's order). It is never refused.
#[tactic(auto, unfolding(crate::specs::Choice::choice_of))]
pub fn choose(table: &Table, side: Side, tlp: &HeadView) -> Option<ChosenStream>
    ensures choice { choice_of_stream result ≡ choice_of table.now side tlp.now }
    ensures place { IfSome result (λ c. plan_place table.now c.id ≡ Some c.place) }
{
    let streams = table.as_slice();
    if let Some(stream) = least_by(Way::ByRange, streams, side, tlp) {
        return Some(stream);
    }
    if let Some(stream) = least_by(Way::ByDefault, streams, side, tlp) {
        return Some(stream);
    }
    least_by(Way::ByClass, streams, side, tlp)
}
