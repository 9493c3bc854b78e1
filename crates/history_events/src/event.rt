//! The event of a history that a script's event is.

ghost use Rattle.std.specs.Prelude.{◌≡◌, ◌<◌, IfSome};
ghost use Rattle.history_events.specs.Events.{event_of as event_in, establish_event, refresh_event, stop_event};
ghost use Rattle.history_events.specs.Events.{status_event, send_event, bind_event, unbind_event, forward_event};
ghost use Rattle.history_events.specs.Events.{arrive_event, reset as reset_of, peer_event_in, hop_event_in};
ghost use Rattle.history_events.specs.Laws.{EventsAreAllowed};

use crate::resets::reset_ends;
use crate::streams::{bound_stream, has_port, hop_stream, own_stream, peer_stream};
use ide_types::{Bytes, Direction, Plan, PortName, Side, ValidPlan};
use script_events::{Event, HopEvent, InterfaceEvent, Loss, PeerEvent, ScriptEvent};

fn establish(stream: Option<(u64, u64)>, lose: Option<Loss>) -> Event
    ensures { result ≡ establish_event lose stream }
{
    match stream {
        None => Event::Absent,
        Some((line, stream)) => Event::Establish { line, stream, lose },
    }
}

fn refresh(stream: Option<(u64, u64)>, lose: Option<Loss>) -> Event
    ensures { result ≡ refresh_event lose stream }
{
    match stream {
        None => Event::Absent,
        Some((line, stream)) => Event::Refresh { line, stream, lose },
    }
}

fn stop(stream: Option<(u64, u64)>, lose: Option<Loss>) -> Event
    ensures { result ≡ stop_event lose stream }
{
    match stream {
        None => Event::Absent,
        Some((line, stream)) => Event::Stop { line, stream, lose },
    }
}

fn status(stream: Option<(u64, u64)>) -> Event
    ensures { result ≡ status_event stream }
{
    match stream {
        None => Event::Absent,
        Some((line, stream)) => Event::Status { line, stream },
    }
}

fn send(side: Side, bytes: Bytes, more: bool, stream: Option<(u64, u64)>) -> Event
    requires { IfSome stream (λ s. s.0 < 32) }
    ensures { result ≡ send_event side bytes more stream }
{
    match stream {
        None => Event::Absent,
        Some((line, _)) => {
            let port = PortName {
                side,
                line: line as u8,
            };
            Event::Send {
                port,
                bytes,
                more,
                trusted: false,
            }
        }
    }
}

fn bind(interface: u64, stream: Option<(u64, u64)>, lose: Option<Loss>) -> Event
    ensures { result ≡ bind_event interface lose stream }
{
    match stream {
        None => Event::Absent,
        Some((line, stream)) => Event::Interface {
            event: InterfaceEvent::Bind {
                interface,
                line,
                stream,
                lose,
            },
        },
    }
}

fn unbind(interface: u64, stream: Option<(u64, u64)>, lose: Option<Loss>) -> Event
    ensures { result ≡ unbind_event interface lose stream }
{
    match stream {
        None => Event::Absent,
        Some((line, stream)) => Event::Interface {
            event: InterfaceEvent::Unbind {
                interface,
                line,
                stream,
                lose,
            },
        },
    }
}

fn forward(plan: &Plan, link: u64, direction: u64) -> Event
    ensures { result ≡ forward_event plan.now link direction }
{
    if plan.hop(link).is_none() {
        return Event::Absent;
    }
    match direction {
        0 => Event::Forward {
            link,
            direction: Direction::Downstream,
        },
        1 => Event::Forward {
            link,
            direction: Direction::Upstream,
        },
        _ => Event::Absent,
    }
}

fn arrive(plan: &Plan, port: PortName, bytes: Bytes) -> Event
    ensures { result ≡ arrive_event plan.now port bytes }
{
    if has_port(plan, port) {
        Event::Arrive { port, bytes }
    } else {
        Event::Absent
    }
}

fn reset(plan: &ValidPlan, link: u64) -> Event
    ensures { result ≡ reset_of plan.now link }
{
    if link as usize >= plan.plan().links.as_slice().len() {
        return Event::Absent;
    }
    let ends = reset_ends(plan, link as u8);
    Event::Reset { link, ends }
}

fn of_peer(plan: &ValidPlan, event: PeerEvent) -> Event
    ensures { result ≡ peer_event_in plan.now event }
{
    match event {
        PeerEvent::Establish { peer, lose } => establish(peer_stream(plan, peer), lose),
        PeerEvent::Stop { peer, lose } => stop(peer_stream(plan, peer), lose),
        PeerEvent::Bind {
            interface,
            peer,
            lose,
        } => bind(interface, bound_stream(plan, interface, peer), lose),
        PeerEvent::Unbind {
            interface,
            peer,
            lose,
        } => unbind(interface, bound_stream(plan, interface, peer), lose),
    }
}

fn of_hop(plan: &ValidPlan, event: HopEvent) -> Event
    ensures { result ≡ hop_event_in plan.now event }
{
    match event {
        HopEvent::Establish {
            link,
            segment,
            lose,
        } => establish(hop_stream(plan, link, segment), lose),
        HopEvent::Stop {
            link,
            segment,
            lose,
        } => stop(hop_stream(plan, link, segment), lose),
        HopEvent::Forward { link, direction } => forward(plan.plan(), link, direction),
    }
}

/// The event of a history that an event of a script is in a topology: lines and ends in place of links, of hops and of
/// streams between devices. What the topology does not have comes to `Absent`. It takes no memory (this profile).
#[tactic(auto, unfolding(crate::specs::Events::event_of))]
pub fn event_of(plan: &ValidPlan, event: ScriptEvent) -> Event
    ensures { result ≡ event_in plan.now event }
{
    match event {
        ScriptEvent::Establish { link, stream, lose } => {
            establish(own_stream(plan.plan(), link, stream), lose)
        }
        ScriptEvent::Refresh { link, stream, lose } => {
            refresh(own_stream(plan.plan(), link, stream), lose)
        }
        ScriptEvent::Stop { link, stream, lose } => {
            stop(own_stream(plan.plan(), link, stream), lose)
        }
        ScriptEvent::Send {
            port,
            bytes,
            more,
            trusted,
        } => Event::Send {
            port,
            bytes,
            more,
            trusted,
        },
        ScriptEvent::PeerSend {
            peer,
            side,
            bytes,
            more,
        } => send(side, bytes, more, peer_stream(plan, peer)),
        ScriptEvent::Pass { packet } => Event::Pass { packet },
        ScriptEvent::Alter { packet, at, mask } => Event::Alter { packet, at, mask },
        ScriptEvent::Cut { packet, length } => Event::Cut { packet, length },
        ScriptEvent::Arrive { port, bytes } => arrive(plan.plan(), port, bytes),
        ScriptEvent::Dump { packet } => Event::Dump { packet },
        ScriptEvent::Reset { link } => reset(plan, link),
        ScriptEvent::Status { link, stream } => status(own_stream(plan.plan(), link, stream)),
        ScriptEvent::Interface { event } => Event::Interface { event },
        ScriptEvent::Access { event } => Event::Access { event },
        ScriptEvent::Peer { event } => of_peer(plan, event),
        ScriptEvent::Hop { event } => of_hop(plan, event),
    }
}

/// What a spelled event comes to is one that a history may have.
pub fn events_are_allowed()
    ensures { EventsAreAllowed }
{}
