//! At which end TLPs are sealed.

ghost use Rattle.std.specs.Prelude.{◌≡◌, ◌&&◌, ◌<◌};
ghost use Rattle.tlp_layout.specs.Reading.{read_of};
ghost use Rattle.tlp_layout.specs.Choice.{chosen_stream};
ghost use Rattle.tlp_layout.specs.Outgoing.{outgoing_of, outgoing_if_chosen};
ghost use Rattle.ide_types.specs.Plans.{is_among};
ghost use Rattle.ide_types.specs.Ends.{hop_end as end_of_hop};
ghost use Rattle.spec_links.specs.Ports.{takes_none, hop_lists, sealing_end as sealing_end_of};
ghost use Rattle.line_routes.specs.Rows.{goes_to_hop_by};

use ide_types::{HopPlan, LinkPlan, Plan, PortName, Side, ValidPlan};
use tlp_layout::{OutgoingTlp, choose};

fn is_among(class: u8, classes: &[u8]) -> bool
    ensures { result ≡ is_among class classes.now }
{
    classes.iter().any(|other| class == *other)
}

fn lists(hop: &HopPlan, class: u8) -> bool
    ensures { result ≡ is_among class hop.now.classes }
{
    is_among(class, hop.classes.as_slice())
}

// No stream of the link takes the TLP at this side, and its hop does.
#[tactic(auto, unfolding(tlp_layout::specs::Outgoing::outgoing_of))]
fn is_left(link: &LinkPlan, side: Side, tlp: &OutgoingTlp) -> bool
    ensures { result ≡ (takes_none (outgoing_of link.now.streams side tlp.now)
        && hop_lists link.now.hop (read_of tlp.now)) }
{
    match &link.hop {
        None => false,
        Some(hop) => match tlp.tlp() {
            Err(_) => false,
            Ok(view) => {
                let head = view.head();
                lists(hop, head.lead.tc) && choose(&link.streams, side, &head).is_none()
            }
        },
    }
}

fn goes_to_hop(plan: &Plan, end: PortName, tlp: &OutgoingTlp) -> bool
    ensures { result ≡ goes_to_hop_by plan.now end tlp.now }
{
    match plan.links.as_slice().get(end.line as usize) {
        None => false,
        Some(link) => is_left(link, end.side, tlp),
    }
}

// The end of a link's hop at the host or at the device.
pub(crate) fn hop_end(side: Side, link: u8) -> PortName
    requires { link < 8 }
    ensures { result ≡ end_of_hop side link }
{
    PortName {
        side,
        line: match side {
            Side::Host => 8 + link,
            Side::Device => 16 + link,
        },
    }
}

/// The end at which a TLP is sealed that is sent at this end: that of the hop, if no stream of the
/// link takes it and the hop lists its traffic class; else this end (PCI Express Base 6.0 section 6.33, in this
/// profile).
#[tactic(auto, using(crate::proofs::Rows::to_hop), unfolding(spec_links::specs::Ports::sealing_end))]
pub fn sealing_end(plan: &ValidPlan, end: PortName, tlp: &OutgoingTlp) -> PortName
    ensures { result ≡ sealing_end_of plan.now end tlp.now }
{
    if goes_to_hop(plan.plan(), end, tlp) {
        hop_end(end.side, end.line)
    } else {
        end
    }
}
