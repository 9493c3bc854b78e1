//! Cases of scripts. The link carries stream 5; its units have one packet if nothing else is said, and packets go from
//! the device to the host.

ghost use Rattle.std.specs.Prelude.{[], ◌∷◌, map, true, false};
ghost use Rattle.script_events.specs.declared.event.Event.TheVariants.{Pass};
ghost use Rattle.ide_types.specs.Ports.{host_port};
ghost use Rattle.ide_types.specs.declared.sub.SubKind.TheVariants.{Npr};
ghost use Rattle.spec_links.specs.Laws.{NoForgery};
ghost use Rattle.spec_links.specs.Plan.{lane_in};
ghost use Rattle.law_delivery.specs.NoForgeryUnder.{NoForgeryUnder};
ghost use Rattle.case_runs.specs.Due.{AreDue};
ghost use Rattle.case_runs.specs.Gone.{AreGone};
ghost use Rattle.case_runs.specs.ScriptCases.{plan, history_of_writes, establish_step, seal_step, accepted_unit, fails};
ghost use Rattle.case_runs.specs.ScriptCases.{accepted_once, trusted_on_the_way, other_set_on_the_way, one_missing};
ghost use Rattle.case_runs.specs.ScriptCases.{read_ahead, two_in_a_unit, late_packet, reply_lost, tail_missing};
ghost use Rattle.case_runs.specs.ScriptCases.{count_full, forged_once, forged_unit, older_goes, receiver, sender};

/// A posted write is sealed and accepted. If it arrives again it fails by its tag, which is that of the unit before;
/// then the stream is insecure.
pub fn write_is_accepted_once()
    ensures { AreDue (plan 1 false) [] accepted_once }
{}

/// With T set on the way a write fails by its tag, and with K set by its key, since the other set has none.
pub fn write_is_altered()
    ensures trusted { AreDue (plan 1 false) [] trusted_on_the_way }
    ensures rekeyed { AreDue (plan 1 false) [] other_set_on_the_way }
{}

/// Of three writes the second does not arrive: the third fails by its tag.
pub fn write_is_missing()
    ensures { AreDue (plan 1 false) [] one_missing }
{}

/// A read that was sealed after a write arrives before it, and fails by the order.
pub fn read_waits_for_its_write()
    ensures { AreDue (plan 1 false) [] read_ahead }
{}

/// After 255 posted writes a sync packet of each of the other two sub-streams goes before the next, and none before the
/// one after that.
pub fn sync_packets_go_first()
    ensures { AreDue (plan 1 false) (history_of_writes 255) count_full }
{}

/// Units of two packets: the first of two reads is held, and the second brings both. While a posted unit is unfinished
/// no read is sealed.
pub fn two_packets_are_one_unit()
    ensures { AreDue (plan 2 false) [] two_in_a_unit }
{}

/// A stream is refreshed while two writes are on their way. The first is accepted under the older key; once one under
/// the newer key was accepted, the second fails by its key.
pub fn late_packet_of_the_older_key()
    ensures { AreDue (plan 1 false) [] late_packet }
{}

/// The reply of exchange 9 of a refresh is lost. An establish is refused, and the refresh goes on with its own draw.
pub fn lost_reply_and_refresh_again()
    ensures { AreDue (plan 1 false) [] reply_lost }
{}

/// The last write under the older key is missing when the first one under the newer key arrives: on an open stream that
/// one is accepted, on a closed stream it fails by its tag.
pub fn closed_stream()
    ensures open_is_accepted { AreDue (plan 1 false) [] (tail_missing (accepted_unit 2 1 1)) }
    ensures closed_fails { AreDue (plan 1 true) [] (tail_missing (fails (Pass 2))) }
{}

/// A stream is refreshed: its older draw goes from the sender, and from the receiver once a unit under the newer key
/// was accepted. It stays gone after a stop, and after an establish that finds the pool empty.
pub fn older_draw_stays_gone()
    ensures gone { AreGone sender receiver 0 [] older_goes }
    ensures verdicts { AreDue (plan 1 false) [] (map (λ row. row.0) older_goes) }
{}

/// A stream is established, a write is sealed, and it is accepted: no tag verified on a unit that its partner had not
/// sealed.
pub fn good_history_forges_nothing()
    ensures { NoForgery (plan 1 false) (accepted_unit 1 0 1 ∷ seal_step 1 0 1 ∷ establish_step ∷ []) }
{}

/// A stream is established, and a write that the device did not seal arrives under its key: it is accepted. So a tag
/// was forged, but none of what comes non-posted under that key.
pub fn forged_write_is_of_one_sub_stream()
    ensures verdicts { AreDue (plan 1 false) [] forged_once }
    ensures forged { NoForgery (plan 1 false) (forged_unit ∷ establish_step ∷ []) → ⊥ }
    ensures others { NoForgeryUnder (plan 1 false) (forged_unit ∷ establish_step ∷ []) (lane_in (host_port 0) 5 Npr) 0 }
{}
