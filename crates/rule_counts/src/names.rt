//! The rules that can answer.

ghost use Rattle.std.specs.Prelude.{◌≡◌, ◌≤◌, length, map};
ghost use Rattle.rule_counts.specs.Names.{answering_rules};
ghost use Rattle.rule_counts.specs.Counting.{place_in};

/// How many rules can answer.
pub(crate) const RULE_COUNT: usize = 85;

const RULES: [&str; RULE_COUNT] = [
    "lines.none",
    "packets.shown",
    "sending.malformed",
    "sending.plain",
    "sending.insecure",
    "sending.key",
    "sending.unfinished",
    "sending.sync",
    "sending.worn",
    "sending.sealed",
    "arriving.plain",
    "arriving.malformed",
    "arriving.stream",
    "arriving.insecure",
    "arriving.keyed",
    "arriving.key",
    "arriving.unit",
    "arriving.held",
    "arriving.tag",
    "arriving.order",
    "arriving.accepted",
    "arriving.effects",
    "slots.status",
    "operations.begin",
    "operations.lost",
    "operations.busy",
    "operations.establish",
    "operations.refresh",
    "operations.device",
    "reset",
    "interfaces.write",
    "interfaces.flr",
    "interfaces.firmware",
    "views.lock",
    "views.report",
    "views.start",
    "views.halt",
    "views.bind",
    "views.unbind",
    "views.state",
    "views.lost",
    "views.device",
    "views.shown",
    "memory.trusted",
    "memory.running",
    "memory.stream",
    "memory.floor",
    "memory.region",
    "memory.page",
    "memory.bytes",
    "memory.shown",
    "reads.queued",
    "reads.granted",
    "reads.placed",
    "reads.full",
    "answers.link",
    "answers.empty",
    "answers.running",
    "answers.stream",
    "answers.floor",
    "answers.refresh",
    "answers.refused",
    "answers.sealed",
    "mmio.page",
    "mmio.trusted",
    "mmio.running",
    "mmio.stream",
    "mmio.floor",
    "mmio.bytes",
    "mmio.shown",
    "responses.link",
    "responses.empty",
    "responses.moved",
    "responses.trusted",
    "responses.running",
    "responses.stream",
    "responses.floor",
    "responses.refresh",
    "responses.refused",
    "responses.sealed",
    "peers.operations",
    "hops.operations",
    "hops.through",
    "hops.waiting",
    "hops.forward",
];

/// The rules that can answer an event, or an effect of a packet, in the order of docs/RULES.md.
pub(crate) fn rules() -> &'static [&'static str]
    ensures { map (λ s. s.now) result.now ≡ answering_rules }
{
    &RULES
}

/// The place of a rule among these, from 0, or how many there are if it is none of them.
pub(crate) fn place_in(names: &[&str], rule: &str) -> usize
    ensures place { result ≡ place_in (map (λ s. s.now) names.now) rule.now }
    ensures most { result ≤ length names.now }
{
    for (i, name) in names.iter().enumerate() {
        if *name == rule {
            return i;
        }
    }
    names.len()
}
