//! The words that stand for kinds of TLPs.
ghost use Rattle.std.specs.Prelude.{◌≡◌};
ghost use Rattle.file_runs.specs.Showing.{carried_word, tlp_kind_word};

use tlp_layout::{HeadView, TlpKind};

pub(crate) fn kind_name(kind: TlpKind) -> &'static str
    ensures { result.now ≡ tlp_kind_word kind }
{
    match kind {
        TlpKind::MemRead => "memread",
        TlpKind::MemWrite => "memwrite",
        TlpKind::CfgRead => "cfgread",
        TlpKind::CfgWrite => "cfgwrite",
        TlpKind::Message => "message",
        TlpKind::Completion => "completion",
    }
}

pub(crate) fn carried_name(head: &Option<HeadView>) -> &'static str
    ensures { result.now ≡ carried_word head.now }
{
    match head {
        None => "sync",
        Some(head) => kind_name(head.kind()),
    }
}
