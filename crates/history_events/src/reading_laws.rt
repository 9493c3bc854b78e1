//! What the texts of generated events read as.

ghost use Rattle.history_events.specs.TextLaws.{ScriptIsShort, ScriptSpells, TopologyIsRead, TopologyIsShort};

/// The script of at most 100,000 rounds is whole lines within the limit of a script, which spell the generated events
/// and no others. The topology's text is within the limit of a topology, and means the topology of those events (this
/// profile).
pub fn texts_are_read()
    ensures script { ScriptSpells }
    ensures script_is_short { ScriptIsShort }
    ensures topology { TopologyIsRead }
    ensures topology_is_short { TopologyIsShort }
{}
