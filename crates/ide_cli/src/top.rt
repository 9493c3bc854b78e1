//! The whole program.

ghost use Rattle.std.specs.Prelude.{◌≡◌, None};
ghost use Rattle.cli_words.specs.Words.{command_asked};
ghost use Rattle.spec_links.specs.Cause.{CauseLaw};
ghost use Rattle.file_runs.specs.Outcome.{Ran};
ghost use Rattle.ide_cli.specs.Headline.{CountedEvents, CoveredEvents, InEvery, JudgedEvents, ToldUpToEvent};
ghost use Rattle.ide_cli.specs.Headline.{WrittenEvents, WrittenSoFar};
ghost use Rattle.ide_cli.specs.Laws.{Laws};
ghost use Rattle.ide_cli.specs.GeneratedRuns.{RunsGenerated};
ghost use Rattle.ide_cli.specs.Meaning.{CallRan, RanGenerated, usage_line};
ghost use Rattle.ide_cli.specs.Seen.{call_seen, run_seen, said_words};
ghost use Rattle.ide_cli.specs.Went.{CountedRules, IsExplained, JudgedCall};

use crate::laws::laws_hold;
use crate::packets::show_packets;
use crate::texts::{generate_script, generate_topology};
use cli_files::{Shelf, Sink};
use cli_words::{Request, WordsError, read_words};
use file_runs::{End, Fault, finish};
use ide_runs::{cover, why};
use law_text::lines_tell;
use rule_counts::forgeries_are_counted;
use script_runs::{check_topology, generate, judge, migrate_topology, run_files, run_packets};
use std::alloc::Global;

// Does what the words ask for.
fn perform<S: Shelf, O: Sink>(
    alloc: Global,
    words: &[String],
    shelf: &mut S,
    out: &mut O,
) -> Result<End, Fault>
    ensures { CallRan (call_seen S.seen O.seen words.now shelf.old shelf.new out.old out.new result) }
{
    match read_words(alloc, words) {
        Err(WordsError::Usage) => finish(
            out,
            End::Usage,
            b"usage: run TOPOLOGY SCRIPT, judge TOPOLOGY SCRIPT VERDICTS, why TOPOLOGY SCRIPT N, \
              check TOPOLOGY [--migrate], show PACKETS, generate SEED COUNT [--script | --topology]\n",
        ),
        Err(WordsError::Memory) => Err(Fault::Memory),
        Ok(Request::Run(topology, script)) => run_files(alloc, topology, script, shelf, out),
        Ok(Request::RunPackets(topology, script)) => {
            run_packets(alloc, topology, script, shelf, out)
        }
        Ok(Request::Judge(topology, script, verdicts)) => {
            judge(alloc, topology, script, verdicts, false, shelf, out)
        }
        Ok(Request::JudgeAll(topology, script, verdicts)) => {
            judge(alloc, topology, script, verdicts, true, shelf, out)
        }
        Ok(Request::Why(topology, script, number)) => {
            why(alloc, topology, script, number, shelf, out)
        }
        Ok(Request::Cover(topology, script)) => cover(alloc, topology, script, false, shelf, out),
        Ok(Request::CoverEvents(topology, script)) => {
            cover(alloc, topology, script, true, shelf, out)
        }
        Ok(Request::Check(topology)) => check_topology(alloc, topology, shelf, out),
        Ok(Request::Migrate(topology)) => migrate_topology(alloc, topology, shelf, out),
        Ok(Request::Show(packets)) => show_packets(alloc, packets, shelf, out),
        Ok(Request::Generate(seed, count)) => generate(alloc, seed, count, out),
        Ok(Request::GenerateScript(seed, count)) => generate_script(alloc, seed, count, out),
        Ok(Request::GenerateTopology(_, _)) => generate_topology(alloc, out),
    }
}

/// Does what the words of the command line ask for, over the files of a shelf, and writes its text to a sink (this
/// profile). The first word is the program's name; then come `run TOPOLOGY SCRIPT [--packets]`, `judge TOPOLOGY SCRIPT
/// VERDICTS [--all]`, `why TOPOLOGY SCRIPT N`, `cover TOPOLOGY SCRIPT [--events]`, `check TOPOLOGY [--migrate]`, `show
/// PACKETS` or `generate SEED COUNT [--script | --topology]`. Answers the end that the program comes to, or the fault
/// that cuts it off.
///
/// If the shelf tells its contents, the text of a run is the verdict lines of the script's events, each verdict the one
/// that is due after the events before it, with `--packets` the bytes of each packet that is sealed after them, and the
/// laws hold of the history that is written: of links, of both segments of their hops, and of streams between devices.
/// A text that is judged is compared with the text of such a run, and the laws hold of that history too, up to any
/// event. An event that is told is one of such a run, and the laws hold of the history up to it. Rules are counted over
/// the history of such a run, up to any event, and the laws hold of it, those that suppose that no tag was forged if
/// none is counted. A migration writes a text that reads to the topology's table with version 2. Generated events
/// are given to the same world one after another, and one line tells the totals of their history; the laws hold of it
/// too, and of that of the first of these events, up to any of them.
pub fn run<S: Shelf, O: Sink>(
    alloc: Global,
    words: &Vec<String>,
    shelf: &mut S,
    out: &mut O,
) -> Result<End, Fault>
    // What the call promises of the files that the words name: each promise is a field of `FileRun`, or of `EndsAs`,
    // which is a part of it.
    ensures files { CallRan (run_seen S.seen O.seen words.now shelf.old shelf.new out.old out.new result) }

    // Words that ask for nothing are answered with the usage line.
    ensures refused_words { command_asked (said_words words.now) ≡ None → Ran (End.Usage, usage_line) (O.seen out.old)
        (O.seen out.new) result }

    // If the words ask for generated events, the line with the totals of their history is due, or their script, or
    // their topology, whatever the shelf tells.
    ensures generated_text { RanGenerated
        (run_seen S.seen O.seen words.now shelf.old shelf.new out.old out.new result) }
    // If they ask for a run, of a script that was written so, on the topology that was, the verdict lines of the
    // generated events are due, and the totals with which the line of `generate` ends.
    ensures runs_generated { RunsGenerated
        (run_seen S.seen O.seen words.now shelf.old shelf.new out.old out.new result) }

    // If the words ask to judge a text, and the script is read to its end, the text is said to be the same exactly if
    // the contents of its file are the text that is due, whole; else the first line that differs is named, with the
    // line that is due there, if any is, or with `--all` exactly the lines that differ, in their order, and how many.
    ensures judged_text { JudgedCall (run_seen S.seen O.seen words.now shelf.old shelf.new out.old out.new result) }
    // If the words ask why event N of a script got its verdict, the text is the line of the verdict that is due, the
    // rule that answers, and the facts that its machine's state is due to have after the events before N, one a line;
    // of a script that is read to its end with fewer events it is the line that says so.
    ensures explained_event { IsExplained
        (run_seen S.seen O.seen words.now shelf.old shelf.new out.old out.new result) }

    // If the words ask to count rules, and the script is read to its end, the text is the count of the events that each
    // rule answers in the history of its events, and that of the tags that were forged there, which is 0 exactly if no
    // forgery was made; with `--events` the rules of each event come first.
    ensures counted_rules { CountedRules
        (run_seen S.seen O.seen words.now shelf.old shelf.new out.old out.new result) }

    // If the run ends by itself, the history of all events of the script was written, and with `--packets` the bytes of
    // each packet that it sealed. If a fault ends it, the history of the first of its events was written, and then a
    // prefix of what comes next.
    ensures written_events { WrittenEvents
        (run_seen S.seen O.seen words.now shelf.old shelf.new out.old out.new result) }
    ensures written_so_far { WrittenSoFar
        (run_seen S.seen O.seen words.now shelf.old shelf.new out.old out.new result) }
    // If the call ends by itself, and the words ask for generated events, one line with the totals of their history was
    // written; if they ask to judge a text or to count rules, the call went over the history of all events of the
    // script; and if they ask why an event got its verdict, over that of the events up to it.
    ensures counted_events { CountedEvents
        (run_seen S.seen O.seen words.now shelf.old shelf.new out.old out.new result) }
    ensures judged_events { JudgedEvents (run_seen S.seen O.seen words.now shelf.old shelf.new out.old out.new result) }
    ensures told_up_to_event { ToldUpToEvent
        (run_seen S.seen O.seen words.now shelf.old shelf.new out.old out.new result) }
    ensures covered_events { CoveredEvents
        (run_seen S.seen O.seen words.now shelf.old shelf.new out.old out.new result) }

    // In every history that was written or gone over, each verdict is the one that is due, and all laws hold: each is a
    // field of a part of `Laws`. So interfaces change their states as `state_law` says, and the manager's views change
    // and end as `view_law` says.
    ensures cause_law { InEvery CauseLaw (run_seen S.seen O.seen words.now shelf.old shelf.new out.old out.new result) }
    ensures laws { InEvery Laws (run_seen S.seen O.seen words.now shelf.old shelf.new out.old out.new result) }
{
    lines_tell();
    laws_hold();
    forgeries_are_counted();
    let words = words.as_slice();
    perform(alloc, words, shelf, out)
}
