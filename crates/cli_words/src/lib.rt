//! The words of the command line.
#![tactic(auto)]

ghost use Rattle.std.specs.Prelude.{◌≡◌, ◌<◌, ◌≤◌, ◌^◌, [], ◌∷◌, List, ℕ, None, Some, IfOk, IfErr, codes, false, map};
ghost use Rattle.std.specs.Prelude.{is_none, is_some, string_bytes};
ghost use Rattle.std.specs.Fmt.{decimal};
ghost use Rattle.clap.specs.Words.{app_of, found_of, new_app, rows_of, rule_of, subcommand_rows_of, with_rule};
ghost use Rattle.clap.specs.Words.{with_subcommand};
ghost use Rattle.clap.specs.declared.builder.command.Command.TheViews.{out-Command};
ghost use Rattle.cli_words.specs.Ide.{check_app, cover_app, flag_rule, generate_app, ide_app, judge_app, name_rule};
ghost use Rattle.cli_words.specs.Ide.{number_rule, numbers_app, run_app, scripts_app, show_app, top_app};
ghost use Rattle.cli_words.specs.Ide.{topologies_app, why_app};
ghost use Rattle.cli_words.specs.Words.{HasFewRounds, IsName, NamesEvent, Refuses, command_asked, asked_by_name};
ghost use Rattle.cli_words.specs.Words.{subcommand_asked, asks_both, check, check_asked, cover, cover_asked};
ghost use Rattle.cli_words.specs.Words.{cover_events, generate, generate_script, generate_topology, generation_asked};
ghost use Rattle.cli_words.specs.Words.{is_flag_given, judge, judge_all, judge_asked, migrate, number_of, run};
ghost use Rattle.cli_words.specs.Words.{run_asked, run_packets, show, text_of, view, why, why_asked};

use clap::builder::ValueParser;
use clap::error::ErrorKind;
use clap::{Arg, ArgAction, ArgMatches, Command, Error};
use std::alloc::{AllocError, Global};

/// What the words ask for, by the names of its files or by its numbers.
#[derive(Clone, Copy)]
pub enum Request<'a> {
    /// To run a script on a topology.
    Run(&'a str, &'a str),
    /// To run a script on a topology, and show the bytes of each packet that is sealed.
    RunPackets(&'a str, &'a str),
    /// To run a script on a topology, and compare the lines of a file with those that are due.
    Judge(&'a str, &'a str, &'a str),
    /// The same, and to name all lines that differ.
    JudgeAll(&'a str, &'a str, &'a str),
    /// To run a script on a topology up to the event of this number, 1 to 67,108,864, and tell what its verdict came
    /// from.
    Why(&'a str, &'a str, u32),
    /// To run a script on a topology, and count the events that each rule answers.
    Cover(&'a str, &'a str),
    /// To run a script on a topology, and tell the rule of each event.
    CoverEvents(&'a str, &'a str),
    /// To check a topology.
    Check(&'a str),
    /// To write a topology as one of version 2.
    Migrate(&'a str),
    /// To show packets.
    Show(&'a str),
    /// To run the events that a seed gives in so many rounds, 1 to 100,000.
    Generate(u32, u32),
    /// To write the script of these events.
    GenerateScript(u32, u32),
    /// To write the topology that they run on, which the numbers do not change.
    GenerateTopology(u32, u32),
}

/// Why the words ask for nothing: they are refused, or there was no memory.
#[derive(Clone, Copy, PartialEq, Eq)]
pub enum WordsError {
    Usage,
    Memory,
}

// A required name.
fn name_arg<'a>(alloc: Global, id: &'static str) -> Arg<'a>
    ensures rule { rule_of result ≡ name_rule id.entry.now }
    ensures local { result.global ≡ false }
{
    Arg::new(alloc, id).required(true)
}

// A flag by its long name.
fn flag_arg<'a>(alloc: Global, id: &'static str) -> Arg<'a>
    ensures rule { rule_of result ≡ flag_rule id.entry.now }
    ensures local { result.global ≡ false }
{
    Arg::new(alloc, id).long(id).action(ArgAction::SetTrue)
}

// `run TOPOLOGY SCRIPT [--packets]`
#[inline(never)]
fn run_command<'a>(alloc: Global) -> Result<Command<'a>, AllocError>
    ensures app { IfOk result (λ c. app_of c ≡ run_app) }
    ensures local { IfOk result (λ c. (out-Command c).has_globals ≡ false) }
{
    let topology = name_arg(alloc, "TOPOLOGY");
    let script = name_arg(alloc, "SCRIPT");
    let packets = flag_arg(alloc, "packets");
    Command::new(alloc, "run")
        .arg(topology)?
        .arg(script)?
        .arg(packets)
}

// `judge TOPOLOGY SCRIPT VERDICTS [--all]`
#[inline(never)]
fn judge_command<'a>(alloc: Global) -> Result<Command<'a>, AllocError>
    ensures app { IfOk result (λ c. app_of c ≡ judge_app) }
    ensures local { IfOk result (λ c. (out-Command c).has_globals ≡ false) }
{
    let topology = name_arg(alloc, "TOPOLOGY");
    let script = name_arg(alloc, "SCRIPT");
    let verdicts = name_arg(alloc, "VERDICTS");
    let all = flag_arg(alloc, "all");
    Command::new(alloc, "judge")
        .arg(topology)?
        .arg(script)?
        .arg(verdicts)?
        .arg(all)
}

// A required number within bounds.
fn number_arg<'a>(alloc: Global, id: &'static str, least: u64, most: u64) -> Arg<'a>
    ensures rule { rule_of result ≡ number_rule id.entry.now least most }
    ensures local { result.global ≡ false }
{
    Arg::new(alloc, id)
        .required(true)
        .value_parser(ValueParser::unsigned(least, most))
}

// `why TOPOLOGY SCRIPT N`
#[inline(never)]
fn why_command<'a>(alloc: Global) -> Result<Command<'a>, AllocError>
    ensures app { IfOk result (λ c. app_of c ≡ why_app) }
    ensures local { IfOk result (λ c. (out-Command c).has_globals ≡ false) }
{
    let topology = name_arg(alloc, "TOPOLOGY");
    let script = name_arg(alloc, "SCRIPT");
    let number = number_arg(alloc, "N", 1, 67108864);
    Command::new(alloc, "why")
        .arg(topology)?
        .arg(script)?
        .arg(number)
}

// `cover TOPOLOGY SCRIPT [--events]`
#[inline(never)]
fn cover_command<'a>(alloc: Global) -> Result<Command<'a>, AllocError>
    ensures app { IfOk result (λ c. app_of c ≡ cover_app) }
    ensures local { IfOk result (λ c. (out-Command c).has_globals ≡ false) }
{
    let topology = name_arg(alloc, "TOPOLOGY");
    let script = name_arg(alloc, "SCRIPT");
    let events = flag_arg(alloc, "events");
    Command::new(alloc, "cover")
        .arg(topology)?
        .arg(script)?
        .arg(events)
}

// `check TOPOLOGY [--migrate]`
#[inline(never)]
fn check_command<'a>(alloc: Global) -> Result<Command<'a>, AllocError>
    ensures app { IfOk result (λ c. app_of c ≡ check_app) }
    ensures local { IfOk result (λ c. (out-Command c).has_globals ≡ false) }
{
    let topology = name_arg(alloc, "TOPOLOGY");
    let migrate = flag_arg(alloc, "migrate");
    Command::new(alloc, "check").arg(topology)?.arg(migrate)
}

// `show PACKETS`
#[inline(never)]
fn show_command<'a>(alloc: Global) -> Result<Command<'a>, AllocError>
    ensures app { IfOk result (λ c. app_of c ≡ show_app) }
    ensures local { IfOk result (λ c. (out-Command c).has_globals ≡ false) }
{
    Command::new(alloc, "show").arg(name_arg(alloc, "PACKETS"))
}

// `generate SEED COUNT`
#[inline(never)]
fn numbers_command<'a>(alloc: Global) -> Result<Command<'a>, AllocError>
    ensures app { IfOk result (λ c. app_of c ≡ numbers_app) }
    ensures local { IfOk result (λ c. (out-Command c).has_globals ≡ false) }
{
    let seed = number_arg(alloc, "SEED", 0, 4294967295);
    let count = number_arg(alloc, "COUNT", 1, 100000);
    Command::new(alloc, "generate").arg(seed)?.arg(count)
}

// `generate SEED COUNT [--script | --topology]`
#[inline(never)]
fn generate_command<'a>(alloc: Global) -> Result<Command<'a>, AllocError>
    ensures app { IfOk result (λ c. app_of c ≡ generate_app) }
    ensures local { IfOk result (λ c. (out-Command c).has_globals ≡ false) }
{
    let script = flag_arg(alloc, "script");
    let topology = flag_arg(alloc, "topology");
    numbers_command(alloc)?.arg(script)?.arg(topology)
}

// The program with no subcommands yet.
fn top<'a>(alloc: Global) -> Command<'a>
    ensures { app_of result ≡ top_app }
{
    Command::new(alloc, "ide")
        .disable_help_flag(true)
        .disable_help_subcommand(true)
        .subcommand_required(true)
}

fn with_command<'a>(command: Command<'a>, other: Command<'a>) -> Result<Command<'a>, AllocError>
    requires { (out-Command other).has_globals ≡ false }
    ensures { IfOk result (λ c. app_of c ≡ with_subcommand (app_of command.entry) (app_of other.entry).top) }
{
    command.subcommand(other)
}

// The program with the subcommands that tell verdicts of a script.
#[inline(never)]
fn of_scripts<'a>(alloc: Global) -> Result<Command<'a>, AllocError>
    ensures { IfOk result (λ c. app_of c ≡ scripts_app) }
{
    let with_run = with_command(top(alloc), run_command(alloc)?)?;
    let with_judge = with_command(with_run, judge_command(alloc)?)?;
    with_command(with_judge, why_command(alloc)?)
}

// The program with all subcommands that read a topology.
#[inline(never)]
fn of_topologies<'a>(alloc: Global) -> Result<Command<'a>, AllocError>
    ensures { IfOk result (λ c. app_of c ≡ topologies_app) }
{
    let with_cover = with_command(of_scripts(alloc)?, cover_command(alloc)?)?;
    with_command(with_cover, check_command(alloc)?)
}

// The program with its subcommands.
#[inline(never)]
fn ide<'a>(alloc: Global) -> Result<Command<'a>, AllocError>
    ensures { IfOk result (λ c. app_of c ≡ ide_app) }
{
    let with_show = with_command(of_topologies(alloc)?, show_command(alloc)?)?;
    with_command(with_show, generate_command(alloc)?)
}

// The argument's text, or the empty text.
#[tactic(auto, using(crate::proofs::App::first_text))]
fn text_in<'a>(matches: &ArgMatches<'a>, id: &str) -> &'a str
    ensures { result.now ≡ text_of id.now (rows_of (found_of matches.now)) }
{
    matches.get_str(id).unwrap_or("")
}

// Whether a flag is given.
fn is_set(matches: &ArgMatches, id: &str) -> bool
    ensures { result ≡ is_flag_given id.now (rows_of (found_of matches.now)) }
{
    text_in(matches, id) == "true"
}

// What `check` asks for.
fn checked<'a>(matches: &ArgMatches<'a>) -> Request<'a>
    ensures { view result ≡ check_asked (rows_of (found_of matches.now)) }
{
    let topology = text_in(matches, "TOPOLOGY");
    if is_set(matches, "migrate") {
        Request::Migrate(topology)
    } else {
        Request::Check(topology)
    }
}

fn number_of(least: u32, most: u32, text: &str) -> u32
    requires { least ≤ most }
    ensures number { result ≡ number_of least most text.now }
    ensures least { least ≤ result }
    ensures most { result ≤ most }
{
    let number = match text.parse::<u32>() {
        Ok(number) => number,
        Err(_) => return least,
    };
    if number < least {
        return least;
    }
    if most < number {
        return least;
    }
    number
}

// What `generate` asks for.
fn generated<'a>(matches: &ArgMatches<'a>) -> Request<'a>
    ensures asks { view result ≡ generation_asked (rows_of (found_of matches.now)) }
    ensures rounds { HasFewRounds result }
{
    let seed = number_of(0, 4294967295, text_in(matches, "SEED"));
    let count = number_of(1, 100000, text_in(matches, "COUNT"));
    if is_set(matches, "script") {
        Request::GenerateScript(seed, count)
    } else if is_set(matches, "topology") {
        Request::GenerateTopology(seed, count)
    } else {
        Request::Generate(seed, count)
    }
}

// What `run` asks for.
fn ran<'a>(matches: &ArgMatches<'a>) -> Request<'a>
    ensures { view result ≡ run_asked (rows_of (found_of matches.now)) }
{
    let topology = text_in(matches, "TOPOLOGY");
    let script = text_in(matches, "SCRIPT");
    if is_set(matches, "packets") {
        Request::RunPackets(topology, script)
    } else {
        Request::Run(topology, script)
    }
}

// What `judge` asks for.
fn judged<'a>(matches: &ArgMatches<'a>) -> Request<'a>
    ensures { view result ≡ judge_asked (rows_of (found_of matches.now)) }
{
    let topology = text_in(matches, "TOPOLOGY");
    let script = text_in(matches, "SCRIPT");
    let verdicts = text_in(matches, "VERDICTS");
    if is_set(matches, "all") {
        Request::JudgeAll(topology, script, verdicts)
    } else {
        Request::Judge(topology, script, verdicts)
    }
}

// What `cover` asks for.
fn covered<'a>(matches: &ArgMatches<'a>) -> Request<'a>
    ensures { view result ≡ cover_asked (rows_of (found_of matches.now)) }
{
    let topology = text_in(matches, "TOPOLOGY");
    let script = text_in(matches, "SCRIPT");
    if is_set(matches, "events") {
        Request::CoverEvents(topology, script)
    } else {
        Request::Cover(topology, script)
    }
}

// What `why` asks for.
fn explained<'a>(matches: &ArgMatches<'a>) -> Request<'a>
    ensures asks { view result ≡ why_asked (rows_of (found_of matches.now)) }
    ensures number { NamesEvent result }
{
    let number = number_of(1, 67108864, text_in(matches, "N"));
    Request::Why(
        text_in(matches, "TOPOLOGY"),
        text_in(matches, "SCRIPT"),
        number,
    )
}

// What the subcommand of this name asks for.
fn named_request<'a>(name: &str, matches: &ArgMatches<'a>) -> Request<'a>
    ensures rounds { HasFewRounds result }
    ensures number { NamesEvent result }
    ensures asks { view result ≡ asked_by_name name.now (rows_of (found_of matches.now)) }
{
    match name {
        "run" => ran(matches),
        "judge" => judged(matches),
        "why" => explained(matches),
        "cover" => covered(matches),
        "check" => checked(matches),
        "generate" => generated(matches),
        _ => Request::Show(text_in(matches, "PACKETS")),
    }
}

fn request_in<'a>(matches: &ArgMatches<'a>) -> Request<'a>
    ensures rounds { HasFewRounds result }
    ensures number { NamesEvent result }
    ensures asks { view result ≡ subcommand_asked (subcommand_rows_of matches.now) }
{
    match matches.subcommand() {
        Some((name, inner)) => named_request(name, inner),
        None => Request::Show(""),
    }
}

// Whether both flags of `generate` are given.
fn asks_both(matches: &ArgMatches) -> bool
    ensures { result ≡ asks_both (subcommand_rows_of matches.now) }
{
    match matches.subcommand() {
        Some((_, inner)) => is_set(inner, "script") && is_set(inner, "topology"),
        None => false,
    }
}

/// What the words ask for (this profile). The first word is the program's name; then come `run TOPOLOGY SCRIPT
/// [--packets]`, `judge TOPOLOGY SCRIPT VERDICTS [--all]`, `why TOPOLOGY SCRIPT N`, `cover TOPOLOGY SCRIPT [--events]`,
/// `check TOPOLOGY [--migrate]`, `show PACKETS` or `generate SEED COUNT [--script | --topology]`. Returns `Usage`
/// exactly if `clap` refuses the words for another cause than memory, or both flags of `generate` are given.
#[tactic(auto, using(crate::proofs::App::ide_is_simple))]
#[inline(never)]
pub fn read_words<'a>(alloc: Global, words: &'a [String]) -> Result<Request<'a>, WordsError>
    ensures ok { IfOk result (λ r. command_asked (map string_bytes words.now) ≡ Some (view r)) }
    ensures rounds { IfOk result HasFewRounds }
    ensures number { IfOk result NamesEvent }
    ensures err { IfErr result (Refuses (command_asked (map string_bytes words.now))) }
{
    let command = match ide(alloc) {
        Ok(command) => command,
        Err(_) => return Err(WordsError::Memory),
    };
    match command.try_get_matches_from(words) {
        Ok(matches) => {
            if asks_both(&matches) {
                return Err(WordsError::Usage);
            }
            Ok(request_in(&matches))
        }
        Err(error) => {
            if error.kind() == ErrorKind::OutOfMemory {
                Err(WordsError::Memory)
            } else {
                Err(WordsError::Usage)
            }
        }
    }
}

// The text of an error of `clap`, without the word that begins it and the line feed that ends it.
fn shown(alloc: Global, error: &Error) -> Result<String, AllocError> {
    let text = format!(in alloc; "{error}")?;
    let said = text.strip_prefix("error: ").unwrap_or(&text);
    String::from_str(alloc, said.trim_end())
}

/// What is wrong with words that ask for nothing: the text of `clap`, which names the faulty word and what may stand
/// there, in one or more lines. `None` if the words ask for something.
#[tactic(auto, using(crate::proofs::App::ide_is_simple))]
#[inline(never)]
pub fn refusal(alloc: Global, words: &[String]) -> Result<Option<String>, AllocError>
    ensures { IfOk result (λ text. is_some text ≡ is_none (command_asked (map string_bytes words.now))) }
{
    let command = ide(alloc)?;
    match command.try_get_matches_from(words) {
        Ok(matches) => {
            if !asks_both(&matches) {
                return Ok(None);
            }
            let text = "the argument '--script' cannot be used with '--topology'";
            Ok(Some(String::from_str(alloc, text)?))
        }
        Err(error) => {
            if error.kind() == ErrorKind::OutOfMemory {
                return Err(AllocError);
            }
            Ok(Some(shown(alloc, &error)?))
        }
    }
}

/// The program's forms are taken, whatever its own name is, with names that are not empty and do not begin
/// with `-`, and with numbers in range as decimal digits without a leading zero.
pub fn forms_are_taken()
    ensures run { (program a b : List ℕ) → IsName a → IsName b
        → command_asked (program ∷ codes "run" ∷ a ∷ b ∷ []) ≡ Some (run a b) }
    ensures packets { (program a b : List ℕ) → IsName a → IsName b
        → command_asked (program ∷ codes "run" ∷ a ∷ b ∷ codes "--packets" ∷ []) ≡ Some (run_packets a b) }
    ensures judge { (program a b c : List ℕ) → IsName a → IsName b → IsName c
        → command_asked (program ∷ codes "judge" ∷ a ∷ b ∷ c ∷ []) ≡ Some (judge a b c) }
    ensures all_lines { (program a b c : List ℕ) → IsName a → IsName b → IsName c
        → command_asked (program ∷ codes "judge" ∷ a ∷ b ∷ c ∷ codes "--all" ∷ []) ≡ Some (judge_all a b c) }
    ensures why { (program a b : List ℕ) (n : ℕ) → IsName a → IsName b → 1 ≤ n → n ≤ 67108864
        → command_asked (program ∷ codes "why" ∷ a ∷ b ∷ decimal n ∷ []) ≡ Some (why a b n) }
    ensures cover { (program a b : List ℕ) → IsName a → IsName b
        → command_asked (program ∷ codes "cover" ∷ a ∷ b ∷ []) ≡ Some (cover a b) }
    ensures events { (program a b : List ℕ) → IsName a → IsName b
        → command_asked (program ∷ codes "cover" ∷ a ∷ b ∷ codes "--events" ∷ []) ≡ Some (cover_events a b) }
    ensures check { (program a : List ℕ) → IsName a → command_asked (program ∷ codes "check" ∷ a ∷ [])
        ≡ Some (check a) }
    ensures migrate { (program a : List ℕ) → IsName a
        → command_asked (program ∷ codes "check" ∷ a ∷ codes "--migrate" ∷ []) ≡ Some (migrate a) }
    ensures show { (program a : List ℕ) → IsName a → command_asked (program ∷ codes "show" ∷ a ∷ []) ≡ Some (show a) }
    ensures generate { (program : List ℕ) (seed count : ℕ) → seed < 2 ^ 32 → 1 ≤ count → count ≤ 100000
        → command_asked (program ∷ codes "generate" ∷ decimal seed ∷ decimal count ∷ []) ≡ Some (generate seed count) }
    ensures script { (program : List ℕ) (seed count : ℕ) → seed < 2 ^ 32 → 1 ≤ count → count ≤ 100000
        → command_asked (program ∷ codes "generate" ∷ decimal seed ∷ decimal count ∷ codes "--script" ∷ [])
        ≡ Some (generate_script seed count) }
    ensures topology { (program : List ℕ) (seed count : ℕ) → seed < 2 ^ 32 → 1 ≤ count → count ≤ 100000
        → command_asked (program ∷ codes "generate" ∷ decimal seed ∷ decimal count ∷ codes "--topology" ∷ [])
        ≡ Some (generate_topology seed count) }
{}

/// Words that ask for generated events, for their script or for their topology name 1 to 100,000 rounds.
pub fn few_rounds()
    ensures totals { (words : List (List ℕ)) (seed count : ℕ) → command_asked words ≡ Some (generate seed count)
        → (1 ≤ count) × (count ≤ 100000) }
    ensures script { (words : List (List ℕ)) (seed count : ℕ) → command_asked words ≡ Some (generate_script seed count)
        → (1 ≤ count) × (count ≤ 100000) }
    ensures topology { (words : List (List ℕ)) (seed count : ℕ) → command_asked words
        ≡ Some (generate_topology seed count)
        → (1 ≤ count) × (count ≤ 100000) }
{}

/// Words that ask why an event got its verdict name an event from 1 to 67,108,864.
pub fn events_are_named()
    ensures { (words : List (List ℕ)) (topology script : List ℕ) (n : ℕ) → command_asked words
        ≡ Some (why topology script n)
        → (1 ≤ n) × (n ≤ 67108864) }
{}

/// The script and the topology of generated events are not asked for at once.
pub fn both_flags_are_refused()
    ensures { (program a b : List ℕ) → IsName a → IsName b
        → command_asked (program ∷ codes "generate" ∷ a ∷ b ∷ codes "--script" ∷ codes "--topology" ∷ []) ≡ None }
{}

/// No words at all, not even the program's name, ask for nothing.
pub fn no_words_are_refused()
    ensures { command_asked [] ≡ None }
{}
