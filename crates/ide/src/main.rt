//! `ide`: the program over real files and standard output.
#![tactic(auto)]

mod help;
mod places;

use cli_files::{FileShelf, OutSink};
use ide_cli::{End, Fault, exit_code};
use places::Place;
use std::alloc::Global;
use std::io::ErrorKind;
use std::process::ExitCode;
use std::rt::Files;
use std::{env, io};

#[cfg(test)]
mod outside;

// The words of the command line, none if one of them is not UTF-8: no words at all are no command
// (`cli_words::no_words_are_refused`).
fn words(rt: &HostRuntime, alloc: Global) -> Result<Vec<String>, Fault> {
    match env::args(rt) {
        Ok(args) => args.collect(alloc).map_err(|_| Fault::Memory),
        Err(e) if matches!(e.kind(), ErrorKind::OutOfMemory) => Err(Fault::Memory),
        Err(_) => Ok(Vec::new(alloc)),
    }
}

// Does what the words ask for, and says on standard error why it ended, if not at the end of its input.
fn perform(rt: &HostRuntime) -> Result<End, Fault> {
    let words = match words(rt, rt.alloc()) {
        Ok(words) => words,
        Err(fault) => return told(rt, Err(fault)),
    };
    let mut shelf = match rt.clone() {
        Ok(files) => FileShelf::new(rt.alloc(), files),
        Err(_) => return told(rt, Err(Fault::Memory)),
    };
    let mut out = OutSink::new(io::writer(rt));
    let outcome = ide_cli::run(rt.alloc(), &words, &mut shelf, &mut out);
    match outcome {
        Ok(End::Usage) => told_of_words(rt, &words),
        Err(Fault::Read) => told_of_read(rt, &shelf),
        Ok(End::TooLong) => told_of_length(rt, &shelf),
        Ok(End::Topology) => told_of_topology(rt, &mut shelf),
        Ok(End::Script) => told_of_line(rt, &words, &mut shelf),
        _ => told(rt, outcome),
    }
}

// The kind of an end. What is said of faulty words does not go by it.
fn word(outcome: Result<End, Fault>) -> Option<&'static str> {
    match outcome {
        Ok(End::Done | End::Differs | End::Usage) => None,
        Ok(End::Topology) => Some("the topology is faulty"),
        Ok(End::Script) => Some("a line of the script or packet file is faulty"),
        Ok(End::TooLong) => Some("a file is too long"),
        Ok(End::NoEvent) => Some("the script has no such event"),
        Err(Fault::Read) => Some("a file could not be read"),
        Err(Fault::Write) => Some("standard output could not be written"),
        Err(Fault::Memory) => Some("there was no memory"),
    }
}

// Says the kind of an end, and no more.
#[inline(never)]
fn told(rt: &HostRuntime, outcome: Result<End, Fault>) -> Result<End, Fault> {
    if let Some(word) = word(outcome) {
        let _ = eprintln!(rt; "ide: {word}");
    }
    outcome
}

// What to say to someone who asks for help or for the version; no words but the program's name ask for help.
fn page(words: &[String]) -> Option<&'static str> {
    match words {
        [_] => Some(help::PAGE),
        [_, word] => match word.as_str() {
            "--help" | "-h" | "help" => Some(help::PAGE),
            "--version" => Some(help::VERSION),
            _ => None,
        },
        _ => None,
    }
}

// Says what is wrong with the words, or what they ask to be told.
#[inline(never)]
fn told_of_words(rt: &HostRuntime, words: &[String]) -> Result<End, Fault> {
    if let Some(page) = page(words) {
        let _ = eprintln!(rt; "{page}");
        return Ok(End::Usage);
    }
    if words.is_empty() {
        let _ = eprintln!(rt; "ide: a word is not UTF-8");
        return Ok(End::Usage);
    }
    let _ = match cli_words::refusal(rt.alloc(), words) {
        Ok(Some(text)) => eprintln!(rt; "ide: {text}"),
        _ => eprintln!(rt; "ide: the words are no command"),
    };
    Ok(End::Usage)
}

// Says which file could not be read, and why.
#[inline(never)]
fn told_of_read<R: Files>(rt: &HostRuntime, shelf: &FileShelf<R>) -> Result<End, Fault> {
    match (shelf.last_name(), shelf.failure()) {
        (Some(name), Some(error)) => {
            let _ = eprintln!(rt; "ide: {name}: {error}");
            Err(Fault::Read)
        }
        _ => told(rt, Err(Fault::Read)),
    }
}

// Says which file is too long: the one that was read last.
#[inline(never)]
fn told_of_length<R: Files>(rt: &HostRuntime, shelf: &FileShelf<R>) -> Result<End, Fault> {
    match shelf.last_name() {
        Some(name) => {
            let _ = eprintln!(rt; "ide: {name}: the file is too long");
            Ok(End::TooLong)
        }
        None => told(rt, Ok(End::TooLong)),
    }
}

// The file that was read last.
fn last_name<R: Files>(rt: &HostRuntime, shelf: &FileShelf<R>) -> Option<String> {
    String::from_str(rt.alloc(), shelf.last_name()?).ok()
}

// Says where a file is faulty, if that was found; else the kind of the end.
fn told_of_place(
    rt: &HostRuntime,
    name: &str,
    place: Option<Place>,
    end: End,
) -> Result<End, Fault> {
    match place {
        Some(
            Place {
                line,
                column,
                wrong,
            },
        ) => {
            let _ = eprintln!(rt; "ide: {name}: line {line}, column {column}: {wrong}");
            Ok(end)
        }
        None => told(rt, Ok(end)),
    }
}

// Says where a topology is no TOML; of any other fault standard output names the key. The file that was read last is
// read again, which a pipe cannot be.
#[inline(never)]
fn told_of_topology<R: Files>(rt: &HostRuntime, shelf: &mut FileShelf<R>) -> Result<End, Fault> {
    match last_name(rt, shelf) {
        Some(name) => {
            let place = places::of_topology(rt.alloc(), shelf, &name);
            told_of_place(rt, &name, place, End::Topology)
        }
        None => told(rt, Ok(End::Topology)),
    }
}

// Says where a line is faulty, in the same way.
#[inline(never)]
fn told_of_line<R: Files>(
    rt: &HostRuntime,
    words: &[String],
    shelf: &mut FileShelf<R>,
) -> Result<End, Fault> {
    let is_script = match words {
        [_, word, ..] => word.as_str() != "show",
        _ => true,
    };
    match last_name(rt, shelf) {
        Some(name) => {
            let place = places::of_lines(rt.alloc(), shelf, &name, is_script);
            told_of_place(rt, &name, place, End::Script)
        }
        None => told(rt, Ok(End::Script)),
    }
}

fn main(rt: HostRuntime) -> ExitCode {
    ExitCode::from(exit_code(perform(&rt)))
}
