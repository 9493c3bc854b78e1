//! Sessions for C: a session is opened on the bytes of a topology, stepped by one line of a script at a time, and
//! closed.
#![tactic(auto)]

ghost use Rattle.std.specs.Prelude.{◌≡◌, IfSome, IsSome, None};
ghost use Rattle.ide_types.specs.Fits.{FitsPlan};
ghost use Rattle.ide_session.specs.Answers.{AnswersWithCode};
ghost use Rattle.ide_session.specs.Sessions.{BeginCame, CloseCame, ExplainCame, LastCame, OpenCame, PacketCame};
ghost use Rattle.ide_session.specs.Sessions.{PacketSaid, RefusalCame, StepCame, TextCame, TotalsCame, TotalsSaid};
ghost use Rattle.ide_session.specs.Sessions.{WhyCame, WhySaid, kept_session, going_of};

pub mod answer;
pub mod given;
pub mod held;
mod loose;
pub mod runs;
pub mod session;

use answer::Answer;
use held::{Handle, hold, unhold};
use ide_types::Plan;
use script_events::fault_line;
use script_runs::{Loaded, World, load_bytes, refusal};
use session::{NotRun, Session};
use std::alloc::Global;

// ---- texts

// Copies a text to the caller's buffer if that has room, and says how many bytes the text has.
fn give(text: &[u8], buf: &mut [u8], written: &mut usize) -> Answer
    ensures { TextCame result text.now written.new buf.new }
{
    let n = text.len();
    *written = n;
    if n > buf.len() {
        return Answer::Room;
    }
    let (front, _) = buf.split_at_mut(n);
    front.copy_from_slice(text);
    Answer::Done
}

// ---- a session is opened

// Begins a session on a plan.
fn begin(alloc: Global, plan: Plan, s: &mut Handle) -> Answer
    requires fits { FitsPlan plan }
    requires empty { s.old.held.kept ≡ None }
    ensures { BeginCame result plan (kept_session s.new.held.kept) }
{
    let Ok(world) = World::make(alloc, plan) else {
        return Answer::Memory;
    };
    match Box::new(alloc, Session::new(alloc, world)) {
        Err(_) => Answer::Memory,
        Ok(b) => {
            hold(s, b);
            Answer::Done
        }
    }
}

// Opens a session, if the handle has none.
fn begin_on_handle(
    alloc: Global,
    s: &mut Handle,
    topology: &[u8],
    buf: &mut [u8],
    written: &mut usize,
) -> Answer
    ensures { OpenCame result (kept_session s.old.held.kept) topology.now (kept_session s.new.held.kept) written.new
        buf.new }
{
    *written = 0;
    if s.live {
        return Answer::Open;
    }
    match load_bytes(alloc, topology) {
        Err(_) => Answer::Memory,
        Ok(Loaded::Long) => Answer::TooLong,
        Ok(Loaded::Faulty(fault)) => match refusal(alloc, &fault) {
            Err(_) => Answer::Memory,
            Ok(line) => {
                give(&line, buf, written);
                Answer::Topology
            }
        },
        Ok(Loaded::Sound(plan)) => begin(alloc, plan, s),
    }
}

/// Opens a session on the bytes of a topology. If they are no plan, the handle stays empty, and the text is the line
/// that `ide check` writes.
#[unsafe(no_mangle)]
pub extern "C" fn ide_open(
    alloc: Global,
    s: &mut Handle,
    topology: &[u8],
    buf: &mut [u8],
    written: &mut usize,
) -> u32
    ensures { AnswersWithCode (λ a. OpenCame a (kept_session s.old.held.kept) topology.now
        (kept_session s.new.held.kept) written.new
        buf.new) result }
{
    begin_on_handle(alloc, s, topology, buf, written).code()
}

// ---- a line

// The answer for a line that was not run.
fn refuse(alloc: Global, number: u64, cause: NotRun, buf: &mut [u8], written: &mut usize) -> Answer
    requires { written.old ≡ 0 }
    ensures { RefusalCame result number cause written.new buf.new }
{
    match cause {
        NotRun::Full => Answer::TooLong,
        NotRun::Memory => Answer::Memory,
        NotRun::Fault(fault) => match fault_line(alloc, number, fault) {
            Err(_) => Answer::Memory,
            Ok(line) => {
                give(&line, buf, written);
                Answer::Script
            }
        },
    }
}

// Steps a session that goes on.
fn step(
    alloc: Global,
    session: &mut Session,
    line: &[u8],
    buf: &mut [u8],
    written: &mut usize,
) -> Answer
    requires goes_on { IsSome (going_of session.old) }
    requires none { written.old ≡ 0 }
    ensures { StepCame result (going_of session.old) line.now (going_of session.new) written.new buf.new }
{
    let number = session.next_number();
    match session.step(alloc, line) {
        Ok(()) => give(session.last.text.as_slice(), buf, written),
        Err(cause) => refuse(alloc, number, cause, buf, written),
    }
}

// Steps the session of a handle, if it has one.
fn step_on_handle(
    alloc: Global,
    s: &mut Handle,
    line: &[u8],
    buf: &mut [u8],
    written: &mut usize,
) -> Answer
    ensures { let session = kept_session s.old.held.kept in
        StepCame result session line.now (kept_session s.new.held.kept) written.new buf.new }
{
    *written = 0;
    match unhold(s, alloc) {
        None => Answer::Closed,
        Some(mut b) => {
            let answer = step(alloc, b.as_mut(), line, buf, written);
            hold(s, b);
            answer
        }
    }
}

/// Runs the next line of a script, which stands without its line feed. A line that is not spelled leaves the session as
/// it was, and the text is the line that `ide run` writes for it.
#[unsafe(no_mangle)]
pub extern "C" fn ide_step(
    alloc: Global,
    s: &mut Handle,
    line: &[u8],
    buf: &mut [u8],
    written: &mut usize,
) -> u32
    ensures { AnswersWithCode (λ a. StepCame a (kept_session s.old.held.kept) line.now (kept_session s.new.held.kept)
        written.new buf.new)
        result }
{
    step_on_handle(alloc, s, line, buf, written).code()
}

// ---- what a session tells

// The text of the line that was taken last, of a handle that may have a session.
fn last_of(alloc: Global, s: &mut Handle, buf: &mut [u8], written: &mut usize) -> Answer
    ensures { LastCame result (kept_session s.old.held.kept) (kept_session s.new.held.kept) written.new buf.new }
{
    *written = 0;
    match unhold(s, alloc) {
        None => Answer::Closed,
        Some(b) => {
            let answer = give(b.as_ref().last.text.as_slice(), buf, written);
            hold(s, b);
            answer
        }
    }
}

/// The text of the line that was taken last, again.
#[unsafe(no_mangle)]
pub extern "C" fn ide_text(
    alloc: Global,
    s: &mut Handle,
    buf: &mut [u8],
    written: &mut usize,
) -> u32
    ensures { AnswersWithCode (λ a. LastCame a (kept_session s.old.held.kept) (kept_session s.new.held.kept) written.new
        buf.new) result }
{
    last_of(alloc, s, buf, written).code()
}

// The line of the totals of a session.
fn totals(session: &Session, buf: &mut [u8], written: &mut usize) -> Answer
    requires { written.old ≡ 0 }
    ensures { IfSome (going_of session.now) (λ s. TotalsSaid result s.running written.new buf.new) }
{
    match session.totals() {
        Err(_) => Answer::Memory,
        Ok(text) => give(text.as_slice(), buf, written),
    }
}

// The same of a handle that may have a session.
fn totals_of_handle(alloc: Global, s: &mut Handle, buf: &mut [u8], written: &mut usize) -> Answer
    ensures { TotalsCame result (kept_session s.old.held.kept) (kept_session s.new.held.kept) written.new buf.new }
{
    *written = 0;
    match unhold(s, alloc) {
        None => Answer::Closed,
        Some(b) => {
            let answer = totals(b.as_ref(), buf, written);
            hold(s, b);
            answer
        }
    }
}

/// The line of the totals of all lines so far.
#[unsafe(no_mangle)]
pub extern "C" fn ide_totals(
    alloc: Global,
    s: &mut Handle,
    buf: &mut [u8],
    written: &mut usize,
) -> u32
    ensures { AnswersWithCode (λ a. TotalsCame a (kept_session s.old.held.kept) (kept_session s.new.held.kept)
        written.new buf.new) result }
{
    totals_of_handle(alloc, s, buf, written).code()
}

// ---- what the last verdict came from

// Keeps what verdicts come from in the session of a handle, if it has one, or no more.
fn explain_on_handle(alloc: Global, s: &mut Handle, on: bool) -> Answer
    ensures { ExplainCame result (kept_session s.old.held.kept) on (kept_session s.new.held.kept) }
{
    match unhold(s, alloc) {
        None => Answer::Closed,
        Some(mut b) => {
            b.as_mut().explain(on);
            hold(s, b);
            Answer::Done
        }
    }
}

/// Keeps what the verdict of each line comes from, from the next line on, for `ide_why`; or no more. A session that was
/// opened keeps nothing.
#[unsafe(no_mangle)]
pub extern "C" fn ide_explain(alloc: Global, s: &mut Handle, on: bool) -> u32
    ensures { AnswersWithCode (λ a. ExplainCame a (kept_session s.old.held.kept) on (kept_session s.new.held.kept))
        result }
{
    explain_on_handle(alloc, s, on).code()
}

// What was kept of the line that was taken last.
fn reasons(session: &Session, buf: &mut [u8], written: &mut usize) -> Answer
    requires { written.old ≡ 0 }
    ensures { IfSome (going_of session.now) (λ s. WhySaid result s.reasons written.new buf.new) }
{
    match &session.last.reasons {
        None => Answer::Absent,
        Some(text) => give(text.as_slice(), buf, written),
    }
}

// The same of a handle that may have a session.
fn why_of_handle(alloc: Global, s: &mut Handle, buf: &mut [u8], written: &mut usize) -> Answer
    ensures { WhyCame result (kept_session s.old.held.kept) (kept_session s.new.held.kept) written.new buf.new }
{
    *written = 0;
    match unhold(s, alloc) {
        None => Answer::Closed,
        Some(b) => {
            let answer = reasons(b.as_ref(), buf, written);
            hold(s, b);
            answer
        }
    }
}

/// What the verdict of the line that was taken last came from, if that was kept: the rule that answers, and facts of
/// the state before the line, as `ide why` writes them below the verdict.
#[unsafe(no_mangle)]
pub extern "C" fn ide_why(alloc: Global, s: &mut Handle, buf: &mut [u8], written: &mut usize) -> u32
    ensures { AnswersWithCode (λ a. WhyCame a (kept_session s.old.held.kept) (kept_session s.new.held.kept) written.new
        buf.new) result }
{
    why_of_handle(alloc, s, buf, written).code()
}

// ---- packets

// The bytes of a packet of a session.
fn packet(
    alloc: Global,
    session: &Session,
    number: u64,
    buf: &mut [u8],
    written: &mut usize,
) -> Answer
    requires { written.old ≡ 0 }
    ensures { IfSome (going_of session.now) (λ s. PacketSaid result s.running number written.new buf.new) }
{
    match session.packet(alloc, number) {
        Err(_) => Answer::Memory,
        Ok(None) => Answer::Absent,
        Ok(Some(text)) => give(text.as_slice(), buf, written),
    }
}

// The same of a handle that may have a session.
fn packet_of_handle(
    alloc: Global,
    s: &mut Handle,
    number: u64,
    buf: &mut [u8],
    written: &mut usize,
) -> Answer
    ensures { PacketCame result (kept_session s.old.held.kept) number (kept_session s.new.held.kept) written.new
        buf.new }
{
    *written = 0;
    match unhold(s, alloc) {
        None => Answer::Closed,
        Some(b) => {
            let answer = packet(alloc, b.as_ref(), number, buf, written);
            hold(s, b);
            answer
        }
    }
}

/// The bytes of packet `number`, from 1, among those that were sealed so far, as hex digits: those of `dump`.
#[unsafe(no_mangle)]
pub extern "C" fn ide_packet(
    alloc: Global,
    s: &mut Handle,
    number: u64,
    buf: &mut [u8],
    written: &mut usize,
) -> u32
    ensures { AnswersWithCode (λ a. PacketCame a (kept_session s.old.held.kept) number
        (kept_session s.new.held.kept) written.new buf.new) result }
{
    packet_of_handle(alloc, s, number, buf, written).code()
}

// ---- a session ends

// Frees the session of a handle, if it has one.
fn end_of(alloc: Global, s: &mut Handle) -> Answer
    ensures { CloseCame result (kept_session s.old.held.kept) (kept_session s.new.held.kept) }
{
    match unhold(s, alloc) {
        None => Answer::Closed,
        Some(_) => Answer::Done,
    }
}

/// Ends a session and frees its memory.
#[unsafe(no_mangle)]
pub extern "C" fn ide_close(alloc: Global, s: &mut Handle) -> u32
    ensures { AnswersWithCode (λ a. CloseCame a (kept_session s.old.held.kept) (kept_session s.new.held.kept)) result }
{
    end_of(alloc, s).code()
}
