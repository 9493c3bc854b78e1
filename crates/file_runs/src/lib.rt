//! A file is read in pieces up to a limit, and the text of each of its lines is written. Also a text that is claimed,
//! judged line by line by the one that is due; and lines of packet files, which spell bytes, with the line that shows
//! the packet or the plain TLP (this profile).
#![tactic(auto)]

mod compare;
mod differing;
mod ends;
mod files;
mod front;
mod judge;
mod last;
mod lines;
mod names;
mod reading;
mod showing;
mod writing;

pub use ends::{End, Fault};
pub use files::{Gathered, Lines, run_file};
pub use front::read_front;
pub use judge::judge_file;
pub use last::last_line;
pub use lines::{FILE_LIMIT, LineWork};
pub use reading::parse_packet;
pub use showing::show;
pub use writing::{finish, write};
