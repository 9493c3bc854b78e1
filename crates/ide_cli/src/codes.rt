//! The exit code of the program.

ghost use Rattle.std.specs.Prelude.{◌≡◌};
ghost use Rattle.ide_cli.specs.Codes.{code_of};

use file_runs::{End, Fault};

/// The exit code of the program, by how its call ended (this profile): 0 if the input was read to its end and every
/// line was written, 1 if a text that was judged is not the one that is due, 9 if the script lacks the event that is
/// asked for, else why the input was not read or the lines were not written.
pub fn exit_code(outcome: Result<End, Fault>) -> u8
    ensures { result ≡ code_of outcome }
{
    match outcome {
        Ok(End::Done) => 0,
        Ok(End::Differs) => 1,
        Ok(End::Usage) => 2,
        Ok(End::Topology) => 3,
        Ok(End::Script) => 4,
        Err(Fault::Read) => 5,
        Err(Fault::Write) => 6,
        Err(Fault::Memory) => 7,
        Ok(End::TooLong) => 8,
        Ok(End::NoEvent) => 9,
    }
}
