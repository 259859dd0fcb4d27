// What the programs do with their streams: a read, a write, and what is said where one of them failed.
#![tactic(auto)]

ghost use Rattle.std.specs.Prelude.{◌≡◌, ◌≢◌, length, OnOk, IfErr, IsOkUnless};
ghost use Rattle.std.specs.Io.{ReadsAtMost};
ghost use Rattle.std.specs.Io.KnownBytes.{Appends, ReadConsumes};
ghost use Rattle.std.specs.Process.{exit_status};
ghost use Rattle.std.specs.IoError.{error_kind};
ghost use Rattle.streams.specs.Ends.{status};

use std::io::{self, ErrorKind, Read, Write};
use std::process::ExitCode;

// The bytes of a read at most.
pub const PIECE: usize = 1024;

// The status where the reader of the output has gone: a shell's for a program that SIGPIPE ends. The runtime has that signal ignored.
pub const READER_GONE: u8 = 128 + 13;

// What ends a program before its input does.
#[derive(Clone, Copy, PartialEq, Eq)]
pub enum Lost {
    // The input could not be read.
    Input,
    // The output could not be written.
    Output,
    // Nobody reads the output any more.
    Reader,
}

// The first bytes of the buffer are those that were read: how many, none at the end of the input.
pub fn read<R: Read>(input: &mut R, buffer: &mut [u8]) -> Result<usize, Lost>
    ensures bound { ReadsAtMost result buffer.new }
    ensures bytes { ReadConsumes (R.remaining input.old) (R.remaining input.new) result buffer.new }
    ensures lost { IsOkUnless result Lost.Input }
{
    input.read(buffer).map_err(|_| Lost::Input)
}

// What a write is lost by that failed so.
fn of_write(error: io::Error) -> Lost
    ensures reader { error_kind error ≡ ErrorKind.BrokenPipe → result ≡ Lost.Reader }
    ensures output { error_kind error ≢ ErrorKind.BrokenPipe → result ≡ Lost.Output }
{
    match error.kind() {
        ErrorKind::BrokenPipe => Lost::Reader,
        _ => Lost::Output,
    }
}

// Writes the bytes at once: behind them nothing waits in the program.
pub fn write<W: Write>(output: &mut W, bytes: &[u8]) -> Result<(), Lost>
    ensures written { OnOk result (Appends (W.contents output.old) (W.contents output.new) bytes.now) }
    ensures lost { IfErr result (λ lost. lost ≢ Lost.Input) }
{
    output.write_all(bytes).map_err(of_write)?;
    output.flush().map_err(of_write)
}

// Says on standard error what is lost, `answers` being what the program writes. But a reader that has gone, as in `./bench | head -1`, has seen enough:
// nothing is said. The program's own status is 0 where something is said: ./bench and ./wave make one of that.
pub fn tell(rt: &impl Eprint, lost: Lost, program: &str, answers: &str) -> ExitCode
    ensures { exit_status result ≡ status lost }
{
    match lost {
        Lost::Input => {
            let _ = eprintln!(rt; "{program}: the input could not be read: the sheet may go on");
            ExitCode::SUCCESS
        }
        Lost::Output => {
            let _ = eprintln!(rt; "{program}: the output could not be written: {answers} are lost");
            ExitCode::SUCCESS
        }
        Lost::Reader => ExitCode::from(READER_GONE),
    }
}
