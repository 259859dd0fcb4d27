// The bench program: a sheet from standard input, its answers to standard output. What a read of the sheet does and prints, and what all reads
// print together, is proved in the crate `session`; here is read, handed over and written, and nothing else.
#![tactic(auto)]

ghost use Rattle.std.specs.Prelude.{IfOk};
ghost use Rattle.session.specs.Reads.{sheet, KeepsReached};
ghost use Rattle.bench.specs.Streams.{ReadAnswered};

use lines::HELD_BYTES;
use session::{COMMAND_ROOM, STORE_WORDS};
use std::io::{Read, Write};
use std::process::ExitCode;
use streams::{Lost, PIECE};

// Room for what a read prints: every byte may end a line, and the end of the input one more.
const OUT_ROOM: usize = (PIECE + 1) * COMMAND_ROOM;

// One read, its answer and one write: how many bytes were read. A read of no bytes is handed over too: it is the end of the input. After a read or a
// write that failed nothing more is done. What standard input gives no contract says, but whatever it was, the sheet is one that reads lead to; and where
// the bytes of the input and the output are known, what was read is gone from the one, and what it prints has come to the other.
fn read_once<R: Read, W: Write>(
    input: &mut R,
    output: &mut W,
    store: &mut [u64; STORE_WORDS],
    line: &mut [u8; HELD_BYTES],
    pending: &mut usize,
    out: &mut [u8; OUT_ROOM],
) -> Result<usize, Lost>
    ensures sheet { KeepsReached (sheet store.old line.old pending.old) (sheet store.new line.new pending.new) }
    ensures answered { IfOk result (λ n. ReadAnswered n (R.remaining input.old) (R.remaining input.new) (W.contents output.old) (W.contents output.new)
        (sheet store.old line.old pending.old) (sheet store.new line.new pending.new)) }
{
    let mut piece = [0u8; PIECE];
    let n = streams::read(input, &mut piece)?;
    let answered = session::answer_read(store, line, *pending, &piece[..n], out);
    *pending = answered.pending;
    streams::write(output, &out[..answered.bytes])?;
    Ok(n)
}

// Every read. A proved loop has to end, and nothing says that the input does: it goes over a range that no run uses up. `wave` has
// the like of its own: the proof's invariant is of what the program holds between reads, and a loop that both share would not see it.
fn main(rt: HostRuntime) -> ExitCode {
    let mut input = rt.stdin();
    let mut output = rt.stdout();
    let mut store = [0u64; STORE_WORDS];
    let mut line = [0u8; HELD_BYTES];
    let mut out = [0u8; OUT_ROOM];
    let mut pending = session::start(&mut store);
    for _ in 0..u64::MAX {
        match read_once(
            &mut input,
            &mut output,
            &mut store,
            &mut line,
            &mut pending,
            &mut out,
        ) {
            Ok(0) => break,
            Ok(_) => {}
            Err(lost) => return streams::tell(&rt, lost, "bench", "answers"),
        }
    }
    ExitCode::SUCCESS
}
