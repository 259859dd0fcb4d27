// The program wave: a sheet from standard input, replayed; the dumps of its networks to standard output, one behind the other. What a step of
// the replay does and shows is proved in the crate `replay`; here is read, handed over and written, and nothing else.
#![tactic(auto)]

ghost use Rattle.std.specs.Prelude.{◌≡◌, ◌≢◌, OnOk, IfOk};
ghost use Rattle.std.specs.Io.KnownBytes.{Appends};
ghost use Rattle.session.specs.Session.{store_words};
ghost use Rattle.session.specs.Reads.{sheet, sheet_after, KeepsReached};
ghost use Rattle.replay.specs.Replay.{FillsOf};
ghost use Rattle.replay.specs.Whole.{Roomy};
ghost use Rattle.replay.specs.Dumps.{read_dump};
ghost use Rattle.wave.specs.Streams.{ReadReplayed};

use lines::HELD_BYTES;
use session::STORE_WORDS;
use std::io::{Read, Write};
use std::process::ExitCode;
use streams::{Lost, PIECE};

// The store holds no network of more variables, since each of its queues has two words at least; and room for any step of that many (waveform,
// specs/Lengths.antt: `page_room`).
const STORE_VARIABLES: usize = STORE_WORDS / 2;

const PAGE_BYTES: usize = 120 + 48 * STORE_VARIABLES;

// The steps of a read, of some bytes or, at the end of the input, of none, each written before the next is made, as long as that can be done: how many
// bytes are pending then. Where the bytes of the output are known, what the read is to write has come to them.
fn write_steps<W: Write>(
    output: &mut W,
    store: &mut [u64; STORE_WORDS],
    line: &mut [u8; HELD_BYTES],
    pending: usize,
    piece: &[u8],
    fills: &mut [u8],
    page: &mut [u8],
) -> Result<usize, Lost>
    requires { Roomy store_words fills.old page.old }
    ensures sheet { IfOk result (λ n. sheet store.new line.new n ≡ sheet_after (sheet store.old line.old pending) piece.now) }
    ensures fills { FillsOf store.old fills.old → FillsOf store.new fills.new }
    ensures written { OnOk result (FillsOf store.old fills.old
        → Appends (W.contents output.old) (W.contents output.new) (read_dump (sheet store.old line.old pending) piece.now)) }
{
    let mut cursor = replay::start_read(pending);
    while let Some(bytes) = replay::next_step(store, line, piece, &mut cursor, fills, page) {
        streams::write(output, &page[..bytes])?;
    }
    Ok(cursor.read.pending)
}

// One read and what it shows: how many bytes were read. A read of no bytes is handed over too: it is the end of the input. After a read or a write that
// failed nothing more is done. What standard input gives no contract says, but whatever it was, the sheet is one that the bench's reads lead to; and
// where the bytes of the input and the output are known, what was read is gone from the one, and its steps have come to the other.
fn read_once<R: Read, W: Write>(
    input: &mut R,
    output: &mut W,
    store: &mut [u64; STORE_WORDS],
    line: &mut [u8; HELD_BYTES],
    pending: &mut usize,
    fills: &mut [u8; STORE_VARIABLES],
    page: &mut [u8; PAGE_BYTES],
) -> Result<usize, Lost>
    ensures sheet { OnOk result (KeepsReached (sheet store.old line.old pending.old) (sheet store.new line.new pending.new)) }
    ensures fills { FillsOf store.old fills.old → FillsOf store.new fills.new }
    ensures replayed { IfOk result (λ n. FillsOf store.old fills.old
        → ReadReplayed n (R.remaining input.old) (R.remaining input.new) (W.contents output.old) (W.contents output.new)
        (sheet store.old line.old pending.old) (sheet store.new line.new pending.new)) }
{
    let mut piece = [0u8; PIECE];
    let n = streams::read(input, &mut piece)?;
    *pending = write_steps(output, store, line, *pending, &piece[..n], fills, page)?;
    Ok(n)
}

// Every read. A proved loop has to end, and nothing says that the input does: it goes over a range that no run uses up. `bench` has
// the like of its own: the proof's invariant is of what the program holds between reads, and a loop that both share would not see it.
fn main(rt: HostRuntime) -> ExitCode {
    let mut input = rt.stdin();
    let mut output = rt.stdout();
    let mut store = [0u64; STORE_WORDS];
    let mut line = [0u8; HELD_BYTES];
    let mut fills = [0u8; STORE_VARIABLES];
    let mut page = [0u8; PAGE_BYTES];
    let mut pending = session::start(&mut store);
    for _ in 0..u64::MAX {
        match read_once(
            &mut input,
            &mut output,
            &mut store,
            &mut line,
            &mut pending,
            &mut fills,
            &mut page,
        ) {
            Ok(0) => break,
            Ok(_) => {}
            Err(lost) => return streams::tell(&rt, lost, "wave", "steps"),
        }
    }
    ExitCode::SUCCESS
}
