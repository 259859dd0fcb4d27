// Input cut into lines, a byte at a time, so that it does not matter how the bytes come: specs/Cuts.antt of the crate `sheet` proves that
// the lines are those of the whole input. A buffer that the caller lends holds the bytes since the last end: those of the longest line,
// and one more, since a CR may belong to the end that is still to come.
#![tactic(auto)]

ghost use Rattle.std.specs.Prelude.{◌≡◌, ◌≤◌, length};
ghost use Rattle.sheet.specs.Cutting.{held_bytes, ended_answer, ByteFed, finished_answer};

use sheet::{Fed, Pending};

// The bytes that a line may have without its end.
pub const LINE_LIMIT: usize = 64;

// The bytes that the buffer holds.
pub const HELD_BYTES: usize = 65;

// An LF after so many bytes.
#[tactic(auto, unfolding(sheet::specs::Cutting::ended_answer))]
fn ended(buf: &[u8], count: usize) -> Fed
    requires { held_bytes ≤ length buf.now }
    ensures { result ≡ ended_answer buf.now count }
{
    if count == 0 {
        return Fed::Line(0);
    }
    if HELD_BYTES < count {
        return Fed::TooLong;
    }
    let last = count - 1;
    if buf[last] == b'\r' {
        return Fed::Line(last);
    }
    if LINE_LIMIT < count {
        return Fed::TooLong;
    }
    Fed::Line(count)
}

// One byte more. After the end of a line nothing is pending.
#[tactic(auto, unfolding(sheet::specs::Cutting::fed_buffer, sheet::specs::Cutting::fed_answer))]
pub fn feed(buf: &mut [u8], pending: Pending, b: u8) -> Fed
    requires { held_bytes ≤ length buf.old }
    ensures { ByteFed buf.old pending.count b buf.new result }
{
    let count = pending.count;
    if b == b'\n' {
        return ended(buf, count);
    }
    if count < HELD_BYTES {
        buf[count] = b;
        return Fed::More(Pending { count: count + 1 });
    }
    Fed::More(Pending {
        count: HELD_BYTES + 1,
    })
}

// The end of the input.
#[tactic(auto, unfolding(sheet::specs::Cutting::finished_answer))]
pub fn finish(pending: Pending) -> Fed
    ensures { result ≡ finished_answer pending.count }
{
    let count = pending.count;
    if count == 0 {
        return Fed::More(Pending { count: 0 });
    }
    if LINE_LIMIT < count {
        return Fed::TooLong;
    }
    Fed::Line(count)
}
