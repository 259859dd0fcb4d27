// A sheet as it is read: its start, and each read. The bytes of a read are taken command by command; each command is carried out, by the
// call that it names on the store, and its answer written as lines, for which the caller sees that there is room.
#![tactic(auto)]

ghost use Rattle.std.specs.Prelude.{◌≡◌, List, ℕ, ◌+◌, ◌*◌, ◌≤◌, length, take, drop};
ghost use Rattle.sheet.specs.Output.{Put};
ghost use Rattle.fields.specs.Puts.{HasRoom, Puts};
ghost use Rattle.sheet.specs.Cutting.{held_bytes};
ghost use Rattle.session.specs.Session.{perform, command_room};
ghost use Rattle.session.specs.Reads.{sheet, start_sheet, answer_read};
ghost use Rattle.session.specs.Coming.{coming, coming_by, fed_command};
ghost use Rattle.session.specs.Running.{LineWithin};

use fields::Page;
use lines::HELD_BYTES;
use network::sized;
use sheet::{Command, Fed, Pending};

// The bytes that any command prints at most.
pub const COMMAND_ROOM: usize = 1314;

// The words of the store.
pub const STORE_WORDS: usize = 8000;

// R246: the words of a D's ledger.
pub const LEDGER_WORDS: usize = 64;

// How a read was answered: the bytes that are pending of a line, and those that were printed.
#[derive(Clone, Copy)]
pub struct Printed {
    pub pending: usize,
    pub bytes: usize,
}

// How far a read has come: the bytes of it that are passed, and those that are pending of a line.
#[derive(Clone, Copy)]
pub struct Cursor {
    pub passed: usize,
    pub pending: usize,
}

// The start of a sheet, whatever the store and the buffer of the line hold: the store is made zero, and the number of pending bytes given.
pub fn start(store: &mut [u64; STORE_WORDS]) -> usize
    ensures { (buffer : List ℕ) → sheet store.new buffer result ≡ start_sheet buffer }
{
    *store = [0u64; STORE_WORDS];
    0
}

// One read, of some bytes or, at the end of the input, of none: the sheet is then as `answer_read` says, and the first bytes of `out` are
// what the read prints, those behind them as they were. The theorem `sheet-right` says what all reads print together.
pub fn answer_read(
    store: &mut [u64; STORE_WORDS],
    line: &mut [u8; HELD_BYTES],
    pending: usize,
    piece: &[u8],
    out: &mut [u8],
) -> Printed
    requires { (length piece.now + 1) * command_room ≤ length out.old }
    ensures sheet { sheet store.new line.new result.pending ≡ (answer_read (sheet store.old line.old pending) piece.now).sheet }
    ensures printed { take result.bytes out.new ≡ (answer_read (sheet store.old line.old pending) piece.now).output }
    ensures rest { drop result.bytes out.new ≡ drop result.bytes out.old }
    ensures within { result.bytes ≤ length out.old }
{
    let mut cursor = Cursor { passed: 0, pending };
    let mut at = 0;
    while let Some(command) = next_command(line, piece, &mut cursor) {
        let end = at + COMMAND_ROOM;
        at += run_command(store, command, &mut out[at..end]);
    }
    Printed {
        pending: cursor.pending,
        bytes: at,
    }
}

// The command of the line that the line cutter hands on, if it does. A line that is too long is a bad one.
fn fed_command(line: &[u8], fed: Fed) -> Option<Command>
    requires { LineWithin fed line.now }
    ensures { result ≡ fed_command line.now fed }
{
    match fed {
        Fed::More(_) => None,
        Fed::Line(n) => Some(reader::read_command(&line[..n])),
        Fed::TooLong => Some(Command::Bad),
    }
}

// The next command of a read, from the cursor on, which comes to stand behind its line: the bytes up to the next end of a line go to the line cutter. None,
// if no line ends any more. A read of no bytes is the end of the input, where a last line without an end counts.
pub fn next_command(line: &mut [u8], piece: &[u8], cursor: &mut Cursor) -> Option<Command>
    requires { held_bytes ≤ length line.old }
    ensures { coming piece.now line.old cursor.old ≡ coming_by piece.now line.new cursor.new result }
{
    if piece.is_empty() {
        let count = cursor.pending;
        let fed = lines::finish(Pending { count });
        cursor.pending = 0;
        return fed_command(line, fed);
    }
    // by place, since i is also where the cursor comes to stand
    for i in cursor.passed..piece.len() {
        let count = cursor.pending;
        let fed = lines::feed(line, Pending { count }, piece[i]);
        cursor.passed = i + 1;
        match fed {
            Fed::More(more) => cursor.pending = more.count,
            Fed::Line(_) | Fed::TooLong => {
                cursor.pending = 0;
                return fed_command(line, fed);
            }
        }
    }
    None
}

// T makes.
fn run_make(store: &mut [u64], x: u32, y: u32, z: u32, e: u32, a: u32, j: u32, page: &mut Page)
    requires { HasRoom page.old command_room }
    ensures store { store.new ≡ (perform (Command.Make x y z e a j) store.old).store }
    ensures printed { Puts page.old (perform (Command.Make x y z e a j) store.old).output page.new }
{
    let s = sized(x as u64, y as u64, z as u64, e as u64, a as u64, j as u64);
    let answer = calls::make(store, s);
    writer::put_answer(page, b'T', answer);
}

// O offers.
fn run_offer(store: &mut [u64], node: u32, destination: u32, tag: u32, chunks: u32, page: &mut Page)
    requires { HasRoom page.old command_room }
    ensures store { store.new ≡ (perform (Command.Offer node destination tag chunks) store.old).store }
    ensures printed { Puts page.old (perform (Command.Offer node destination tag chunks) store.old).output page.new }
{
    let answer = calls::offer(store, node as u64, destination as u64, tag, chunks as u64);
    writer::put_answer(page, b'O', answer);
}

// M moves.
fn run_move(store: &mut [u64], node: u32, queue: u32, output: u32, page: &mut Page)
    requires { HasRoom page.old command_room }
    ensures store { store.new ≡ (perform (Command.Move node queue output) store.old).store }
    ensures printed { Puts page.old (perform (Command.Move node queue output) store.old).output page.new }
{
    let answer = calls::move_packet(store, node as u64, queue as u64, output as u64);
    writer::put_moved(page, answer);
}

// D drains, with a ledger of its own.
fn run_drain(store: &mut [u64], budget: u32, page: &mut Page)
    requires { HasRoom page.old command_room }
    ensures store { store.new ≡ (perform (Command.Drain budget) store.old).store }
    ensures printed { Puts page.old (perform (Command.Drain budget) store.old).output page.new }
{
    let mut ledger = [0u64; LEDGER_WORDS];
    let answer = calls::drain(store, budget, &mut ledger);
    writer::put_drained(page, answer, &ledger);
}

// A command: what it does to the store, and its lines.
fn put_command(store: &mut [u64], command: Command, page: &mut Page)
    requires { HasRoom page.old command_room }
    ensures store { store.new ≡ (perform command store.old).store }
    ensures printed { Puts page.old (perform command store.old).output page.new }
{
    match command {
        Command::Make { x, y, z, e, a, j } => run_make(store, x, y, z, e, a, j, page),
        Command::Offer {
            node,
            destination,
            tag,
            chunks,
        } => run_offer(store, node, destination, tag, chunks, page),
        Command::Move {
            node,
            queue,
            output,
        } => run_move(store, node, queue, output, page),
        Command::Drain { budget } => run_drain(store, budget, page),
        Command::Bad => writer::put_bad(page),
    }
}

// The same, its lines at the start of a buffer.
fn run_command(store: &mut [u64], command: Command, out: &mut [u8]) -> usize
    requires { command_room ≤ length out.old }
    ensures store { store.new ≡ (perform command store.old).store }
    ensures printed { Put out.old 0 (perform command store.old).output out.new result }
{
    let mut page = Page { out, at: 0 };
    put_command(store, command, &mut page);
    page.at
}
