// A sheet replayed as a dump (R423, R424): what a command does to the store, and the step that shows it, written onto a lent page. A D is
// replayed move by move, so that each of its moves is a step of its own. Order: a step; a command at once; a move of a D; the next of a read.
#![tactic(auto)]

ghost use Rattle.std.specs.Prelude.{◌≡◌, List, ℕ, ◌<◌, ◌≤◌, length, is_some, IfSome, Some};
ghost use Rattle.network.specs.Refusals.{numbered};
ghost use Rattle.waveform.specs.Calls.{written_length};
ghost use Rattle.session.specs.Session.{store_words};
ghost use Rattle.replay.specs.Whole.{Roomy};
ghost use Rattle.replay.specs.Steps.{bytes_shown, read_start, finished, finished_by, Shows, GoesOn};
ghost use Rattle.replay.specs.Replay.{FillsOf, shown, step_shown, carried_out, changed, begins_dump, command_shown, moves_asked, moved_on, makes_move, room_left, move_shown};

use lines::HELD_BYTES;
use network::{Refusal, drained_delivered, drained_moves, sized};
use session::{Cursor, LEDGER_WORDS, STORE_WORDS};
use sheet::Command;

// A move of a D: the words of the ledger that are left, and the bytes of its step.
#[derive(Clone, Copy)]
pub struct Replayed {
    pub room: usize,
    pub bytes: usize,
}

// How many bytes a call of the writer left on the page.
fn bytes_of(written: Result<usize, Refusal>) -> usize
    ensures { result ≡ written_length (numbered written) }
{
    written.unwrap_or(0)
}

// The step of the words as they are, a header or a later one: how many bytes it has.
fn show(first: bool, store: &[u64], fills: &mut [u8], page: &mut [u8]) -> usize
    ensures { shown result fills.new page.new ≡ step_shown first store.now fills.old page.old }
{
    if first {
        return bytes_of(dump_writer::write_header(store, fills, page));
    }
    bytes_of(dump_writer::write_changes(store, fills, page))
}

// T: whether it made a network.
fn make(store: &mut [u64], x: u32, y: u32, z: u32, e: u32, a: u32, j: u32) -> bool
    ensures store { store.new ≡ carried_out (Command.Make x y z e a j) store.old }
    ensures changed { result ≡ changed (Command.Make x y z e a j) store.old }
{
    let s = sized(x as u64, y as u64, z as u64, e as u64, a as u64, j as u64);
    calls::make(store, s).is_ok()
}

// What a command does at once to the store, and whether that changed something. A D does nothing here: its moves come one by one.
fn apply(store: &mut [u64], command: Command) -> bool
    ensures store { store.new ≡ carried_out command store.old }
    ensures changed { result ≡ changed command store.old }
{
    match command {
        Command::Make { x, y, z, e, a, j } => make(store, x, y, z, e, a, j),
        Command::Offer {
            node,
            destination,
            tag,
            chunks,
        } => calls::offer(store, node as u64, destination as u64, tag, chunks as u64).is_ok(),
        Command::Move {
            node,
            queue,
            output,
        } => calls::move_packet(store, node as u64, queue as u64, output as u64).is_ok(),
        Command::Drain { .. } => false,
        Command::Bad => false,
    }
}

// R424: a T begins a new dump.
#[tactic(auto, using(crate::proofs::Others::none_begun), unfolding(crate::specs::Replay::begins_dump))]
fn begins_dump(command: Command) -> bool
    ensures { result ≡ begins_dump command }
{
    matches!(command, Command::Make { .. })
}

// R423: what a command does at once, with the step that shows it: how many bytes that has, 0 if nothing has changed.
pub fn carry_out(store: &mut [u64], command: Command, fills: &mut [u8], page: &mut [u8]) -> usize
    ensures store { store.new ≡ carried_out command store.old }
    ensures shown { shown result fills.new page.new ≡ command_shown command store.old fills.old page.old }
    ensures within { result ≤ length page.old }
{
    let changed = apply(store, command);
    if !changed {
        return 0;
    }
    let first = begins_dump(command);
    show(first, store, fills, page)
}

// How many moves a command asks for besides, to be made one by one: a D's budget, and none of any other.
#[tactic(auto, using(crate::proofs::Others::none_asked), unfolding(crate::specs::Replay::moves_asked))]
pub fn moves_asked(command: Command) -> u32
    ensures { result ≡ moves_asked command }
{
    match command {
        Command::Drain { budget } => budget,
        _ => 0,
    }
}

// R423: one move of a D that has so many words of its ledger left, with the step that shows it; none, if it makes no move. It is lent a word of them while
// one is left.
pub fn drain_move(
    store: &mut [u64],
    room: usize,
    fills: &mut [u8],
    page: &mut [u8],
) -> Option<Replayed>
    ensures store { store.new ≡ moved_on store.old room }
    ensures moved { is_some result ≡ makes_move store.old room }
    ensures room { IfSome result (λ step. step.room ≡ room_left store.old room) }
    ensures shown { shown (bytes_shown result) fills.new page.new ≡ move_shown store.old room fills.old page.old }
    ensures within { IfSome result (λ step. step.bytes ≤ length page.old) }
{
    let mut ledger = [0u64; 1];
    let words = room.min(1);
    let answer = calls::drain(store, 1, &mut ledger[..words]);
    let moves = drained_moves(&answer);
    if moves == 0 {
        return None;
    }
    let left = room - drained_delivered(&answer) as usize;
    let bytes = show(false, store, fills, page);
    Some(Replayed { room: left, bytes })
}

// How far the replay of a read has come: the cursor behind its last command, and the moves that are left of a D, with the words that are left
// of its ledger.
#[derive(Clone, Copy)]
pub struct ReplayCursor {
    pub read: Cursor,
    pub moves: u32,
    pub room: usize,
}

// The start of a read: no D is under way.
pub fn start_read(pending: usize) -> ReplayCursor
    ensures { result ≡ read_start pending }
{
    ReplayCursor {
        read: Cursor { passed: 0, pending },
        moves: 0,
        room: 0,
    }
}

// The next move of the D that is under way: how many bytes its step has. If it makes none, the D has ended.
fn next_move(
    store: &mut [u64; STORE_WORDS],
    cursor: &mut ReplayCursor,
    fills: &mut [u8],
    page: &mut [u8],
) -> usize
    requires moves_nonzero { 0 < cursor.old.moves }
    requires roomy { Roomy store_words fills.old page.old }
    ensures sheet { (piece line : List ℕ) → finished piece store.old line cursor.old ≡ finished_by piece store.new line cursor.new (Some result) }
    ensures shown { (piece line : List ℕ) → Shows piece store.old line fills.old cursor.old store.new line page.new cursor.new (Some result) }
    ensures fills { FillsOf store.old fills.old → FillsOf store.new fills.new }
    ensures onward { (piece line : List ℕ) → GoesOn piece line cursor.old line page.old cursor.new (Some result) }
{
    match drain_move(store, cursor.room, fills, page) {
        Some(step) => {
            cursor.moves -= 1;
            cursor.room = step.room;
            step.bytes
        }
        None => {
            cursor.moves = 0;
            cursor.room = 0;
            0
        }
    }
}

// The next command of the read, and what it does at once: how many bytes show it. A D's moves come after it, with a ledger of their own.
fn next_line(
    store: &mut [u64; STORE_WORDS],
    line: &mut [u8; HELD_BYTES],
    piece: &[u8],
    cursor: &mut ReplayCursor,
    fills: &mut [u8],
    page: &mut [u8],
) -> Option<usize>
    requires moves_value { cursor.old.moves ≡ 0 }
    requires roomy { Roomy store_words fills.old page.old }
    ensures sheet { finished piece.now store.old line.old cursor.old ≡ finished_by piece.now store.new line.new cursor.new result }
    ensures shown { Shows piece.now store.old line.old fills.old cursor.old store.new line.new page.new cursor.new result }
    ensures fills { FillsOf store.old fills.old → FillsOf store.new fills.new }
    ensures onward { GoesOn piece.now line.old cursor.old line.new page.old cursor.new result }
{
    let command = session::next_command(line, piece, &mut cursor.read)?;
    let bytes = carry_out(store, command, fills, page);
    let moves = moves_asked(command);
    cursor.moves = moves;
    cursor.room = LEDGER_WORDS;
    Some(bytes)
}

// The next step of a read, a command or a move that is carried out: the next move of the D that is under way, or else the next command. The first so many
// bytes of the page show it, none, if nothing changed; the cursor comes to stand behind it. None, if the read is used up. List and page have room for every
// step of every network that the store can hold, so that none is lost (specs/Whole.antt). The theorem `dump-right` says what all steps of all reads are
// together.
pub fn next_step(
    store: &mut [u64; STORE_WORDS],
    line: &mut [u8; HELD_BYTES],
    piece: &[u8],
    cursor: &mut ReplayCursor,
    fills: &mut [u8],
    page: &mut [u8],
) -> Option<usize>
    requires { Roomy store_words fills.old page.old }
    ensures sheet { finished piece.now store.old line.old cursor.old ≡ finished_by piece.now store.new line.new cursor.new result }
    ensures shown { Shows piece.now store.old line.old fills.old cursor.old store.new line.new page.new cursor.new result }
    ensures fills { FillsOf store.old fills.old → FillsOf store.new fills.new }
    ensures onward { GoesOn piece.now line.old cursor.old line.new page.old cursor.new result }
{
    if cursor.moves > 0 {
        return Some(next_move(store, cursor, fills, page));
    }
    next_line(store, line, piece, cursor, fills, page)
}
