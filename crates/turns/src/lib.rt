// One turn of a Drain: its stops, tested in their order (R133), or one move. A turn does not search the nodes from the first: a set
// of heads goes along that holds every head which may have a permitted move (crate `ready`), so that what a move costs does not
// grow with the network, a table of neighbours, and one of loads, so that it does not grow with what a queue holds. The move is First's all the same, and
// that is what the contracts say.
#![tactic(auto)]

ghost use Rattle.std.specs.Prelude.{◌≡◌};
ghost use Rattle.network.specs.Sizes.{shape_of};
ghost use Rattle.network.specs.Calls.{move_of};
ghost use Rattle.network.specs.CheckLaws.{Network};
ghost use Rattle.network.specs.RefusalLaws.{Permitted};
ghost use Rattle.near.specs.Table.{Near};
ghost use Rattle.turns.specs.Turns.{turn_by, by_words, turn_answer, turn_words};
ghost use Rattle.turns.specs.Turned.{Kept};

use network::{ACCEPTED_AT, DELIVER, DELIVERED_AT, Sizes, Stop, direction_of};

// What a turn came to: a stop, a move to a neighbour, or a delivery with the packet word that it hands out. Three outcomes by their names: a ControlFlow
// over an Option would name none of them.
#[derive(Clone, Copy)]
pub enum Turn {
    Stopped(Stop),
    Passed,
    Delivered(u64),
}

// The turn by the move that First names: it is made unless it delivers and no ledger word is left.
fn turn_by_move(
    words: &mut [u64],
    s: Sizes,
    near: &[u16],
    loads: &mut [u8],
    ready: &mut [u64],
    room: u64,
    n: u64,
    q: u64,
    o: u64,
) -> Turn
    requires network { Network (shape_of s) words.old }
    requires near { Near (shape_of s) near.now }
    requires kept_2 { Kept (shape_of s) words.old ready.old loads.old }
    requires permitted { Permitted (shape_of s) words.old n q o }
    ensures answer { result ≡ turn_by (shape_of s) words.old room (Some (move_of n q o)) }
    ensures words { words.new ≡ by_words (shape_of s) words.old room (Some (move_of n q o)) }
    ensures kept { Kept (shape_of s) (by_words (shape_of s) words.old room (Some (move_of n q o))) ready.new loads.new }
{
    if o != DELIVER {
        let there = near::look_up(near, direction_of(o), n);
        loads::follow(loads, words, s, n, q, o, there);
        changes::move_to(words, s, n, q, o, there);
        ready::mark(ready, s, near, n, q, o);
        return Turn::Passed;
    }
    if room == 0 {
        return Turn::Stopped(Stop::Full);
    }
    loads::follow(loads, words, s, n, q, o, n);
    let p = changes::make_move(words, s, n, q, o);
    ready::mark(ready, s, near, n, q, o);
    Turn::Delivered(p)
}

// One turn. Nothing is held exactly when as many packets were delivered as accepted.
pub fn take_turn(
    words: &mut [u64],
    s: Sizes,
    near: &[u16],
    loads: &mut [u8],
    ready: &mut [u64],
    budget: u64,
    room: u64,
) -> Turn
    requires network { Network (shape_of s) words.old }
    requires near { Near (shape_of s) near.now }
    requires kept_2 { Kept (shape_of s) words.old ready.old loads.old }
    ensures answer { result ≡ turn_answer (shape_of s) words.old budget room }
    ensures words { words.new ≡ turn_words (shape_of s) words.old budget room }
    ensures kept { Kept (shape_of s) (turn_words (shape_of s) words.old budget room) ready.new loads.new }
{
    if words[ACCEPTED_AT] == words[DELIVERED_AT] {
        return Turn::Stopped(Stop::Emptied);
    }
    if budget == 0 {
        return Turn::Stopped(Stop::Spent);
    }
    match ready::next_move(words, s, near, loads, ready) {
        // while anything is held one is named
        None => Turn::Stopped(Stop::Emptied),
        Some(m) => turn_by_move(
            words, s, near, loads, ready, room, m.node, m.queue, m.output,
        ),
    }
}
