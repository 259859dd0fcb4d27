// Answers put as lines on a page; the caller sees that there is room.
#![tactic(auto)]

ghost use Rattle.std.specs.Prelude.{◌≡◌, ◌+◌, ◌*◌, ◌≤◌, length, Ok, Some};
ghost use Rattle.sheet.specs.Output.{bad_line_answer, answer_line, packet_line, packet_lines, moved_lines, stopped_line, drain_line, drained_lines, answer_room, packet_room, moved_room, drain_room};
ghost use Rattle.fields.specs.Puts.{HasRoom, Fits, Puts};
ghost use Rattle.network.specs.Refusals.{number_of, numbered};
ghost use Rattle.network.specs.Calls.{drained_delivered};

use fields::Page;
use network::{
    DESTINATION_AT, DESTINATION_VALUES, Drained, Refusal, Stop, TAG_AT, drained_delivered,
    number_of,
};

// A line of a letter and a number: of any number, also of one that no answer of this repository has.
pub fn put_line(page: &mut Page, letter: u8, n: u64)
    requires { Fits page.old (answer_line letter n) }
    ensures { Puts page.old (answer_line letter n) page.new }
{
    page.put_head(letter, n);
    page.put_end();
}

// The letter and the number of the refusal, 0 if there is none.
pub fn put_answer(page: &mut Page, letter: u8, answer: Result<(), Refusal>)
    requires { HasRoom page.old answer_room }
    ensures { Puts page.old (answer_line letter (number_of answer)) page.new }
{
    let number = number_of(&answer);
    put_line(page, letter, number);
}

// The answer to a line that is no command.
pub fn put_bad(page: &mut Page)
    requires { HasRoom page.old answer_room }
    ensures { Puts page.old bad_line_answer page.new }
{
    put_answer(page, b'?', Err(Refusal::BadLine));
}

// A packet that was delivered, by its word: its tag and its destination.
fn put_packet(page: &mut Page, p: u64)
    requires { Fits page.old (packet_line p) }
    ensures { Puts page.old (packet_line p) page.new }
{
    page.put_head(b'P', p / TAG_AT);
    page.put_field(p / DESTINATION_AT % DESTINATION_VALUES);
    page.put_end();
}

// The packets that were delivered, in their order.
fn put_packets(page: &mut Page, packets: &[u64])
    requires { Fits page.old (packet_lines packets.now) }
    ensures { Puts page.old (packet_lines packets.now) page.new }
{
    for &p in packets {
        put_packet(page, p);
    }
}

// What a Move that delivers prints.
fn put_delivery(page: &mut Page, p: u64)
    requires { HasRoom page.old moved_room }
    ensures { Puts page.old (moved_lines (Ok (Some p))) page.new }
{
    put_packet(page, p);
    put_line(page, b'M', 0);
}

// What a Move prints.
#[tactic(auto, unfolding(sheet::specs::Output::moved_lines))]
pub fn put_moved(page: &mut Page, answer: Result<Option<u64>, Refusal>)
    requires { HasRoom page.old moved_room }
    ensures { Puts page.old (moved_lines (numbered answer)) page.new }
{
    match answer {
        Err(refusal) => put_answer(page, b'M', Err(refusal)),
        Ok(None) => put_answer(page, b'M', Ok(())),
        Ok(Some(p)) => put_delivery(page, p),
    }
}

// The line of a Drain that was not refused.
fn put_stopped(page: &mut Page, moves: u64, stop: Stop)
    requires { HasRoom page.old drain_room }
    ensures { Puts page.old (stopped_line moves stop) page.new }
{
    page.put_head(b'D', 0);
    page.put_field(moves);
    page.put_last(stop);
}

// The line of a Drain. A refused one has no moves and no stop.
fn put_drain(page: &mut Page, answer: Result<Drained, Refusal>)
    requires { HasRoom page.old drain_room }
    ensures { Puts page.old (drain_line (numbered answer)) page.new }
{
    match answer {
        Err(refusal) => put_answer(page, b'D', Err(refusal)),
        Ok(drained) => put_stopped(page, drained.moves, drained.stop),
    }
}

// What a Drain prints: the packets that it delivered, which are the first words of the ledger, then its own line.
pub fn put_drained(page: &mut Page, answer: Result<Drained, Refusal>, ledger: &[u64])
    requires answer_in_bounds { drained_delivered (numbered answer) ≤ length ledger.now }
    requires drain_room_in_bounds { HasRoom page.old (packet_room * length ledger.now + drain_room) }
    ensures { Puts page.old (drained_lines (numbered answer) ledger.now) page.new }
{
    let delivered = drained_delivered(&answer) as usize;
    put_packets(page, &ledger[..delivered]);
    put_drain(page, answer);
}
