// The call Check: are these words a network, and if not, which test refuses them. Every other call that is lent words, but for Make, makes these tests first.
// Order: the refusal; the words opened; the sizes; the clauses of the check; the counters. The queues' clauses are in the crate `queue_check`,
// a packet's in `packet_check`, the rings' in `ring_check`.
#![tactic(auto)]

ghost use Rattle.std.specs.Prelude.{◌≡◌, ◌≤◌, length};
ghost use Rattle.base.specs.Tests.{all_of};
ghost use Rattle.network.specs.Sizes.{Shape, shape_of, within, largest_ring, sizes_in_range};
ghost use Rattle.network.specs.Layout.{header_words};
ghost use Rattle.network.specs.Check.{packets_held, work_left, counters_fit, is_network};
ghost use Rattle.network.specs.Refusals.{numbered};
ghost use Rattle.queue.specs.Queue.{EnoughWords};
ghost use Rattle.checker.specs.Opened.{sizes_in, opened};

use network::{
    ACCEPTED_AT, DELIVERED_AT, FEWEST_ESCAPE, HEADER_WORDS, LARGEST_RING, MOST_ACCEPTED,
    MOST_SLOTS, MOST_WORK, MOVES_AT, Refusal, Sizes, sized,
};
use queue_check::queues_fit;
use ring_check::rings_have_room;

// What the words are, for every call that goes on from there: refused by the first test that applies, or a network of these sizes.
pub fn open(words: &[u64]) -> Result<Sizes, Refusal>
    ensures { numbered result ≡ opened words.now }
{
    if words.len() < HEADER_WORDS {
        return Err(Refusal::ShortStore);
    }
    let s = sizes_of(words);
    if !in_range(s) {
        return Err(Refusal::WrongSize);
    }
    if words.len() < queue::need(s) {
        return Err(Refusal::ShortStore);
    }
    if !is_network(words, s) {
        return Err(Refusal::NoNetwork);
    }
    Ok(s)
}

// The sizes that the words begin with.
fn sizes_of(words: &[u64]) -> Sizes
    requires { header_words ≤ length words.now }
    ensures { result ≡ sizes_in words.now }
{
    sized(words[0], words[1], words[2], words[3], words[4], words[5])
}

pub fn in_range(s: Sizes) -> bool
    ensures { result ≡ sizes_in_range (shape_of s) }
{
    if !rings_in_range(s) {
        return false;
    }
    if !within(FEWEST_ESCAPE, MOST_SLOTS, s.escape) {
        return false;
    }
    if !within(1, MOST_SLOTS, s.adaptive) {
        return false;
    }
    within(1, MOST_SLOTS, s.injection)
}

// Of the sizes of the rings, along each dimension.
fn rings_in_range(s: Sizes) -> bool
    ensures { result ≡ all_of (within 1 largest_ring) (shape_of s).sizes }
{
    if !within(1, LARGEST_RING, s.x) {
        return false;
    }
    if !within(1, LARGEST_RING, s.y) {
        return false;
    }
    within(1, LARGEST_RING, s.z)
}

fn within(least: u64, most: u64, n: u64) -> bool
    ensures { result ≡ within least most n }
{
    if n < least {
        return false;
    }
    n <= most
}

// The clauses of the check, for sizes in range and as many words as they need.
pub fn is_network(words: &[u64], s: Sizes) -> bool
    requires { EnoughWords (shape_of s) words.now }
    ensures { result ≡ is_network (shape_of s) words.now }
{
    let Some(t) = queues_fit(words, s) else {
        return false;
    };
    if !rings_have_room(words, s) {
        return false;
    }
    counters_fit(words, t.held, t.work)
}

// The counters' clauses, where so many packets are held and so much work is left. A header word may be as large as a word can be, so sums are
// compared by differences, each after the test that keeps it from wrapping.
fn counters_fit(words: &[u64], held: u64, work: u64) -> bool
    requires { header_words ≤ length words.now }
    ensures { (S : Shape) → held ≡ packets_held S words.now → work ≡ work_left S words.now
        → result ≡ counters_fit S words.now }
{
    let accepted = words[ACCEPTED_AT];
    let delivered = words[DELIVERED_AT];
    let moves = words[MOVES_AT];
    if MOST_ACCEPTED < accepted {
        return false;
    }
    if accepted < delivered {
        return false;
    }
    if accepted - delivered != held {
        return false;
    }
    let most = MOST_WORK * accepted;
    if most < moves {
        return false;
    }
    work <= most - moves
}
