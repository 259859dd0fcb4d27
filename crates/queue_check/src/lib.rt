// The queues' clauses of the check, and the sums over their packets, in one pass over the words: from a queue's own words to all nodes.
#![tactic(auto)]

ghost use Rattle.std.specs.Prelude.{◌≡◌, ◌+◌, ◌<◌, ◌≤◌, eqb, leb, length};
ghost use Rattle.std.specs.List.{list_all};
ghost use Rattle.base.specs.Tests.{all_of};
ghost use Rattle.base.specs.Sums.{sum_of};
ghost use Rattle.network.specs.Sizes.{shape_of, queues, largest_capacity};
ghost use Rattle.network.specs.Packet.{work};
ghost use Rattle.network.specs.Layout.{count_of, packets_of, queue_start, queue_length, load};
ghost use Rattle.network.specs.Check.{packet_fits, queues_fit, packets_held, work_left};
ghost use Rattle.torus.specs.Geometry.{node_at, OnTorus};
ghost use Rattle.queue.specs.Queue.{EnoughWords, slots};
ghost use Rattle.packet_check.specs.Tables.{Tables};
ghost use Rattle.queue_check.specs.QueueTally.{tally, part_fits, node_tally};

use network::{DIMENSIONS, HEADER_WORDS, QUEUES, Sizes, is_adaptive};
use packet_check::{TABLE_WORDS, fill_tables, work_if_fits};
use torus::{Place, next_place};

// What a run of queues that passes the check comes to: how many packets it holds and what work these have left.
#[derive(Clone, Copy)]
pub struct Tally {
    pub held: u64,
    pub work: u64,
}

// Whether these words are all 0, told by the bits that they have together: no word is a branch.
fn no_bits(words: &[u64]) -> bool
    ensures { result ≡ all_of (eqb 0) words.now }
{
    words.iter().fold(0, |bits, w| bits | w) == 0
}

// The same of each of these eights.
fn each_no_bits(eights: &[[u64; 8]]) -> bool
    ensures { result ≡ list_all (all_of (eqb 0)) eights.now }
{
    eights.iter().all(|eight| no_bits(eight))
}

// The same of any number, eight at a time, and then the rest: a network is mostly unused words, and an empty one nothing else. The check of an empty
// network of 8 × 8 × 8 takes 82 to 89 µs this way, and 98 to 106 µs where `no_bits` goes over all of them.
fn all_zero(words: &[u64]) -> bool
    ensures { result ≡ all_of (eqb 0) words.now }
{
    let (eights, rest) = words.as_chunks::<8>();
    each_no_bits(eights) && no_bits(rest)
}

// Whether the packets of a queue's words take no more than its capacity. Where each takes one slot, their number has been tested.
fn load_fits(part: &[u64], q: u64) -> bool
    requires { (count_of part.now < length part.now) × (length part.now ≤ largest_capacity + 1) }
    ensures { result ≡ leb (sum_of (load q) (packets_of part.now)) (slots part.now) }
{
    if !is_adaptive(q) {
        return true;
    }
    let count = part[0] as usize;
    queue::chunks_of(&part[1..count + 1]) < part.len() as u64
}

// The packets of a queue's words, which hold no more than they have room for.
fn packets_fit(part: &[u64], tables: &[u64], s: Sizes, place: Place, q: u64) -> Option<Tally>
    requires { OnTorus s place × (q < queues) × (count_of part.now < length part.now) × (length part.now ≤ largest_capacity + 1)
        × Tables s tables.now }
    ensures { result ≡ tally (all_of (packet_fits (shape_of s) (node_at s place) q) (packets_of part.now))
        (length (packets_of part.now)) (sum_of work (packets_of part.now)) }
{
    let count = part[0] as usize;
    let packets = &part[1..count + 1];
    let mut work = 0;
    for p in packets {
        work += work_if_fits(tables, s, place, q, *p)?;
    }
    Some(Tally {
        held: count as u64,
        work,
    })
}

// The words of queue q of the node that stands there. Most queues are empty, and have no packets to look at.
fn queue_fits(part: &[u64], tables: &[u64], s: Sizes, place: Place, q: u64) -> Option<Tally>
    requires { OnTorus s place × (q < queues) × (length part.now ≡ queue_length (shape_of s) q) × (length part.now ≤ largest_capacity + 1)
        × Tables s tables.now }
    ensures { result ≡ tally (part_fits (shape_of s) (node_at s place) q part.now)
        (length (packets_of part.now)) (sum_of work (packets_of part.now)) }
{
    let count = part[0];
    if part.len() as u64 <= count {
        return None;
    }
    if !all_zero(&part[count as usize + 1..]) {
        return None;
    }
    if count == 0 {
        return Some(Tally { held: 0, work: 0 });
    }
    if !load_fits(part, q) {
        return None;
    }
    packets_fit(part, tables, s, place, q)
}

// The queues of the node that stands there, whose words begin at `start`.
fn node_fits(words: &[u64], tables: &[u64], s: Sizes, place: Place, start: usize) -> Option<Tally>
    requires { OnTorus s place × EnoughWords (shape_of s) words.now × (start ≡ queue_start (shape_of s) (node_at s place) 0)
        × Tables s tables.now }
    ensures { result ≡ node_tally (shape_of s) words.now (node_at s place) }
{
    let mut held = 0;
    let mut work = 0;
    let mut at = start;
    for q in 0..QUEUES {
        let end = at + queue::capacity(s, q) as usize + 1;
        let t = queue_fits(&words[at..end], tables, s, place, q)?;
        held += t.held;
        work += t.work;
        at = end;
    }
    Some(Tally { held, work })
}

// All nodes in order. The tables of the rings are filled first.
pub fn queues_fit(words: &[u64], s: Sizes) -> Option<Tally>
    requires { EnoughWords (shape_of s) words.now }
    ensures { result ≡ tally (queues_fit (shape_of s) words.now)
        (packets_held (shape_of s) words.now) (work_left (shape_of s) words.now) }
{
    let mut tables = [0u64; TABLE_WORDS];
    fill_tables(&mut tables, s);
    let nodes = torus::nodes(s);
    let node = queue::node_words(s) as usize;
    let mut held = 0;
    let mut work = 0;
    let mut start = HEADER_WORDS;
    let mut place = Place {
        at: [0; DIMENSIONS as usize],
    };
    for _n in 0..nodes {
        let t = node_fits(words, &tables, s, place, start)?;
        held += t.held;
        work += t.work;
        start += node;
        place = next_place(s, place);
    }
    Some(Tally { held, work })
}
