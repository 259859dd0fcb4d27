// A packet's clauses of the check, by the hops that it has left in each direction: each is below a limit that its queue sets, and together
// they lead to its destination; and by its spare bit. Where hops lead, how many there are and which offsets a queue lets pass is looked up in
// tables, which are filled once for a check. Order: the offsets that pass in a queue; the tables; a packet.
#![tactic(auto)]

ghost use Rattle.std.specs.Prelude.{◌≡◌, ℕ, ◌+◌, ◌*◌, ◌-◌, ◌%◌, ◌<◌, ◌≤◌, T, length, get_or};
ghost use Rattle.std.specs.Bool.{then_some};
ghost use Rattle.base.specs.Bits.{bit};
ghost use Rattle.base.specs.Digits.{weight};
ghost use Rattle.network.specs.PacketLaws.{half_offsets};
ghost use Rattle.network.specs.Sizes.{shape_of, sizes_in_range, size, dimensions, queues, largest_ring, most_nodes, plus, minus};
ghost use Rattle.network.specs.Packet.{offset_values, hops, work};
ghost use Rattle.network.specs.Check.{packet_fits};
ghost use Rattle.torus.specs.Geometry.{node_at, OnTorus};
ghost use Rattle.packet_check.specs.Tables.{ring_words, dimension_words, first_distance, table_words, row, passing, distance_at, PartWritten, Tables};

use network::{
    DIMENSIONS, DIRECTIONS, INJECTION_QUEUE, LARGEST_RING, OFFSET_VALUES, QUEUES, Sizes,
    direction_of,
};
use packet::{HALF_OFFSETS, offset_field};
use torus::{Place, size, weight};

// Offsets in a row, as the bits of a word: bit a for the one that stands a above the least. They are those with fewer hops forward than the one
// limit and fewer back than the other, 0 being counted once.
fn row(forward: u64, back: u64) -> u64
    requires { (1 ≤ forward + back) × (forward ≤ half_offsets) × (back ≤ half_offsets) }
    ensures { result ≡ row forward back }
{
    let ones: u64 = (1 << (forward + back - 1)) - 1;
    ones << (HALF_OFFSETS + 1 - back)
}

// The offsets of dimension i that pass in queue q. In the queue's own direction hops stay below half of the ring, the other way along its dimension
// there are none, and in an escape queue there are none along a lower dimension. All others reach half of the ring.
fn passing(s: Sizes, q: u64, i: u64) -> u64
    requires { T (sizes_in_range (shape_of s)) × (i < dimensions) }
    ensures { result ≡ passing (shape_of s) q i }
{
    let half = size(s, i) / 2;
    if q == INJECTION_QUEUE {
        return row(half + 1, half + 1);
    }
    let own = direction_of(q);
    if own == 2 * i {
        return row(half, 1);
    }
    if own == 2 * i + 1 {
        return row(1, half);
    }
    if q <= DIRECTIONS {
        return row(half + 1, half + 1);
    }
    if own / 2 < i {
        return row(half + 1, half + 1);
    }
    row(1, 1)
}

// The coordinate after c on a ring of k nodes.
fn next_on_ring(c: u64, k: u64) -> u64
    requires { (c < k) × (k ≤ largest_ring) }
    ensures { result ≡ (c + 1) % k }
{
    if c + 1 == k {
        return 0;
    }
    c + 1
}

// The tables are parts of one array: for each dimension three rounds of its ring, and for each queue the offsets that pass; behind them the distance
// of each offset.
const RING_WORDS: u64 = 3 * LARGEST_RING;

const DIMENSION_WORDS: u64 = RING_WORDS + QUEUES;

const FIRST_DISTANCE: u64 = DIMENSIONS * DIMENSION_WORDS;

pub const TABLE_WORDS: usize = (FIRST_DISTANCE + OFFSET_VALUES) as usize;

// Fills count words from start on: the one that stands j behind start with the value of j.
fn fill<F: Fn(u64) -> u64>(tables: &mut [u64], start: u64, count: u64, value: F)
    requires { F.IsAlwaysCallable value × (start + count ≤ length tables.old) }
    ensures words { length tables.new ≡ length tables.old }
    ensures part { (j : ℕ) → j < count → F.post value j (get_or tables.new (start + j) 0) }
    ensures kept { (j : ℕ) → j < start → get_or tables.new j 0 ≡ get_or tables.old j 0 }
{
    for j in 0..count {
        tables[(start + j) as usize] = value(j);
    }
}

// Fills the rounds of dimension i, for a ring of k nodes. The coordinate is carried along, so that nothing is divided: `fill` hands on j alone, and
// would take a division for each word.
fn fill_ring(tables: &mut [u64], i: u64, k: u64, weight: u64)
    requires { (length tables.old ≡ table_words) × (i < dimensions) × (1 ≤ k) × (k ≤ largest_ring) × (weight ≤ most_nodes) }
    ensures { PartWritten tables.old tables.new (i * dimension_words) (3 * k) (λ j. weight * (j % k)) }
{
    let mut c = 0;
    for j in 0..3 * k {
        tables[(i * DIMENSION_WORDS + j) as usize] = weight * c;
        c = next_on_ring(c, k);
    }
}

// The distance of the offset that stands a above the least.
fn distance_at(a: u64) -> u64
    ensures { result ≡ distance_at a }
{
    if a < HALF_OFFSETS {
        HALF_OFFSETS - a
    } else {
        a - HALF_OFFSETS
    }
}

// All tables, one part behind the other.
pub fn fill_tables(tables: &mut [u64], s: Sizes)
    requires { T (sizes_in_range (shape_of s)) × (length tables.old ≡ table_words) }
    ensures { Tables s tables.new }
{
    for i in 0..DIMENSIONS {
        fill_ring(tables, i, size(s, i), weight(s, i));
        fill(
            tables,
            i * DIMENSION_WORDS + RING_WORDS,
            QUEUES,
            |q| passing(s, q, i),
        );
    }
    fill(tables, FIRST_DISTANCE, OFFSET_VALUES, distance_at);
}

// How far the offset of dimension i stands above the least that its field can stand for. What is looked up by this needs no branch on the
// offset's sign, which packets take either way.
fn above(i: u64, p: u64) -> u64
    requires { i < dimensions }
    ensures small { result < offset_values }
    ensures offset { result + hops (minus i) p ≡ half_offsets + hops (plus i) p }
{
    (offset_field(i, p) + HALF_OFFSETS) % OFFSET_VALUES
}

// Whether the offset that stands a above the least passes in queue q, for dimension i.
fn passes(tables: &[u64], q: u64, i: u64, a: u64) -> bool
    requires { (length tables.now ≡ table_words) × (q < queues) × (i < dimensions) × (a < offset_values) }
    ensures { result ≡ bit (get_or tables.now (i * dimension_words + ring_words + q) 0) a }
{
    (tables[(i * DIMENSION_WORDS + RING_WORDS + q) as usize] >> a) % 2 == 1
}

// The coordinate c in dimension i moved by the offset that stands a above the least, which is less than once round; times its weight in a
// node's number.
fn moved(tables: &[u64], s: Sizes, i: u64, c: u64, a: u64) -> u64
    requires { Tables s tables.now × T (sizes_in_range (shape_of s)) × (i < dimensions) × (c < size (shape_of s) i)
        × (half_offsets < a + size (shape_of s) i) × (a < half_offsets + size (shape_of s) i) }
    ensures { (f b : ℕ) → b ≤ size (shape_of s) i → a + b ≡ half_offsets + f
        → result ≡ weight (shape_of s).sizes i * ((c + (f * 1 + b * (size (shape_of s) i - 1))) % size (shape_of s) i) }
{
    let k = size(s, i);
    tables[(i * DIMENSION_WORDS + (c + a + k - HALF_OFFSETS)) as usize]
}

// The work that packet p has left if it may stand at the node of this place, in queue q.
pub fn work_if_fits(tables: &[u64], s: Sizes, place: Place, q: u64, p: u64) -> Option<u64>
    requires { OnTorus s place × Tables s tables.now × (q < queues) }
    ensures { result ≡ then_some (packet_fits (shape_of s) (node_at s place) q p) (work p) }
{
    if !packet::spares_clear(p) {
        return None;
    }
    let at = place.at;
    let mut node = 0;
    let mut work = 1;
    for i in 0..DIMENSIONS {
        let a = above(i, p);
        if !passes(tables, q, i, a) {
            return None;
        }
        node += moved(tables, s, i, at[i as usize], a);
        work += tables[(FIRST_DISTANCE + a) as usize];
    }
    if packet::destination(p) != node {
        return None;
    }
    Some(work)
}
