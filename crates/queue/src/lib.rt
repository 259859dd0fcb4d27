// A queue as a part of the lent words: one word for the number held, the packets, oldest first, and zeros.
// Order: the leaves on a queue's own words; the same at a place in more words; where the queues of a network stand;
// what a queue of a network holds; the leaves again, for a queue of a network.
#![tactic(auto)]

ghost use Rattle.std.specs.Prelude.{◌≡◌, [], ◌∷◌, ◌++◌, ◌<◌, ◌≤◌, T, length, drop};
ghost use Rattle.base.specs.Sums.{sum_below, sum_of};
ghost use Rattle.base.specs.Parts.{span, splice};
ghost use Rattle.network.specs.Sizes.{shape_of, sizes_in_range, nodes, queues, capacity, largest_capacity};
ghost use Rattle.network.specs.Packet.{chunks};
ghost use Rattle.network.specs.Layout.{queue_length, node_words, queue_start, queue_end, need, queue_words, packets_of, count_of, held, taken};
ghost use Rattle.network.specs.Refusals.{head};
ghost use Rattle.network.specs.Calls.{packet_arrives, head_leaves};
ghost use Rattle.queue.specs.Queue.{IsQueue, QueueAt, CheckedQueue, slots};
ghost use Rattle.queue.specs.QueueOf.{QueueOf};

use network::{
    DIRECTIONS, FIRST_ADAPTIVE, FIRST_ESCAPE, HEADER_WORDS, INJECTION_QUEUE, MOST_CHUNKS, QUEUES,
    Sizes, is_adaptive,
};

// The packet becomes the newest of a queue with a free slot.
#[tactic(auto, unfolding(network::specs::Layout::count_of))]
pub fn append(q: &mut [u64], p: u64)
    requires queue { IsQueue q.old }
    requires q_bound { count_of q.old < slots q.old }
    ensures { q.new ≡ queue_words (slots q.old) (packets_of q.old ++ (p ∷ [])) }
{
    let count = q[0];
    let at = count as usize + 1;
    q[at] = p;
    q[0] = count + 1;
}

// The head leaves a queue that holds one. The packets behind it move up, and the word that the last one leaves is cleared.
#[tactic(auto, unfolding(network::specs::Layout::count_of))]
pub fn remove(q: &mut [u64]) -> u64
    requires queue { IsQueue q.old }
    requires q_nonzero { 0 < count_of q.old }
    ensures words { q.new ≡ queue_words (slots q.old) (drop 1 (packets_of q.old)) }
    ensures head { result ≡ head (packets_of q.old) }
{
    let count = q[0] as usize;
    let oldest = q[1];
    q.copy_within(2..count + 1, 1);
    q[count] = 0;
    q[0] = (count - 1) as u64;
    oldest
}

// The two on the queue whose words start and end at these places: its part of the words is lent on, and no other.
pub fn append_at(words: &mut [u64], start: usize, end: usize, p: u64)
    requires queue_at { QueueAt words.old start end }
    requires end_bound { count_of (span words.old start end) < slots (span words.old start end) }
    ensures { words.new ≡ splice words.old start end
        (queue_words (slots (span words.old start end)) (packets_of (span words.old start end) ++ (p ∷ []))) }
{
    append(&mut words[start..end], p);
}

pub fn remove_at(words: &mut [u64], start: usize, end: usize) -> u64
    requires queue_at { QueueAt words.old start end }
    requires nonzero { 0 < count_of (span words.old start end) }
    ensures words { words.new ≡ splice words.old start end
        (queue_words (slots (span words.old start end)) (drop 1 (packets_of (span words.old start end)))) }
    ensures head { result ≡ head (packets_of (span words.old start end)) }
{
    remove(&mut words[start..end])
}

// Where the queues of a network of these sizes stand.
pub fn capacity(s: Sizes, q: u64) -> u64
    requires { T (sizes_in_range (shape_of s)) }
    ensures { result ≡ capacity (shape_of s) q }
{
    if q == INJECTION_QUEUE {
        return s.injection;
    }
    if DIRECTIONS < q {
        return s.escape;
    }
    MOST_CHUNKS * s.adaptive
}

pub fn node_words(s: Sizes) -> u64
    requires { T (sizes_in_range (shape_of s)) }
    ensures { result ≡ node_words (shape_of s) }
{
    let injection = capacity(s, 0);
    let adaptive = capacity(s, FIRST_ADAPTIVE);
    let escape = capacity(s, FIRST_ESCAPE);
    QUEUES + injection + DIRECTIONS * adaptive + DIRECTIONS * escape
}

// The words of a node's queues before queue q: each has its own word and its slots.
pub fn words_before(s: Sizes, q: u64) -> u64
    requires { T (sizes_in_range (shape_of s)) × (q < queues) }
    ensures { result ≡ sum_below q (λ i. queue_length (shape_of s) i) }
{
    if q == 0 {
        return 0;
    }
    let injection = capacity(s, 0);
    let adaptive = capacity(s, FIRST_ADAPTIVE);
    if q <= FIRST_ESCAPE {
        return q + injection + (q - 1) * adaptive;
    }
    let escape = capacity(s, FIRST_ESCAPE);
    q + injection + DIRECTIONS * adaptive + (q - FIRST_ESCAPE) * escape
}

pub fn queue_start(s: Sizes, n: u64, q: u64) -> usize
    requires { T (sizes_in_range (shape_of s)) × (n < nodes (shape_of s)) × (q < queues) }
    ensures { result ≡ queue_start (shape_of s) n q }
{
    let node = node_words(s);
    let before = words_before(s, q);
    HEADER_WORDS + (n * node + before) as usize
}

pub fn queue_end(s: Sizes, n: u64, q: u64) -> usize
    requires { T (sizes_in_range (shape_of s)) × (n < nodes (shape_of s)) × (q < queues) }
    ensures { result ≡ queue_end (shape_of s) n q }
{
    let start = queue_start(s, n, q);
    let slots = capacity(s, q);
    start + (1 + slots) as usize
}

// The words that the sizes need.
pub fn need(s: Sizes) -> usize
    requires { T (sizes_in_range (shape_of s)) }
    ensures { result ≡ need (shape_of s) }
{
    let nodes = torus::nodes(s);
    let node = node_words(s);
    HEADER_WORDS + (nodes * node) as usize
}

// The number of packets that queue q of node n holds: its count word.
pub fn held_count(words: &[u64], s: Sizes, n: u64, q: u64) -> u64
    requires { QueueOf (shape_of s) words.now n q }
    ensures { result ≡ length (held (shape_of s) words.now n q) }
{
    let start = queue_start(s, n, q);
    words[start]
}

// The chunks of packets, no more than a queue has words for.
pub fn chunks_of(packets: &[u64]) -> u64
    requires { length packets.now ≤ largest_capacity }
    ensures { result ≡ sum_of chunks packets.now }
{
    packets.iter().map(|&p| packet::chunks(p)).sum()
}

// How much of queue q of node n is taken: the chunks of its packets where it is adaptive, else their number.
pub fn taken(words: &[u64], s: Sizes, n: u64, q: u64) -> u64
    requires { QueueOf (shape_of s) words.now n q }
    ensures { result ≡ taken (shape_of s) words.now n q }
{
    let count = held_count(words, s, n, q);
    if !is_adaptive(q) {
        return count;
    }
    let first = queue_start(s, n, q) + 1;
    chunks_of(&words[first..first + count as usize])
}

// The oldest packet of queue q of node n, which holds one.
pub fn head(words: &[u64], s: Sizes, n: u64, q: u64) -> u64
    requires queue_of { QueueOf (shape_of s) words.now n q }
    requires nonzero { 0 < length (held (shape_of s) words.now n q) }
    ensures { result ≡ head (held (shape_of s) words.now n q) }
{
    let start = queue_start(s, n, q);
    words[start + 1]
}

// The packet becomes the newest of queue q of node n, which has a free slot.
pub fn push(words: &mut [u64], s: Sizes, n: u64, q: u64, p: u64)
    requires checked_queue { CheckedQueue (shape_of s) words.old n q }
    requires q_len_bound { length (held (shape_of s) words.old n q) < capacity (shape_of s) q }
    ensures { words.new ≡ packet_arrives (shape_of s) words.old n q p }
{
    let start = queue_start(s, n, q);
    let end = queue_end(s, n, q);
    append_at(words, start, end, p);
}

// The head of queue q of node n leaves, where there is one.
pub fn pop(words: &mut [u64], s: Sizes, n: u64, q: u64) -> u64
    requires checked_queue { CheckedQueue (shape_of s) words.old n q }
    requires nonzero { 0 < length (held (shape_of s) words.old n q) }
    ensures words { words.new ≡ head_leaves (shape_of s) words.old n q }
    ensures head { result ≡ head (held (shape_of s) words.old n q) }
{
    let start = queue_start(s, n, q);
    let end = queue_end(s, n, q);
    remove_at(words, start, end)
}
