// A set of heads of queues as the bits of SET_WORDS lent words. The head of queue q of node n is number NODE_HEADS * n + q.
// Bit k of the words is bit k % 64 of word k / 64. The first FIRST_WORD words are an index: bit k says that word 1 + k is not 0. So word 0
// is the index of words 1 to 64, and these of the words behind them, which hold the heads: head h is bit FIRST_HEAD + h. The lowest head is found
// with three counts of trailing zeros. Order: all heads of the nodes below a number; one head in, the heads of one node in, one head out; the lowest
// head, and the lowest one out; one bit.
#![tactic(auto)]

ghost use Rattle.std.specs.Prelude.{◌≡◌, true, false, ◌<◌, ◌≤◌, ◌/◌, eqb, length, get_or, replicate};
ghost use Rattle.network.specs.Sizes.{most_nodes};
ghost use Rattle.headset.specs.Set.{heads, set_words, IsSet, BitPut, HeadsBelow, United, Inserted, NodeInserted, Removed, LowestBit, LowestHead, LowestMember};

use network::{MOST_NODES, QUEUES};

// The numbers that a node has for the heads of its queues, and the numbers of the heads of all nodes.
pub const NODE_HEADS: u64 = 16;

pub const HEADS: u64 = NODE_HEADS * MOST_NODES;

// The words of the index: word 0, and one for each of its bits. Those that have no words to index are always 0, so that one rule tells, for
// both levels, which bit belongs to which word. The first bit behind them, and all words.
const WORD_BITS: u64 = 64;

const FIRST_WORD: u64 = 1 + WORD_BITS;

const FIRST_HEAD: u64 = WORD_BITS * FIRST_WORD;

pub const SET_WORDS: usize = (FIRST_WORD + HEADS / WORD_BITS) as usize;

// The nodes whose heads share a word, and the heads of the first of them.
const WORD_NODES: u64 = WORD_BITS / NODE_HEADS;

const NODE_BITS: u64 = (1 << QUEUES) - 1;

// From words that are all 0: the members become the heads of the nodes below count.
pub fn fill(set: &mut [u64], count: u64)
    requires set_value { set.old ≡ replicate set_words 0 }
    requires count_le_most_nodes { count ≤ most_nodes }
    ensures { HeadsBelow set.new count }
{
    for n in 0..count {
        insert_node(set, n);
    }
}

// Head h becomes a member.
pub fn insert(set: &mut [u64], h: u64)
    requires set { IsSet set.old }
    requires h_lt_heads { h < heads }
    ensures { Inserted set.old set.new h }
{
    let head: u64 = 1 << (h % WORD_BITS);
    unite(set, h / WORD_BITS, head);
}

// The heads of node n become members.
pub fn insert_node(set: &mut [u64], n: u64)
    requires set { IsSet set.old }
    requires n_lt_most_nodes { n < most_nodes }
    ensures { NodeInserted set.old set.new n }
{
    let heads: u64 = NODE_BITS << (n % WORD_NODES * NODE_HEADS);
    unite(set, n / WORD_NODES, heads);
}

// The heads whose bits are given, of which there is one at least, become members in word FIRST_WORD + i. Its bit in the index is WORD_BITS + i, and that of
// the word of that bit i / WORD_BITS.
fn unite(set: &mut [u64], i: u64, bits: u64)
    requires set { IsSet set.old }
    requires i_bound { i < heads / 64 }
    requires bits_nonzero { 0 < bits }
    ensures { United set.old set.new i bits }
{
    let at = (FIRST_WORD + i) as usize;
    set[at] |= bits;
    set_bit(set, WORD_BITS + i);
    set_bit(set, i / WORD_BITS);
}

// Head h is a member no longer. Where its word is 0 now, its bit in the index is cleared too, and so on upwards.
// The tests stay nested: joined by `&&` their proof has to split on ways that have met again, and they read no plainer.
fn remove(set: &mut [u64], h: u64)
    requires set { IsSet set.old }
    requires h_lt_heads { h < heads }
    ensures { Removed set.old set.new h }
{
    let i = h / WORD_BITS;
    let word_empty = clear_bit(set, FIRST_HEAD + h);
    if word_empty {
        let part_empty = clear_bit(set, WORD_BITS + i);
        if part_empty {
            clear_bit(set, i / WORD_BITS);
        }
    }
}

// The lowest member, or None where there is none. Word 1 + i is the lowest of words 1 to 64 that is not 0, word FIRST_WORD + j of those of the heads.
pub fn lowest(set: &[u64]) -> Option<u64>
    requires { IsSet set.now }
    ensures { LowestMember set.now result }
{
    let top = set[0];
    if top == 0 {
        return None;
    }
    let i = lowest_bit(top);
    let j = WORD_BITS * i + lowest_bit(set[(1 + i) as usize]);
    Some(WORD_BITS * j + lowest_bit(set[(FIRST_WORD + j) as usize]))
}

// Head h, the lowest member, is a member no longer. The answer is the lowest then: mostly in the same word, which is at hand.
pub fn remove_lowest(set: &mut [u64], h: u64) -> Option<u64>
    requires set_2 { IsSet set.old }
    requires lowest_head { LowestHead set.old h }
    ensures set { Removed set.old set.new h }
    ensures lowest { LowestMember set.new result }
{
    remove(set, h);
    let i = h / WORD_BITS;
    let rest = set[(FIRST_WORD + i) as usize];
    if rest != 0 {
        return Some(WORD_BITS * i + lowest_bit(rest));
    }
    lowest(set)
}

// The lowest bit of the word that is set, or 64 where none is.
fn lowest_bit(word: u64) -> u64
    ensures { LowestBit word result }
{
    word.trailing_zeros() as u64
}

// Bit k of the words is set.
fn set_bit(set: &mut [u64], k: u64)
    requires { k / 64 < length set.old }
    ensures { BitPut set.old set.new k true }
{
    let at = (k / WORD_BITS) as usize;
    let bit: u64 = 1 << (k % WORD_BITS);
    set[at] |= bit;
}

// Bit k of the words is cleared. The answer: whether its word is 0 now.
// One function for this and `set_bit` would be no plainer: it would take a switch on what it does.
fn clear_bit(set: &mut [u64], k: u64) -> bool
    requires { k / 64 < length set.old }
    ensures answer { result ≡ eqb (get_or set.new (k / 64) 0) 0 }
    ensures words { BitPut set.old set.new k false }
{
    let at = (k / WORD_BITS) as usize;
    let bit: u64 = 1 << (k % WORD_BITS);
    set[at] &= !bit;
    set[at] == 0
}
