// A table of loads, for a search that asks for them again and again: entry DIRECTIONS * n + d is how much is taken of the adaptive queue of node n in direction
// d, a byte for the chunks of all its packets. The caller lends it, with an entry for each direction of each node at least. It is filled from
// the words once, and each move changes two entries at most.
#![tactic(auto)]

ghost use Rattle.std.specs.Prelude.{◌≡◌, true, ◌≢◌, ◌+◌, ◌*◌, ◌-◌, ◌^◌, ◌<◌, ◌≤◌, length, get_or};
ghost use Rattle.network.specs.Sizes.{shape_of, directions, nodes, most_nodes, is_adaptive};
ghost use Rattle.network.specs.Layout.{taken};
ghost use Rattle.network.specs.CheckLaws.{Network};
ghost use Rattle.network.specs.RefusalLaws.{Permitted};
ghost use Rattle.network.specs.Routes.{deliver, target};
ghost use Rattle.network.specs.Calls.{after_move};
ghost use Rattle.queue.specs.QueueOf.{QueueOf};
ghost use Rattle.loads.specs.Loads.{Loads, entry_of, with_load};

use network::{DIRECTIONS, FIRST_ADAPTIVE, Sizes, is_adaptive};

// The loads of the adaptive queues of all nodes. The loop counts: i is an entry's place, and the node and the direction as well.
pub fn fill(loads: &mut [u8], words: &[u64], s: Sizes)
    requires network { Network (shape_of s) words.now }
    requires s_in_bounds { directions * nodes (shape_of s) ≤ length loads.old }
    ensures { Loads (shape_of s) words.now loads.new }
{
    for i in 0..DIRECTIONS * torus::nodes(s) {
        let load = queue::taken(words, s, i / DIRECTIONS, FIRST_ADAPTIVE + i % DIRECTIONS);
        loads[i as usize] = load as u8;
    }
}

// How much of queue q of node n is taken: out of the table where it is adaptive, else the number held.
pub fn taken(words: &[u64], s: Sizes, loads: &[u8], n: u64, q: u64) -> u64
    requires queue_of { QueueOf (shape_of s) words.now n q }
    requires loads { Loads (shape_of s) words.now loads.now }
    ensures { result ≡ taken (shape_of s) words.now n q }
{
    if !is_adaptive(q) {
        return queue::held_count(words, s, n, q);
    }
    let at = entry(n, q);
    loads[at] as u64
}

// Where the load of queue q of node n stands, an adaptive one.
fn entry(n: u64, q: u64) -> usize
    requires { (n < most_nodes) × (is_adaptive q ≡ true) }
    ensures { result ≡ entry_of n q }
{
    (DIRECTIONS * n + (q - FIRST_ADAPTIVE)) as usize
}

// Of queue q of node n, which has an entry if it is adaptive, so many chunks have left and so many have come.
fn change(loads: &mut [u8], n: u64, q: u64, left: u8, come: u8)
    requires { is_adaptive q ≡ true → (n < most_nodes) × (entry_of n q < length loads.old) × (left ≤ get_or loads.old (entry_of n q) 0)
        × (get_or loads.old (entry_of n q) 0 - left + come < 2 ^ 8) }
    ensures { loads.new ≡ with_load n q (get_or loads.old (entry_of n q) 0 - left + come) loads.old }
{
    if is_adaptive(q) {
        let at = entry(n, q);
        loads[at] = loads[at] - left + come;
    }
}

// The loads after the move of the head of queue q of node n by output o, to node `there`, while the words still are those before it.
pub fn follow(loads: &mut [u8], words: &[u64], s: Sizes, n: u64, q: u64, o: u64, there: u64)
    requires network { Network (shape_of s) words.now }
    requires permitted { Permitted (shape_of s) words.now n q o }
    requires there_value { o ≢ deliver → there ≡ target (shape_of s) n o }
    requires loads { Loads (shape_of s) words.now loads.old }
    ensures { Loads (shape_of s) (after_move (shape_of s) words.now n q o) loads.new }
{
    let chunks = packet::chunks(queue::head(words, s, n, q)) as u8;
    change(loads, n, q, chunks, 0);
    change(loads, there, o, 0, chunks);
}
