// The set of heads that may have a permitted move (specs/ReadyHeads.antt), as a Drain keeps it: what a move adds to it, and First's move found from it. The
// set is words of the crate `headset`; the neighbours and the loads come out of tables (crates `near` and `loads`).
#![tactic(auto)]

ghost use Rattle.std.specs.Prelude.{◌≡◌, ◌<◌, T};
ghost use Rattle.network.specs.Sizes.{shape_of, nodes, queues, sizes_in_range};
ghost use Rattle.network.specs.CheckLaws.{Network};
ghost use Rattle.network.specs.Calls.{first_move};
ghost use Rattle.near.specs.Table.{Near};
ghost use Rattle.loads.specs.Loads.{Loads};
ghost use Rattle.headset.specs.Set.{IsSet};
ghost use Rattle.ready.specs.ReadyHeads.{Covered, Marked, SourceMarked, ArrivalMarked, FeederMarked};

use network::{DELIVER, INJECTION_QUEUE, NamedMove, Sizes, direction_of};

// The head of queue q of node n becomes a member.
fn mark_head(ready: &mut [u64], s: Sizes, n: u64, q: u64)
    requires set { IsSet ready.old }
    requires t { T (sizes_in_range (shape_of s)) × (n < nodes (shape_of s)) × (q < queues) }
    ensures { SourceMarked (shape_of s) n q ready.old ready.new }
{
    headset::insert(ready, headset::NODE_HEADS * n + q);
}

// The head of the queue at which a packet that left node n by output o has arrived becomes a member.
fn mark_arrival(ready: &mut [u64], s: Sizes, near: &[u16], n: u64, o: u64)
    requires set { IsSet ready.old }
    requires t { T (sizes_in_range (shape_of s)) × (n < nodes (shape_of s)) × (o < queues) }
    requires near { Near (shape_of s) near.now }
    ensures { ArrivalMarked (shape_of s) n o ready.old ready.new }
{
    if o == DELIVER {
        return;
    }
    let there = near::look_up(near, direction_of(o), n);
    mark_head(ready, s, there, o);
}

// The heads of the node whose output leads into queue q of node n, where a slot is free now, become members.
fn mark_feeder(ready: &mut [u64], s: Sizes, near: &[u16], n: u64, q: u64)
    requires set { IsSet ready.old }
    requires t { T (sizes_in_range (shape_of s)) × (n < nodes (shape_of s)) }
    requires near { Near (shape_of s) near.now }
    ensures { FeederMarked (shape_of s) n q ready.old ready.new }
{
    if q == INJECTION_QUEUE {
        return;
    }
    let d = direction_of(q);
    let back = d / 2 * 2 + (1 - d % 2);
    let there = near::look_up(near, back, n);
    headset::insert_node(ready, there);
}

// The heads that a move may have given a permitted move become members.
pub fn mark(ready: &mut [u64], s: Sizes, near: &[u16], n: u64, q: u64, o: u64)
    requires set { IsSet ready.old }
    requires t { T (sizes_in_range (shape_of s)) × (n < nodes (shape_of s)) × (q < queues) × (o < queues) }
    requires near { Near (shape_of s) near.now }
    ensures { Marked (shape_of s) n q o ready.old ready.new }
{
    mark_head(ready, s, n, q);
    mark_arrival(ready, s, near, n, o);
    mark_feeder(ready, s, near, n, q);
}

// First's move, found from the lowest head of the set on. Heads of the set that have none are taken out of it.
pub fn next_move(
    words: &[u64],
    s: Sizes,
    near: &[u16],
    loads: &[u8],
    ready: &mut [u64],
) -> Option<NamedMove>
    requires network { Network (shape_of s) words.now }
    requires near { Near (shape_of s) near.now }
    requires loads { Loads (shape_of s) words.now loads.now }
    requires covered { Covered (shape_of s) words.now ready.old }
    ensures answer { result ≡ first_move (shape_of s) words.now }
    ensures set { Covered (shape_of s) words.now ready.new }
{
    let mut head = headset::lowest(ready);
    while let Some(h) = head {
        let n = h / headset::NODE_HEADS;
        let q = h % headset::NODE_HEADS;
        if let Some(found) = first::first_in_queue(words, s, near, loads, n, q) {
            return Some(found);
        }
        head = headset::remove_lowest(ready, h);
    }
    None
}
