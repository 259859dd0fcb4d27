// The flow rule (R150 to R152), on words that have passed the check: the target of an output, how much of it is free, and how much a move needs. The
// contracts say each answer by the definitions of the crate `network` (specs/Routes.antt, Refusals.antt).
#![tactic(auto)]

ghost use Rattle.std.specs.Prelude.{◌≡◌, ◌<◌, eqb, T};
ghost use Rattle.network.specs.Routes.{target, free_load, load_needed};
ghost use Rattle.network.specs.Refusals.{flow_rules, number_of};
ghost use Rattle.near.specs.Table.{Near};
ghost use Rattle.loads.specs.Loads.{Loads};
ghost use Rattle.network.specs.Sizes.{shape_of, nodes, queues, sizes_in_range};
ghost use Rattle.queue.specs.QueueOf.{QueueOf};

use near::look_up;
use network::{DELIVER, DIRECTIONS, Refusal, Sizes, direction_of};
use packet::load;
use queue::{capacity, taken};
use torus::neighbour;

// The node in the direction of output o, which is no delivery.
pub fn target(s: Sizes, n: u64, o: u64) -> u64
    requires { T (sizes_in_range (shape_of s)) × (n < nodes (shape_of s)) × (0 < o) × (o < queues) }
    ensures { result ≡ target (shape_of s) n o }
{
    neighbour(s, direction_of(o), n)
}

// How much is free in the target of output o, which is no delivery: chunks of an adaptive queue, slots of an escape queue.
pub fn free_load(words: &[u64], s: Sizes, n: u64, o: u64) -> u64
    requires queue_of { QueueOf (shape_of s) words.now n o }
    requires o_nonzero { 0 < o }
    ensures { result ≡ free_load (shape_of s) words.now n o }
{
    let slots = capacity(s, o);
    let m = target(s, n, o);
    slots - taken(words, s, m, o)
}

// How much packet p of queue q needs at output o. A head of an adaptive queue that goes into the escape queue of the same
// direction enters the ring: only the escape queue itself is on it.
pub fn load_needed(q: u64, o: u64, p: u64) -> u64
    ensures { result ≡ load_needed q o p }
{
    if o <= DIRECTIONS {
        return load(o, p);
    }
    if q == o {
        return 1;
    }
    2
}

// The refusal of packet p, a head of queue q of node n, whose route is output o, by the slots of its target.
pub fn flow_rules(words: &[u64], s: Sizes, n: u64, q: u64, o: u64, p: u64) -> Result<(), Refusal>
    requires { QueueOf (shape_of s) words.now n o }
    ensures { number_of result ≡ flow_rules (shape_of s) words.now n q o p }
{
    if o == DELIVER {
        return Ok(());
    }
    let free = free_load(words, s, n, o);
    if free < load(o, p) {
        return Err(Refusal::NoSlot);
    }
    if free < load_needed(q, o, p) {
        return Err(Refusal::NoBubble);
    }
    Ok(())
}

// Whether the flow rule lets packet p, a head of queue q of node n, go by output o, which is one of its routes. The target's node and the load of an adaptive
// target come out of tables: a Drain asks so often that it keeps them. Only a Drain has them: First asks `flow_rules`, and fills none.
pub fn may_flow(
    words: &[u64],
    s: Sizes,
    near: &[u16],
    loads: &[u8],
    n: u64,
    q: u64,
    o: u64,
    p: u64,
) -> bool
    requires queue_of { QueueOf (shape_of s) words.now n o }
    requires near { Near (shape_of s) near.now }
    requires loads { Loads (shape_of s) words.now loads.now }
    ensures { result ≡ eqb (flow_rules (shape_of s) words.now n q o p) 0 }
{
    if o == DELIVER {
        return true;
    }
    let there = look_up(near, direction_of(o), n);
    let slots = capacity(s, o);
    let needed = load_needed(q, o, p);
    loads::taken(words, s, loads, there, o) + needed <= slots
}
