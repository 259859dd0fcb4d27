// A Drain of a network: turn after turn until one stops, with the set of heads and the tables of neighbours and of loads that the turns use.
#![tactic(auto)]

ghost use Rattle.std.specs.Prelude.{◌*◌, ◌≤◌, length};
ghost use Rattle.network.specs.Sizes.{shape_of, nodes, directions, most_nodes};
ghost use Rattle.network.specs.CheckLaws.{Network};
ghost use Rattle.near.specs.Table.{Near};
ghost use Rattle.turns.specs.Turned.{Kept};
ghost use Rattle.drains.specs.SoFar.{DrainedTo};

use headset::SET_WORDS;
use network::{ACCEPTED_AT, DELIVERED_AT, DIRECTIONS, Drained, FEW_NODES, MOST_NODES, Sizes, Stop};
use turns::{Turn, take_turn};

// Turn after turn until one stops.
fn take_turns(
    words: &mut [u64],
    s: Sizes,
    near: &[u16],
    loads: &mut [u8],
    ready: &mut [u64],
    budget: u32,
    ledger: &mut [u64],
) -> Drained
    requires network { Network (shape_of s) words.old }
    requires near { Near (shape_of s) near.now }
    requires kept { Kept (shape_of s) words.old ready.old loads.old }
    ensures { DrainedTo (shape_of s) words.old budget ledger.old result words.new ledger.new }
{
    let limit = budget as u64;
    let total = ledger.len();
    let mut moves: u64 = 0;
    let mut delivered: usize = 0;
    loop {
        let room = (total - delivered) as u64;
        let turn = take_turn(words, s, near, loads, ready, limit - moves, room);
        match turn {
            Turn::Stopped(why) => {
                return Drained {
                    moves,
                    delivered: delivered as u64,
                    stop: why,
                };
            }
            Turn::Passed => {}
            Turn::Delivered(p) => {
                ledger[delivered] = p;
                delivered += 1;
            }
        }
        moves += 1;
    }
}

// A Drain with tables of neighbours and of loads of N entries, which may be more than the network needs, filled first. The set of heads that may have a
// permitted move starts with all of them.
fn drain_sized<const N: usize>(
    words: &mut [u64],
    s: Sizes,
    budget: u32,
    ledger: &mut [u64],
) -> Drained
    requires network { Network (shape_of s) words.old }
    requires entries { (directions * nodes (shape_of s) ≤ N) × (N ≤ directions * most_nodes) }
    ensures { DrainedTo (shape_of s) words.old budget ledger.old result words.new ledger.new }
{
    let mut near = [0u16; N];
    let mut loads = [0u8; N];
    let mut ready = [0u64; SET_WORDS];
    near::fill(&mut near, s);
    loads::fill(&mut loads, words, s);
    headset::fill(&mut ready, torus::nodes(s));
    take_turns(words, s, &near, &mut loads, &mut ready, budget, ledger)
}

// The entries of a table for few nodes, and for the most.
const FEW_ENTRIES: usize = (DIRECTIONS * FEW_NODES) as usize;

const MOST_ENTRIES: usize = (DIRECTIONS * MOST_NODES) as usize;

// A Drain of a network. Where nothing is held neither the set of heads nor a table is needed.
pub fn drain_network(words: &mut [u64], s: Sizes, budget: u32, ledger: &mut [u64]) -> Drained
    requires { Network (shape_of s) words.old }
    ensures { DrainedTo (shape_of s) words.old budget ledger.old result words.new ledger.new }
{
    let accepted = words[ACCEPTED_AT];
    let delivered = words[DELIVERED_AT];
    if accepted == delivered {
        return Drained {
            moves: 0,
            delivered: 0,
            stop: Stop::Emptied,
        };
    }
    if torus::nodes(s) <= FEW_NODES {
        return drain_sized::<FEW_ENTRIES>(words, s, budget, ledger);
    }
    drain_sized::<MOST_ENTRIES>(words, s, budget, ledger)
}
