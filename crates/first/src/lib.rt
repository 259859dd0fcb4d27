// The search of First (R123), on words that have passed the check: node by node, queue by queue, and by the routes of each head. Every
// function equals the definition of its name in the crate `network` (specs/Calls.antt).
#![tactic(auto)]

ghost use Rattle.std.specs.Prelude.{◌≡◌};
ghost use Rattle.network.specs.Sizes.{shape_of};
ghost use Rattle.network.specs.CheckLaws.{Network};
ghost use Rattle.network.specs.Calls.{first_in_queue, first_move};
ghost use Rattle.near.specs.Table.{Near};
ghost use Rattle.loads.specs.Loads.{Loads};
ghost use Rattle.queue.specs.QueueOf.{QueueOf};

use flow::{flow_rules, may_flow};
use network::{ACCEPTED_AT, DELIVERED_AT, HEADER_WORDS, NamedMove, QUEUES, Sizes};
use queue::{capacity, queue_start};
use routes::{applies, routes};
use torus::nodes;

// The first permitted move of the network. Where as many packets were delivered as accepted, none is held. The place of the words
// goes on from queue to queue, and an empty queue costs no more than its count word.
pub fn first_move(words: &[u64], s: Sizes) -> Option<NamedMove>
    requires { Network (shape_of s) words.now }
    ensures { result ≡ first_move (shape_of s) words.now }
{
    if words[ACCEPTED_AT] == words[DELIVERED_AT] {
        return None;
    }
    let mut start: usize = HEADER_WORDS;
    let total = nodes(s);
    'search: {
        for n in 0..total {
            for q in 0..QUEUES {
                if words[start] != 0 {
                    let p = words[start + 1];
                    let outputs = routes(q, p);
                    for (k, &o) in outputs.iter().enumerate() {
                        if applies(k, o) {
                            if flow_rules(words, s, n, q, o, p).is_ok() {
                                break 'search Some(NamedMove {
                                    node: n,
                                    queue: q,
                                    output: o,
                                });
                            }
                        }
                    }
                }
                let slots = capacity(s, q);
                start += 1 + slots as usize;
            }
        }
        None
    }
}

// The first permitted move of the head of queue q of node n, if it has one.
pub fn first_in_queue(
    words: &[u64],
    s: Sizes,
    near: &[u16],
    loads: &[u8],
    n: u64,
    q: u64,
) -> Option<NamedMove>
    requires queue_of { QueueOf (shape_of s) words.now n q }
    requires near { Near (shape_of s) near.now }
    requires loads { Loads (shape_of s) words.now loads.now }
    ensures { result ≡ first_in_queue (shape_of s) words.now n q }
{
    let start = queue_start(s, n, q);
    if words[start] == 0 {
        return None;
    }
    let p = words[start + 1];
    let outputs = routes(q, p);
    for (k, &output) in outputs.iter().enumerate() {
        if applies(k, output) {
            if may_flow(words, s, near, loads, n, q, output, p) {
                return Some(NamedMove {
                    node: n,
                    queue: q,
                    output,
                });
            }
        }
    }
    None
}
