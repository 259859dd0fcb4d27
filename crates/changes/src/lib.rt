// The changes that Make, Offer and Move make to the lent words once no rule refuses them. None of them can fail: what each
// asks is what the tests before it have shown. Every function leaves exactly the words of the definition that it names.
#![tactic(auto)]

ghost use Rattle.std.specs.Prelude.{◌≡◌, ◌++◌, ◌≢◌, ◌-◌, ◌^◌, ◌<◌, ◌≤◌, T, length, get_or, drop};
ghost use Rattle.network.specs.Sizes.{shape_of, sizes_in_range, nodes, capacity, injection_queue, most_chunks};
ghost use Rattle.network.specs.Routes.{deliver, target};
ghost use Rattle.network.specs.Layout.{need, held, raised};
ghost use Rattle.network.specs.CheckLaws.{Network};
ghost use Rattle.network.specs.Refusals.{head};
ghost use Rattle.network.specs.RefusalLaws.{Permitted};
ghost use Rattle.network.specs.Calls.{empty_network, after_offer, after_move};

use network::{ACCEPTED_AT, DELIVER, DELIVERED_AT, INJECTION_QUEUE, MOVES_AT, Sizes, direction_of};

// One word rises by one, as a counter of the header does.
#[tactic(auto, unfolding(network::specs::Layout::raised))]
fn raise(words: &mut [u64], at: usize)
    requires at_in_bounds { at < length words.old }
    requires at_bound { get_or words.old at 0 < 2 ^ 64 - 1 }
    ensures { words.new ≡ raised at words.old }
{
    words[at] += 1;
}

// Make: an empty network of these sizes, all counts 0; the words behind it stay as they are.
pub fn write_empty(words: &mut [u64], s: Sizes)
    requires t { T (sizes_in_range (shape_of s)) }
    requires s_in_bounds { need (shape_of s) ≤ length words.old }
    ensures { words.new ≡ empty_network (shape_of s) ++ drop (need (shape_of s)) words.old }
{
    words[..queue::need(s)].fill(0);
    let sizes = [s.x, s.y, s.z, s.escape, s.adaptive, s.injection];
    words[..sizes.len()].copy_from_slice(&sizes);
}

// Offer: the packet becomes the newest of the node's injection queue, which has a free slot, and accepted rises by one.
pub fn accept(words: &mut [u64], s: Sizes, n: u64, destination: u64, tag: u32, chunks: u64)
    requires network { Network (shape_of s) words.old }
    requires n_bound { n < nodes (shape_of s) }
    requires destination_bound { destination < nodes (shape_of s) }
    requires le_chunks { (1 ≤ chunks) × (chunks ≤ most_chunks) }
    requires injection_queue_len_bound { length (held (shape_of s) words.old n injection_queue) < capacity (shape_of s) injection_queue }
    ensures { words.new ≡ after_offer (shape_of s) words.old n destination tag chunks }
{
    let p = packet::offered(s, n, destination, tag, chunks);
    queue::push(words, s, n, INJECTION_QUEUE, p);
    raise(words, ACCEPTED_AT);
}

// Move: the head of queue q of node n leaves. It is handed out, or becomes the newest packet of its target after a hop.
// Moves made rises by one, and delivered where it was handed out. The packet word is that of the head before its hop.
pub fn make_move(words: &mut [u64], s: Sizes, n: u64, q: u64, o: u64) -> u64
    requires network { Network (shape_of s) words.old }
    requires permitted { Permitted (shape_of s) words.old n q o }
    ensures words { words.new ≡ after_move (shape_of s) words.old n q o }
    ensures head { result ≡ head (held (shape_of s) words.old n q) }
{
    if o == DELIVER {
        return move_to(words, s, n, q, o, n);
    }
    let there = torus::neighbour(s, direction_of(o), n);
    move_to(words, s, n, q, o, there)
}

// The same where the node to which the output leads is at hand; a delivery asks for none.
pub fn move_to(words: &mut [u64], s: Sizes, n: u64, q: u64, o: u64, there: u64) -> u64
    requires network { Network (shape_of s) words.old }
    requires permitted { Permitted (shape_of s) words.old n q o }
    requires there_value { o ≢ deliver → there ≡ target (shape_of s) n o }
    ensures words { words.new ≡ after_move (shape_of s) words.old n q o }
    ensures head { result ≡ head (held (shape_of s) words.old n q) }
{
    let p = queue::pop(words, s, n, q);
    if o == DELIVER {
        raise(words, DELIVERED_AT);
        raise(words, MOVES_AT);
        return p;
    }
    let hopped = packet::hop(direction_of(o) / 2, p);
    queue::push(words, s, there, o, hopped);
    raise(words, MOVES_AT);
    p
}
