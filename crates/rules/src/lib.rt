// The tests that each call makes after the check, in the order of R184 to R186 and R189: the refusal of the first that applies. By its
// number every function equals the definition of its name in the crate `network` (specs/Refusals.antt).
#![tactic(auto)]

ghost use Rattle.std.specs.Prelude.{◌≡◌, T};
ghost use Rattle.network.specs.Sizes.{shape_of, sizes_in_range};
ghost use Rattle.network.specs.CheckLaws.{Network};
ghost use Rattle.network.specs.Refusals.{number_of, wrong_chunks, offer_rules, move_rules, credit_rules, look_rules};

use flow::flow_rules;
use network::{
    ACCEPTED_AT, DELIVER, INJECTION_QUEUE, MOST_ACCEPTED, MOST_CHUNKS, QUEUES, Refusal, Sizes,
};
use queue::{capacity, head, held_count};
use routes::is_route;
use torus::nodes;

// No packet has so many chunks.
fn wrong_chunks(chunks: u64) -> bool
    ensures { result ≡ wrong_chunks chunks }
{
    if chunks == 0 {
        return true;
    }
    MOST_CHUNKS < chunks
}

pub fn offer_rules(
    words: &[u64],
    s: Sizes,
    n: u64,
    destination: u64,
    chunks: u64,
) -> Result<(), Refusal>
    requires { Network (shape_of s) words.now }
    ensures { number_of result ≡ offer_rules (shape_of s) words.now n destination chunks }
{
    let count = nodes(s);
    let accepted = words[ACCEPTED_AT];
    let wrong = wrong_chunks(chunks);
    if count <= n {
        return Err(Refusal::NoSuchNode);
    }
    if count <= destination {
        return Err(Refusal::NoSuchNode);
    }
    if wrong {
        return Err(Refusal::WrongSize);
    }
    if n == destination {
        return Err(Refusal::OwnNode);
    }
    let slots = capacity(s, INJECTION_QUEUE);
    let held = held_count(words, s, n, INJECTION_QUEUE);
    if accepted == MOST_ACCEPTED {
        return Err(Refusal::CountSpent);
    }
    if held == slots {
        return Err(Refusal::InjectionFull);
    }
    Ok(())
}

pub fn move_rules(words: &[u64], s: Sizes, n: u64, q: u64, o: u64) -> Result<(), Refusal>
    requires { Network (shape_of s) words.now }
    ensures { number_of result ≡ move_rules (shape_of s) words.now n q o }
{
    if nodes(s) <= n {
        return Err(Refusal::NoSuchNode);
    }
    if QUEUES <= q {
        return Err(Refusal::NoSuchQueue);
    }
    if QUEUES <= o {
        return Err(Refusal::NoSuchOutput);
    }
    if held_count(words, s, n, q) == 0 {
        return Err(Refusal::QueueEmpty);
    }
    let p = head(words, s, n, q);
    if !is_route(q, p, o) {
        return Err(Refusal::NoRoute);
    }
    flow_rules(words, s, n, q, o, p)
}

pub fn credit_rules(s: Sizes, n: u64, o: u64) -> Result<(), Refusal>
    requires { T (sizes_in_range (shape_of s)) }
    ensures { number_of result ≡ credit_rules (shape_of s) n o }
{
    if nodes(s) <= n {
        return Err(Refusal::NoSuchNode);
    }
    if o == DELIVER {
        return Err(Refusal::NoSuchOutput);
    }
    if QUEUES <= o {
        return Err(Refusal::NoSuchOutput);
    }
    Ok(())
}

pub fn look_rules(s: Sizes, n: u64, q: u64) -> Result<(), Refusal>
    requires { T (sizes_in_range (shape_of s)) }
    ensures { number_of result ≡ look_rules (shape_of s) n q }
{
    if nodes(s) <= n {
        return Err(Refusal::NoSuchNode);
    }
    if QUEUES <= q {
        return Err(Refusal::NoSuchQueue);
    }
    Ok(())
}
