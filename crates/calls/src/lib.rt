// The calls (RULES R90 to R134) on lent words. Each does its own checking: it refuses by the first rule that applies, and
// then has written nothing; else its answer and every word are what the definitions of the crate `network` say (specs/Calls.antt), which have
// the number of a refusal in its place (`numbered`, specs/Refusals.antt). Where an answer has values, `told` is its number and every one of
// them (specs/Answers.antt there). All tests come first, then one change that cannot fail. No call asks anything of its caller.
#![tactic(auto)]

ghost use Rattle.std.specs.Prelude.{◌≡◌, ◌≤◌, ◌-◌, length, take, drop};
ghost use Rattle.network.specs.Sizes.{shape_of};
ghost use Rattle.network.specs.Refusals.{number_of, numbered, network_refusal, make_refusal, offer_refusal, look_refusal};
ghost use Rattle.network.specs.Answers.{MoveTells, CreditTells, FirstTells, DrainTells};
ghost use Rattle.network.specs.Calls.{make_words, offer_words, move_words, move_answer, credit_answer, look_part, first_answer, drain_words, drain_ledger, drain_answer};
ghost use Rattle.calls.specs.Returns.{look_opened};
ghost use Rattle.calls.specs.Place.{word_at, LookPlace};

use network::{DELIVER, Drained, NamedMove, Refusal, Sizes};

// Make (R91, R92): an empty network of these sizes.
pub fn make(words: &mut [u64], s: Sizes) -> Result<(), Refusal>
    ensures answer { number_of result ≡ make_refusal (shape_of s) words.old }
    ensures words { words.new ≡ make_words (shape_of s) words.old }
{
    if !checker::in_range(s) {
        return Err(Refusal::WrongSize);
    }
    if words.len() < queue::need(s) {
        return Err(Refusal::ShortStore);
    }
    changes::write_empty(words, s);
    Ok(())
}

// Check (R95).
pub fn check(words: &[u64]) -> Result<(), Refusal>
    ensures { number_of result ≡ network_refusal words.now }
{
    checker::open(words)?;
    Ok(())
}

// Offer (R101, R102): the packet joins queue 0 of its node as the newest, and counts as accepted.
pub fn offer(
    words: &mut [u64],
    node: u64,
    destination: u64,
    tag: u32,
    chunks: u64,
) -> Result<(), Refusal>
    ensures answer { number_of result ≡ offer_refusal words.old node destination chunks }
    ensures words { words.new ≡ offer_words words.old node destination tag chunks }
{
    let s = checker::open(words)?;
    rules::offer_rules(words, s, node, destination, chunks)?;
    changes::accept(words, s, node, destination, tag, chunks);
    Ok(())
}

// Move (R106 to R112): the head of a queue goes to the target that the output names, or is delivered by output 0. The answer: the packet word
// that it hands out, if it delivers.
pub fn move_packet(
    words: &mut [u64],
    node: u64,
    queue: u64,
    output: u64,
) -> Result<Option<u64>, Refusal>
    ensures answer { numbered result ≡ move_answer words.old node queue output }
    ensures words { words.new ≡ move_words words.old node queue output }
    ensures told { MoveTells words.old node queue output (numbered result) }
{
    let s = checker::open(words)?;
    rules::move_rules(words, s, node, queue, output)?;
    let p = changes::make_move(words, s, node, queue, output);
    if output == DELIVER {
        return Ok(Some(p));
    }
    Ok(None)
}

// Credit (R116): how much is free of the target that the output names, in chunks or in slots.
pub fn credit(words: &[u64], node: u64, output: u64) -> Result<u64, Refusal>
    ensures answer { numbered result ≡ credit_answer words.now node output }
    ensures told { CreditTells words.now node output (numbered result) }
{
    let s = checker::open(words)?;
    rules::credit_rules(s, node, output)?;
    Ok(flow::free_load(words, s, node, output))
}

// What a Look begins with: the sizes of the words, if it is not refused.
pub fn open_look(words: &[u64], node: u64, queue: u64) -> Result<Sizes, Refusal>
    ensures { numbered result ≡ look_opened words.now node queue }
{
    let s = checker::open(words)?;
    rules::look_rules(s, node, queue)?;
    Ok(s)
}

// Look's companion (R121): by which rule Look is refused, if it is.
pub fn look_refusal(words: &[u64], node: u64, queue: u64) -> Result<(), Refusal>
    ensures { number_of result ≡ look_refusal words.now node queue }
{
    open_look(words, node, queue)?;
    Ok(())
}

// Look (R119, R120): the held words of a queue, as the part of the lent words where they stand; an empty part on a refusal, and where that one
// stands is left free.
pub fn look(words: &[u64], node: u64, queue: u64) -> &[u64]
    ensures part { result.now ≡ look_part words.now node queue }
    ensures place { LookPlace words.entry node queue result }
{
    match open_look(words, node, queue) {
        Err(_) => &words[0..0],
        Ok(s) => {
            let start = queue::queue_start(s, node, queue);
            let count = queue::held_count(words, s, node, queue);
            let from = start + 1;
            let to = from + count as usize;
            between(words, from, to)
        }
    }
}

// The words from one index up to another, where they stand.
fn between(words: &[u64], from: usize, to: usize) -> &[u64]
    requires { (from ≤ to) × (to ≤ length words.now) }
    ensures place { result.ref_ptr ≡ word_at words.entry.ref_ptr from }
    ensures part { result.now ≡ take (to - from) (drop from words.now) }
{
    &words[from..to]
}

// First (R123, R124): the earliest permitted move, if there is one.
pub fn first(words: &[u64]) -> Result<Option<NamedMove>, Refusal>
    ensures answer { numbered result ≡ first_answer words.now }
    ensures told { FirstTells words.now (numbered result) }
{
    let s = checker::open(words)?;
    Ok(first::first_move(words, s))
}

// Drain (R127 to R134): First's move again and again, the packets that it delivers into the ledger, until nothing is held, or the budget
// is used, or a delivery is next and the ledger is full. The words are checked once.
pub fn drain(words: &mut [u64], budget: u32, ledger: &mut [u64]) -> Result<Drained, Refusal>
    ensures answer { numbered result ≡ drain_answer words.old budget (length ledger.old) }
    ensures words { words.new ≡ drain_words words.old budget (length ledger.old) }
    ensures ledger { ledger.new ≡ drain_ledger words.old budget ledger.old }
    ensures told { DrainTells words.old budget (length ledger.old) (numbered result) }
{
    let s = checker::open(words)?;
    Ok(drains::drain_network(words, s, budget, ledger))
}
