// The calls for C, with the signatures of include/bench.h. Each returns the number of its refusal, or 0, and writes all words of
// `out`, 0 on a refusal. A pointer and a length are a slice here, an `out[2]` an array of two. No call asks anything of its
// caller but what bench.h says of the memory.
#![tactic(auto)]

pub mod outs;

ghost use Rattle.std.specs.Prelude.{◌≡◌, length, true, false};
ghost use Rattle.network.specs.Sizes.{shape_of, sized};
ghost use Rattle.network.specs.Refusals.{network_refusal, make_refusal, offer_refusal, look_refusal};
ghost use Rattle.network.specs.Calls.{make_words, offer_words, move_words, move_answer, moved_number, credit_answer, credit_number, first_answer, found_number, drain_words, drain_ledger, drain_answer, drained_number};
ghost use Rattle.waveform.specs.Calls.{write_answer, written_number, write_page, write_list, read_answer, read_number, read_list};
ghost use Rattle.bench_c.specs.Outs.{moved_out, credit_out, look_out, found_out, drained_out, written_out, read_out};

use network::{number_of, sized};

#[unsafe(no_mangle)]
pub extern "C" fn bench_make(
    words: &mut [u64],
    x: u64,
    y: u64,
    z: u64,
    e: u64,
    a: u64,
    j: u64,
) -> u64
    ensures answer { result ≡ make_refusal (shape_of (sized x y z e a j)) words.old }
    ensures words { words.new ≡ make_words (shape_of (sized x y z e a j)) words.old }
{
    let s = sized(x, y, z, e, a, j);
    number_of(&calls::make(words, s))
}

#[unsafe(no_mangle)]
pub extern "C" fn bench_check(words: &[u64]) -> u64
    ensures { result ≡ network_refusal words.now }
{
    number_of(&calls::check(words))
}

#[unsafe(no_mangle)]
pub extern "C" fn bench_offer(
    words: &mut [u64],
    node: u64,
    destination: u64,
    tag: u32,
    chunks: u64,
) -> u64
    ensures answer { result ≡ offer_refusal words.old node destination chunks }
    ensures words { words.new ≡ offer_words words.old node destination tag chunks }
{
    number_of(&calls::offer(words, node, destination, tag, chunks))
}

// out: how many packets were handed out, and the packet word.
#[unsafe(no_mangle)]
pub extern "C" fn bench_move(
    words: &mut [u64],
    node: u64,
    queue: u64,
    output: u64,
    out: &mut [u64; 2],
) -> u64
    ensures answer { result ≡ moved_number (move_answer words.old node queue output) }
    ensures words { words.new ≡ move_words words.old node queue output }
    ensures out { out.new ≡ moved_out (move_answer words.old node queue output) }
{
    let m = calls::move_packet(words, node, queue, output);
    outs::moved(out, m)
}

// out: what is free of the output's target, chunks of an adaptive queue and slots of an escape queue.
#[unsafe(no_mangle)]
pub extern "C" fn bench_credit(words: &[u64], node: u64, output: u64, out: &mut [u64; 1]) -> u64
    ensures answer { result ≡ credit_number (credit_answer words.now node output) }
    ensures out { out.new ≡ credit_out (credit_answer words.now node output) }
{
    let c = calls::credit(words, node, output);
    outs::credit(out, c)
}

// out: the index of the first held word, and how many are held. C has no slices to give back, so this is where Look's part stands.
#[unsafe(no_mangle)]
pub extern "C" fn bench_look(words: &[u64], node: u64, queue: u64, out: &mut [u64; 2]) -> u64
    ensures answer { result ≡ look_refusal words.now node queue }
    ensures out { out.new ≡ look_out words.now node queue }
{
    match calls::open_look(words, node, queue) {
        Err(refusal) => {
            *out = [0, 0];
            u64::from(refusal)
        }
        Ok(s) => {
            let start = queue::queue_start(s, node, queue);
            let count = queue::held_count(words, s, node, queue);
            let from = (start + 1) as u64;
            *out = [from, count];
            0
        }
    }
}

// out: whether there is a move, then its node, queue and output.
#[unsafe(no_mangle)]
pub extern "C" fn bench_first(words: &[u64], out: &mut [u64; 4]) -> u64
    ensures answer { result ≡ found_number (first_answer words.now) }
    ensures out { out.new ≡ found_out (first_answer words.now) }
{
    let f = calls::first(words);
    outs::found(out, f)
}

// out: how many moves were made, how many of them delivered, and the stop: 0 emptied, 1 spent, 2 full.
#[unsafe(no_mangle)]
pub extern "C" fn bench_drain(
    words: &mut [u64],
    budget: u32,
    ledger: &mut [u64],
    out: &mut [u64; 3],
) -> u64
    ensures answer { result ≡ drained_number (drain_answer words.old budget (length ledger.old)) }
    ensures words { words.new ≡ drain_words words.old budget (length ledger.old) }
    ensures ledger { ledger.new ≡ drain_ledger words.old budget ledger.old }
    ensures out { out.new ≡ drained_out (drain_answer words.old budget (length ledger.old)) }
{
    let d = calls::drain(words, budget, ledger);
    outs::drained(out, d)
}

// out: the bytes of the step.
#[unsafe(no_mangle)]
pub extern "C" fn bench_write_header(
    words: &[u64],
    fills: &mut [u8],
    page: &mut [u8],
    out: &mut [u64; 1],
) -> u64
    ensures answer { result ≡ written_number (write_answer true words.now fills.old page.old) }
    ensures fills { fills.new ≡ write_list true words.now fills.old page.old }
    ensures page { page.new ≡ write_page true words.now fills.old page.old }
    ensures out { out.new ≡ written_out (write_answer true words.now fills.old page.old) }
{
    let w = dump_writer::write_header(words, fills, page);
    outs::written(out, w)
}

// out: the bytes of the step.
#[unsafe(no_mangle)]
pub extern "C" fn bench_write_changes(
    words: &[u64],
    fills: &mut [u8],
    page: &mut [u8],
    out: &mut [u64; 1],
) -> u64
    ensures answer { result ≡ written_number (write_answer false words.now fills.old page.old) }
    ensures fills { fills.new ≡ write_list false words.now fills.old page.old }
    ensures page { page.new ≡ write_page false words.now fills.old page.old }
    ensures out { out.new ≡ written_out (write_answer false words.now fills.old page.old) }
{
    let w = dump_writer::write_changes(words, fills, page);
    outs::written(out, w)
}

// out: 1 for a header and 0 for a later step, the time stamp, how many variables are named.
#[unsafe(no_mangle)]
pub extern "C" fn bench_read_step(bytes: &[u8], fills: &mut [u8], out: &mut [u64; 3]) -> u64
    ensures answer { result ≡ read_number (read_answer bytes.now fills.old) }
    ensures fills { fills.new ≡ read_list bytes.now fills.old }
    ensures out { out.new ≡ read_out (read_answer bytes.now fills.old) }
{
    let r = dump_reader::read_step(bytes, fills);
    outs::step_read(out, r)
}
