// A step of a dump written onto a lent page (R411 to R414), with the list of fills brought up to date. The length of the step is found first, so that a page
// or a list that is too short is refused before anything is written. Order: the fills of a network; how long a step is; a step put; the calls.
#![tactic(auto)]

ghost use Rattle.std.specs.Prelude.{◌≡◌, true, false, not, ◌||◌, ◌++◌, ◌<◌, ◌≤◌, eqb, length, drop};
ghost use Rattle.network.specs.Refusals.{numbered};
ghost use Rattle.network.specs.Sizes.{shape_of, nodes};
ghost use Rattle.network.specs.Layout.{queue_start, moves_made};
ghost use Rattle.network.specs.CheckLaws.{Network};
ghost use Rattle.sheet.specs.Output.{Room, Put};
ghost use Rattle.fields.specs.Puts.{Fits, Puts};
ghost use Rattle.waveform.specs.Dump.{variables_of, most_variables, fills as fills_of, variable_lines, value_lines, changes, step_bytes};
ghost use Rattle.waveform.specs.Calls.{write_answer, write_page, write_list};
ghost use Rattle.waveform.specs.StepAnswers.{WriteTells};
ghost use Rattle.dump_writer.specs.Writing.{FillsAdded, counts_answer, counts_page, counts_list};

use dump_text::{put_stamp, put_value, put_variable, stamp_length, value_length, variable_length};
use fields::Page;
use network::{FEW_NODES, HEADER_WORDS, MOVES_AT, QUEUES, Refusal, Sizes};
use waveform::MOST_VARIABLES;

// The fixed bytes of a header.
const FIXED_BYTES: usize = 98;

// The variables of few nodes.
const FEW_VARIABLES: usize = (FEW_NODES * QUEUES) as usize;

// The fills of node n, whose words begin at `start`, put at their places in the list.
fn read_node(words: &[u64], s: Sizes, n: usize, start: usize, counts: &mut [u8])
    requires { Network (shape_of s) words.now × (n < nodes (shape_of s)) × (start ≡ queue_start (shape_of s) n 0)
        × (length counts.old ≡ variables_of (shape_of s)) }
    ensures { FillsAdded (shape_of s) words.now n counts.old counts.new }
{
    let from = n * QUEUES as usize;
    let mut at = start;
    for q in 0..QUEUES {
        counts[from + q as usize] = words[at] as u8;
        at += queue::capacity(s, q) as usize + 1;
    }
}

// The fills of a network, by node and queue.
fn read_fills(words: &[u64], s: Sizes, counts: &mut [u8])
    requires { Network (shape_of s) words.now × (length counts.old ≡ variables_of (shape_of s)) }
    ensures { counts.new ≡ fills_of (shape_of s) words.now }
{
    let nodes = torus::nodes(s) as usize;
    let node = queue::node_words(s) as usize;
    let mut start = HEADER_WORDS;
    for n in 0..nodes {
        read_node(words, s, n, start, counts);
        start += node;
    }
}

// How many bytes the lines of the variables have, and those of the values that the step tells.
fn variables_length(count: usize) -> usize
    requires { count ≤ most_variables }
    ensures { result ≡ length (variable_lines 0 count) }
{
    let mut length = 0;
    for i in 0..count {
        length += variable_length(i);
    }
    length
}

// R407, R408: a header tells every variable, a later step those whose fill is another than the list has.
fn tells(every: bool, count: u8, listed: u8) -> bool
    ensures { result ≡ (every || not (eqb count listed)) }
{
    every || count != listed
}

// By place in both lists, here and in `put_values`: `zip` was tried, and the search does not find the facts of its items.
fn values_length(every: bool, counts: &[u8], fills: &[u8]) -> usize
    requires { (length counts.now ≤ most_variables) × (length counts.now ≤ length fills.now) }
    ensures { result ≡ length (value_lines (changes every counts.now fills.now)) }
{
    let mut length = 0;
    for (i, &count) in counts.iter().enumerate() {
        if tells(every, count, fills[i]) {
            length += value_length(i, count);
        }
    }
    length
}

// How many bytes the step has. `first` is the argument of the definitions (`step_bytes`, `write_answer`), and says which kind of step it is.
fn step_length(first: bool, time: u64, counts: &[u8], fills: &[u8]) -> usize
    requires { (length counts.now ≤ most_variables) × (length counts.now ≤ length fills.now) }
    ensures { result ≡ length (step_bytes first time counts.now fills.now) }
{
    let changes = stamp_length(time) + values_length(first, counts, fills);
    if first {
        return FIXED_BYTES + variables_length(counts.len()) + changes;
    }
    changes
}

// The same lines put, and the two kinds of step.
fn put_variables(page: &mut Page, count: usize)
    requires { Fits page.old (variable_lines 0 count) }
    ensures { Puts page.old (variable_lines 0 count) page.new }
{
    for i in 0..count {
        put_variable(page, i);
    }
}

fn put_values(page: &mut Page, every: bool, counts: &[u8], fills: &[u8])
    requires counts_in_bounds { length counts.now ≤ length fills.now }
    requires room { Fits page.old (value_lines (changes every counts.now fills.now)) }
    ensures { Puts page.old (value_lines (changes every counts.now fills.now)) page.new }
{
    for (i, &count) in counts.iter().enumerate() {
        if tells(every, count, fills[i]) {
            put_value(page, i, count);
        }
    }
}

fn put_header(page: &mut Page, time: u64, counts: &[u8], fills: &[u8])
    requires counts_in_bounds { length counts.now ≤ length fills.now }
    requires room { Fits page.old (step_bytes true time counts.now fills.now) }
    ensures { Puts page.old (step_bytes true time counts.now fills.now) page.new }
{
    page.put_bytes(b"$timescale 1 ns $end\n$scope module network $end\n");
    put_variables(page, counts.len());
    page.put_bytes(b"$upscope $end\n$enddefinitions $end\n");
    put_stamp(page, time);
    page.put_bytes(b"$dumpvars\n");
    put_values(page, true, counts, fills);
    page.put_bytes(b"$end\n");
}

fn put_later(page: &mut Page, time: u64, counts: &[u8], fills: &[u8])
    requires counts_in_bounds { length counts.now ≤ length fills.now }
    requires room { Fits page.old (step_bytes false time counts.now fills.now) }
    ensures { Puts page.old (step_bytes false time counts.now fills.now) page.new }
{
    put_stamp(page, time);
    put_values(page, false, counts, fills);
}

fn put_step(first: bool, page: &mut Page, time: u64, counts: &[u8], fills: &[u8])
    requires counts_in_bounds { length counts.now ≤ length fills.now }
    requires room { Fits page.old (step_bytes first time counts.now fills.now) }
    ensures { Puts page.old (step_bytes first time counts.now fills.now) page.new }
{
    if first {
        put_header(page, time, counts, fills);
    } else {
        put_later(page, time, counts, fills);
    }
}

// The same at the start of a lent page.
fn print_step(first: bool, out: &mut [u8], time: u64, counts: &[u8], fills: &[u8]) -> usize
    requires counts_in_bounds { length counts.now ≤ length fills.now }
    requires room { Room out.old 0 (step_bytes first time counts.now fills.now) }
    ensures { Put out.old 0 (step_bytes first time counts.now fills.now) out.new result }
{
    let mut page = Page { out, at: 0 };
    put_step(first, &mut page, time, counts, fills);
    page.at
}

// A step of these fills: 15 is tested before anything is written.
fn write_counts(
    first: bool,
    time: u64,
    counts: &[u8],
    fills: &mut [u8],
    page: &mut [u8],
) -> Result<usize, Refusal>
    requires { length counts.now ≤ most_variables }
    ensures answer { numbered result ≡ counts_answer first time counts.now fills.old page.old }
    ensures fills { fills.new ≡ counts_list first time counts.now fills.old page.old }
    ensures page { page.new ≡ counts_page first time counts.now fills.old page.old }
{
    if fills.len() < counts.len() {
        return Err(Refusal::ShortPage);
    }
    let length = step_length(first, time, counts, fills);
    if page.len() < length {
        return Err(Refusal::ShortPage);
    }
    print_step(first, page, time, counts, fills);
    fills[..counts.len()].copy_from_slice(counts);
    Ok(length)
}

// A step of a network, whose fills are read into a list of our own first.
fn write_fills(
    first: bool,
    words: &[u64],
    s: Sizes,
    counts: &mut [u8],
    fills: &mut [u8],
    page: &mut [u8],
) -> Result<usize, Refusal>
    requires { Network (shape_of s) words.now × (length counts.old ≡ variables_of (shape_of s)) }
    ensures answer { numbered result ≡ counts_answer first (moves_made words.now) (fills_of (shape_of s) words.now) fills.old page.old }
    ensures fills { fills.new ≡ counts_list first (moves_made words.now) (fills_of (shape_of s) words.now) fills.old page.old }
    ensures page { page.new ≡ counts_page first (moves_made words.now) (fills_of (shape_of s) words.now) fills.old page.old }
{
    read_fills(words, s, counts);
    let time = words[MOVES_AT];
    write_counts(first, time, counts, fills, page)
}

// The same, with a list of our own of N bytes, which may be longer than the network needs it.
fn write_sized<const N: usize>(
    first: bool,
    words: &[u64],
    s: Sizes,
    fills: &mut [u8],
    page: &mut [u8],
) -> Result<usize, Refusal>
    requires network { Network (shape_of s) words.now }
    requires length { (variables_of (shape_of s) ≤ N) × (N ≤ most_variables) }
    ensures answer { numbered result ≡ counts_answer first (moves_made words.now) (fills_of (shape_of s) words.now) fills.old page.old }
    ensures fills { fills.new ≡ counts_list first (moves_made words.now) (fills_of (shape_of s) words.now) fills.old page.old }
    ensures page { page.new ≡ counts_page first (moves_made words.now) (fills_of (shape_of s) words.now) fills.old page.old }
{
    let mut counts = [0u8; N];
    let count = (torus::nodes(s) * QUEUES) as usize;
    write_fills(first, words, s, &mut counts[..count], fills, page)
}

// The same: the list is cleared whole at each step, so a network of few nodes has a short one (D89).
fn write_opened(
    first: bool,
    words: &[u64],
    s: Sizes,
    fills: &mut [u8],
    page: &mut [u8],
) -> Result<usize, Refusal>
    requires { Network (shape_of s) words.now }
    ensures answer { numbered result ≡ counts_answer first (moves_made words.now) (fills_of (shape_of s) words.now) fills.old page.old }
    ensures fills { fills.new ≡ counts_list first (moves_made words.now) (fills_of (shape_of s) words.now) fills.old page.old }
    ensures page { page.new ≡ counts_page first (moves_made words.now) (fills_of (shape_of s) words.now) fills.old page.old }
{
    if torus::nodes(s) <= FEW_NODES {
        return write_sized::<FEW_VARIABLES>(first, words, s, fills, page);
    }
    write_sized::<MOST_VARIABLES>(first, words, s, fills, page)
}

// A step of words, a header if it is the first.
fn write_step(
    first: bool,
    words: &[u64],
    fills: &mut [u8],
    page: &mut [u8],
) -> Result<usize, Refusal>
    ensures answer { numbered result ≡ write_answer first words.now fills.old page.old }
    ensures fills { fills.new ≡ write_list first words.now fills.old page.old }
    ensures page { page.new ≡ write_page first words.now fills.old page.old }
{
    let s = checker::open(words)?;
    write_opened(first, words, s, fills, page)
}

// WriteHeader (R411, R413, R414): the first step of a dump, which tells every fill.
pub fn write_header(words: &[u64], fills: &mut [u8], page: &mut [u8]) -> Result<usize, Refusal>
    ensures answer { numbered result ≡ write_answer true words.now fills.old page.old }
    ensures fills { fills.new ≡ write_list true words.now fills.old page.old }
    ensures page { page.new ≡ write_page true words.now fills.old page.old }
    ensures told { WriteTells true words.now fills.old page.old (numbered result) }
{
    write_step(true, words, fills, page)
}

// WriteChanges (R412 to R414): a later step, which tells what differs from the list.
pub fn write_changes(words: &[u64], fills: &mut [u8], page: &mut [u8]) -> Result<usize, Refusal>
    ensures answer { numbered result ≡ write_answer false words.now fills.old page.old }
    ensures fills { fills.new ≡ write_list false words.now fills.old page.old }
    ensures page { page.new ≡ write_page false words.now fills.old page.old }
    ensures told { WriteTells false words.now fills.old page.old (numbered result) }
{
    write_step(false, words, fills, page)
}
