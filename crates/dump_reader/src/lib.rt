// One step of a dump read (R415 to R420). All of it is parsed first, then the list of fills is brought up to date; a step that is refused leaves the list
// as it was. Order: a field; a time stamp; a value; values one after another; the names of a header, and its values; the two kinds of step; the call.
#![tactic(auto)]

ghost use Rattle.std.specs.Prelude.{◌≡◌, cond, Some, None, IfSome, ◌<◌, ◌≤◌, eqb, length, get_or, drop};
ghost use Rattle.network.specs.Refusals.{numbered};
ghost use Rattle.sheet.specs.Output.{Room, Put};
ghost use Rattle.waveform.specs.Dump.{most_variables, variable_line};
ghost use Rattle.waveform.specs.Reading.{starts_with, read_stamp, next_value, value_run, needed, read_names, tells_all, applied};
ghost use Rattle.waveform.specs.Calls.{read_answer, read_list};
ghost use Rattle.waveform.specs.StepAnswers.{ReadTells};
ghost use Rattle.dump_reader.specs.Parsing.{field_from, RunOf, CountedOf, LaterOf, HeaderOf, StepOf};

use dump_text::{TWO, put_variable, starts_with};
use fields::Page;
use network::{QUEUES, Refusal};
use reader::{field_end, read_number};
use sheet::TEN;
use waveform::{MOST_VARIABLES, Names, StepRead, TimeStamp, ValueLine};

// R404, R405: the largest numbers of a step.
const LARGEST_TIME: u64 = u64::MAX;

const LARGEST_FILL: u64 = u8::MAX as u64;

const LARGEST_VARIABLE: u64 = MOST_VARIABLES as u64 - 1;

// The bytes of the longest line of a variable.
const LINE_ROOM: usize = 32;

// R402: how many the fixed bytes before and behind the variables are, and before and behind the values.
const VARIABLES_BEGIN_BYTES: usize = 48;

const VARIABLES_END_BYTES: usize = 35;

const VALUES_BEGIN_BYTES: usize = 10;

const VALUES_END_BYTES: usize = 5;

// Whether the bytes begin with this one, which is not 0.
fn begins(bytes: &[u8], byte: u8) -> bool
    requires { 0 < byte }
    ensures { result ≡ eqb (get_or bytes.now 0 0) byte }
{
    bytes.first() == Some(&byte)
}

// A field that is a number and is ended by its stop, and the place behind that.
#[derive(Clone, Copy)]
pub struct Field {
    pub value: u64,
    pub next: usize,
}

fn read_field(bytes: &[u8], from: usize, stop: u8, base: u64, most: u64) -> Option<Field>
    requires from_in_bounds { from ≤ length bytes.now }
    requires le_base { 2 ≤ base }
    ensures field { result ≡ field_from stop base most bytes.now from }
    ensures fits { IfSome result (λ f. f.value ≤ most) }
    ensures within { IfSome result (λ f. f.next ≤ length bytes.now) }
{
    let end = field_end(bytes, from, stop);
    if end == bytes.len() {
        return None;
    }
    let value = read_number(&bytes[from..end], base, most)?;
    Some(Field {
        value,
        next: end + 1,
    })
}

// The time stamp that the bytes begin with.
#[tactic(auto, using(crate::proofs::Lines::stamp_by))]
fn read_stamp(bytes: &[u8]) -> Option<TimeStamp>
    ensures { result ≡ read_stamp bytes.now }
{
    if !begins(bytes, b'#') {
        return None;
    }
    let time = read_field(bytes, 1, b'\n', TEN, LARGEST_TIME)?;
    Some(TimeStamp {
        time: time.value,
        length: time.next,
    })
}

// The value that the bytes begin with, if its variable is `least` or a later one.
#[tactic(auto, using(crate::proofs::Lines::value_by))]
fn read_value(bytes: &[u8], least: usize) -> Option<ValueLine>
    ensures { result ≡ next_value least bytes.now }
{
    if !begins(bytes, b'b') {
        return None;
    }
    let fill = read_field(bytes, 1, b' ', TWO, LARGEST_FILL)?;
    let variable = read_field(bytes, fill.next, b'\n', TEN, LARGEST_VARIABLE)?;
    if variable.value < least as u64 {
        return None;
    }
    Some(ValueLine {
        variable: variable.value as usize,
        fill: fill.value as u8,
        length: variable.next,
    })
}

// Values one after another: how many there are, how long a list they need, and how many bytes they have.
#[derive(Clone, Copy)]
pub struct ValueRun {
    pub named: usize,
    pub needed: usize,
    pub length: usize,
}

fn read_run(bytes: &[u8]) -> ValueRun
    ensures { RunOf bytes.now result }
{
    let mut at = 0;
    let mut from = 0;
    let mut named = 0;
    while let Some(line) = read_value(&bytes[at..], from) {
        at += line.length;
        from = line.variable + 1;
        named += 1;
    }
    ValueRun {
        named,
        needed: from,
        length: at,
    }
}

// The same values once more, put into the list, which is long enough.
fn apply_run(bytes: &[u8], fills: &mut [u8])
    requires { needed (value_run bytes.now).changes ≤ length fills.old }
    ensures { fills.new ≡ applied (value_run bytes.now).changes fills.old }
{
    let mut at = 0;
    let mut from = 0;
    while let Some(line) = read_value(&bytes[at..], from) {
        let variable = line.variable;
        fills[variable] = line.fill;
        at += line.length;
        from = line.variable + 1;
    }
}

// The line of variable i at the start of a buffer.
fn print_variable(out: &mut [u8], i: usize) -> usize
    requires { Room out.old 0 (variable_line i) }
    ensures { Put out.old 0 (variable_line i) out.new result }
{
    let mut page = Page { out, at: 0 };
    put_variable(&mut page, i);
    page.at
}

// The bytes of the line of variable i, if it stands there.
fn variable_at(bytes: &[u8], at: usize, i: usize) -> Option<usize>
    requires at_in_bounds { at ≤ length bytes.now }
    requires i_lt_most_variables { i < most_variables }
    ensures { result ≡ cond (starts_with (variable_line i) (drop at bytes.now)) (Some (length (variable_line i))) None }
{
    let mut line = [0u8; LINE_ROOM];
    let length = print_variable(&mut line, i);
    starts_with(bytes, at, &line[..length]).then_some(length)
}

// The lines of variables from a place on: how many there are, and where they end.
#[derive(Clone, Copy)]
pub struct Counted {
    pub count: usize,
    pub end: usize,
}

fn count_variables(bytes: &[u8], start: usize) -> Counted
    requires { start ≤ length bytes.now }
    ensures { CountedOf bytes.now start result }
{
    let mut at = start;
    for count in 0..MOST_VARIABLES {
        let Some(length) = variable_at(bytes, at, count) else {
            return Counted { count, end: at };
        };
        at += length;
    }
    Counted {
        count: MOST_VARIABLES,
        end: at,
    }
}

// A header up to its time stamp.
#[tactic(auto, unfolding(waveform::specs::Reading::read_names, waveform::specs::Reading::are_names))]
fn read_names(bytes: &[u8]) -> Option<Names>
    ensures { result ≡ read_names bytes.now }
{
    if !starts_with(
        bytes,
        0,
        b"$timescale 1 ns $end\n$scope module network $end\n",
    ) {
        return None;
    }
    let counted = count_variables(bytes, VARIABLES_BEGIN_BYTES);
    if counted.count == 0 {
        return None;
    }
    if counted.count % QUEUES as usize != 0 {
        return None;
    }
    if !starts_with(bytes, counted.end, b"$upscope $end\n$enddefinitions $end\n") {
        return None;
    }
    Some(Names {
        count: counted.count,
        length: counted.end + VARIABLES_END_BYTES,
    })
}

// Whether values that tell each of so many variables begin the bytes, and "$end" ends them.
#[tactic(auto, unfolding(waveform::specs::Reading::tells_all))]
fn tells_all(bytes: &[u8], count: usize) -> bool
    ensures { result ≡ tells_all count bytes.now }
{
    let run = read_run(bytes);
    run.named == count
        && run.needed == count
        && starts_with(bytes, run.length, b"$end\n")
        && run.length + VALUES_END_BYTES == bytes.len()
}

// A step as it was parsed, and where its values begin.
#[derive(Clone, Copy)]
pub struct Parsed {
    pub header: bool,
    pub time: u64,
    pub named: usize,
    pub needed: usize,
    pub values: usize,
}

// A time stamp, and values to the end.
#[tactic(auto, unfolding(waveform::specs::Reading::read_later, waveform::specs::Reading::later_step))]
fn read_later(bytes: &[u8]) -> Option<Parsed>
    ensures { LaterOf bytes.now result }
{
    let stamp = read_stamp(bytes)?;
    let values = stamp.length;
    let run = read_run(&bytes[values..]);
    if run.length != bytes.len() - values {
        return None;
    }
    Some(Parsed {
        header: false,
        time: stamp.time,
        named: run.named,
        needed: run.needed,
        values,
    })
}

// Names, a time stamp, and a value for each variable.
#[tactic(auto, unfolding(waveform::specs::Reading::read_header, waveform::specs::Reading::read_stamped, waveform::specs::Reading::header_step))]
fn read_header(bytes: &[u8]) -> Option<Parsed>
    ensures { HeaderOf bytes.now result }
{
    let names = read_names(bytes)?;
    let start = names.length;
    let stamp = read_stamp(&bytes[start..])?;
    let dumpvars = start + stamp.length;
    if !starts_with(bytes, dumpvars, b"$dumpvars\n") {
        return None;
    }
    let values = dumpvars + VALUES_BEGIN_BYTES;
    if !tells_all(&bytes[values..], names.count) {
        return None;
    }
    Some(Parsed {
        header: true,
        time: stamp.time,
        named: names.count,
        needed: names.count,
        values,
    })
}

// A time stamp begins a later step; whatever begins otherwise is a header or no step.
#[tactic(auto, unfolding(waveform::specs::Reading::read_step))]
fn parse(bytes: &[u8]) -> Option<Parsed>
    ensures { StepOf bytes.now result }
{
    if begins(bytes, b'#') {
        return read_later(bytes);
    }
    read_header(bytes)
}

// ReadStep (R415 to R420): the list with the fills that the step tells, and what the step is.
pub fn read_step(bytes: &[u8], fills: &mut [u8]) -> Result<StepRead, Refusal>
    ensures answer { numbered result ≡ read_answer bytes.now fills.old }
    ensures fills { fills.new ≡ read_list bytes.now fills.old }
    ensures told { ReadTells bytes.now fills.old (numbered result) }
{
    let Some(step) = parse(bytes) else {
        return Err(Refusal::BadLine);
    };
    if fills.len() < step.needed {
        return Err(Refusal::ShortPage);
    }
    let values = step.values;
    apply_run(&bytes[values..], fills);
    let time = step.time;
    let named = step.named;
    if step.header {
        return Ok(StepRead::Header { time, named });
    }
    Ok(StepRead::Later { time, named })
}
