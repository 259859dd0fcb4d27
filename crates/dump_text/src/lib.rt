// The lines of a dump (R402 to R405), put on a page, and how long they are; the caller sees that there is room. And bytes compared.
#![tactic(auto)]

ghost use Rattle.std.specs.Prelude.{◌≡◌, ◌<◌, ◌≤◌, length, drop};
ghost use Rattle.fields.specs.Puts.{Fits, Puts};
ghost use Rattle.waveform.specs.Dump.{variable_line, stamp_line, value_line};
ghost use Rattle.waveform.specs.Reading.{starts_with};

use fields::{Page, number_length};
use network::QUEUES;
use sheet::TEN;

// The base of the values.
pub const TWO: u64 = 2;

// The bytes of a line that are the same in every line of its kind.
const VARIABLE_BYTES: usize = 21;

const STAMP_BYTES: usize = 2;

const VALUE_BYTES: usize = 3;

// The line that names variable i.
pub fn put_variable(page: &mut Page, i: usize)
    requires { Fits page.old (variable_line i) }
    ensures { Puts page.old (variable_line i) page.new }
{
    let number = i as u64;
    page.put_bytes(b"$var wire 8 ");
    page.put_number(TEN, number);
    page.put_bytes(b" n");
    page.put_number(TEN, number / QUEUES);
    page.put_bytes(b"q");
    page.put_number(TEN, number % QUEUES);
    page.put_bytes(b" $end\n");
}

pub fn variable_length(i: usize) -> usize
    ensures { result ≡ length (variable_line i) }
{
    let number = i as u64;
    let node = number_length(TEN, number / QUEUES);
    let queue = number_length(TEN, number % QUEUES);
    VARIABLE_BYTES + number_length(TEN, number) + node + queue
}

// A time stamp.
pub fn put_stamp(page: &mut Page, time: u64)
    requires { Fits page.old (stamp_line time) }
    ensures { Puts page.old (stamp_line time) page.new }
{
    page.put_byte(b'#');
    page.put_number(TEN, time);
    page.put_byte(b'\n');
}

pub fn stamp_length(time: u64) -> usize
    ensures { result ≡ length (stamp_line time) }
{
    STAMP_BYTES + number_length(TEN, time)
}

// The line that tells the fill of a variable.
pub fn put_value(page: &mut Page, variable: usize, fill: u8)
    requires { Fits page.old (value_line (record { variable = variable; fill = fill })) }
    ensures { Puts page.old (value_line (record { variable = variable; fill = fill })) page.new }
{
    page.put_byte(b'b');
    page.put_number(TWO, fill as u64);
    page.put_byte(b' ');
    page.put_number(TEN, variable as u64);
    page.put_byte(b'\n');
}

pub fn value_length(variable: usize, fill: u8) -> usize
    ensures { result ≡ length (value_line (record { variable = variable; fill = fill })) }
{
    VALUE_BYTES + number_length(TWO, fill as u64) + number_length(TEN, variable as u64)
}

// Whether the bytes stand at a place of others.
pub fn starts_with(bytes: &[u8], at: usize, fixed: &[u8]) -> bool
    requires { at ≤ length bytes.now }
    ensures { result ≡ starts_with fixed.now (drop at bytes.now) }
{
    bytes[at..].starts_with(fixed)
}
