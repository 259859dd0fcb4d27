// A line read as a command: the numbers of its fields, then the command of its letter.
#![tactic(auto)]

ghost use Rattle.std.specs.Prelude.{◌≡◌, List, ℕ, ◌+◌, ◌≤◌, length, drop};
ghost use Rattle.reader.specs.Reading.{number_of, digits_from, first_numbers, numbers_of};
ghost use Rattle.sheet.specs.Commands.{up_to, later_fields, command_with, command_of};

use lines::LINE_LIMIT;
use sheet::{Command, TEN};

// R247: the largest number of a sheet.
const LARGEST_NUMBER: u64 = u32::MAX as u64;

// The number of a field that may have leading zeros, in digits of the base, if it is at most `most`. Before it takes a digit in it sees
// whether the number stays within, so that nothing wraps even where `most` is the largest u64.
fn read_digits(field: &[u8], base: u64, most: u64) -> Option<u64>
    requires { 2 ≤ base }
    ensures { result ≡ digits_from base most 0 field.now }
{
    let mut value: u64 = 0;
    for &b in field {
        if b < b'0' {
            return None;
        }
        let digit = (b - b'0') as u64;
        if base <= digit {
            return None;
        }
        if most < digit {
            return None;
        }
        if (most - digit) / base < value {
            return None;
        }
        value = value * base + digit;
    }
    Some(value)
}

// The number of a field, in digits of the base, if it is at most `most`.
#[tactic(auto, using(crate::proofs::ReadDigits::number_by))]
pub fn read_number(field: &[u8], base: u64, most: u64) -> Option<u64>
    requires { 2 ≤ base }
    ensures { result ≡ number_of base most field.now }
{
    let n = field.len();
    if n == 0 {
        return None;
    }
    if 1 < n && field[0] == b'0' {
        return None;
    }
    read_digits(field, base, most)
}

// Where the field that starts at `at` ends: at the next byte that is `stop`, or at the end of the line.
pub fn field_end(line: &[u8], at: usize, stop: u8) -> usize
    requires { at ≤ length line.now }
    ensures { result ≡ at + length (up_to stop (drop at line.now)) }
{
    match line[at..].iter().position(|&b| b == stop) {
        Some(n) => at + n,
        None => line.len(),
    }
}

// No command takes more numbers.
const MOST_NUMBERS: usize = 6;

// The fields behind the first, each of them a number: how many there are, and the first of them, as many as a command can take.
#[derive(Clone, Copy)]
pub struct Numbers {
    pub count: usize,
    pub values: [u32; MOST_NUMBERS],
}

// The numbers of the fields behind the first. It stops at a field that is no number.
fn read_numbers(line: &[u8]) -> Option<Numbers>
    ensures { result ≡ numbers_of (later_fields line.now) }
{
    let mut values = [0u32; MOST_NUMBERS];
    let mut count: usize = 0;
    for field in line.split(|&b| b == b',').skip(1) {
        let n = read_number(field, TEN, LARGEST_NUMBER)?;
        if count < MOST_NUMBERS {
            values[count] = n as u32;
        }
        count += 1;
    }
    Some(Numbers { count, values })
}

// The command of a letter and the numbers behind it.
#[tactic(auto, unfolding(sheet::specs::Commands::command_with, crate::specs::Reading::first_numbers))]
fn command_with(letter: u8, numbers: Numbers) -> Command
    ensures { (n : List ℕ) → numbers.count ≡ length n → numbers.values ≡ first_numbers n → result ≡ command_with letter n }
{
    let v = numbers.values;
    match (letter, numbers.count) {
        (b'T', 6) => Command::Make {
            x: v[0],
            y: v[1],
            z: v[2],
            e: v[3],
            a: v[4],
            j: v[5],
        },
        (b'O', 4) => Command::Offer {
            node: v[0],
            destination: v[1],
            tag: v[2],
            chunks: v[3],
        },
        (b'M', 3) => Command::Move {
            node: v[0],
            queue: v[1],
            output: v[2],
        },
        (b'D', 1) => Command::Drain { budget: v[0] },
        _ => Command::Bad,
    }
}

// The command of a line without its end.
#[tactic(auto, unfolding(crate::specs::Reading::numbers_of, sheet::specs::Commands::command_of, sheet::specs::Commands::well_formed))]
pub fn read_command(line: &[u8]) -> Command
    ensures { result ≡ command_of line.now }
{
    if LINE_LIMIT < line.len() {
        return Command::Bad;
    }
    let end = field_end(line, 0, b',');
    if end != 1 {
        return Command::Bad;
    }
    let Some(numbers) = read_numbers(line) else {
        return Command::Bad;
    };
    command_with(line[0], numbers)
}
