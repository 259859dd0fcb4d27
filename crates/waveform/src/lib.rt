// What the definitions of a dump speak of (R400 to R420): the answers of its calls, and what its reader finds at a place. The crates `dump_text`,
// `dump_writer` and `dump_reader` have the code.
#![tactic(auto)]

use network::{MOST_NODES, QUEUES};

// R403: the variables of the largest network.
pub const MOST_VARIABLES: usize = (MOST_NODES * QUEUES) as usize;

// A step that was read: its time stamp and how many variables it names, of a header or of a later step.
#[derive(Clone, Copy, Debug, PartialEq, Eq)]
pub enum StepRead {
    Header { time: u64, named: usize },
    Later { time: u64, named: usize },
}

// R405: a line that tells a variable's value, and how many bytes it has.
#[derive(Clone, Copy)]
pub struct ValueLine {
    pub variable: usize,
    pub fill: u8,
    pub length: usize,
}

// R404: a time stamp, likewise.
#[derive(Clone, Copy)]
pub struct TimeStamp {
    pub time: u64,
    pub length: usize,
}

// R402, R403: a header up to its time stamp, likewise, with the number of its variables.
#[derive(Clone, Copy)]
pub struct Names {
    pub count: usize,
    pub length: usize,
}
