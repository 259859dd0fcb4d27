// What all crates share: the sizes of a network, every number that a rule of docs/RULES.md fixes (R5 in a comment is that clause), the
// sign of an offset, and the answers of the calls. specs/ has the definitions: Sizes.antt, Layout.antt, Check.antt and Refusals.antt those
// of the numbers, under the same names, Selection.antt what follows from a sign, and Calls.antt when a call gives which answer, and what is read of it.
#![tactic(auto)]

ghost use Rattle.std.specs.Prelude.{◌≡◌, ◌<◌};
ghost use Rattle.network.specs.Sizes.{sized, direction_of, is_adaptive};
ghost use Rattle.network.specs.Refusals.{refusal_number, number_of, numbered};
ghost use Rattle.network.specs.Calls.{drained_moves, drained_delivered};

// R25, R28: the nodes along x, y and z, and by how much a queue of each kind is long: the sizes of a network, in the order of its first words.
#[derive(Clone, Copy)]
pub struct Sizes {
    pub x: u64,
    pub y: u64,
    pub z: u64,
    pub escape: u64,
    pub adaptive: u64,
    pub injection: u64,
}

// The sizes that are these numbers.
pub fn sized(x: u64, y: u64, z: u64, escape: u64, adaptive: u64, injection: u64) -> Sizes
    ensures { result ≡ sized x y z escape adaptive injection }
{
    Sizes {
        x,
        y,
        z,
        escape,
        adaptive,
        injection,
    }
}

// The numbers of dimensions, directions, queues and outputs stay numbers: the rules count by them, and a call takes any u64 for one, from C as well.
// R1, R31 to R34: x, y and z; x+, x-, y+, y-, z+, z-; and the queues of a node: the injection queue, and an adaptive and an escape queue for each
// direction.
pub const DIMENSIONS: u64 = 3;

pub const DIRECTIONS: u64 = 6;

pub const QUEUES: u64 = 13;

pub const INJECTION_QUEUE: u64 = 0;

pub const FIRST_ADAPTIVE: u64 = 1;

pub const FIRST_ESCAPE: u64 = 7;

// R106, R107: an output has the number of the queue that it leads to; none leads to an injection queue, and that number is the delivery.
pub const DELIVER: u64 = 0;

// R37, R107: the direction of a transit queue, and of the output that leads to it.
pub fn direction_of(q: u64) -> u64
    requires { 0 < q }
    ensures { result ≡ direction_of q }
{
    (q - 1) % DIRECTIONS
}

// R27, R33: whether a queue is an adaptive one, of which a packet takes its chunks.
pub fn is_adaptive(q: u64) -> bool
    ensures { result ≡ is_adaptive q }
{
    if q == INJECTION_QUEUE {
        return false;
    }
    if DIRECTIONS < q {
        return false;
    }
    true
}

// R21 to R24: the ranges of the sizes. Every ring and every queue has at least one node or slot, an escape queue two.
pub const LARGEST_RING: u64 = 16;

pub const FEWEST_ESCAPE: u64 = 2;

pub const MOST_SLOTS: u64 = 8;

// The nodes of the largest network, of the largest size in each dimension.
pub const MOST_NODES: u64 = 4096;

// So many nodes are few, as many as there can be where one of the sizes is 1. What a call keeps for each node is then short: to clear it for
// MOST_NODES would cost a call on a small network more than its work. No rule fixes this number (D96), and no definition has it.
pub const FEW_NODES: u64 = 256;

// R42: the words of the header, and where the counts of packets accepted, packets delivered and moves made stand among them.
pub const HEADER_WORDS: usize = 9;

pub const ACCEPTED_AT: usize = 6;

pub const DELIVERED_AT: usize = 7;

pub const MOVES_AT: usize = 8;

// R26: the chunks of the largest packet.
pub const MOST_CHUNKS: u64 = 8;

// R60: the fields of a packet word: how many values an offset has and a spare bit, and how many destinations can be named; the chunks minus one have as
// many as there are chunks; and by how much the word grows when the lower spare bit, the destination, the chunks, the upper spare bit or the tag is one more.
pub const OFFSET_VALUES: u64 = 32;

pub const SPARE_VALUES: u64 = 2;

pub const DESTINATION_VALUES: u64 = 4096;

pub const SPARE_AT: u64 = 32768;

pub const DESTINATION_AT: u64 = 65536;

pub const CHUNKS_AT: u64 = 268435456;

pub const UPPER_SPARE_AT: u64 = 2147483648;

pub const TAG_AT: u64 = 4294967296;

// R145: the sign of an offset: hops left in the plus direction of its dimension, in the minus direction, or none.
#[derive(Clone, Copy)]
pub enum Sign {
    Plus,
    Minus,
    Zero,
}

// R82: the largest number of packets accepted, 2^32 - 1.
pub const MOST_ACCEPTED: u64 = 4294967295;

// R85: the most work that a packet starts with, 8 hops in each dimension and its delivery.
pub const MOST_WORK: u64 = 25;

// R160: why a call is refused: the first rule that is broken.
#[derive(Clone, Copy, Debug, PartialEq, Eq)]
pub enum Refusal {
    // R161: fewer words than the header or the sizes need.
    ShortStore,
    // R162: a size out of its range.
    WrongSize,
    // R163: the check fails otherwise.
    NoNetwork,
    // R164: no node, or as a destination none.
    NoSuchNode,
    // R165: no queue.
    NoSuchQueue,
    // R166: no output, or for Credit output 0.
    NoSuchOutput,
    // R167: the injection queue holds its capacity.
    InjectionFull,
    // R168: accepted is the most that it may be.
    CountSpent,
    // R169: the queue to move from is empty.
    QueueEmpty,
    // R170: no route of the head goes by the output.
    NoRoute,
    // R171: the target has no free slot.
    NoSlot,
    // R172: the target has one free slot and two are needed.
    NoBubble,
    // R173: no command of the bench program, or no step of a dump.
    BadLine,
    // R174: an offer to the node at which it is made.
    OwnNode,
    // R175: a page or a list of fills too short for a step of a dump.
    ShortPage,
}

// R161 to R175: the number that a refusal is told by.
impl From<Refusal> for u64 {
    ghost from_gives = { λ refusal number. number ≡ refusal_number refusal };

    fn from(refusal: Refusal) -> u64 {
        match refusal {
            Refusal::ShortStore => 1,
            Refusal::WrongSize => 2,
            Refusal::NoNetwork => 3,
            Refusal::NoSuchNode => 4,
            Refusal::NoSuchQueue => 5,
            Refusal::NoSuchOutput => 6,
            Refusal::InjectionFull => 7,
            Refusal::CountSpent => 8,
            Refusal::QueueEmpty => 9,
            Refusal::NoRoute => 10,
            Refusal::NoSlot => 11,
            Refusal::NoBubble => 12,
            Refusal::BadLine => 13,
            Refusal::OwnNode => 14,
            Refusal::ShortPage => 15,
        }
    }
}

// The number of an answer: that of its refusal, and 0 where it has none.
pub fn number_of<A>(answer: &Result<A, Refusal>) -> u64
    ensures { result ≡ number_of answer.now }
{
    match answer {
        Ok(_) => 0,
        Err(refusal) => u64::from(*refusal),
    }
}

// A move by name: of the head of this queue of this node, by this output.
#[derive(Clone, Copy, Debug, PartialEq, Eq)]
pub struct NamedMove {
    pub node: u64,
    pub queue: u64,
    pub output: u64,
}

// Why a Drain stopped.
#[derive(Clone, Copy, Debug, PartialEq, Eq)]
pub enum Stop {
    Emptied,
    Spent,
    Full,
}

// What a Drain that is not refused came to: how many moves it made, how many packets it delivered, and why it stopped.
#[derive(Clone, Copy, Debug, PartialEq, Eq)]
pub struct Drained {
    pub moves: u64,
    pub delivered: u64,
    pub stop: Stop,
}

// What is read of a Drain's answer: the moves that it made, and the packets that it delivered. A refused one made none and delivered none.
pub fn drained_moves(answer: &Result<Drained, Refusal>) -> u64
    ensures { result ≡ drained_moves (numbered answer.now) }
{
    match answer {
        Ok(drained) => drained.moves,
        Err(_) => 0,
    }
}

pub fn drained_delivered(answer: &Result<Drained, Refusal>) -> u64
    ensures { result ≡ drained_delivered (numbered answer.now) }
{
    match answer {
        Ok(drained) => drained.delivered,
        Err(_) => 0,
    }
}
