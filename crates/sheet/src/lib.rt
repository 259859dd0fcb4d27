// What the definitions of the bench program's lines speak of (R240 to R250): the input cut into lines, and the command of a line. The crates
// `lines`, `reader` and `writer` have the code.
#![tactic(auto)]

// The base of the numbers of a sheet.
pub const TEN: u64 = 10;

// How many bytes have come since the last end; one more than are held where there are more.
#[derive(Clone, Copy)]
pub struct Pending {
    pub count: usize,
}

// What a byte, or the end of the input, brings: one of three things, as no Option or Result has them.
#[derive(Clone, Copy)]
pub enum Fed {
    // No line ends.
    More(Pending),
    // A line ends. It is the first so many bytes of the buffer.
    Line(usize),
    // A line ends that is too long.
    TooLong,
}

// What a line asks for; `Bad` is every line that is none of the others. It is a command as they are, and no None: every line has one, with an
// answer (R248), and `command_of` says which.
#[derive(Clone, Copy)]
pub enum Command {
    Make {
        x: u32,
        y: u32,
        z: u32,
        e: u32,
        a: u32,
        j: u32,
    },
    Offer {
        node: u32,
        destination: u32,
        tag: u32,
        chunks: u32,
    },
    Move {
        node: u32,
        queue: u32,
        output: u32,
    },
    Drain {
        budget: u32,
    },
    Bad,
}
