// The routes of a head (R140 to R149), decided case by case, line after line of the paper's selection list: by the number of its queue and the
// signs of its offsets. The cases are those of the crate `network` (specs/Selection.antt): `adaptive_x`, `adaptive_y` and `adaptive_z` are the calls
// of `adaptive` in `routes`, `in_turn` is the match there, and `last_case` has the same name. What they give together is proved to be `routes`
// (specs/Routes.antt there).
#![tactic(auto)]

ghost use Rattle.std.specs.Prelude.{◌≡◌, ◌<◌, length};
ghost use Rattle.base.specs.Tests.{elem};
ghost use Rattle.network.specs.Sizes.{queues};
ghost use Rattle.network.specs.Packet.{offset};
ghost use Rattle.network.specs.Routes.{routes};
ghost use Rattle.network.specs.Selection.{sign, last_case, selection};
ghost use Rattle.routes.specs.Lines.{adaptive, selection_lines, applies, outputs_from};

use network::{DELIVER, DIMENSIONS, Sign};
use packet::sign;

// How many lines the selection list has, one for each dimension and the last, and the number of the last. The code counts them from 0: the
// paper's line 1 has number 0, and its line 2 is one for each of the two other dimensions.
pub const LINES: usize = LAST_LINE + 1;

const LAST_LINE: usize = DIMENSIONS as usize;

// The paper's lines 1 and 2: the adaptive queue along a dimension that has these two, or 0 where no hop is left there.
fn adaptive<const PLUS: u64, const MINUS: u64>(d: Sign) -> u64
    ensures { result ≡ adaptive PLUS MINUS d }
{
    match d {
        Sign::Plus => PLUS,
        Sign::Minus => MINUS,
        Sign::Zero => 0,
    }
}

// The paper's line 3: the escape queue of x, that of y only where no hop is left along x, and that of z only where none is left along x and y. A head
// that has arrived is delivered.
fn last_case(dx: Sign, dy: Sign, dz: Sign) -> u64
    ensures { result ≡ last_case dx dy dz }
{
    match dx {
        Sign::Plus => 7,
        Sign::Minus => 8,
        Sign::Zero => match dy {
            Sign::Plus => 9,
            Sign::Minus => 10,
            Sign::Zero => match dz {
                Sign::Plus => 11,
                Sign::Minus => 12,
                Sign::Zero => DELIVER,
            },
        },
    }
}

// What each line gives of the head p of queue q, in their order. The number of the queue says which dimension is the incoming one and comes
// first; for the injection queue that is x. The contract names both statements of the routes: the paper's rule, and its cases, by which the code decides.
pub fn routes(q: u64, p: u64) -> [u64; LINES]
    requires { q < queues }
    ensures each { length result ≡ selection_lines }
    ensures these { outputs_from 0 result ≡ routes q p }
    ensures cases { outputs_from 0 result ≡ selection q (sign (offset 0 p)) (sign (offset 1 p)) (sign (offset 2 p)) }
{
    let dx = sign(0, p);
    let dy = sign(1, p);
    let dz = sign(2, p);
    let x = adaptive::<1, 2>(dx);
    let y = adaptive::<3, 4>(dy);
    let z = adaptive::<5, 6>(dz);
    let last = last_case(dx, dy, dz);
    match q {
        0 | 1 | 2 | 7 | 8 => [x, y, z, last],
        3 | 4 | 9 | 10 => [y, x, z, last],
        5 | 6 | 11 | 12 => [z, x, y, last],
        // no queue has another number
        _ => [0, 0, 0, last],
    }
}

// Whether line k applies, o being the number in its place. The last line always does, and there 0 is the delivery; in the lines before it 0
// says that the line gives no output.
pub fn applies(k: usize, o: u64) -> bool
    ensures { result ≡ applies k o }
{
    k == LAST_LINE || o != 0
}

// Whether output o is a route of the head p of queue q.
pub fn is_route(q: u64, p: u64, o: u64) -> bool
    requires { q < queues }
    ensures { result ≡ elem o (routes q p) }
{
    let outputs = routes(q, p);
    for (k, &output) in outputs.iter().enumerate() {
        if output == o {
            if applies(k, output) {
                return true;
            }
        }
    }
    false
}
