// The torus in code, for sizes in range and nodes that exist: coordinates, neighbours and places. Every function but `step_from` and `next_place`
// equals the definition of its name in the crate `network` (specs/Sizes.antt, Torus.antt).
#![tactic(auto)]

ghost use Rattle.std.specs.Prelude.{◌≡◌, ◌+◌, ◌%◌, ◌<◌, T};
ghost use Rattle.base.specs.Digits.{weight};
ghost use Rattle.network.specs.Sizes.{shape_of, sizes_in_range, dimensions, directions, dimension_of, nodes, size};
ghost use Rattle.network.specs.Torus.{coordinate, neighbour};
ghost use Rattle.torus.specs.Geometry.{node_at, OnTorus};

use network::{DIMENSIONS, Sizes};

pub fn nodes(s: Sizes) -> u64
    requires { T (sizes_in_range (shape_of s)) }
    ensures { result ≡ nodes (shape_of s) }
{
    s.x * s.y * s.z
}

#[tactic(auto, unfolding(network::specs::Sizes::size, network::specs::Sizes::shape_of))]
pub fn size(s: Sizes, i: u64) -> u64
    requires { i < dimensions }
    ensures { result ≡ size (shape_of s) i }
{
    match i {
        0 => s.x,
        1 => s.y,
        _ => s.z,
    }
}

// By how much the numbers of two nodes differ that are one step apart in dimension i.
#[tactic(auto, unfolding(base::specs::Digits::weight, network::specs::Sizes::shape_of))]
pub fn weight(s: Sizes, i: u64) -> u64
    requires { T (sizes_in_range (shape_of s)) × (i < dimensions) }
    ensures { result ≡ weight (shape_of s).sizes i }
{
    match i {
        0 => 1,
        1 => s.x,
        _ => s.x * s.y,
    }
}

pub fn coordinate(s: Sizes, i: u64, n: u64) -> u64
    requires { T (sizes_in_range (shape_of s)) × (i < dimensions) }
    ensures { result ≡ coordinate (shape_of s) i n }
{
    let w = weight(s, i);
    let k = size(s, i);
    n / w % k
}

// One step on, or round to the other end of the ring.
pub fn neighbour(s: Sizes, d: u64, n: u64) -> u64
    requires { T (sizes_in_range (shape_of s)) × (d < directions) × (n < nodes (shape_of s)) }
    ensures { result ≡ neighbour (shape_of s) d n }
{
    step_from(s, d, n, coordinate(s, d / 2, n))
}

// The same where the node's coordinate c in the direction's dimension is at hand.
pub fn step_from(s: Sizes, d: u64, n: u64, c: u64) -> u64
    requires { T (sizes_in_range (shape_of s)) × (d < directions) × (n < nodes (shape_of s)) × (c ≡ coordinate (shape_of s) (dimension_of d) n) }
    ensures { result ≡ neighbour (shape_of s) d n }
{
    let i = d / 2;
    let k = size(s, i);
    let w = weight(s, i);
    if d % 2 == 0 {
        if c + 1 < k {
            return n + w;
        }
        return n - c * w;
    }
    if 0 < c {
        return n - w;
    }
    n + (k - 1) * w
}

// Where a node stands: its coordinate in each dimension.
#[derive(Clone, Copy)]
pub struct Place {
    pub at: [u64; DIMENSIONS as usize],
}

// Where the next node stands: one on in the first dimension that does not go round. Behind the last node comes node 0.
pub fn next_place(s: Sizes, place: Place) -> Place
    requires { OnTorus s place }
    ensures { OnTorus s result × (node_at s result ≡ (node_at s place + 1) % nodes (shape_of s)) }
{
    let mut at = place.at;
    for i in 0..DIMENSIONS {
        let c = at[i as usize] + 1;
        if c < size(s, i) {
            at[i as usize] = c;
            return Place { at };
        }
        at[i as usize] = 0;
    }
    Place { at }
}
