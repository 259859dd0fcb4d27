// A table of neighbours, for a search that asks for them again and again: entry DIRECTIONS * n + d is the neighbour of node n in direction d. The caller
// lends it, with an entry for each direction of each node at least. It is filled without a division.
#![tactic(auto)]

ghost use Rattle.std.specs.Prelude.{◌≡◌, ◌+◌, ◌*◌, ◌<◌, ◌≤◌, T, length};
ghost use Rattle.network.specs.Sizes.{Shape, shape_of, sizes_in_range, directions, dimension_of, nodes, most_nodes};
ghost use Rattle.network.specs.Torus.{coordinate, neighbour};
ghost use Rattle.torus.specs.Geometry.{node_at, OnTorus};
ghost use Rattle.near.specs.Table.{Near, NearTo};

use network::{DIMENSIONS, DIRECTIONS, Sizes};
use torus::{Place, next_place, nodes, step_from};

// One entry more: the neighbour of node n in direction d, where its coordinate in that dimension is c.
fn fill_entry(near: &mut [u16], s: Sizes, d: u64, n: u64, c: u64)
    requires t { T (sizes_in_range (shape_of s)) × (d < directions) × (n < nodes (shape_of s)) × (c ≡ coordinate (shape_of s) (dimension_of d) n) }
    requires near_to { NearTo (shape_of s) (directions * n + d) near.old }
    ensures { NearTo (shape_of s) (directions * n + d + 1) near.new }
{
    let there = step_from(s, d, n, c);
    near[(DIRECTIONS * n + d) as usize] = there as u16;
}

// The entries of node n, which stands there.
fn fill_node(near: &mut [u16], s: Sizes, n: u64, place: Place)
    requires { OnTorus s place × (node_at s place ≡ n) × NearTo (shape_of s) (directions * n) near.old }
    ensures { NearTo (shape_of s) (directions * (n + 1)) near.new }
{
    let at = place.at;
    for d in 0..DIRECTIONS {
        fill_entry(near, s, d, n, at[(d / 2) as usize]);
    }
}

// The neighbours of all nodes.
pub fn fill(near: &mut [u16], s: Sizes)
    requires { T (sizes_in_range (shape_of s)) × (directions * nodes (shape_of s) ≤ length near.old) }
    ensures { Near (shape_of s) near.new }
{
    let mut place = Place {
        at: [0; DIMENSIONS as usize],
    };
    for n in 0..nodes(s) {
        fill_node(near, s, n, place);
        place = next_place(s, place);
    }
}

// The neighbour of node n in direction d, out of the table.
pub fn look_up(near: &[u16], d: u64, n: u64) -> u64
    requires { (d < directions) × (n < most_nodes) × (directions * n + d < length near.now) }
    ensures { (S : Shape) → Near S near.now → n < nodes S → result ≡ neighbour S d n }
{
    near[(DIRECTIONS * n + d) as usize] as u64
}
