// The rings' clause of the check (R80, R81): no escape ring is full. The queues of a ring stand at equal distances in the words, so do
// the rings of a group and the groups of a dimension: each ring is looked at once, and no node is computed.
#![tactic(auto)]

ghost use Rattle.std.specs.Prelude.{◌≡◌, ◌*◌, ◌<◌, T};
ghost use Rattle.base.specs.Tests.{all_below};
ghost use Rattle.base.specs.Digits.{above};
ghost use Rattle.network.specs.Sizes.{shape_of, sizes_in_range, dimensions, directions, nodes};
ghost use Rattle.network.specs.Check.{ring_has_room, rings_have_room};
ghost use Rattle.queue.specs.Queue.{EnoughWords};
ghost use Rattle.ring_check.specs.RingLines.{ring_room, group_room, groups_room, RingsIn};

use network::{DIMENSIONS, DIRECTIONS, FIRST_ESCAPE, Sizes};

// The slots of a queue, and how far it is in the words from a node to the next, from a node of a ring to the ring's next, and from a group of rings
// to the next. A group is the rings that begin between a ring's first node and its second. So many rings are in a group, nodes in a ring, and groups
// in all. The counts stand here because divisions take longer: 75 ns for one node, and 19 this way.
#[derive(Clone, Copy)]
struct Rings {
    slots: u64,
    node: usize,
    rings: usize,
    step: usize,
    nodes: usize,
    group: usize,
    groups: usize,
}

// Whether a queue of the ring whose first one is at this place holds fewer packets than it has slots.
fn ring_room(words: &[u64], r: Rings, first: usize) -> bool
    requires { RingsIn words.now r first r.group r.step }
    ensures { result ≡ ring_room words.now r first }
{
    (0..r.nodes).any(|j| words[first + j * r.step] < r.slots)
}

// The same of each ring of a group.
fn group_room(words: &[u64], r: Rings, first: usize) -> bool
    requires { RingsIn words.now r first r.group r.node }
    ensures { result ≡ group_room words.now r first }
{
    (0..r.rings).all(|b| ring_room(words, r, first + b * r.node))
}

// And of each group.
fn groups_room(words: &[u64], r: Rings, first: usize) -> bool
    requires { RingsIn words.now r first (r.groups * r.group) r.node }
    ensures { result ≡ groups_room words.now r first }
{
    (0..r.groups).all(|a| group_room(words, r, first + a * r.group))
}

// The product of the sizes above dimension i.
fn above(s: Sizes, i: u64) -> u64
    requires { T (sizes_in_range (shape_of s)) × (i < dimensions) }
    ensures { result ≡ above (shape_of s).sizes i }
{
    let mut product = 1;
    for j in i + 1..DIMENSIONS {
        product *= torus::size(s, j);
    }
    product
}

// The rings of direction d run along its dimension.
fn direction_has_room(words: &[u64], s: Sizes, d: u64) -> bool
    requires { EnoughWords (shape_of s) words.now × (d < directions) }
    ensures { result ≡ all_below (nodes (shape_of s)) (λ n. ring_has_room (shape_of s) words.now d n) }
{
    let i = d / 2;
    let node = queue::node_words(s);
    let weight = torus::weight(s, i);
    let size = torus::size(s, i);
    let groups = above(s, i);
    let first = queue::queue_start(s, 0, FIRST_ESCAPE + d);
    let step = weight * node;
    let group = size * step;
    let r = Rings {
        slots: s.escape,
        node: node as usize,
        rings: weight as usize,
        step: step as usize,
        nodes: size as usize,
        group: group as usize,
        groups: groups as usize,
    };
    groups_room(words, r, first)
}

pub fn rings_have_room(words: &[u64], s: Sizes) -> bool
    requires { EnoughWords (shape_of s) words.now }
    ensures { result ≡ rings_have_room (shape_of s) words.now }
{
    (0..DIRECTIONS).all(|d| direction_has_room(words, s, d))
}
