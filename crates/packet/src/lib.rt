// The packet word in code: its offsets as signed numbers, its fields, a hop, and the packet of an offer. Every function equals the definition of
// its name in the crate `network` (specs/Packet.antt, Calls.antt). The torus that packets cross is the crate `torus`.
#![tactic(auto)]

ghost use Rattle.std.specs.Prelude.{◌≡◌, ◌&&◌, ◌/◌, ◌%◌, ◌<◌, ◌≤◌, T, nat_abs};
ghost use Rattle.base.specs.Digits.{digit, weight};
ghost use Rattle.network.specs.Sizes.{shape_of, sizes_in_range, dimensions, largest_ring, most_chunks, nodes};
ghost use Rattle.network.specs.Packet.{offset_values, fields, offset_field, signed, unsigned, offset, with_offset, shrunk, hop, destination, chunks, spare, upper_spare, shorter_way};
ghost use Rattle.network.specs.Layout.{load};
ghost use Rattle.network.specs.Check.{spare_clear, upper_spare_clear};
ghost use Rattle.network.specs.PacketLaws.{OffsetRange};
ghost use Rattle.network.specs.Selection.{sign};
ghost use Rattle.network.specs.Calls.{offered_way, offered};

use network::{
    CHUNKS_AT, DESTINATION_AT, DESTINATION_VALUES, DIMENSIONS, MOST_CHUNKS, OFFSET_VALUES,
    SPARE_AT, SPARE_VALUES, Sign, Sizes, TAG_AT, UPPER_SPARE_AT, is_adaptive,
};
use std::cmp::Ordering;
use torus::{coordinate, size};

// Signed offsets ------------------------------------------------------------------------------------------------------------

// Half of the values of an offset: how far the least of them stands below 0.
pub const HALF_OFFSETS: u64 = OFFSET_VALUES / 2;

// The number that an offset's field stands for, two's complement: half of the values on, and half of them back. This form needs no branch on the sign.
pub fn signed(b: u64) -> i64
    requires { b < offset_values }
    ensures { result ≡ signed b }
{
    ((b + HALF_OFFSETS) % OFFSET_VALUES) as i64 - HALF_OFFSETS as i64
}

// The number without its sign. The least that a field stands for is no exception: it is negated at the full width.
pub fn nat_abs(z: i64) -> u64
    requires { OffsetRange z }
    ensures { result ≡ nat_abs z }
{
    if z < 0 { (-z) as u64 } else { z as u64 }
}

// The field of such a number. One test of the sign stays, over `nat_abs` (R319): no form is plainer that still goes through it.
pub fn unsigned(z: i64) -> u64
    requires { OffsetRange z }
    ensures { result ≡ unsigned z }
{
    if z < 0 {
        OFFSET_VALUES - nat_abs(z)
    } else {
        nat_abs(z)
    }
}

// One hop towards zero, whatever the sign: an offset that leads half way round keeps the way that it was given.
pub fn shrunk(z: i64) -> i64
    requires { OffsetRange z }
    ensures { result ≡ shrunk z }
{
    z - z.signum()
}

// The fields of a word ------------------------------------------------------------------------------------------------------

// The field that stands from the weight AT on and has so many values.
fn field<const AT: u64, const VALUES: u64>(p: u64) -> u64
    requires { (0 < AT) × (0 < VALUES) }
    ensures { result ≡ p / AT % VALUES }
{
    p / AT % VALUES
}

pub fn destination(p: u64) -> u64
    ensures { result ≡ destination p }
{
    field::<DESTINATION_AT, DESTINATION_VALUES>(p)
}

// How many chunks the packet has. The word has one less.
pub fn chunks(p: u64) -> u64
    ensures { result ≡ chunks p }
{
    field::<CHUNKS_AT, MOST_CHUNKS>(p) + 1
}

// The bits above the offsets and above the chunks, of which nothing is made.
pub fn spare(p: u64) -> u64
    ensures { result ≡ spare p }
{
    field::<SPARE_AT, SPARE_VALUES>(p)
}

pub fn upper_spare(p: u64) -> u64
    ensures { result ≡ upper_spare p }
{
    field::<UPPER_SPARE_AT, SPARE_VALUES>(p)
}

// Whether both are 0.
#[tactic(auto, unfolding(network::specs::Check::spare_clear, network::specs::Check::upper_spare_clear))]
pub fn spares_clear(p: u64) -> bool
    ensures { result ≡ (spare_clear p && upper_spare_clear p) }
{
    spare(p) == 0 && upper_spare(p) == 0
}

// What the packet takes of queue q: its chunks in an adaptive queue, one slot in any other.
pub fn load(q: u64, p: u64) -> u64
    ensures { result ≡ load q p }
{
    if !is_adaptive(q) {
        return 1;
    }
    chunks(p)
}

// By how much a word grows when the offset of dimension i is one more: that of the last dimension stands lowest. All are powers of two, so that no
// division is left.
#[tactic(auto, unfolding(base::specs::Digits::weight))]
fn offset_weight(i: u64) -> u64
    requires { i < dimensions }
    ensures { result ≡ weight fields (offset_field i) }
{
    match i {
        0 => OFFSET_VALUES * OFFSET_VALUES,
        1 => OFFSET_VALUES,
        _ => 1,
    }
}

// The field of the offset of dimension i.
pub fn offset_field(i: u64, p: u64) -> u64
    requires { i < dimensions }
    ensures { result ≡ digit fields (offset_field i) p }
{
    p / offset_weight(i) % OFFSET_VALUES
}

pub fn offset(i: u64, p: u64) -> i64
    requires { i < dimensions }
    ensures { result ≡ offset i p }
{
    signed(offset_field(i, p))
}

pub fn with_offset(i: u64, z: i64, p: u64) -> u64
    requires { (i < dimensions) × OffsetRange z }
    ensures { result ≡ with_offset i z p }
{
    let w = offset_weight(i);
    p - offset_field(i, p) * w + unsigned(z) * w
}

// The way of an offset ------------------------------------------------------------------------------------------------------

// Whether the hops left along dimension i go plus or minus, or there are none.
pub fn sign(i: u64, p: u64) -> Sign
    requires { i < dimensions }
    ensures { result ≡ sign (offset i p) }
{
    match offset(i, p).cmp(&0) {
        Ordering::Less => Sign::Minus,
        Ordering::Equal => Sign::Zero,
        Ordering::Greater => Sign::Plus,
    }
}

// A hop ---------------------------------------------------------------------------------------------------------------------

pub fn hop(i: u64, p: u64) -> u64
    requires { i < dimensions }
    ensures { result ≡ hop i p }
{
    with_offset(i, shrunk(offset(i, p)), p)
}

// The shorter way round -----------------------------------------------------------------------------------------------------

// So many steps ahead, or the rest of the round back, whichever is shorter. The parity of the sending node's coordinate
// is added to twice the steps: that decides between equal ways, and is too little to change any other.
pub fn shorter_way(size: u64, ahead: u64, from: u64) -> i64
    requires { (ahead < size) × (size ≤ largest_ring) }
    ensures { result ≡ shorter_way size ahead from }
{
    if 2 * ahead + from % 2 <= size {
        ahead as i64
    } else {
        -((size - ahead) as i64)
    }
}

// The packet of an offer ----------------------------------------------------------------------------------------------------

// The offset of an offer in dimension i.
fn way(s: Sizes, i: u64, n: u64, destination: u64) -> i64
    requires { T (sizes_in_range (shape_of s)) × (i < dimensions) × (n < nodes (shape_of s)) × (destination < nodes (shape_of s)) }
    ensures { result ≡ offered_way (shape_of s) n destination i }
{
    let k = size(s, i);
    let from = coordinate(s, i, n);
    let to = coordinate(s, i, destination);
    let ahead = (to + (k - from)) % k;
    shorter_way(k, ahead, from)
}

// The packet word of an offer.
pub fn offered(s: Sizes, n: u64, destination: u64, tag: u32, chunks: u64) -> u64
    requires { T (sizes_in_range (shape_of s)) × (n < nodes (shape_of s)) × (destination < nodes (shape_of s)) × (1 ≤ chunks) × (chunks ≤ most_chunks) }
    ensures { result ≡ offered (shape_of s) n destination tag chunks }
{
    let mut p = (tag as u64) * TAG_AT + (chunks - 1) * CHUNKS_AT + destination * DESTINATION_AT;
    for i in 0..DIMENSIONS {
        p = with_offset(i, way(s, i, n, destination), p);
    }
    p
}
