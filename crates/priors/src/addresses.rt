// An address is a scale and a point, ordered by signed scale, then point. Its rank is one number in that order; inside the
// watch ranks are compared, and points by themselves only below the floor of priors. In bytes an address is two fields: the
// scale's bits, then the point.
// Functions and no `From`: bits, points, layers and ranks are numbers alike, many of them in lent bytes, and a name says which is meant.
ghost use Rattle.std.specs.Prelude.{◌≡◌, ◌+◌, ◌*◌, ◌/◌, ◌^◌, ◌≤◌, length};
ghost use Rattle.priors.specs.Word.{store};
ghost use Rattle.priors.specs.Address.{lift, rank, rank_at, rank_of, address_of, address_bytes};
ghost use Rattle.priors.specs.Priors.{layer_of, point_of};

use crate::words::{read_u32, write_u32};

// A rank is its scale's part times this, and the point.
const SCALE: u64 = 4294967296;

// No derived order: a rank is one number in place of two fields, which records and keys hold and compare by one `<`.
#[derive(Clone, Copy, Debug, PartialEq, Eq)]
pub struct Address {
    pub scale: i32,
    pub point: u32,
}

impl Address {
    // The address with this rank.
    #[tactic(auto, unfolding(crate::specs::Address::address_of))]
    pub fn from_rank(r: u64) -> Self
        ensures { result ≡ address_of r }
    {
        Address {
            scale: lift(scale_part(r)).cast_signed(),
            point: point_part(r),
        }
    }

    pub fn rank(self) -> u64
        ensures { result ≡ rank_of self.scale self.point }
    {
        rank(self.scale.cast_unsigned(), self.point)
    }
}

// The bits of a signed number, moved so that the least number comes first; and back, since moving twice is no move.
#[tactic(auto, unfolding(crate::specs::Address::lift))]
fn lift(bits: u32) -> u32
    ensures { result ≡ lift bits }
{
    bits.wrapping_add(2147483648)
}

// The scale's part of a rank: how many scales lie below its own.
pub fn scale_part(r: u64) -> u32
    ensures { result ≡ r / 2 ^ 32 }
{
    (r / SCALE) as u32
}

pub fn point_part(r: u64) -> u32
    ensures { result ≡ point_of r }
{
    (r % SCALE) as u32
}

// The rank with these parts.
pub fn of_parts(scale: u32, point: u32) -> u64
    ensures { result ≡ scale * 2 ^ 32 + point }
{
    u64::from(scale) * SCALE + u64::from(point)
}

// The rank of the address with these scale bits and this point.
#[tactic(auto, unfolding(crate::specs::Address::rank))]
pub fn rank(bits: u32, point: u32) -> u64
    ensures { result ≡ rank bits point }
{
    of_parts(lift(bits), point)
}

// The rank of the address that stands in s from `at`.
pub fn rank_at(s: &[u8], at: usize) -> u64
    requires { at + 8 ≤ length s.now }
    ensures { result ≡ rank_at s.now at }
{
    rank(read_u32(s, at), read_u32(s, at + 4))
}

// Writes the address with this rank into s from `at`.
#[tactic(auto, using(crate::proofs::Fields::store_store))]
pub fn write_rank(s: &mut [u8], at: usize, r: u64)
    requires { at + 8 ≤ length s.old }
    ensures { s.new ≡ store s.old at (address_bytes r) }
{
    write_u32(s, at, lift(scale_part(r)));
    write_u32(s, at + 4, point_part(r));
}

// How many scales lie below this one.
pub fn layer_of(floor: i32) -> u32
    ensures { result ≡ layer_of floor }
{
    lift(floor.cast_unsigned())
}
