// A sprinkler head, document 01's limits, and how two heads lie to each other, in whole centimetres. No floats.
// The contracts rest on specs/Limits.antt, specs/Relation.antt and specs/Pair.antt.
#![tactic(auto)]

ghost use Rattle.std.specs.Prelude.{◌≡◌, ◌*◌, min, nat_abs, ◌-ℤ◌};
ghost use Rattle.heads.specs.Limits.{position_in_limits, radius_in_limits, side_in_limits};
ghost use Rattle.heads.specs.Relation.{outline_relation, relation, number};
ghost use Rattle.std.specs.Ordering.{nat_cmp};
ghost use Rattle.heads.specs.Pair.{above_zero, squared_distance, greatest, relation_of, meets_of};

use std::cmp::Ordering;

// A head: a circle about (x, y), in centimetres.
#[derive(Clone, Copy, Default, PartialEq, Eq, Debug)]
pub struct Head {
    pub x: i32,
    pub y: i32,
    pub radius: i32,
}

// Numbers and no ranges: each range is asked at one place.

// A centre lies at most this far from zero, in x and in y.
pub const POSITION_LIMIT: i32 = 20000;

// The least and the greatest radius. A head of radius 0 is closed.
pub const RADIUS_LEAST: i32 = 0;

pub const RADIUS_LIMIT: i32 = 20000;

// The least and the greatest side of the box.
pub const SIDE_LEAST: i32 = 1;

pub const SIDE_LIMIT: i32 = 40000;

// How two heads lie to each other, by whole numbers.
#[derive(Clone, Copy, PartialEq, Eq, Debug)]
pub enum Relation {
    Apart,
    TouchingOutside,
    Crossing,
    TouchingInside,
    Holding,
    Identical,
}

// Whether an x or y of a head or of the box is within the limits. This and the next two differ in their limits only:
// each is a definition of its own, and `plan` asks them by name.
pub fn position_in_limits(v: i32) -> bool
    ensures { result ≡ position_in_limits v }
{
    (-POSITION_LIMIT..=POSITION_LIMIT).contains(&v)
}

// Whether a radius is within the limits.
pub fn radius_in_limits(v: i32) -> bool
    ensures { result ≡ radius_in_limits v }
{
    (RADIUS_LEAST..=RADIUS_LIMIT).contains(&v)
}

// Whether a side of the box is within the limits.
pub fn side_in_limits(v: i32) -> bool
    ensures { result ≡ side_in_limits v }
{
    (SIDE_LEAST..=SIDE_LIMIT).contains(&v)
}

// d against the square of s, which need not fit: one that does not is above every d.
fn against_square(d: u64, s: u64) -> Ordering
    ensures { result ≡ nat_cmp d (s * s) }
{
    s.checked_mul(s)
        .map_or(Ordering::Less, |square| d.cmp(&square))
}

// How the outlines of two circles of radii r1 and r2 lie whose centres have the squared distance d.
fn outline_relation(d: u64, r1: u32, r2: u32) -> Relation
    ensures { result ≡ outline_relation d r1 r2 }
{
    let s = u64::from(r1) + u64::from(r2);
    let t = u64::from(r1.abs_diff(r2));
    match (against_square(d, t), against_square(d, s)) {
        (Ordering::Less, _) => Relation::Holding,
        (Ordering::Equal, _) if t == 0 => Relation::Identical,
        (Ordering::Equal, _) => Relation::TouchingInside,
        (Ordering::Greater, Ordering::Less) => Relation::Crossing,
        (Ordering::Greater, Ordering::Equal) => Relation::TouchingOutside,
        (Ordering::Greater, Ordering::Greater) => Relation::Apart,
    }
}

// The relation of two heads of radii r1 and r2 whose centres have the squared distance d: a closed head is apart from
// any.
#[tactic(auto, unfolding(crate::specs::Relation::relation))]
pub fn relation_at(d: u64, r1: u32, r2: u32) -> Relation
    ensures { result ≡ relation d r1 r2 }
{
    if r1 == 0 || r2 == 0 {
        return Relation::Apart;
    }
    outline_relation(d, r1, r2)
}

// Each case's place in the list apart, touching outside, crossing, touching inside, holding, identical.
// A function and no `From`: no program here calls it, and docs/CLAIMS.md names its contract.
pub fn relation_number(r: Relation) -> usize
    ensures { result ≡ number r }
{
    r as usize
}

// The square of how far two numbers lie apart, which is at most 2^32 - 1, so that the square fits.
fn squared_difference(a: i32, b: i32) -> u64
    ensures { result ≡ nat_abs (a -ℤ b) * nat_abs (a -ℤ b) }
{
    let d = u64::from(a.abs_diff(b));
    d * d
}

// The squared distance of the centres, or the greatest u64 where it is above that, which no two heads within the limits
// reach.
fn squared_distance(a: Head, b: Head) -> u64
    ensures { result ≡ min (squared_distance a b) greatest }
{
    squared_difference(a.x, b.x).saturating_add(squared_difference(a.y, b.y))
}

// A radius as a whole number; one below zero counts as zero.
fn above_zero(v: i32) -> u32
    ensures { result ≡ above_zero v }
{
    u32::try_from(v).unwrap_or(0)
}

// How two heads lie to each other.
pub fn relation_of(a: Head, b: Head) -> Relation
    ensures { result ≡ relation_of a b }
{
    relation_at(
        squared_distance(a, b),
        above_zero(a.radius),
        above_zero(b.radius),
    )
}

// Whether two heads meet, in one point or in two.
pub fn meets(a: Head, b: Head) -> bool
    ensures { result ≡ meets_of a b }
{
    matches!(
        relation_of(a, b),
        Relation::TouchingOutside | Relation::Crossing | Relation::TouchingInside
    )
}
