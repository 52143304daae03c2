// Whether a piece has a point X/D, Y/D: it is on the line through the ends, and between them.
#![tactic(auto)]

ghost use Rattle.std.specs.Prelude.{◌≡◌, ◌<◌, ◌^◌, pos, nat_abs, ◌-ℤ◌, ◌*ℤ◌};
ghost use Rattle.integers.specs.Size.{Small};
ghost use Rattle.orientation.specs.Turn.{turn_of, is_straight};
ghost use Rattle.fractions.specs.Point.{Bounded, point_order};
ghost use Rattle.fractions.specs.Fraction.{above};
ghost use Rattle.line_segment.specs.Piece.{point_of};
ghost use Rattle.line_segment.specs.Geometry.{side};
ghost use Rattle.line_segment.specs.Segment.{inner_between, in_bounds, contains_of};

use fractions::{Fraction, Point};
use integers::size;
use line_segment::{EndPoint, LineSegment};
use segment_crossing::{rise, run};
use segment_test::{allows, join};
use std::cmp::Ordering;

// 2^33 and 2^48: no crossing of two pieces of a chart reaches them.
const D_LIMIT: u64 = 8589934592;

const SIZE_LIMIT: u64 = 281474976710656;

// 2^46: times the run of a piece, 2^16 at most, it has room in an i64. Most points of a chart come nowhere near it.
const PLAIN_LIMIT: u64 = 70368744177664;

// Whether the numbers of a point are as small as those of a chart's points.
fn in_bounds(p: Point) -> bool
    ensures { result ≡ in_bounds p }
{
    p.d < D_LIMIT && size(p.x) < SIZE_LIMIT && size(p.y) < SIZE_LIMIT
}

// A coordinate of an end, over D.
fn scaled(c: i16, d: u64) -> i64
    requires { d < 2 ^ 33 }
    ensures { (result ≡ c *ℤ pos d) × Small (2 ^ 48) result }
{
    c as i64 * d as i64
}

// How an end comes to a point.
fn end_to_point(e: EndPoint, p: Point) -> Ordering
    requires { Bounded p }
    ensures { result ≡ point_order (point_of e) p }
{
    (scaled(e.x, p.d), scaled(e.y, p.d)).cmp(&(p.x, p.y))
}

// Whether a point lies between two ends.
fn between(p: Point, a: EndPoint, b: EndPoint) -> bool
    requires { Bounded p }
    ensures { result ≡ inner_between p a b }
{
    let s = join(a, b);
    let left = s.min;
    let right = s.max;
    allows(end_to_point(left, p), left.included)
        && allows(end_to_point(right, p).reverse(), right.included)
}

// A fraction whose upper number, times the size of q, is p * q.
fn share(p: i64, q: i64, under: u64) -> Fraction
    ensures { (above result *ℤ pos (nat_abs q) ≡ p *ℤ q) × (result.under ≡ under) }
{
    Fraction {
        negative: (p < 0) != (q < 0),
        over: size(p),
        under,
    }
}

// Whether p * q and u * v are equal, though neither may fit 64 bits.
fn same_product(p: i64, q: i64, u: i64, v: i64) -> bool
    ensures { result ≡ is_straight (turn_of (p *ℤ q -ℤ u *ℤ v)) }
{
    comparison::compare(share(p, q, size(v)), share(u, v, size(q))).is_eq()
}

// The same where the products have room.
fn same_plain(p: i64, q: i64, u: i64, v: i64) -> bool
    requires { (Small (2 ^ 46) p × Small (2 ^ 16) q) × (Small (2 ^ 46) u × Small (2 ^ 16) v) }
    ensures { result ≡ is_straight (turn_of (p *ℤ q -ℤ u *ℤ v)) }
{
    p * q == u * v
}

// Whether a point is on the line of a piece. As fractions, the way from the min stands over run and rise and not the
// other way round: so the whole parts are large, and nearly always differ.
fn on_line(s: LineSegment, p: Point) -> bool
    requires { Bounded p }
    ensures { result ≡ is_straight (turn_of (side s p)) }
{
    let from = s.min;
    let d = p.d;
    let x = p.x;
    let y = p.y;
    let u = x - scaled(from.x, d);
    let v = y - scaled(from.y, d);
    let along = run(s);
    let up = rise(s);
    if size(u) < PLAIN_LIMIT && size(v) < PLAIN_LIMIT {
        return same_plain(v, along, u, up);
    }
    same_product(v, along, u, up)
}

// Whether a piece has a point: its numbers are those of a chart's point, it is on the line, and between the ends.
pub fn contains(s: LineSegment, p: Point) -> bool
    ensures { result ≡ contains_of s p }
{
    in_bounds(p) && on_line(s, p) && between(p, s.min, s.max)
}
