// A point by the whole parts of its coordinates and what is left of them: so the side on which it lies of a piece needs no
// product that outgrows 64 bits, and two points that are not close are told apart by one number.
#![tactic(auto)]

ghost use Rattle.std.specs.Prelude.{◌≡◌, ℕ, ◌+◌, ◌*◌, ◌<◌, ◌^◌, ℤ, pos, ◌+ℤ◌, ◌-ℤ◌, ◌*ℤ◌};
ghost use Rattle.integers.specs.Size.{Small};
ghost use Rattle.fractions.specs.Order.{order};
ghost use Rattle.fractions.specs.Point.{point_order, whole_of};
ghost use Rattle.fractions.specs.declared.Point.{Point as APoint};
ghost use Rattle.line_segment.specs.Geometry.{run as run_of, rise as rise_of};
ghost use Rattle.sweep.specs.Ported.{is_equal};
ghost use Rattle.full_order.specs.Finer.{aside as aside_of};
ghost use Rattle.full_points.specs.Spot.{Charted, ChartPoint, Fair, Marks, whole_side, key_of};

use fractions::Point;
use line_segment::LineSegment;
use segment_crossing::{rise, run};
use std::cmp::Ordering;

// x is wx + rx / d and y is wy + ry / d, counted from -32,768.
#[derive(Clone, Copy)]
pub struct Spot {
    pub wx: u64,
    pub rx: u64,
    pub wy: u64,
    pub ry: u64,
    pub d: u64,
}

// What coordinates are counted from, turned round.
const SHIFT: i64 = 32768;

// No remainder weighs more than this in whole sides.
const FAR: i64 = 131072;

// A coordinate's upper term, counted from -32,768.
fn shifted(x: i64, d: u64) -> u64
    requires { Charted x d }
    ensures { pos result ≡ x +ℤ pos 32768 *ℤ pos d }
{
    (x + SHIFT * d as i64) as u64
}

// The spot of a point of a chart.
pub fn spot_of(p: Point) -> Spot
    requires { ChartPoint p }
    ensures { Fair result × Marks result p }
{
    let d = p.d;
    let x = shifted(p.x, d);
    let y = shifted(p.y, d);
    Spot {
        wx: x / d,
        rx: x % d,
        wy: y / d,
        ry: y % d,
        d,
    }
}

// A coordinate of an end, counted from -32,768.
pub fn from_least(x: i16) -> u64
    ensures { pos result ≡ x +ℤ pos 32768 }
{
    (x as i64 + SHIFT) as u64
}

// The spot of an end.
pub fn spot_at(x: i16, y: i16) -> Spot
    ensures { Fair result × Marks result (whole_of x y) }
{
    Spot {
        wx: from_least(x),
        rx: 0,
        wy: from_least(y),
        ry: 0,
        d: 1,
    }
}

// A coordinate by its whole part and remainder is that of an end.
fn is_whole(w: u64, r: u64, x: i16) -> bool
    ensures { (d : ℕ) → r < d → result ≡ is_equal (order ((x +ℤ pos 32768) *ℤ pos d) (pos (w * d + r))) }
{
    r == 0 && w == from_least(x)
}

// An end stands at the spot.
pub fn is_at(x: i16, y: i16, p: Spot) -> bool
    requires { Fair p }
    ensures { (q : APoint) → Marks p q → result ≡ is_equal (point_order (whole_of x y) q) }
{
    is_whole(p.wx, p.rx, x) && is_whole(p.wy, p.ry, y)
}

// How far a whole part is past a coordinate of an end.
fn past(w: u64, x: i16) -> i64
    requires { w < 65536 }
    ensures { (result ≡ pos w -ℤ (x +ℤ pos 32768)) × Small (2 ^ 17) result }
{
    w as i64 - (x as i64 + SHIFT)
}

// The side of the whole parts.
fn whole_side(s: LineSegment, wx: u64, wy: u64) -> i64
    requires { (wx < 65536) × (wy < 65536) }
    ensures { result ≡ whole_side s wx wy }
{
    let a = s.min;
    run(s) * past(wy, a.y) - rise(s) * past(wx, a.x)
}

// The side, where the whole parts are near the line.
fn near_side(s: LineSegment, f: i64, rx: u64, ry: u64, d: u64) -> i64
    requires { Small 131072 f × (rx < 2 ^ 33) × (ry < 2 ^ 33) × (d < 2 ^ 33) }
    ensures { result ≡ f *ℤ pos d +ℤ (run_of s *ℤ pos ry -ℤ rise_of s *ℤ pos rx) }
{
    f * d as i64 + (run(s) * ry as i64 - rise(s) * rx as i64)
}

// Where the point lies of a piece: Less below it, Greater above it. Far from the line the whole parts decide.
pub fn aside(s: LineSegment, p: Spot) -> Ordering
    requires { Fair p }
    ensures { (q : APoint) → Marks p q → result ≡ aside_of q s }
{
    let f = whole_side(s, p.wx, p.wy);
    if FAR < f {
        return Ordering::Greater;
    }
    if f < -FAR {
        return Ordering::Less;
    }
    near_side(s, f, p.rx, p.ry, p.d).cmp(&0)
}

// How many 2^15th parts of a unit a point is past -32,768, from its x alone.
pub fn key_of(p: Point) -> u32
    requires { Charted p.x p.d }
    ensures { result ≡ key_of p }
{
    let d = p.d;
    let x = shifted(p.x, d);
    (x / d * 32768 + x % d * 32768 / d) as u32
}
