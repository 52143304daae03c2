// Which of two pieces is the higher at a point's x, and which the steeper, after the Rust's compare_segments. No height
// is worked out: two lines change places where they meet, so the point's x is compared with the x of that place.
#![tactic(auto)]

ghost use Rattle.std.specs.Prelude.{◌≡◌};
ghost use Rattle.sweep.specs.Ported.{height_order, slope_order};
ghost use Rattle.ported_heights.specs.Heights.{line_order, level_at};

use chart_pieces::is_upright;
use comparison::compare_ratios;
use fractions::Point;
use line_segment::{EndPoint, LineSegment};
use segment_crossing::{cramer, rise, run};
use std::cmp::Ordering;

// The less steep first.
pub fn slope_order(a: LineSegment, b: LineSegment) -> Ordering
    ensures { result ≡ slope_order a b }
{
    let s = rise(a) * run(b);
    let t = rise(b) * run(a);
    s.cmp(&t)
}

// A piece that is as high as y at every x.
fn level(y: i16) -> LineSegment
    ensures { result ≡ level_at y }
{
    let min = EndPoint {
        x: 0,
        y,
        included: true,
    };
    let max = EndPoint {
        x: 1,
        y,
        included: true,
    };
    LineSegment { min, max }
}

// The lower line first, at p's x: of two lines, the less steep is the lower beyond the place where they meet.
fn line_order(p: Point, a: LineSegment, b: LineSegment) -> Ordering
    ensures { result ≡ line_order p a b }
{
    let c = cramer(a, b);
    let ahead = compare_ratios(c.x, c.d, p.x, p.d);
    match slope_order(a, b) {
        Ordering::Less | Ordering::Equal => ahead,
        Ordering::Greater => ahead.reverse(),
    }
}

// The lower piece first, at p's x. An upright piece has the height of its min; over 0 all sloped ones are equally high.
pub fn height_order(p: Point, a: LineSegment, b: LineSegment) -> Ordering
    ensures { result ≡ height_order p a b }
{
    let s = a.min;
    let t = b.min;
    if is_upright(a) {
        if is_upright(b) {
            compare_ratios(s.y as i64, 1, t.y as i64, 1)
        } else {
            line_order(p, level(s.y), b)
        }
    } else if is_upright(b) {
        line_order(p, a, level(t.y))
    } else if p.d == 0 {
        Ordering::Equal
    } else {
        line_order(p, a, b)
    }
}
