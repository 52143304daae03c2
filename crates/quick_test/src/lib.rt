// Whether two pieces meet, most often by the sides on which their ends lie, and by the test of two pieces where those do
// not tell.
#![tactic(auto)]

ghost use Rattle.std.specs.Prelude.{◌≡◌};
ghost use Rattle.line_segment.specs.Piece.{point_of, HasLength};
ghost use Rattle.line_segment.specs.Geometry.{side};
ghost use Rattle.line_segment.specs.Segment.{intersect_of};
ghost use Rattle.line_segment.specs.Demand.{says_yes};
ghost use Rattle.naive.specs.Sides.{one_side, two_sides, beside_of, across_of};

use line_segment::{EndPoint, LineSegment, Meeting};

// Above 0 where an end lies to the left of a piece's line, below 0 to the right.
fn side_of(s: LineSegment, e: EndPoint) -> i64
    ensures { result ≡ side s (point_of e) }
{
    let from = s.min;
    let to = s.max;
    orientation::determinant(from.x, from.y, to.x, to.y, e.x, e.y)
}

fn on_one_side(d: i64, e: i64) -> bool
    ensures { result ≡ one_side d e }
{
    if d > 0 {
        return e > 0;
    }
    d < 0 && e < 0
}

fn on_two_sides(d: i64, e: i64) -> bool
    ensures { result ≡ two_sides d e }
{
    if d > 0 {
        return e < 0;
    }
    d < 0 && e > 0
}

// Whether b lies to one side of the line of a: then the two do not meet.
fn is_beside(a: LineSegment, b: LineSegment) -> bool
    ensures { result ≡ beside_of a b }
{
    on_one_side(side_of(a, b.min), side_of(a, b.max))
}

// Whether b lies across the line of a: two pieces that do so to each other meet.
fn is_across(a: LineSegment, b: LineSegment) -> bool
    ensures { result ≡ across_of a b }
{
    on_two_sides(side_of(a, b.min), side_of(a, b.max))
}

// Whether a, asking, meets b.
pub fn meets(a: LineSegment, b: LineSegment) -> bool
    requires { HasLength a × HasLength b }
    ensures { result ≡ says_yes (intersect_of a b) }
{
    if is_beside(a, b) {
        return false;
    }
    if is_across(a, b) && is_across(b, a) {
        return true;
    }
    match segment_test::intersect(a, b) {
        Meeting::Nothing => false,
        Meeting::Crossing => true,
        Meeting::Overlap(_) => true,
    }
}
