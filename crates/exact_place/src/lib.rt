// Where two pieces meet, exactly: by the segment test and the crossing of their lines.
#![tactic(auto)]

ghost use Rattle.std.specs.Prelude.{◌≡◌};
ghost use Rattle.place.specs.Place.{along_of, where_of};

use line_segment::{LineSegment, Meeting};
use place::Where;
use std::cmp::Ordering;

// The stretch of an overlap, from its min to its max, whatever its marks: one point where they are
// equal.
fn along(s: LineSegment) -> Where
    ensures { result ≡ along_of s }
{
    let min = s.min;
    let max = s.max;
    let from = lowest_terms::whole(min.x, min.y);
    let to = lowest_terms::whole(max.x, max.y);
    match comparison::compare_points(from, to) {
        Ordering::Less => Where::Along(from, to),
        Ordering::Equal => Where::At(from),
        Ordering::Greater => Where::Along(from, to),
    }
}

// Where two pieces meet, by the segment test.
pub fn exact(a: LineSegment, b: LineSegment) -> Where
    ensures { result ≡ where_of a b }
{
    match segment_test::intersect(a, b) {
        Meeting::Nothing => Where::Nothing,
        Meeting::Crossing => Where::At(segment_crossing::crossing(a, b)),
        Meeting::Overlap(s) => along(s),
    }
}
