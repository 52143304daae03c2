// How two pieces meet, after the Rust's line_segment.rs: its names, and its cases in its order. Coordinates are i16, so
// every function takes every value of its types.
#![tactic(auto)]

ghost use Rattle.std.specs.Prelude.{◌≡◌};
ghost use Rattle.line_segment.specs.Piece.{point_of, end_order, join_of, piece_of};
ghost use Rattle.line_segment.specs.Geometry.{admits};
ghost use Rattle.line_segment.specs.Segment.{exclusive_of, leftmost_of, rightmost_of, inner_between};
ghost use Rattle.line_segment.specs.Segment.{stretch_of, touch_of, turn_to, opposed, astride_of, intersect_of};

use line_segment::{EndPoint, LineSegment, Meeting};
use orientation::Orientation;
use std::cmp::Ordering;

// Which of two ends comes first, by x, then y.
// by hand: to compare the two as pairs of numbers takes half as much again
fn end_order(a: EndPoint, b: EndPoint) -> Ordering
    ensures { result ≡ end_order a b }
{
    if a.x < b.x {
        Ordering::Less
    } else if b.x < a.x {
        Ordering::Greater
    } else {
        a.y.cmp(&b.y)
    }
}

// The piece between two ends, each with its mark.
pub fn join(a: EndPoint, b: EndPoint) -> LineSegment
    ensures { result ≡ join_of a b }
{
    match end_order(a, b) {
        Ordering::Less => LineSegment { min: a, max: b },
        Ordering::Equal | Ordering::Greater => LineSegment { min: b, max: a },
    }
}

// The piece of the five numbers of a chart.
pub fn piece(kind: u8, x1: i16, y1: i16, x2: i16, y2: i16) -> LineSegment
    ensures { result ≡ piece_of kind x1 y1 x2 y2 }
{
    let a = EndPoint {
        x: x1,
        y: y1,
        included: kind % 2 == 1,
    };
    let b = EndPoint {
        x: x2,
        y: y2,
        included: kind / 2 % 2 == 1,
    };
    join(a, b)
}

// Of two ends at one point, the excluded one.
fn exclusive(a: EndPoint, b: EndPoint) -> EndPoint
    ensures { result ≡ exclusive_of a b }
{
    if a.included { b } else { a }
}

// The lesser of two ends.
pub fn leftmost(a: EndPoint, b: EndPoint) -> EndPoint
    ensures { result ≡ leftmost_of a b }
{
    match end_order(a, b) {
        Ordering::Less => a,
        Ordering::Equal => exclusive(a, b),
        Ordering::Greater => b,
    }
}

// The greater of two ends.
pub fn rightmost(a: EndPoint, b: EndPoint) -> EndPoint
    ensures { result ≡ rightmost_of a b }
{
    match end_order(a, b) {
        Ordering::Less => b,
        Ordering::Equal => exclusive(a, b),
        Ordering::Greater => a,
    }
}

// Whether an end lets a point stand in this order to it: at the end itself, only where it is included.
pub fn allows(o: Ordering, included: bool) -> bool
    ensures { result ≡ admits o included }
{
    if included { o.is_le() } else { o.is_lt() }
}

// Whether the point of p lies between two ends; its own mark does not count.
pub fn inner_between(p: EndPoint, a: EndPoint, b: EndPoint) -> bool
    ensures { result ≡ inner_between (point_of p) a b }
{
    let s = join(a, b);
    let left = s.min;
    let right = s.max;
    allows(end_order(left, p), left.included) && allows(end_order(p, right), right.included)
}

// Two pieces of one line: the stretch from the rightmost min to the leftmost max.
// a match: both marks are read only where the two ends are one point
fn stretch(a: LineSegment, b: LineSegment) -> Meeting
    ensures { result ≡ stretch_of a b }
{
    let left = rightmost(a.min, b.min);
    let right = leftmost(a.max, b.max);
    let s = LineSegment {
        min: left,
        max: right,
    };
    match end_order(left, right) {
        Ordering::Less => Meeting::Overlap(s),
        Ordering::Equal => {
            if right.included && left.included {
                Meeting::Overlap(s)
            } else {
                Meeting::Nothing
            }
        }
        Ordering::Greater => Meeting::Nothing,
    }
}

// An end of one piece on the line of another, s, which it meets there or nowhere.
fn touch(e: EndPoint, s: LineSegment) -> Meeting
    ensures { result ≡ touch_of e s }
{
    if e.included && inner_between(e, s.min, s.max) {
        Meeting::Crossing
    } else {
        Meeting::Nothing
    }
}

// How an end lies to the line of a piece.
fn turn_to(s: LineSegment, e: EndPoint) -> Orientation
    ensures { result ≡ turn_to s e }
{
    let from = s.min;
    let to = s.max;
    orientation::orient(from.x, from.y, to.x, to.y, e.x, e.y)
}

// Whether two ends lie on opposite sides.
fn opposite(o: Orientation, p: Orientation) -> bool
    ensures { result ≡ opposed o p }
{
    o == p.reverse()
}

// No end of b on the line of a; `astride` says whether its ends lie on opposite sides of it.
fn cross(astride: bool, a: LineSegment, b: LineSegment) -> Meeting
    ensures { result ≡ astride_of astride a b }
{
    let from = turn_to(b, a.min);
    let to = turn_to(b, a.max);
    if from.is_colinear() {
        touch(a.min, b)
    } else if to.is_colinear() {
        touch(a.max, b)
    } else if astride && opposite(from, to) {
        Meeting::Crossing
    } else {
        Meeting::Nothing
    }
}

// Where two pieces meet.
pub fn intersect(a: LineSegment, b: LineSegment) -> Meeting
    ensures { result ≡ intersect_of a b }
{
    let from = turn_to(a, b.min);
    let to = turn_to(a, b.max);
    if from.is_colinear() {
        if to.is_colinear() {
            stretch(a, b)
        } else {
            touch(b.min, a)
        }
    } else if to.is_colinear() {
        touch(b.max, a)
    } else {
        cross(opposite(from, to), a, b)
    }
}
