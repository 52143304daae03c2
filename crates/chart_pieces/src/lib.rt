// The pieces of a chart that is given as a list of numbers, five a piece, and whether one is upright. Every public function
// that has no `requires` takes every list.
#![tactic(auto)]

ghost use Rattle.std.specs.Prelude.{◌≡◌, ◌<◌};
ghost use Rattle.charts.specs.Chart.{number_at};
ghost use Rattle.charts.specs.Piece.{kind_of, coordinate_of, piece_at, is_upright, no_upright};

use charts::RANGE;
use line_segment::LineSegment;
use piece_fault::is_outside;

// Number k of piece i, 0 past the end.
pub fn number_at(list: &[i32], i: usize, k: usize) -> i32
    requires { k < 5 }
    ensures { result ≡ number_at list.now i k }
{
    if list.len() <= i {
        return 0;
    }
    let at = 5 * i + k;
    if list.len() <= at {
        return 0;
    }
    list[at]
}

fn kind_at(list: &[i32], i: usize) -> u8
    ensures { result ≡ kind_of (number_at list.now i 0) }
{
    let v = number_at(list, i, 0);
    if is_outside(0, 3, v) {
        return 0;
    }
    v as u8
}

// A number as a coordinate, 0 where it is out of range.
pub fn coordinate(v: i32) -> i16
    ensures { result ≡ coordinate_of v }
{
    if is_outside(-RANGE, RANGE, v) {
        return 0;
    }
    v as i16
}

fn coordinate_at(list: &[i32], i: usize, k: usize) -> i16
    requires { k < 5 }
    ensures { result ≡ coordinate_of (number_at list.now i k) }
{
    coordinate(number_at(list, i, k))
}

// Piece i of a list. A number that is missing or out of range counts as 0; an accepted list has none.
pub fn piece_at(list: &[i32], i: usize) -> LineSegment
    ensures { result ≡ piece_at list.now i }
{
    let kind = kind_at(list, i);
    let x1 = coordinate_at(list, i, 1);
    let y1 = coordinate_at(list, i, 2);
    let x2 = coordinate_at(list, i, 3);
    let y2 = coordinate_at(list, i, 4);
    segment_test::piece(kind, x1, y1, x2, y2)
}

// Whether both ends have one x.
pub fn is_upright(s: LineSegment) -> bool
    ensures { result ≡ is_upright s }
{
    let a = s.min;
    let b = s.max;
    a.x == b.x
}

// Whether no piece below n is upright.
pub fn no_upright(list: &[i32], n: usize) -> bool
    ensures { result ≡ no_upright list.now n }
{
    (0..n).all(|i| !is_upright(piece_at(list, i)))
}
