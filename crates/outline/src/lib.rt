// A region's outline given as a list of numbers, two a corner: x, y. Here outlines are judged and their sides made.
#![tactic(auto)]

ghost use Rattle.std.specs.Prelude.{◌≡◌, ◌<◌};
ghost use Rattle.charts.specs.Piece.{coordinate_of};
ghost use Rattle.charts.specs.Refusal.{told};
ghost use Rattle.outline.specs.Counting.{first};
ghost use Rattle.outline.specs.Outline.{number_at, next_of, off_at, same_at, off_peak, side_of, verdict_of};

use charts::{Reason, Refusal};
use line_segment::LineSegment;

// An outline has at least and at most so many corners.
pub const FEWEST: usize = 3;

pub const MOST: usize = 64;

// A peak's x stops here, so that the point to the right of it is on the chart too.
pub const LAST: i32 = 32766;

// Number k of corner i, 0 past the end.
fn number_at(outline: &[i32], i: usize, k: usize) -> i32
    requires { k < 2 }
    ensures { result ≡ number_at outline.now i k }
{
    if outline.len() <= i {
        return 0;
    }
    let at = 2 * i + k;
    if outline.len() <= at {
        return 0;
    }
    outline[at]
}

// The corner after corner i of n: the first follows the last.
fn next_of(n: usize, i: usize) -> usize
    ensures { result ≡ next_of n i }
{
    if n <= i {
        return 0;
    }
    let j = i + 1;
    if j < n { j } else { 0 }
}

fn is_off(outline: &[i32], i: usize) -> bool
    ensures { result ≡ off_at outline.now i }
{
    piece_fault::is_off_range(number_at(outline, i, 0), number_at(outline, i, 1))
}

fn is_repeated(outline: &[i32], n: usize, i: usize) -> bool
    ensures { result ≡ same_at outline.now n i }
{
    let j = next_of(n, i);
    piece_fault::has_same_ends(
        number_at(outline, i, 0),
        number_at(outline, i, 1),
        number_at(outline, j, 0),
        number_at(outline, j, 1),
    )
}

fn coordinate_at(outline: &[i32], i: usize, k: usize) -> i16
    requires { k < 2 }
    ensures { result ≡ coordinate_of (number_at outline.now i k) }
{
    chart_pieces::coordinate(number_at(outline, i, k))
}

// The side from corner i of n to the next, both ends included.
pub fn side_of(outline: &[i32], n: usize, i: usize) -> LineSegment
    ensures { result ≡ side_of outline.now n i }
{
    let j = next_of(n, i);
    let x1 = coordinate_at(outline, i, 0);
    let y1 = coordinate_at(outline, i, 1);
    let x2 = coordinate_at(outline, j, 0);
    let y2 = coordinate_at(outline, j, 1);
    segment_test::piece(3, x1, y1, x2, y2)
}

// The first corner of n that is out of range, n where there is none.
fn first_off(outline: &[i32], n: usize) -> usize
    ensures { result ≡ first (off_at outline.now) n }
{
    (0..n).find(|i| is_off(outline, *i)).unwrap_or(n)
}

// The first corner of n that is equal to its next, n where there is none.
fn first_repeated(outline: &[i32], n: usize) -> usize
    ensures { result ≡ first (same_at outline.now n) n }
{
    (0..n).find(|i| is_repeated(outline, n, *i)).unwrap_or(n)
}

fn is_off_peak(x: i32, y: i32) -> bool
    ensures { result ≡ off_peak x y }
{
    piece_fault::is_off_range(x, y) || LAST < x
}

// 15, then the first corner out of range, then the first that is equal to its next, then the peak.
pub fn verdict_of(outline: &[i32], x: i32, y: i32) -> Result<usize, Refusal>
    ensures { told result ≡ verdict_of outline.now x y }
{
    let n = outline.len() / 2;
    if outline.len() % 2 != 0 {
        return Err(Reason::Outline.at(0));
    }
    if n < FEWEST {
        return Err(Reason::Outline.at(0));
    }
    if MOST < n {
        return Err(Reason::Outline.at(0));
    }
    let off = first_off(outline, n);
    if off < n {
        return Err(Reason::Coordinate.at(off));
    }
    let repeated = first_repeated(outline, n);
    if repeated < n {
        return Err(Reason::NoLength.at(repeated));
    }
    if is_off_peak(x, y) {
        return Err(Reason::Coordinate.at(0));
    }
    Ok(n)
}
