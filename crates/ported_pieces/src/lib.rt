// The pieces of a chart as the sweep asks for them, by number, after the Rust's Segment. They stand in one array, five
// numbers a piece: min's x and y, max's x and y, and the marks of both. Past its end every number is 0.
// End 2i is the min of piece i, end 2i + 1 its max; pair MOST * i + j is that of pieces i and j.
#![tactic(auto)]

ghost use Rattle.std.specs.Prelude.{◌≡◌, ℕ, ◌+◌, ◌*◌, ◌/◌, ◌%◌};
ghost use Rattle.fractions.specs.Point.{point_order};
ghost use Rattle.line_segment.specs.Segment.{intersect_of, contains_of};
ghost use Rattle.sweep.specs.Chart.{at};
ghost use Rattle.sweep.specs.Ported.{is_less, is_equal, rank_order};
ghost use Rattle.ported_arrays.specs.Numbers.{pair_of, end_of, end_before, end_at, crossing_before, crossing_at};
ghost use Rattle.ported_pieces.specs.Table.{number_in, piece_of, piece_in, chart_in, rough_at};

use charts::MOST;
use fractions::Point;
use integers::size;
use line_segment::{EndPoint, LineSegment, Meeting};

// ---- pieces and ends

fn number(table: &[i16], at: usize) -> i16
    ensures { result ≡ number_in table.now at }
{
    if at < table.len() { table[at] } else { 0 }
}

// The piece of five numbers.
fn of_numbers(x: i16, y: i16, x2: i16, y2: i16, kind: i16) -> LineSegment
    ensures { result ≡ piece_of x y x2 y2 kind }
{
    let marks = size(kind as i64);
    let min = EndPoint {
        x,
        y,
        included: marks % 2 == 1,
    };
    let max = EndPoint {
        x: x2,
        y: y2,
        included: marks / 2 % 2 == 1,
    };
    LineSegment { min, max }
}

pub fn piece(table: &[i16], i: u16) -> LineSegment
    ensures { result ≡ piece_in table.now i }
{
    let at = 5 * i as usize;
    if at + 4 < table.len() {
        of_numbers(
            table[at],
            table[at + 1],
            table[at + 2],
            table[at + 3],
            table[at + 4],
        )
    } else {
        of_numbers(
            number(table, at),
            number(table, at + 1),
            number(table, at + 2),
            number(table, at + 3),
            number(table, at + 4),
        )
    }
}

// Where the x of end e stands in the array; its y is next to it.
fn place_of(e: u16) -> usize
    ensures { result ≡ 5 * (e / 2) + 2 * (e % 2) }
{
    5 * (e / 2) as usize + 2 * (e % 2) as usize
}

pub fn end_point(table: &[i16], e: u16) -> Point
    ensures { (n : ℕ) → result ≡ end_of (chart_in n table.now) e }
{
    let at = place_of(e);
    lowest_terms::whole(number(table, at), number(table, at + 1))
}

// End a stands before end b.
// by hand: a pair to compare as one would read both ys, and they are read only where the xs are equal
pub fn end_before(table: &[i16], a: u16, b: u16) -> bool
    ensures { (n : ℕ) → result ≡ end_before (chart_in n table.now) a b }
{
    let i = place_of(a);
    let j = place_of(b);
    let x = number(table, i);
    let u = number(table, j);
    if x < u {
        return true;
    }
    if u < x {
        return false;
    }
    let y = number(table, i + 1);
    let v = number(table, j + 1);
    y < v
}

// ---- points

pub fn less(p: Point, q: Point) -> bool
    ensures { result ≡ is_less (point_order p q) }
{
    comparison::compare_points(p, q).is_lt()
}

pub fn same(p: Point, q: Point) -> bool
    ensures { result ≡ is_equal (point_order p q) }
{
    comparison::compare_points(p, q).is_eq()
}

// End e stands at p.
pub fn end_at(table: &[i16], e: u16, p: Point) -> bool
    ensures { (n : ℕ) → result ≡ end_at (chart_in n table.now) p e }
{
    same(end_point(table, e), p)
}

// ---- crossings

// The pieces of pair c.
fn first_of(c: u16) -> u16
    ensures { result ≡ (pair_of c).0 }
{
    (c as usize / MOST) as u16
}

fn second_of(c: u16) -> u16
    ensures { result ≡ (pair_of c).1 }
{
    (c as usize % MOST) as u16
}

// The crossing of pair c, in lowest terms.
pub fn crossing(table: &[i16], c: u16) -> Point
    ensures { (n : ℕ) → result ≡ at (chart_in n table.now) (pair_of c) }
{
    segment_crossing::crossing(piece(table, first_of(c)), piece(table, second_of(c)))
}

// The same point as Cramer's rule gives it: no divisor is sought, and it compares as the crossing does.
fn rough_crossing(table: &[i16], c: u16) -> Point
    ensures { result ≡ rough_at table.now (pair_of c) }
{
    segment_crossing::cramer(piece(table, first_of(c)), piece(table, second_of(c)))
}

// The crossing of pair a is before that of pair b.
pub fn crossing_before(table: &[i16], a: u16, b: u16) -> bool
    ensures { (n : ℕ) → result ≡ crossing_before (chart_in n table.now) a b }
{
    less(rough_crossing(table, a), rough_crossing(table, b))
}

// The crossing of pair c is at p.
pub fn crossing_at(table: &[i16], c: u16, p: Point) -> bool
    ensures { (n : ℕ) → result ≡ crossing_at (chart_in n table.now) p c }
{
    same(rough_crossing(table, c), p)
}

// The crossing of pair c is before end e.
pub fn crossing_before_end(table: &[i16], c: u16, e: u16) -> bool
    ensures { (n : ℕ) → result ≡ is_less (point_order (at (chart_in n table.now) (pair_of c)) (end_of (chart_in n table.now) e)) }
{
    less(rough_crossing(table, c), end_point(table, e))
}

// The crossing of pieces i and j is beyond p.
pub fn crossing_beyond(table: &[i16], p: Point, i: u8, j: u8) -> bool
    ensures { (n : ℕ) → result ≡ is_less (point_order p (at (chart_in n table.now) (i, j))) }
{
    less(
        p,
        segment_crossing::cramer(piece(table, i as u16), piece(table, j as u16)),
    )
}

// ---- pieces against each other and at a point

// The segment test, piece i asking.
pub fn test(table: &[i16], i: u8, j: u8) -> Meeting
    ensures { result ≡ intersect_of (piece_in table.now i) (piece_in table.now j) }
{
    segment_test::intersect(piece(table, i as u16), piece(table, j as u16))
}

// Piece i has the point p.
pub fn contains(table: &[i16], i: u8, p: Point) -> bool
    ensures { result ≡ contains_of (piece_in table.now i) p }
{
    segment_holds::contains(piece(table, i as u16), p)
}

// Piece i comes before piece j in the active list at p: by height, then slope, then number.
pub fn before(table: &[i16], p: Point, i: u8, j: u8) -> bool
    ensures { result ≡ is_less (rank_order (piece_in table.now) p i j) }
{
    let a = piece(table, i as u16);
    let b = piece(table, j as u16);
    ported_heights::height_order(p, a, b)
        .then_with(|| ported_heights::slope_order(a, b))
        .then(i.cmp(&j))
        .is_lt()
}
