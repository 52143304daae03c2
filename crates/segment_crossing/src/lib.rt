// Where the lines of two pieces cross, by Cramer's rule. Coordinates are i16, so every public function takes every value
// of its types.
#![tactic(auto)]

ghost use Rattle.std.specs.Prelude.{◌≡◌, ◌^◌, ◌-ℤ◌, ◌*ℤ◌};
ghost use Rattle.integers.specs.Size.{Small};
ghost use Rattle.line_segment.specs.Geometry.{run as run_of, rise as rise_of};
ghost use Rattle.line_segment.specs.Segment.{moment as moment_of, over as over_of, cramer_of, crossing_of};

use fractions::Point;
use line_segment::LineSegment;
use orientation::span;

// From end to end along x.
pub fn run(s: LineSegment) -> i64
    ensures { (result ≡ run_of s) × Small (2 ^ 16) result }
{
    span(s.min.x, s.max.x)
}

// From end to end along y.
pub fn rise(s: LineSegment) -> i64
    ensures { (result ≡ rise_of s) × Small (2 ^ 16) result }
{
    span(s.min.y, s.max.y)
}

// The line of a piece is rise * x - run * y = moment.
fn moment(s: LineSegment) -> i64
    ensures { (result ≡ moment_of s) × Small (2 ^ 31) result }
{
    let from = s.min;
    let to = s.max;
    from.x as i64 * to.y as i64 - to.x as i64 * from.y as i64
}

// X, Y over D, turned so that D is not below 0.
fn over(x: i64, y: i64, d: i64) -> Point
    requires small { Small (2 ^ 48) x }
    requires small_2 { Small (2 ^ 48) y }
    ensures { result ≡ over_of x y d }
{
    if d < 0 {
        Point {
            x: -x,
            y: -y,
            d: integers::size(d),
        }
    } else {
        Point {
            x,
            y,
            d: integers::size(d),
        }
    }
}

// The determinant of p over q beside u over v, of which u and v may be moments.
fn minor(p: i64, q: i64, u: i64, v: i64) -> i64
    requires small { Small (2 ^ 16) p }
    requires small_2 { Small (2 ^ 16) q }
    requires small_3 { Small (2 ^ 31) u }
    requires small_4 { Small (2 ^ 31) v }
    ensures { (result ≡ p *ℤ v -ℤ q *ℤ u) × Small (2 ^ 48) result }
{
    p * v - q * u
}

// Cramer's point of the lines of two pieces: X, Y over D, not in lowest terms.
pub fn cramer(a: LineSegment, b: LineSegment) -> Point
    ensures { result ≡ cramer_of a b }
{
    let run_a = run(a);
    let run_b = run(b);
    let rise_a = rise(a);
    let rise_b = rise(b);
    let moment_a = moment(a);
    let moment_b = moment(b);
    let x = minor(run_a, run_b, moment_a, moment_b);
    let y = minor(rise_a, rise_b, moment_a, moment_b);
    over(x, y, minor(run_a, rise_a, run_b, rise_b))
}

// The crossing of two pieces: Cramer's point in lowest terms.
pub fn crossing(a: LineSegment, b: LineSegment) -> Point
    ensures { result ≡ crossing_of a b }
{
    let p = cramer(a, b);
    lowest_terms::lowest(p.x, p.y, p.d)
}
