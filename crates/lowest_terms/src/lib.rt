// Points of the chart in lowest terms. Every public function takes every value of its types.
#![tactic(auto)]

ghost use Rattle.std.specs.Prelude.{◌≡◌, ◌<◌, pos};
ghost use Rattle.std.specs.Int.Signed.{quot_z};
ghost use Rattle.fractions.specs.Divisor.{gcd_of};
ghost use Rattle.fractions.specs.Point.{lowest_of, whole_of};

use fractions::Point;
use integers::size;

// The greatest common divisor: b falls at every call.
pub fn gcd(a: u64, b: u64) -> u64
    ensures { result ≡ gcd_of a b }
{
    if b == 0 {
        return a;
    }
    gcd(b, a % b)
}

// The g-th part of x, its sign kept. By size and sign: g may be beyond what an i64 holds, so x itself is not divided by it.
fn part(x: i64, g: u64) -> i64
    requires { 1 < g }
    ensures { result ≡ quot_z x (pos g) }
{
    let n = (size(x) / g) as i64;
    if x < 0 { -n } else { n }
}

// The point x/d, y/d in lowest terms; 0, 0, 0 as it stands.
pub fn lowest(x: i64, y: i64, d: u64) -> Point
    ensures { result ≡ lowest_of x y d }
{
    let g = gcd(gcd(size(x), size(y)), d);
    if g < 2 {
        return Point { x, y, d };
    }
    Point {
        x: part(x, g),
        y: part(y, g),
        d: d / g,
    }
}

// A point of whole coordinates.
pub fn whole(x: i16, y: i16) -> Point
    ensures { result ≡ whole_of x y }
{
    Point {
        x: x as i64,
        y: y as i64,
        d: 1,
    }
}
