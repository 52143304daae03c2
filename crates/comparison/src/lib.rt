// Fractions and points of the chart, compared exactly. Every function takes every value of its types.
#![tactic(auto)]

ghost use Rattle.std.specs.Prelude.{◌≡◌, pos, ◌*ℤ◌};
ghost use Rattle.std.specs.Int.Signed.{lt_z};
ghost use Rattle.fractions.specs.Order.{order};
ghost use Rattle.fractions.specs.Fraction.{above, ratio_order, fraction_order};
ghost use Rattle.fractions.specs.Point.{point_order};

use fractions::{Fraction, Point};
use integers::size;
use std::cmp::Ordering;

// The exact order of two fractions, as cross-multiplication has it; over 0 it is the sign of one product, the other
// being 0.
pub fn compare(a: Fraction, b: Fraction) -> Ordering
    ensures { result ≡ fraction_order a b }
{
    if a.under == 0 {
        return sign_times(a, b.under);
    }
    if b.under == 0 {
        return sign_times(b, a.under).reverse();
    }
    match (is_below(a), is_below(b)) {
        (true, true) => whole_parts::compare_below(a.over, a.under, b.over, b.under),
        (true, false) => Ordering::Less,
        (false, true) => Ordering::Greater,
        (false, false) => whole_parts::compare_above(a.over, a.under, b.over, b.under),
    }
}

// x over d against y over e.
pub fn compare_ratios(x: i64, d: u64, y: i64, e: u64) -> Ordering
    ensures { result ≡ ratio_order x d y e }
{
    compare(ratio(x, d), ratio(y, e))
}

// The order of two points: by x, then by y.
pub fn compare_points(p: Point, q: Point) -> Ordering
    ensures { result ≡ point_order p q }
{
    compare_ratios(p.x, p.d, q.x, q.d).then_with(|| compare_ratios(p.y, p.d, q.y, q.d))
}

// x over d, by sign and size.
fn ratio(x: i64, d: u64) -> Fraction
    ensures { (above result ≡ x) × (result.under ≡ d) }
{
    Fraction {
        negative: x < 0,
        over: size(x),
        under: d,
    }
}

// Whether a fraction is below 0; the number under its line does not count.
fn is_below(f: Fraction) -> bool
    ensures { result ≡ lt_z (above f) (pos 0) }
{
    f.negative && 0 < f.over
}

// The order of f's number above the line, n times, and 0.
fn sign_times(f: Fraction, n: u64) -> Ordering
    ensures { result ≡ order (above f *ℤ pos n) (pos 0) }
{
    if n == 0 {
        return Ordering::Equal;
    }
    if f.negative {
        0.cmp(&f.over)
    } else {
        f.over.cmp(&0)
    }
}
