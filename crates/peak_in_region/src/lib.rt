// Whether a peak is inside a region: on a side, or else by how many sides the half-line to the right of it meets.
#![tactic(auto)]

ghost use Rattle.std.specs.Prelude.{◌≡◌, ltb, pos, ◌<ℤ◌};
ghost use Rattle.outline.specs.Counting.{first, count};
ghost use Rattle.region.specs.Region.{right_of, counted, on_side, met_side, parity, region_of, region_answer_of, region_told};

use charts::Refusal;
use half_line::Corner;
use lowest_terms::whole;
use orientation::Orientation;
use region::Region;

// The point that the half-line goes through.
fn right_of(p: Corner) -> Corner
    requires { p.x <ℤ pos 32767 }
    ensures { result ≡ right_of p }
{
    Corner { x: p.x + 1, y: p.y }
}

// Whether a meeting counts: no end on the line, or one and the other to the left of it.
fn counts(m: Option<Orientation>) -> bool
    ensures { result ≡ counted m }
{
    match m {
        None => false,
        Some(o) => o.is_colinear() || o.is_ccw(),
    }
}

// Whether one of the n sides has the peak.
fn is_on(outline: &[i32], n: usize, p: Corner) -> bool
    ensures { result ≡ ltb (first (on_side outline.now n p) n) n }
{
    let peak = whole(p.x, p.y);
    (0..n).any(|i| segment_holds::contains(outline::side_of(outline, n, i), peak))
}

// How many of the n sides the half-line meets so that they count.
fn met(outline: &[i32], n: usize, p: Corner) -> usize
    requires { p.x <ℤ pos 32767 }
    ensures { result ≡ count (met_side outline.now n p) n }
{
    let right = right_of(p);
    (0..n)
        .filter(|i| counts(half_line::intersect(p, right, outline::side_of(outline, n, *i))))
        .count()
}

fn region_at(outline: &[i32], n: usize, p: Corner) -> Region
    requires { p.x <ℤ pos 32767 }
    ensures { result ≡ region_of outline.now n p }
{
    if is_on(outline, n, p) {
        return Region::On;
    }
    if met(outline, n, p) % 2 == 1 {
        return Region::Inside;
    }
    Region::Outside
}

// Where the peak x, y lies to the region of an outline, two numbers a corner.
pub fn locate(outline: &[i32], x: i32, y: i32) -> Result<Region, Refusal>
    ensures { region_told result ≡ region_answer_of outline.now x y }
{
    let n = outline::verdict_of(outline, x, y)?;
    Ok(region_at(outline, n, half_line::corner_at(x, y)))
}
