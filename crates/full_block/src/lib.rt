// Which of the active pieces lie below a point, and which go through it. Along the list come those below, then those
// through, then those above: so the first are told apart by bisection, and the second stand beside each other.
#![tactic(auto)]

ghost use Rattle.std.specs.Prelude.{◌≡◌, ℕ, ◌≤◌, length};
ghost use Rattle.fractions.specs.declared.Point.{Point};
ghost use Rattle.full_points.specs.Spot.{Fair, Marks};
ghost use Rattle.full_active.specs.Parts.{below_in, through_in, starts_in, finishes_in, Edge, Down, Up};

use full_points::{Spot, aside, is_at};
use ported_pieces::piece;

fn is_below(table: &[i16], i: u8, p: Spot) -> bool
    requires { Fair p }
    ensures { (q : Point) → Marks p q → result ≡ below_in table.now q i }
{
    aside(piece(table, i as u16), p).is_gt()
}

fn is_through(table: &[i16], i: u8, p: Spot) -> bool
    requires { Fair p }
    ensures { (q : Point) → Marks p q → result ≡ through_in table.now q i }
{
    aside(piece(table, i as u16), p).is_eq()
}

pub fn starts(table: &[i16], i: u8, p: Spot) -> bool
    requires { Fair p }
    ensures { (q : Point) → Marks p q → result ≡ starts_in table.now q i }
{
    let s = piece(table, i as u16);
    let e = s.min;
    is_at(e.x, e.y, p)
}

pub fn finishes(table: &[i16], i: u8, p: Spot) -> bool
    requires { Fair p }
    ensures { (q : Point) → Marks p q → result ≡ finishes_in table.now q i }
{
    let s = piece(table, i as u16);
    let e = s.max;
    is_at(e.x, e.y, p)
}

// A place up to which the pieces lie below p, by bisection.
pub fn search(table: &[i16], active: &[u8], live: usize, p: Spot) -> usize
    requires { Fair p × (live ≤ length active.now) }
    ensures { (q : Point) → Marks p q → Edge (below_in table.now q) active.now live result }
{
    // by hand: the library's partition_point promises nothing of a list not known to come in two parts
    let mut lo = 0;
    let mut hi = live;
    while lo < hi {
        let mid = lo + (hi - lo) / 2;
        if is_below(table, active[mid], p) {
            lo = mid + 1;
        } else {
            hi = mid;
        }
    }
    lo
}

// The place where the pieces through p begin that stand in front of `from`.
pub fn widen_down(table: &[i16], active: &[u8], p: Spot, from: usize) -> usize
    requires { Fair p × (from ≤ length active.now) }
    ensures { (q : Point) → Marks p q → Down (through_in table.now q) active.now from result }
{
    let in_front = active[..from].iter().rev();
    from - in_front.take_while(|i| is_through(table, **i, p)).count()
}

// The place where those end that stand from `from` on.
pub fn widen_up(table: &[i16], active: &[u8], live: usize, p: Spot, from: usize) -> usize
    requires { Fair p × (live ≤ length active.now) × (from ≤ live) }
    ensures { (q : Point) → Marks p q → Up (through_in table.now q) active.now live from result }
{
    let behind = active[from..live].iter();
    from + behind.take_while(|i| is_through(table, **i, p)).count()
}
