// The first fault of a piece, by its five numbers: kind, x1, y1, x2, y2. Every function takes every number.
#![tactic(auto)]

ghost use Rattle.std.specs.Prelude.{◌≡◌};
ghost use Rattle.charts.specs.Fault.{outside, off_range, same_ends, fault_of};
ghost use Rattle.charts.specs.Refusal.{fault_number};

use charts::{RANGE, Reason};

pub fn is_outside(low: i32, high: i32, v: i32) -> bool
    ensures { result ≡ outside low high v }
{
    !(low..=high).contains(&v)
}

// Whether an end has a coordinate out of range.
pub fn is_off_range(x: i32, y: i32) -> bool
    ensures { result ≡ off_range x y }
{
    is_outside(-RANGE, RANGE, x) || is_outside(-RANGE, RANGE, y)
}

pub fn has_same_ends(x1: i32, y1: i32, x2: i32, y2: i32) -> bool
    ensures { result ≡ same_ends x1 y1 x2 y2 }
{
    x1 == x2 && y1 == y2
}

// The refusal that these five numbers of a piece meet.
pub fn fault_of(kind: i32, x1: i32, y1: i32, x2: i32, y2: i32) -> Option<Reason>
    ensures { fault_number result ≡ fault_of kind x1 y1 x2 y2 }
{
    if is_outside(0, 3, kind) {
        return Some(Reason::Kind);
    }
    if is_off_range(x1, y1) || is_off_range(x2, y2) {
        return Some(Reason::Coordinate);
    }
    if has_same_ends(x1, y1, x2, y2) {
        return Some(Reason::NoLength);
    }
    None
}
