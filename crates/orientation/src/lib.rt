// Which way three points turn: the sign of a determinant that i64 holds for every i16.
#![tactic(auto)]

ghost use Rattle.std.specs.Prelude.{◌≡◌, ◌-ℤ◌};
ghost use Rattle.orientation.specs.Turn.{det, turn_of, reversed, is_left, is_right, is_straight};

use std::cmp::Ordering;

// The turn on the way from the first point over the second to the third.
#[derive(Clone, Copy, PartialEq, Eq)]
pub enum Orientation {
    CounterClockWise,
    ClockWise,
    CoLinear,
}

// How far it is from one coordinate to another, below 0 where it is backwards.
pub fn span(from: i16, to: i16) -> i64
    ensures { result ≡ to -ℤ from }
{
    i64::from(to) - i64::from(from)
}

pub fn determinant(x1: i16, y1: i16, x2: i16, y2: i16, x3: i16, y3: i16) -> i64
    ensures { result ≡ det x1 y1 x2 y2 x3 y3 }
{
    span(x1, x2) * span(y1, y3) - span(y1, y2) * span(x1, x3)
}

pub fn orient(x1: i16, y1: i16, x2: i16, y2: i16, x3: i16, y3: i16) -> Orientation
    ensures { result ≡ turn_of (det x1 y1 x2 y2 x3 y3) }
{
    match determinant(x1, y1, x2, y2, x3, y3).cmp(&0) {
        Ordering::Less => Orientation::ClockWise,
        Ordering::Equal => Orientation::CoLinear,
        Ordering::Greater => Orientation::CounterClockWise,
    }
}

impl Orientation {
    pub fn reverse(self) -> Orientation
        ensures { result ≡ reversed self }
    {
        match self {
            Orientation::CounterClockWise => Orientation::ClockWise,
            Orientation::ClockWise => Orientation::CounterClockWise,
            Orientation::CoLinear => Orientation::CoLinear,
        }
    }

    pub fn is_ccw(self) -> bool
        ensures { result ≡ is_left self }
    {
        self == Orientation::CounterClockWise
    }

    pub fn is_cw(self) -> bool
        ensures { result ≡ is_right self }
    {
        self == Orientation::ClockWise
    }

    pub fn is_colinear(self) -> bool
        ensures { result ≡ is_straight self }
    {
        self == Orientation::CoLinear
    }
}
