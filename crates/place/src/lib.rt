// The place of a meeting: nothing, at a point, or along from one point to another. No function stands here.
#![tactic(auto)]

use fractions::Point;

// A point in binary64.
#[derive(Clone, Copy)]
pub struct PlacePoint {
    pub x: f64,
    pub y: f64,
}

// Where two pieces meet, exactly.
#[derive(Clone, Copy)]
pub enum Where {
    Nothing,
    At(Point),
    Along(Point, Point),
}

// The same in binary64.
#[derive(Clone, Copy)]
pub enum Place {
    Nothing,
    At(PlacePoint),
    Along(PlacePoint, PlacePoint),
}

// What the pair call answers: the number and the place of a refusal, zero where it is done, and
// the place of the meeting.
#[derive(Clone, Copy)]
pub struct PlaceAnswer {
    pub number: u8,
    pub place: usize,
    pub meeting: Place,
}
