// What a piece of a chart is and how two can meet, after the Rust's line_segment.rs. What these mean and the laws of the
// test stand here; the code is in segment_test, segment_crossing and segment_holds.
#![tactic(auto)]

// An end of a piece: its point, and whether the piece has that point.
#[derive(Clone, Copy)]
pub struct EndPoint {
    pub x: i16,
    pub y: i16,
    pub included: bool,
}

// A piece, from its lesser end to its greater.
#[derive(Clone, Copy)]
pub struct LineSegment {
    pub min: EndPoint,
    pub max: EndPoint,
}

// What two pieces have in common: nothing, one point of lines that cross, or a stretch of one line.
#[derive(Clone, Copy)]
pub enum Meeting {
    Nothing,
    Crossing,
    Overlap(LineSegment),
}
