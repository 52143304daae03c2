// Fractions and points of the chart, and their exact order. What these mean and their laws stand here; the code is in
// whole_parts, comparison and lowest_terms.
#![tactic(auto)]

// A fraction by sign and size: `over` above the line, below 0 where `negative`, and `under` below it.
#[derive(Clone, Copy)]
pub struct Fraction {
    pub negative: bool,
    pub over: u64,
    pub under: u64,
}

// The point x/d, y/d.
#[derive(Clone, Copy)]
pub struct Point {
    pub x: i64,
    pub y: i64,
    pub d: u64,
}
