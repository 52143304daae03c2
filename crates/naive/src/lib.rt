// All pairs of a chart that meet, after the Rust's naive.rs. What the list is and its laws stand here; the code is in
// quick_test and all_pairs.
#![tactic(auto)]

use charts::MOST;
use line_segment::LineSegment;

// The pieces of a chart, each read from the list once.
#[derive(Clone, Copy)]
pub struct Pieces {
    pub all: [LineSegment; MOST],
}
