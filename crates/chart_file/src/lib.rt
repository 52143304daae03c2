// The chart file: a number found at a place of it, and the sizes of its list and of the file. No function stands here.
#![tactic(auto)]

use charts::MOST;

// The numbers of the largest chart: a caller lends as many.
pub const NUMBERS: usize = 5 * MOST;

// A number in at most so many groups of seven bits.
pub const GROUPS: usize = 3;

// The longest file: the count in two groups, and of each piece the kind and four coordinates.
pub const LONGEST: usize = 2 + (1 + 4 * GROUPS) * MOST;

// A number that stands at a place, and the place after it.
#[derive(Clone, Copy)]
pub struct Found<T> {
    pub value: T,
    pub next: usize,
}
