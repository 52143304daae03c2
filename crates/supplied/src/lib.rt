// A supplier's list of pairs held to a chart: what is said of it. No function stands here.
#![tactic(auto)]

// What is said of a supplier's list.
#[derive(Clone, Copy)]
pub enum Checked {
    Accepted,
    // the first entry at fault, counted from 0, and the number of its fault
    Fault(usize, usize),
    // the first pair that meets and is not named, greater number first
    Missing(usize, usize),
    // the number and the place of the refusal
    Refused(u8, usize),
}

// What is wrong with an entry: the first of these that holds, numbered from 1.
#[derive(Clone, Copy)]
pub enum EntryFault {
    // one of its numbers is not a piece's
    NoPiece,
    // its two numbers are equal
    Itself,
    // its pair does not meet
    Apart,
    // an earlier entry names its pair
    Repeated,
}
