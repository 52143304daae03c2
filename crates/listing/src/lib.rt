// The listing of a chart file: which lines it has, and what is promised of it. No function stands here.
// The longest chart file and one byte more: so much of an input decides its listing.
#![tactic(auto)]

pub const DECIDING: usize = chart_file::LONGEST + 1;
