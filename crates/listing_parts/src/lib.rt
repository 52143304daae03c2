// A listing in parts: what stands in each, and that they are the listing. No function stands here.
// The bytes of a part's pairs.
#![tactic(auto)]

pub const BYTES: usize = 160;
