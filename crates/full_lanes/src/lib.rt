// Beside each place of the active list the key of its crossing with the next, where one lies ahead: what it means, and what
// is promised of the least of them. No function stands here.
// No crossing ahead: above every key.
#![tactic(auto)]

pub const NONE: u32 = 4294967295;
