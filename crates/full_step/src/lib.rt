// No code: a step of the new mode at a point, over the arrays, and what it keeps between them and the state. Its new pairs are
// listed, its block is renewed in place, and the two outer pairs of the block are examined.
#![tactic(auto)]

// How many pieces are active now, and where the list ends.
#[derive(Clone, Copy)]
pub struct At {
    pub live: usize,
    pub end: usize,
}
