// Where a peak lies to a region: what it means, and what is promised of it. No function stands here.
// Where a peak lies to a region.
#![tactic(auto)]

#[derive(Clone, Copy)]
pub enum Region {
    On,
    Inside,
    Outside,
}
