// A chart that stays open: 200 places in lent memory, five numbers each. Whatever stands in the memory, a place whose five
// numbers are a piece is used, and any other is free.
#![tactic(auto)]

// So many places has an open chart: no more than a list may have pieces.
pub const PLACES: usize = 200;

// So many numbers its memory takes, five a place.
pub const NUMBERS: usize = 5 * PLACES;

// What a change returns.
#[repr(C)]
#[derive(Clone, Copy)]
pub struct Changed {
    // 0 where the change is done, else the refusal
    pub number: u8,
    pub place: usize,
    // the number of the piece that was added or dropped, 0 where refused
    pub piece: usize,
}
