// One end alone at a point, as mostly: its piece comes in where no other goes through, or goes out, and then no pair is listed
// and nothing is put in order.
#![tactic(auto)]

ghost use Rattle.std.specs.Prelude.{◌≡◌, [], ◌∷◌, ℕ, ◌+◌, ◌≤◌, length};
ghost use Rattle.full_points.specs.Spot.{Fair, Marks};
ghost use Rattle.full_end_alone.specs.Alone.{Told, Settleable, Settled};

use fractions::Point;
use full_block::finishes;
use full_outer::examine_outer;
use full_points::Spot;
use full_replace::{put_in, take_out};

// What one end does that stands alone at a point: its piece is the only one there, and enters or leaves.
#[derive(Clone, Copy)]
pub enum Alone {
    Enters,
    Leaves,
    Neither,
}

// What the ends at p do, of which the pieces through p stand from lo up to hi.
pub fn lone_end(table: &[i16], p: Spot, active: &[u8], lo: usize, hi: usize, ends: &[u64]) -> Alone
    requires { Fair p × (lo ≤ hi) × (hi ≤ length active.now) }
    ensures { (q : Point) → Marks p q → Told table.now q lo hi active.now ends.now result }
{
    if ends.len() != 1 {
        return Alone::Neither;
    }
    let e = ends[0] % 65536;
    if e % 2 == 0 {
        if lo == hi {
            return Alone::Enters;
        }
    } else if hi - lo == 1 {
        if finishes(table, active[lo], p) {
            return Alone::Leaves;
        }
    }
    Alone::Neither
}

// Piece i comes in at place lo; how many pieces are active now.
pub fn enter(
    table: &[i16],
    p: Point,
    active: &mut [u8],
    lanes: &mut [u32],
    live: usize,
    lo: usize,
    i: u8,
) -> usize
    requires { Settleable table.now active.old lanes.old live lo lo (i ∷ []) }
    ensures { Settled table.now p active.old lanes.old live lo lo (i ∷ []) active.new lanes.new result }
{
    put_in(active, lanes, live, lo, i);
    examine_outer(table, active, lanes, live + 1, lo, 1, p);
    live + 1
}

// The piece at place lo goes out.
pub fn leave(
    table: &[i16],
    p: Point,
    active: &mut [u8],
    lanes: &mut [u32],
    live: usize,
    lo: usize,
) -> usize
    requires { Settleable table.now active.old lanes.old live lo (lo + 1) [] }
    ensures { Settled table.now p active.old lanes.old live lo (lo + 1) [] active.new lanes.new result }
{
    take_out(active, lanes, live, lo);
    examine_outer(table, active, lanes, live - 1, lo, 0, p);
    live - 1
}
