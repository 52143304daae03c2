// The two halves of a step of the new mode at a point: its new pairs are listed, and its block is renewed in place. The block
// stands from lo up to hi in the active list; `ends` are the keys of the ends at the point.
#![tactic(auto)]

ghost use Rattle.sweep.specs.Lists.{keep, pairs};
ghost use Rattle.full_points.specs.Spot.{Fair, Marks};
ghost use Rattle.full_list.specs.Listed.{fresh_in, Roomy, Listed};
ghost use Rattle.full_step.specs.Halves.{InBounds, at_point, new_block, Marked, Turnable, Turned};

use charts::MOST;
use fractions::Point;
use full_gather::gather;
use full_list::list_all;
use full_points::Spot;
use full_renew::renew;
use full_replace::replace;

// The new pairs of the pieces at the point; where the list ends now.
pub fn report(
    table: &[i16],
    p: Spot,
    active: &[u8],
    lo: usize,
    hi: usize,
    ends: &[u64],
    bytes: &mut [u8],
    end: usize,
) -> usize
    requires { Fair p × InBounds lo hi active.now ends.now × Roomy table.now p (pairs (at_point lo hi active.now ends.now)) bytes.old end }
    ensures { (q : Point) → Marks p q → Listed (keep (fresh_in table.now q) (pairs (at_point lo hi active.now ends.now))) bytes.old end bytes.new result }
{
    let mut here = [0u8; MOST];
    let count = gather(active, lo, hi, ends, &mut here);
    list_all(table, p, &here, count, bytes, end)
}

// The block in its place anew, and what stands behind it moved along; how many pieces the block has now.
pub fn turn(
    table: &[i16],
    p: Spot,
    active: &mut [u8],
    lanes: &mut [u32],
    live: usize,
    lo: usize,
    hi: usize,
    ends: &[u64],
) -> usize
    requires { Fair p × Marked p × InBounds lo hi active.old ends.now × Turnable active.old lanes.old live hi ends.now }
    ensures { (q : Point) → Marks p q → Turned active.old lanes.old live lo hi (new_block table.now q lo hi active.old ends.now) active.new lanes.new result }
{
    let mut fresh = [0u8; MOST];
    let m = renew(table, p, active, lo, hi, ends, &mut fresh);
    replace(active, lanes, live, lo, hi, &fresh, m);
    m
}
