// The step of the new mode at a point that is known, an end or a crossing: its block is found, and the step done.
#![tactic(auto)]

ghost use Rattle.std.specs.Prelude.{◌≡◌, [], ◌<◌, ◌^◌};
ghost use Rattle.full_ends.specs.Demand.{standing};
ghost use Rattle.full_lanes.specs.Lanes.{meeting_at};
ghost use Rattle.full_at_point.specs.AtPoint.{Ready, Stepping, CrossAt, crossing_at};

use fractions::Point;
use full_block::{search, widen_down, widen_up};
use full_ends::{end_x, end_y};
use full_points::{spot_at, spot_of};
use full_step::At;
use full_whole::{cross, step, step_at_end};

// The step at p, the crossing of places k and k + 1, where no end stands. Mostly no other piece goes through it.
pub fn at_crossing(
    table: &[i16],
    p: Point,
    k: usize,
    none: &[u64],
    active: &mut [u8],
    lanes: &mut [u32],
    live: usize,
    bytes: &mut [u8],
    end: usize,
) -> At
    requires ready { Ready table.now (crossing_at table.now active.old k) none.now active.old lanes.old live bytes.old end × CrossAt table.now active.old live k }
    requires p_value { (p ≡ meeting_at table.now active.old k) × (none.now ≡ []) }
    ensures { Stepping table.now (crossing_at table.now active.old k) none.now active.old lanes.old live bytes.old end active.new lanes.new bytes.new result }
{
    let spot = spot_of(p);
    let lo = widen_down(table, active, spot, k);
    let hi = widen_up(table, active, live, spot, k + 2);
    if hi - lo == 2 {
        return cross(table, p, active, lanes, live, k, bytes, end);
    }
    step(
        table, p, spot, active, lanes, live, lo, hi, none, bytes, end,
    )
}

// The step at the end of a key; `ends` are the keys of those that stand there.
pub fn at_end(
    table: &[i16],
    key: u64,
    ends: &[u64],
    active: &mut [u8],
    lanes: &mut [u32],
    live: usize,
    bytes: &mut [u8],
    end: usize,
) -> At
    requires { (key < 2 ^ 48) × Ready table.now (standing key) ends.now active.old lanes.old live bytes.old end }
    ensures { Stepping table.now (standing key) ends.now active.old lanes.old live bytes.old end active.new lanes.new bytes.new result }
{
    let x = end_x(key);
    let y = end_y(key);
    let spot = spot_at(x, y);
    let lo = search(table, active, live, spot);
    let hi = widen_up(table, active, live, spot, lo);
    step_at_end(
        table,
        lowest_terms::whole(x, y),
        spot,
        active,
        lanes,
        live,
        lo,
        hi,
        ends,
        bytes,
        end,
    )
}
