// The two outer pairs of a block examined; and the step of the new mode where the block is two that cross: they change places.
#![tactic(auto)]

ghost use Rattle.std.specs.Prelude.{◌≡◌, ◌+◌, ◌≤◌, length};
ghost use Rattle.full_lanes.specs.Lanes.{ProperPlaces};
ghost use Rattle.full_step.specs.Whole.{outer_examined};
ghost use Rattle.full_step.specs.Crossed.{Crossable, Crossed};

use fractions::Point;
use full_examine::examine;
use full_list::list_pair;
use full_replace::exchange;
use full_step::At;

// The lane in front of the block and that of its last piece anew.
pub fn examine_outer(
    table: &[i16],
    active: &[u8],
    lanes: &mut [u32],
    live: usize,
    lo: usize,
    m: usize,
    p: Point,
)
    requires { (lo + m ≤ live) × (live ≤ length active.now) × (live ≤ length lanes.old) × ProperPlaces table.now active.now live }
    ensures { lanes.new ≡ outer_examined table.now active.now live lo m p lanes.old }
{
    if 0 < lo {
        examine(table, active, lanes, live, lo - 1, p);
    }
    if 0 < m {
        examine(table, active, lanes, live, lo + m - 1, p);
    }
}

// The step at p where the block is the two places from k on, which cross, and no end stands: they change places.
pub fn cross(
    table: &[i16],
    p: Point,
    active: &mut [u8],
    lanes: &mut [u32],
    live: usize,
    k: usize,
    bytes: &mut [u8],
    end: usize,
) -> At
    requires { Crossable table.now active.old lanes.old live k bytes.old end }
    ensures { Crossed table.now p active.old lanes.old live k bytes.old end active.new lanes.new bytes.new result }
{
    let to = list_pair(active[k], active[k + 1], bytes, end);
    exchange(active, lanes, live, k);
    examine_outer(table, active, lanes, live, k, 2, p);
    At { live, end: to }
}
