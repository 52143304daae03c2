// The next point of the new mode: the next end, or the least crossing ahead where that comes first.
#![tactic(auto)]

ghost use Rattle.std.specs.Prelude.{◌<◌, ◌^◌};
ghost use Rattle.full_lanes.specs.Lanes.{Keyed};
ghost use Rattle.full_next.specs.Next.{Next};

use full_ends::{end_x, end_y};
use full_least::{lane_first, least_lane};

// The place whose lane comes next, or `live` where the end of the key does.
pub fn next_lane(table: &[i16], active: &[u8], lanes: &[u32], live: usize, key: u64) -> usize
    requires { Keyed table.now active.now lanes.now live × (key < 2 ^ 48) }
    ensures { Next table.now active.now lanes.now live key result }
{
    let k = least_lane(table, active, lanes, live);
    if live <= k {
        return live;
    }
    if lane_first(table, active, k, lanes[k], end_x(key), end_y(key)) {
        return k;
    }
    live
}
