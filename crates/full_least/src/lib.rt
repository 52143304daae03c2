// The least of the lanes, by key, and exactly where two keys are equal.
#![tactic(auto)]

ghost use Rattle.std.specs.Prelude.{◌≡◌, ◌+◌, ◌<◌, ◌≤◌, length};
ghost use Rattle.fractions.specs.Point.{point_order, whole_of};
ghost use Rattle.sweep.specs.Lists.{lesser_first};
ghost use Rattle.sweep.specs.Ported.{is_less};
ghost use Rattle.ported_pieces.specs.Table.{rough_at};
ghost use Rattle.full_lanes.specs.Lanes.{no_key, meeting_at, Taken, Keyed, LeastLane, Newer, Candidate};

use fractions::Point;
use full_lanes::NONE;
use full_points::key_of;
use ported_pieces::{less, piece};
use segment_crossing::cramer;

fn crossing_of(table: &[i16], i: u8, j: u8) -> Point
    ensures { result ≡ rough_at table.now (lesser_first i j) }
{
    if i < j {
        cramer(piece(table, i as u16), piece(table, j as u16))
    } else {
        cramer(piece(table, j as u16), piece(table, i as u16))
    }
}

// Where the lines of places k and k + 1 meet, by Cramer's rule.
pub fn meeting_at(table: &[i16], active: &[u8], k: usize) -> Point
    requires { k + 1 < length active.now }
    ensures { result ≡ meeting_at table.now active.now k }
{
    crossing_of(table, active[k], active[k + 1])
}

// Whether the lane of place k is to be kept in front of that of place `at`: by key, exactly where the keys are equal.
fn comes_first(table: &[i16], active: &[u8], k: usize, key: u32, at: usize, least: u32) -> bool
    requires { (key < no_key → Taken table.now active.now (length active.now) k key) × (least < no_key → Taken table.now active.now (length active.now) at least) }
    ensures { Newer table.now active.now k key at least result }
{
    if key < least {
        return true;
    }
    if least < key {
        return false;
    }
    if key == NONE {
        return false;
    }
    less(meeting_at(table, active, k), meeting_at(table, active, at))
}

// The first place from `from` on whose key is no greater than `least`; `live` where all are.
fn next_candidate(lanes: &[u32], from: usize, live: usize, least: u32) -> usize
    requires { (from ≤ live) × (live ≤ length lanes.now) }
    ensures { Candidate lanes.now from live least result }
{
    let behind = lanes[from..live].iter();
    from + behind.take_while(|key| least < **key).count()
}

// The lane of the least crossing, or `live` where none is taken.
pub fn least_lane(table: &[i16], active: &[u8], lanes: &[u32], live: usize) -> usize
    requires { Keyed table.now active.now lanes.now live }
    ensures { LeastLane table.now active.now lanes.now live result }
{
    let mut at = live;
    let mut least = NONE;
    let keys = &lanes[..live];
    let mut k = 0;
    while k < live {
        let key = keys[k];
        if comes_first(table, active, k, key, at, least) {
            at = k;
            least = key;
        }
        k = next_candidate(keys, k + 1, live, least);
    }
    at
}

// Whether the crossing of the lane of place k comes before the end at x, y: by key, exactly where the keys are equal.
pub fn lane_first(table: &[i16], active: &[u8], k: usize, key: u32, x: i16, y: i16) -> bool
    requires { Taken table.now active.now (length active.now) k key }
    ensures { result ≡ is_less (point_order (meeting_at table.now active.now k) (whole_of x y)) }
{
    let end = lowest_terms::whole(x, y);
    let other = key_of(end);
    if key < other {
        return true;
    }
    if other < key {
        return false;
    }
    less(meeting_at(table, active, k), end)
}
