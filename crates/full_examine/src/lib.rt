// A place of the active list examined: the key of its crossing with the next, where one lies ahead.
#![tactic(auto)]

ghost use Rattle.std.specs.Prelude.{◌≡◌, cond, ◌<◌, ◌≤◌, length, set};
ghost use Rattle.fractions.specs.Point.{point_order};
ghost use Rattle.sweep.specs.Ported.{is_less};
ghost use Rattle.sweep_geometry.specs.Demand.{Proper};
ghost use Rattle.ported_pieces.specs.Table.{piece_in};
ghost use Rattle.full_points.specs.Spot.{ChartPoint, key_of};
ghost use Rattle.full_lanes.specs.Lanes.{no_key, keyed, lane_in, steeper, lane_by_slope, examined, ProperPlaces};

use fractions::Point;
use full_lanes::NONE;
use full_points::key_of;
use line_segment::Meeting;
use ported_heights::slope_order;
use ported_pieces::{less, piece};
use segment_crossing::cramer;
use segment_test::intersect;

// The key of c, where it lies beyond p.
fn ahead(p: Point, c: Point) -> u32
    requires { ChartPoint c }
    ensures { result ≡ cond (is_less (point_order p c)) (key_of c) no_key }
{
    if less(p, c) { key_of(c) } else { NONE }
}

// The key of the crossing of i and j beyond p, i asking.
fn lane_between(table: &[i16], i: u8, j: u8, p: Point) -> u32
    requires { Proper (piece_in table.now i) × Proper (piece_in table.now j) }
    ensures { result ≡ keyed (lane_in table.now p (i, j)) }
{
    let a = piece(table, i as u16);
    let b = piece(table, j as u16);
    match intersect(a, b) {
        Meeting::Nothing => NONE,
        Meeting::Overlap(_) => NONE,
        Meeting::Crossing => ahead(p, cramer(a, b)),
    }
}

// Piece i is steeper than piece j.
fn is_steeper(table: &[i16], i: u8, j: u8) -> bool
    ensures { result ≡ steeper table.now i j }
{
    slope_order(piece(table, i as u16), piece(table, j as u16)).is_gt()
}

// The key of the lane of i and j beyond p, i in front of j. Where i is not the steeper, they do not cross there.
fn lane_of(table: &[i16], i: u8, j: u8, p: Point) -> u32
    requires { Proper (piece_in table.now i) × Proper (piece_in table.now j) }
    ensures { result ≡ lane_by_slope table.now p i j }
{
    if !is_steeper(table, i, j) {
        return NONE;
    }
    let mut a = j;
    let mut b = i;
    if i < j {
        a = i;
        b = j;
    }
    lane_between(table, a, b, p)
}

// The lane of places k and k + 1.
fn lane_at(table: &[i16], active: &[u8], live: usize, k: usize, p: Point) -> u32
    requires { (k < live) × (live ≤ length active.now) × ProperPlaces table.now active.now live }
    ensures { result ≡ examined table.now active.now live k p }
{
    if k + 1 < live {
        lane_of(table, active[k], active[k + 1], p)
    } else {
        NONE
    }
}

// The lane of places k and k + 1 anew.
pub fn examine(table: &[i16], active: &[u8], lanes: &mut [u32], live: usize, k: usize, p: Point)
    requires { (k < live) × (live ≤ length active.now) × (live ≤ length lanes.old) × ProperPlaces table.now active.now live }
    ensures { lanes.new ≡ set lanes.old k (examined table.now active.now live k p) }
{
    let key = lane_at(table, active, live, k, p);
    lanes[k] = key;
}
