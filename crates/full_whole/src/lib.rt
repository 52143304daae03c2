// The whole step of the new mode at a point: both halves, then the two outer pairs of the block examined; or the short way.
#![tactic(auto)]

ghost use Rattle.full_points.specs.Spot.{Marks};
ghost use Rattle.full_step.specs.Halves.{new_block};
ghost use Rattle.full_step.specs.Whole.{Steppable, Stepped};

use fractions::Point;
use full_end_alone::{Alone, enter, leave, lone_end};
use full_halves::{report, turn};
pub use full_outer::cross;
use full_outer::examine_outer;
use full_points::Spot;
use full_step::At;

// The whole step at p, whose spot it is.
pub fn step(
    table: &[i16],
    p: Point,
    spot: Spot,
    active: &mut [u8],
    lanes: &mut [u32],
    live: usize,
    lo: usize,
    hi: usize,
    ends: &[u64],
    bytes: &mut [u8],
    end: usize,
) -> At
    requires { Steppable table.now spot active.old lanes.old live lo hi ends.now bytes.old end }
    ensures { (q : Point) → Marks spot q → Stepped table.now q p active.old lanes.old live lo hi ends.now bytes.old end
        active.new lanes.new bytes.new result (new_block table.now q lo hi active.old ends.now) }
{
    let to = report(table, spot, active, lo, hi, ends, bytes, end);
    let m = turn(table, spot, active, lanes, live, lo, hi, ends);
    let count = lo + m + (live - hi);
    examine_outer(table, active, lanes, count, lo, m, p);
    At {
        live: count,
        end: to,
    }
}

// The same where ends stand: mostly one alone.
pub fn step_at_end(
    table: &[i16],
    p: Point,
    spot: Spot,
    active: &mut [u8],
    lanes: &mut [u32],
    live: usize,
    lo: usize,
    hi: usize,
    ends: &[u64],
    bytes: &mut [u8],
    end: usize,
) -> At
    requires { Steppable table.now spot active.old lanes.old live lo hi ends.now bytes.old end }
    ensures { (q : Point) → Marks spot q → Stepped table.now q p active.old lanes.old live lo hi ends.now bytes.old end
        active.new lanes.new bytes.new result (new_block table.now q lo hi active.old ends.now) }
{
    match lone_end(table, spot, active, lo, hi, ends) {
        Alone::Enters => {
            let i = (ends[0] % 65536 / 2) as u8;
            let count = enter(table, p, active, lanes, live, lo, i);
            At { live: count, end }
        }
        Alone::Leaves => {
            let count = leave(table, p, active, lanes, live, lo);
            At { live: count, end }
        }
        Alone::Neither => step(
            table, p, spot, active, lanes, live, lo, hi, ends, bytes, end,
        ),
    }
}
