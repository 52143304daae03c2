// A visit of the next point of the new mode: the next end or the least crossing ahead, and the step done there.
#![tactic(auto)]

ghost use Rattle.full_visit.specs.Visit.{Waiting, Visiting};

use fractions::Point;
use full_at_point::{at_crossing, at_end};
use full_ends::{end_x, end_y, pass};
use full_least::meeting_at;
use full_next::next_lane;

// Where a visit leaves a run: the ends passed, the pieces active, where the list ends; and the point, in lowest terms or not.
#[derive(Clone, Copy)]
pub struct Visited {
    pub passed: usize,
    pub live: usize,
    pub end: usize,
    pub point: Point,
}

// One visit; an end is left.
pub fn visit(
    table: &[i16],
    ends: &[u64],
    passed: usize,
    active: &mut [u8],
    lanes: &mut [u32],
    live: usize,
    bytes: &mut [u8],
    end: usize,
) -> Visited
    requires { Waiting table.now ends.now passed active.old lanes.old live bytes.old end }
    ensures { Visiting table.now ends.now passed active.old lanes.old live bytes.old end active.new lanes.new bytes.new result }
{
    let key = ends[passed];
    let k = next_lane(table, active, lanes, live, key);
    if k < live {
        let point = meeting_at(table, active, k);
        let at = at_crossing(table, point, k, &ends[..0], active, lanes, live, bytes, end);
        return Visited {
            passed,
            live: at.live,
            end: at.end,
            point,
        };
    }
    let to = pass(ends, passed);
    let point = lowest_terms::whole(end_x(key), end_y(key));
    let at = at_end(
        table,
        key,
        &ends[passed..to],
        active,
        lanes,
        live,
        bytes,
        end,
    );
    Visited {
        passed: to,
        live: at.live,
        end: at.end,
        point,
    }
}
