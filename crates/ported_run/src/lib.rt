// What a run of the ported sweep tells where it stops: its last point, whether the queue is empty, and the count of what was
// examined. The run is in ported_loop.
#![tactic(auto)]

ghost use Rattle.std.specs.Prelude.{◌≡◌, ℕ, ◌+◌, ◌-◌, ◌≤◌, ◌<◌, ◌^◌, drop};
ghost use Rattle.charts.specs.Chart.{most};
ghost use Rattle.sweep.specs.Run.{is_none};
ghost use Rattle.ported_pieces.specs.Table.{chart_in};
ghost use Rattle.ported_arrays.specs.Run.{next_by'};
ghost use Rattle.ported_run.specs.Running.{last_at};

use fractions::Point;

// Where a run stops: the end of the list, the steps done, whether the queue is empty, the last point, and how many adjacent
// pairs were examined.
#[derive(Clone, Copy)]
pub struct Stop {
    pub end: usize,
    pub steps: u32,
    pub ended: bool,
    pub last: Option<Point>,
    pub examined: u64,
}

pub fn last_at(steps: u32, p: Point) -> Option<Point>
    ensures { result ≡ last_at steps p }
{
    if steps == 0 { None } else { Some(p) }
}

// How many adjacent pairs so many pieces have.
fn gaps(count: usize) -> u64
    ensures { result ≡ count - 1 }
{
    if count == 0 { 0 } else { (count - 1) as u64 }
}

// A step's examinations added: of the pieces that stayed, and of those that are active then.
pub fn tally(examined: u64, stay: usize, live: usize) -> u64
    requires { (examined < 2 ^ 63) × (stay ≤ most) × (live ≤ most) }
    ensures { result ≡ examined + ((stay - 1) + (live - 1)) }
{
    examined + (gaps(stay) + gaps(live))
}

// Whether the queue is empty.
pub fn is_empty(table: &[i16], ends: &[u16], passed: usize, waiting: &[u16], head: usize) -> bool
    ensures { (n : ℕ) → result ≡ is_none (chart_in n table.now) (next_by' (chart_in n table.now) (drop passed ends.now) (drop head waiting.now)) }
{
    ported_queue::next_point(table, ends, passed, waiting, head).is_none()
}
