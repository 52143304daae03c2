// What a run of the new mode tells where it stops, its last point among it. The run is in full_loop.
#![tactic(auto)]

ghost use Rattle.std.specs.Prelude.{◌≡◌};
ghost use Rattle.full_run.specs.Running.{last_at};

use fractions::Point;
pub use full_visit::visit;

// Where a run stops: the end of the list, the steps done, whether the queue is empty, and the last point.
#[derive(Clone, Copy)]
pub struct Stop {
    pub end: usize,
    pub steps: u32,
    pub ended: bool,
    pub last: Option<Point>,
}

// The last point, in lowest terms.
pub fn last_at(steps: u32, p: Point) -> Option<Point>
    ensures { result ≡ last_at steps p }
{
    if steps == 0 {
        None
    } else {
        Some(lowest_terms::lowest(p.x, p.y, p.d))
    }
}
