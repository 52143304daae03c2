// A run of the new mode, below its call in full_sweep: from the first step until the budget is spent or all ends are passed.
#![tactic(auto)]

ghost use Rattle.std.specs.Prelude.{ℕ};
ghost use Rattle.full_run.specs.Carried.{Given};
ghost use Rattle.full_run.specs.Running.{Begun, Stopped};

use charts::MOST;
use fractions::Point;
use full_ends::order_ends;
pub use full_run::Stop;
use full_run::{last_at, visit};

// Steps until the budget is spent or all ends are passed.
fn go(
    table: &[i16],
    ends: &[u64],
    budget: u32,
    active: &mut [u8],
    lanes: &mut [u32],
    bytes: &mut [u8],
) -> Stop
    requires { (n : ℕ) × Begun n table.now ends.now active.old lanes.old bytes.old }
    ensures { (n : ℕ) → Begun n table.now ends.now active.old lanes.old bytes.old → Stopped n table.now budget bytes.old result bytes.new }
{
    let mut passed = 0;
    let mut live = 0;
    let mut end = 0;
    let mut steps: u32 = 0;
    let mut last = Point { x: 0, y: 0, d: 1 };
    // the steps are counted for the answer and index nothing, and how many there are is seen only as they go
    while steps < budget {
        if ends.len() <= passed {
            break;
        }
        let at = visit(table, ends, passed, active, lanes, live, bytes, end);
        passed = at.passed;
        live = at.live;
        end = at.end;
        last = at.point;
        steps += 1;
    }
    Stop {
        end,
        steps,
        ended: ends.len() <= passed,
        last: last_at(steps, last),
    }
}

// A run on the first n pieces of an array.
pub fn run(table: &[i16], n: usize, budget: u32, bytes: &mut [u8]) -> Stop
    requires { Given n table.now bytes.old }
    ensures { Stopped n table.now budget bytes.old result bytes.new }
{
    let mut ends = [0u64; 2 * MOST];
    let mut active = [0u8; MOST];
    let mut lanes = [0u32; MOST];
    let count = 2 * n;
    order_ends(table, n, &mut ends[..count]);
    go(
        table,
        &ends[..count],
        budget,
        &mut active,
        &mut lanes,
        bytes,
    )
}
