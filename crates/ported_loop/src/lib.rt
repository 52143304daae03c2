// A run of the ported sweep, below its call in bentley_ottmann: from the first step until the budget or the queue is empty.
#![tactic(auto)]

ghost use Rattle.std.specs.Prelude.{◌≡◌, ℕ, ◌≤◌, ◌<◌, length};
ghost use Rattle.line_segment.specs.Piece.{HasLength};
ghost use Rattle.charts.specs.Chart.{most};
ghost use Rattle.charts.specs.Answer.{room};
ghost use Rattle.ported_pieces.specs.Table.{piece_in};
ghost use Rattle.ported_run.specs.Running.{Begun, Stopped};

use charts::MOST;
use fractions::Point;
use ported_ledger::{Book, PLACES};
use ported_run::{Stop, is_empty, last_at, tally};
use ported_step::step;

// Steps until the budget is spent or the queue is empty.
fn go(
    table: &[i16],
    ends: &[u16],
    budget: u32,
    active: &mut [u8],
    book: &mut Book,
    bytes: &mut [u8],
) -> Stop
    requires begun { (n : ℕ) × Begun n table.now ends.now active.old book.old.marks book.old.waiting bytes.old }
    requires empty { (book.old.head ≡ length book.old.waiting) × (book.old.end ≡ 0) }
    ensures { (n : ℕ) → Begun n table.now ends.now active.old book.old.marks book.old.waiting bytes.old → Stopped n table.now budget bytes.old result bytes.new }
{
    let mut passed = 0;
    let mut live = 0;
    let mut last = Point { x: 0, y: 0, d: 0 };
    let mut examined: u64 = 0;
    for steps in 0..budget {
        match ported_queue::next_point(table, ends, passed, &book.waiting, book.head) {
            None => {
                return Stop {
                    end: book.end,
                    steps,
                    ended: true,
                    last: last_at(steps, last),
                    examined,
                };
            }
            Some(p) => {
                let at = step(table, p, ends, passed, active, live, book, bytes);
                passed = at.passed;
                live = at.live;
                last = p;
                examined = tally(examined, at.stay, at.live);
            }
        }
    }
    Stop {
        end: book.end,
        steps: budget,
        ended: is_empty(table, ends, passed, &book.waiting, book.head),
        last: last_at(budget, last),
        examined,
    }
}

// A run on the first n pieces of an array.
pub fn run(table: &[i16], n: usize, budget: u32, bytes: &mut [u8]) -> Stop
    requires { (n ≤ most) × ((i : ℕ) → i < n → HasLength (piece_in table.now i)) × (room n ≤ length bytes.old) }
    ensures { Stopped n table.now budget bytes.old result bytes.new }
{
    let mut ends = [0u16; 2 * MOST];
    let mut active = [0u8; MOST];
    let mut book = Book {
        marks: [0; MOST * MOST],
        waiting: [0; PLACES],
        head: PLACES,
        end: 0,
    };
    let count = 2 * n;
    ported_ends::order_ends(table, &mut ends[..count]);
    go(table, &ends[..count], budget, &mut active, &mut book, bytes)
}
