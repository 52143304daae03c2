// Module 6, the sweep, after the Rust's bentley_ottmann.rs: a chart's pieces swept from left to right.
#![tactic(auto)]

ghost use Rattle.std.specs.Prelude.{◌≡◌, ◌≤◌, length};
ghost use Rattle.charts.specs.Chart.{verdict_of};
ghost use Rattle.charts.specs.Answer.{room};
ghost use Rattle.charts.specs.Piece.{piece_at};
ghost use Rattle.charts.specs.Verdict.{Accepted};
ghost use Rattle.bentley_ottmann.specs.Swept.{swept_by, listed_over, refused_with, sweep_of, lent_after};

use charts::MOST;
use fractions::Point;

// What a sweep returns; `pairs` is the count of those listed.
#[derive(Clone, Copy)]
pub struct Swept {
    // 0 where the call is done, else the refusal
    pub number: u8,
    pub place: usize,
    pub pairs: usize,
    pub steps: u32,
    // whether the queue is empty
    pub ended: bool,
    // whether no piece is upright
    pub complete: bool,
    pub last: Option<Point>,
    // the adjacent pairs examined, skipped ones too, in all steps done
    pub examined: u64,
}

// A refusal, in either mode.
pub fn refused(number: u8, place: usize) -> Swept
    ensures { result ≡ refused_with number place }
{
    Swept {
        number,
        place,
        pairs: 0,
        steps: 0,
        ended: false,
        complete: false,
        last: None,
        examined: 0,
    }
}

// The sweep of an accepted chart.
fn sweep_pieces(list: &[i32], n: usize, budget: u32, pairs: &mut [u8]) -> Swept
    requires { (verdict_of list.now ≡ Accepted n) × (room n ≤ length pairs.old) }
    ensures { (result ≡ swept_by n (piece_at list.now) budget) × (pairs.new ≡ listed_over n (piece_at list.now) budget pairs.old) }
{
    let mut table = [0i16; 5 * MOST];
    ported_table::fill(list, n, &mut table);
    let stop = ported_loop::run(&table, n, budget, pairs);
    let complete = chart_pieces::no_upright(list, n);
    Swept {
        number: 0,
        place: 0,
        pairs: stop.end / 2,
        steps: stop.steps,
        ended: stop.ended,
        complete,
        last: stop.last,
        examined: stop.examined,
    }
}

// Sweeps a chart's pieces from left to right, at most `budget` steps; lists the pairs that it finds to meet, two bytes a
// pair, the lesser number first.
pub fn sweep(list: &[i32], budget: u32, pairs: &mut [u8]) -> Swept
    ensures { (result ≡ sweep_of list.now budget (length pairs.old)) × (pairs.new ≡ lent_after list.now budget pairs.old) }
{
    match chart_verdict::listing_of(list, pairs.len()) {
        Err(refusal) => refused(refusal.reason.number(), refusal.place),
        Ok(n) => sweep_pieces(list, n, budget, pairs),
    }
}
