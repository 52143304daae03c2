// The sweep that loses nothing on any chart, upright pieces or not: a point a step, the active list changed in place.
#![tactic(auto)]

ghost use Rattle.std.specs.Prelude.{◌≡◌, ◌≤◌, length};
ghost use Rattle.charts.specs.Chart.{verdict_of};
ghost use Rattle.charts.specs.Answer.{room};
ghost use Rattle.charts.specs.Piece.{piece_at};
ghost use Rattle.charts.specs.Verdict.{Accepted};
ghost use Rattle.full_sweep.specs.Swept.{swept_by, listed_over, sweep_of, lent_after};

use bentley_ottmann::Swept;
use charts::MOST;

// The sweep of an accepted chart.
fn sweep_pieces(list: &[i32], n: usize, budget: u32, pairs: &mut [u8]) -> Swept
    requires { (verdict_of list.now ≡ Accepted n) × (room n ≤ length pairs.old) }
    ensures { (result ≡ swept_by n (piece_at list.now) budget) × (pairs.new ≡ listed_over n (piece_at list.now) budget pairs.old) }
{
    let mut table = [0i16; 5 * MOST];
    ported_table::fill(list, n, &mut table);
    let stop = full_loop::run(&table, n, budget, pairs);
    Swept {
        number: 0,
        place: 0,
        pairs: stop.end / 2,
        steps: stop.steps,
        ended: stop.ended,
        complete: true,
        last: stop.last,
        examined: 0,
    }
}

// Sweeps a chart's pieces from left to right, at most `budget` steps; lists the pairs that it finds to meet, two bytes a
// pair, the lesser number first.
pub fn sweep(list: &[i32], budget: u32, pairs: &mut [u8]) -> Swept
    ensures { (result ≡ sweep_of list.now budget (length pairs.old)) × (pairs.new ≡ lent_after list.now budget pairs.old) }
{
    match chart_verdict::listing_of(list, pairs.len()) {
        Err(refusal) => bentley_ottmann::refused(refusal.reason.number(), refusal.place),
        Ok(n) => sweep_pieces(list, n, budget, pairs),
    }
}
