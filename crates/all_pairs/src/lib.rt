// All pairs of a chart that meet, after the Rust's naive.rs: for a from 0, for b below a.
#![tactic(auto)]

ghost use Rattle.std.specs.Prelude.{◌≡◌, ◌≤◌, length, take};
ghost use Rattle.charts.specs.Chart.{most};
ghost use Rattle.charts.specs.Answer.{room};
ghost use Rattle.naive.specs.Pairs.{rows, bytes, over};
ghost use Rattle.naive.specs.AllPairs.{all_pairs_of, lent_after};
ghost use Rattle.naive.specs.Decoded.{pieces_of, meets_in};
ghost use Rattle.naive.specs.Sides.{Long};

use charts::{Answer, MOST};
use naive::Pieces;
use quick_test::meets;

// The first n of the array are the chart's; the rest is never read.
pub fn pieces_of(list: &[i32], n: usize) -> Pieces
    requires { n ≤ most }
    ensures { take n result.all ≡ pieces_of list.now n }
{
    let mut all = [segment_test::piece(0, 0, 0, 0, 0); MOST];
    for (i, piece) in all[..n].iter_mut().enumerate() {
        *piece = chart_pieces::piece_at(list, i);
    }
    Pieces { all }
}

// The pairs that meet, greater number first, into the front of `pairs`; how many they are.
pub fn list_pairs(pieces: Pieces, n: usize, pairs: &mut [u8]) -> usize
    requires { (n ≤ most) × (room n ≤ length pairs.old) × Long pieces.all n }
    ensures { (result ≡ length (rows (meets_in pieces.all) n)) × (pairs.new ≡ over (bytes (rows (meets_in pieces.all) n)) pairs.old) }
{
    let all = pieces.all;
    let mut k = 0;
    for (a, asking) in all[..n].iter().enumerate() {
        for (b, other) in all[..a].iter().enumerate() {
            if meets(*asking, *other) {
                pairs[2 * k] = a as u8;
                pairs[2 * k + 1] = b as u8;
                k += 1;
            }
        }
    }
    k
}

// Every pair of a chart's pieces that meet, two bytes a pair; how many, or why the list is refused.
pub fn all_pairs(list: &[i32], pairs: &mut [u8]) -> Answer
    ensures { (result ≡ all_pairs_of list.now (length pairs.old)) × (pairs.new ≡ lent_after list.now pairs.old) }
{
    match chart_verdict::listing_of(list, pairs.len()) {
        Err(refusal) => chart_verdict::refused(refusal),
        Ok(n) => chart_verdict::done(list_pairs(pieces_of(list, n), n, pairs)),
    }
}
