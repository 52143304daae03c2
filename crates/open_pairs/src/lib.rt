// The calls that tell of an open chart: how many pieces stand on it, and which of them meet.
#![tactic(auto)]

ghost use Rattle.std.specs.Prelude.{◌≡◌, ℕ, ◌<◌, ◌≤◌, length, get_or, map};
ghost use Rattle.charts.specs.Answer.{room};
ghost use Rattle.open_chart.specs.Memory.{places, memory};
ghost use Rattle.open_chart.specs.Changes.{used_of};
ghost use Rattle.open_chart.specs.Listing.{Gathered, named, open_pairs_of, lent_after};

use charts::{Answer, MOST, Reason};
use line_segment::LineSegment;
use naive::Pieces;
use open_changes::is_used;
use open_chart::{NUMBERS, PLACES};

// The pieces of the used places, in order, and the numbers of those places.
#[derive(Clone, Copy)]
pub struct Standing {
    pub all: [LineSegment; MOST],
    pub names: [u8; PLACES],
    pub count: usize,
}

fn gather(chart: &[i32]) -> Standing
    requires { memory ≤ length chart.now }
    ensures { Gathered chart.now places result.all result.names result.count }
{
    let mut all = [segment_test::piece(0, 0, 0, 0, 0); MOST];
    let mut names = [0; PLACES];
    let mut count = 0;
    // by number: what is kept of a used place is its number, at the next free index of both lists
    for i in 0..PLACES {
        if is_used(chart, i) {
            all[count] = chart_pieces::piece_at(chart, i);
            names[count] = i as u8;
            count += 1;
        }
    }
    Standing { all, names, count }
}

// How many places are used.
pub fn used(chart: &[i32]) -> Answer
    ensures { result ≡ used_of chart.now }
{
    if chart.len() < NUMBERS {
        return chart_verdict::refused(Reason::Room.at(0));
    }
    let standing = gather(chart);
    chart_verdict::done(standing.count)
}

// Each byte becomes the name under that number.
fn rename(names: &[u8], numbers: &mut [u8])
    requires { (i : ℕ) → i < length numbers.old → get_or numbers.old i 0 < length names.now }
    ensures { numbers.new ≡ map (named names.now) numbers.old }
{
    for number in numbers.iter_mut() {
        *number = names[*number as usize];
    }
}

// Every pair of pieces that meet, under the numbers of their places, two bytes a pair; how many, or why it is refused.
pub fn all_pairs(chart: &[i32], pairs: &mut [u8]) -> Answer
    ensures { (result ≡ open_pairs_of chart.now (length pairs.old)) × (pairs.new ≡ lent_after chart.now pairs.old) }
{
    if chart.len() < NUMBERS {
        return chart_verdict::refused(Reason::Room.at(0));
    }
    let standing = gather(chart);
    let n = standing.count;
    if pairs.len() < chart_verdict::room_of(n) {
        return chart_verdict::refused(Reason::Room.at(0));
    }
    let all = standing.all;
    let names = standing.names;
    let k = all_pairs::list_pairs(Pieces { all }, n, pairs);
    rename(&names, &mut pairs[..2 * k]);
    chart_verdict::done(k)
}
