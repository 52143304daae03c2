// The front of the queue that is at the point visited: its ends and the pairs that cross there are passed, and their
// pieces flagged as starting, finishing or turning.
#![tactic(auto)]

ghost use Rattle.std.specs.Prelude.{◌≡◌, true, false, [], ◌∷◌, not, ℕ, ◌≤◌, ◌<◌, length, set};
ghost use Rattle.ported_pieces.specs.Table.{chart_in};
ghost use Rattle.sweep.specs.Lists.{keep};
ghost use Rattle.ported_arrays.specs.Numbers.{is_min, end_at, crossing_at};
ghost use Rattle.ported_arrays.specs.Event.{flag, halves, pieces, free, free_all};
ghost use Rattle.ported_passing.specs.Passing.{stands_at, EndsPassed, CrossingsPassed};

use charts::MOST;
use fractions::Point;

// How many at the front are ends at p.
#[tactic(auto, unfolding(crate::specs::Passing::stands_at))]
fn ends_at(table: &[i16], p: Point, ends: &[u16]) -> usize
    ensures within { result ≤ length ends.now }
    ensures passed { (n k : ℕ) → k < result → stands_at (end_at (chart_in n table.now) p) ends.now k ≡ true }
    ensures stops { (n : ℕ) → stands_at (end_at (chart_in n table.now) p) ends.now result ≡ false }
{
    ends.iter()
        .take_while(|e| ported_pieces::end_at(table, **e, p))
        .count()
}

// How many at the front are pairs that cross at p.
#[tactic(auto, unfolding(crate::specs::Passing::stands_at))]
fn crossings_at(table: &[i16], p: Point, waiting: &[u16]) -> usize
    ensures within { result ≤ length waiting.now }
    ensures passed { (n k : ℕ) → k < result → stands_at (crossing_at (chart_in n table.now) p) waiting.now k ≡ true }
    ensures stops { (n : ℕ) → stands_at (crossing_at (chart_in n table.now) p) waiting.now result ≡ false }
{
    waiting
        .iter()
        .take_while(|c| ported_pieces::crossing_at(table, **c, p))
        .count()
}

fn set_flag(flags: &mut [u8], i: usize)
    ensures { flags.new ≡ set flags.old i 1 }
{
    if i < flags.len() {
        flags[i] = 1;
    }
}

// A waiting mark drops.
fn free_mark(marks: &mut [u8], c: usize)
    ensures { marks.new ≡ free c marks.old }
{
    if c < marks.len() {
        if marks[c] == 1 {
            marks[c] = 0;
        }
    }
}

// An end flagged by its piece: a min as starting, a max as finishing.
fn flag_end(e: u16, starting: &mut [u8], finishing: &mut [u8])
    ensures { (starting.new ≡ flag (halves (keep is_min (e ∷ []))) starting.old) × (finishing.new ≡ flag (halves (keep (λ f. not (is_min f)) (e ∷ []))) finishing.old) }
{
    let i = (e / 2) as usize;
    if e % 2 == 0 {
        set_flag(starting, i);
    } else {
        set_flag(finishing, i);
    }
}

// Passes the ends at p, and flags their pieces; how many are passed then.
pub fn pass_ends(
    table: &[i16],
    p: Point,
    ends: &[u16],
    from: usize,
    starting: &mut [u8],
    finishing: &mut [u8],
) -> usize
    requires { (from ≤ length ends.now) × (length ends.now ≤ 65536) }
    ensures { EndsPassed table.now p ends.now from starting.old finishing.old starting.new finishing.new result }
{
    let to = from + ends_at(table, p, &ends[from..]);
    for e in &ends[from..to] {
        flag_end(*e, starting, finishing);
    }
    to
}

// The two pieces of pair c flagged, and its mark dropped.
fn flag_crossing(c: u16, turning: &mut [u8], marks: &mut [u8])
    ensures { (turning.new ≡ flag (pieces (c ∷ [])) turning.old) × (marks.new ≡ free_all (c ∷ []) marks.old) }
{
    let cell = c as usize;
    set_flag(turning, cell / MOST);
    set_flag(turning, cell % MOST);
    free_mark(marks, cell);
}

// Passes the pairs that cross at p, flags their pieces and drops their marks; the new head.
pub fn pass_crossings(
    table: &[i16],
    p: Point,
    waiting: &[u16],
    from: usize,
    turning: &mut [u8],
    marks: &mut [u8],
) -> usize
    requires { (from ≤ length waiting.now) × (length waiting.now ≤ 65536) }
    ensures { CrossingsPassed table.now p waiting.now from turning.old marks.old turning.new marks.new result }
{
    let to = from + crossings_at(table, p, &waiting[from..]);
    for c in &waiting[from..to] {
        flag_crossing(*c, turning, marks);
    }
    to
}
