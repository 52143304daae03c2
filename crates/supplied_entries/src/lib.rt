// The entries of a supplier's list, walked up to the first one at fault.
#![tactic(auto)]

ghost use Rattle.std.specs.Prelude.{◌≡◌, ◌≤◌};
ghost use Rattle.charts.specs.Chart.{most};
ghost use Rattle.naive.specs.Decoded.{meets_in};
ghost use Rattle.naive.specs.Sides.{Long};
ghost use Rattle.supplied.specs.Marks.{Marked, Walked};

use charts::MOST;
use naive::Pieces;
use supplied::EntryFault;

// Walks the entries up to the first one at fault, and marks the pair of each good one.
pub fn mark_entries(
    pieces: Pieces,
    n: usize,
    bytes: &[u8],
    marks: &mut [bool],
) -> Option<(usize, EntryFault)>
    requires { (n ≤ most) × Long pieces.all n × Marked marks.old bytes.now 0 }
    ensures { Walked (meets_in pieces.all) n bytes.now marks.new result }
{
    let all = pieces.all;
    let (entries, _) = bytes.as_chunks::<2>();
    for (i, entry) in entries.iter().enumerate() {
        let [x, y] = *entry;
        let a = usize::from(x.max(y));
        let b = usize::from(x.min(y));
        if n <= a {
            return Some((i, EntryFault::NoPiece));
        }
        if a == b {
            return Some((i, EntryFault::Itself));
        }
        if !quick_test::meets(all[a], all[b]) {
            return Some((i, EntryFault::Apart));
        }
        if marks[a * MOST + b] {
            return Some((i, EntryFault::Repeated));
        }
        marks[a * MOST + b] = true;
    }
    None
}
