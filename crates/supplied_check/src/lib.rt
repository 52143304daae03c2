// A supplier's list of pairs held to a chart: does it name each meeting pair once, and if not, where is it wrong.
#![tactic(auto)]

ghost use Rattle.std.specs.Prelude.{◌≡◌, ◌≤◌};
ghost use Rattle.charts.specs.Chart.{most};
ghost use Rattle.charts.specs.Refusal.{told};
ghost use Rattle.naive.specs.Decoded.{meets_in};
ghost use Rattle.naive.specs.Sides.{Long};
ghost use Rattle.supplied.specs.Checking.{held_to, supplied_of, checked_of};
ghost use Rattle.supplied.specs.Entries.{number_of};

use charts::{MOST, Reason, Refusal};
use naive::Pieces;
use supplied::{Checked, EntryFault};

// The number of a fault.
pub fn fault_number(fault: EntryFault) -> usize
    ensures { result ≡ number_of fault }
{
    match fault {
        EntryFault::NoPiece => 1,
        EntryFault::Itself => 2,
        EntryFault::Apart => 3,
        EntryFault::Repeated => 4,
    }
}

// What is said of a list, by the pieces of an accepted chart.
fn held_to(pieces: Pieces, n: usize, bytes: &[u8]) -> Checked
    requires { (n ≤ most) × Long pieces.all n }
    ensures { result ≡ held_to (meets_in pieces.all) n bytes.now }
{
    let mut marks = [false; MOST * MOST];
    match supplied_entries::mark_entries(pieces, n, bytes, &mut marks) {
        Some((i, fault)) => Checked::Fault(i, fault_number(fault)),
        None => match supplied_missing::first_missing(pieces, n, &marks) {
            Some((a, b)) => Checked::Missing(a, b),
            None => Checked::Accepted,
        },
    }
}

// The verdict on the chart, then 16.
fn supplied_of(list: &[i32], bytes: usize) -> Result<usize, Refusal>
    ensures { told result ≡ supplied_of list.now bytes }
{
    let n = chart_verdict::verdict_of(list)?;
    if bytes % 2 != 0 {
        return Err(Reason::OddBytes.at(0));
    }
    Ok(n)
}

// Whether a list of pairs, two bytes a pair in any order, names each meeting pair of a chart once, in either number order.
pub fn check(list: &[i32], bytes: &[u8]) -> Checked
    ensures { result ≡ checked_of list.now bytes.now }
{
    match supplied_of(list, bytes.len()) {
        Err(refusal) => Checked::Refused(refusal.reason.number(), refusal.place),
        Ok(n) => held_to(all_pairs::pieces_of(list, n), n, bytes),
    }
}
