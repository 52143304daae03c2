// "Each pair (i, j), i < j, in order, that is not yet listed and passes the test (i asking) is listed."
#![tactic(auto)]

ghost use Rattle.std.specs.Prelude.{◌≡◌, ℕ, ◌≤◌, length, drop, map};
ghost use Rattle.ported_pieces.specs.Table.{chart_in};
ghost use Rattle.sweep.specs.Lists.{pairs};
ghost use Rattle.sweep.specs.Step.{each};
ghost use Rattle.ported_arrays.specs.Ledger.{report};
ghost use Rattle.ported_ledger.specs.Books.{ledger_of};

use line_segment::Meeting;
use ported_ledger::{Book, LISTED};

// Pair i, j is listed, unless it is already or does not meet.
fn report_pair(table: &[i16], i: u8, j: u8, book: &mut Book, bytes: &mut [u8])
    ensures listed { (n : ℕ) → ledger_of book.new bytes.new ≡ report (chart_in n table.now) (i, j) (ledger_of book.old bytes.old) }
    ensures kept { book.new.waiting ≡ book.old.waiting }
{
    if book.mark_of(i, j) == LISTED {
        return;
    }
    match ported_pieces::test(table, i, j) {
        Meeting::Nothing => {}
        Meeting::Crossing => book.list_pair(bytes, i, j),
        Meeting::Overlap(_) => book.list_pair(bytes, i, j),
    }
}

// The pairs of piece i with those behind it.
fn report_row(table: &[i16], i: u8, behind: &[u8], book: &mut Book, bytes: &mut [u8])
    ensures listed { (n : ℕ) → ledger_of book.new bytes.new ≡ each (report (chart_in n table.now)) (map (λ j. (i, j)) behind.now) (ledger_of book.old bytes.old) }
    ensures kept { book.new.waiting ≡ book.old.waiting }
{
    for j in behind {
        report_pair(table, i, *j, book, bytes);
    }
}

// Every two of the pieces from h on, in order.
pub fn report_all(table: &[i16], here: &[u8], h: usize, book: &mut Book, bytes: &mut [u8])
    requires { h ≤ length here.now }
    ensures listed { (n : ℕ) → ledger_of book.new bytes.new ≡ each (report (chart_in n table.now)) (pairs (drop h here.now)) (ledger_of book.old bytes.old) }
    ensures kept { book.new.waiting ≡ book.old.waiting }
{
    let mut rest = &here[h..];
    while let Some((i, behind)) = rest.split_first() {
        report_row(table, *i, behind, book, bytes);
        rest = behind;
    }
}
