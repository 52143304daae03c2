// "Examining skips a listed or waiting pair. An Overlap is listed. A Crossing at or before p is listed, one after p is
// queued and waits."
#![tactic(auto)]

ghost use Rattle.std.specs.Prelude.{◌≤◌, length, take};
ghost use Rattle.ported_pieces.specs.Table.{chart_in};
ghost use Rattle.sweep.specs.Lists.{adjacent, lesser_first};
ghost use Rattle.sweep.specs.Step.{each};
ghost use Rattle.ported_arrays.specs.Ledger.{examine_free, examine};
ghost use Rattle.sweep.specs.Chart.{crosses, kind};
ghost use Rattle.ported_examine.specs.Examined.{Examined};

use fractions::Point;
use line_segment::Meeting;
use ported_ledger::{Book, FREE};

// A free pair that crosses: beyond p it waits, else it is listed.
fn examine_crossing(table: &[i16], p: Point, i: u8, j: u8, book: &mut Book, bytes: &mut [u8])
    ensures { Examined (λ n. examine_free (chart_in n table.now) p crosses (i, j)) book.old bytes.old book.new bytes.new }
{
    if ported_pieces::crossing_beyond(table, p, i, j) {
        book.wait_pair(table, i, j);
    } else {
        book.list_pair(bytes, i, j);
    }
}

// A pair that is free is examined by how its pieces meet.
fn examine_free(table: &[i16], p: Point, i: u8, j: u8, book: &mut Book, bytes: &mut [u8])
    ensures { Examined (λ n. examine_free (chart_in n table.now) p (kind (chart_in n table.now) (i, j)) (i, j)) book.old bytes.old book.new bytes.new }
{
    match ported_pieces::test(table, i, j) {
        Meeting::Nothing => {}
        Meeting::Crossing => examine_crossing(table, p, i, j, book, bytes),
        Meeting::Overlap(_) => book.list_pair(bytes, i, j),
    }
}

// A listed or waiting pair is skipped.
fn examine_pair(table: &[i16], p: Point, i: u8, j: u8, book: &mut Book, bytes: &mut [u8])
    ensures { Examined (λ n. examine (chart_in n table.now) p (i, j)) book.old bytes.old book.new bytes.new }
{
    if book.mark_of(i, j) == FREE {
        examine_free(table, p, i, j, book, bytes);
    }
}

// Two adjacent pieces, the lesser number asking.
fn examine_two(table: &[i16], p: Point, a: u8, b: u8, book: &mut Book, bytes: &mut [u8])
    ensures { Examined (λ n. examine (chart_in n table.now) p (lesser_first a b)) book.old bytes.old book.new bytes.new }
{
    if a < b {
        examine_pair(table, p, a, b, book, bytes);
    } else {
        examine_pair(table, p, b, a, book, bytes);
    }
}

// Every adjacent pair of the first `live` active pieces, in order.
pub fn examine_all(
    table: &[i16],
    p: Point,
    active: &[u8],
    live: usize,
    book: &mut Book,
    bytes: &mut [u8],
)
    requires { live ≤ length active.now }
    ensures { Examined (λ n. each (examine (chart_in n table.now) p) (adjacent (take live active.now))) book.old bytes.old book.new bytes.new }
{
    for pair in active[..live].windows(2) {
        examine_two(table, p, pair[0], pair[1], book, bytes);
    }
}
