// The calls that change an open chart: made empty, a piece added at the lowest free place, a piece dropped.
#![tactic(auto)]

ghost use Rattle.std.specs.Prelude.{◌≡◌, ◌<◌, ◌≤◌, length};
ghost use Rattle.charts.specs.Refusal.{number};
ghost use Rattle.open_chart.specs.Memory.{places, memory, five, is_used, lowest_free, written};
ghost use Rattle.open_chart.specs.Changes.{done_with, refused_with, changed_of, adding, dropping, after_adding, after_dropping, emptying_of, after_emptying};

use charts::{Answer, Reason};
use open_chart::{Changed, NUMBERS, PLACES};

// Each number of a free place, as the calls here leave it.
const FREE: i32 = -1;

fn done(piece: usize) -> Changed
    ensures { result ≡ done_with piece }
{
    Changed {
        number: 0,
        place: 0,
        piece,
    }
}

fn refused(reason: Reason) -> Changed
    ensures { result ≡ refused_with (number reason) }
{
    Changed {
        number: reason.number(),
        place: 0,
        piece: 0,
    }
}

// Whether a place is used.
pub fn is_used(chart: &[i32], i: usize) -> bool
    requires { (i < places) × (memory ≤ length chart.now) }
    ensures { result ≡ is_used chart.now i }
{
    let at = 5 * i;
    piece_fault::fault_of(
        chart[at],
        chart[at + 1],
        chart[at + 2],
        chart[at + 3],
        chart[at + 4],
    )
    .is_none()
}

// The lowest free place, PLACES where all are used.
fn lowest_free(chart: &[i32]) -> usize
    requires { memory ≤ length chart.now }
    ensures { result ≡ lowest_free chart.now places }
{
    (0..PLACES).find(|i| !is_used(chart, *i)).unwrap_or(PLACES)
}

// Writes the five numbers of a place.
fn put(chart: &mut [i32], i: usize, kind: i32, x1: i32, y1: i32, x2: i32, y2: i32)
    requires { (i < places) × (memory ≤ length chart.old) }
    ensures { chart.new ≡ written chart.old i (five kind x1 y1 x2 y2) }
{
    let at = 5 * i;
    chart[at..at + 5].copy_from_slice(&[kind, x1, y1, x2, y2]);
}

// Makes an open chart without pieces of lent memory.
pub fn empty(chart: &mut [i32]) -> Answer
    ensures { (result ≡ emptying_of chart.old) × (chart.new ≡ after_emptying chart.old) }
{
    if chart.len() < NUMBERS {
        return chart_verdict::refused(Reason::Room.at(0));
    }
    chart[..NUMBERS].fill(FREE);
    chart_verdict::done(0)
}

// Adds a piece at the lowest free place.
pub fn add(chart: &mut [i32], kind: i32, x1: i32, y1: i32, x2: i32, y2: i32) -> Changed
    ensures { (result ≡ changed_of (adding chart.old (five kind x1 y1 x2 y2))) × (chart.new ≡ after_adding chart.old (five kind x1 y1 x2 y2)) }
{
    if chart.len() < NUMBERS {
        return refused(Reason::Room);
    }
    if let Some(reason) = piece_fault::fault_of(kind, x1, y1, x2, y2) {
        return refused(reason);
    }
    let i = lowest_free(chart);
    if i == PLACES {
        return refused(Reason::Full);
    }
    put(chart, i, kind, x1, y1, x2, y2);
    done(i)
}

// Drops the piece of a number, whose place is then free.
pub fn drop(chart: &mut [i32], piece: usize) -> Changed
    ensures { (result ≡ changed_of (dropping chart.old piece)) × (chart.new ≡ after_dropping chart.old piece) }
{
    if chart.len() < NUMBERS {
        return refused(Reason::Room);
    }
    if PLACES <= piece {
        return refused(Reason::Unused);
    }
    if !is_used(chart, piece) {
        return refused(Reason::Unused);
    }
    put(chart, piece, FREE, FREE, FREE, FREE, FREE);
    done(piece)
}
