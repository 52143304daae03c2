// One visit of the sweep, after the Rust's bentley_ottmann.rs: a step at the least point that is left.
#![tactic(auto)]

ghost use Rattle.std.specs.Prelude.{◌≤◌, length};
ghost use Rattle.ported_step.specs.Turns.{Turning, Fits, Stepping};

use charts::MOST;
use fractions::Point;
use ported_examine::examine_all;
use ported_ledger::Book;
use ported_report::report_all;

// How many pieces stayed and are active.
#[derive(Clone, Copy)]
pub struct Turned {
    pub stay: usize,
    pub live: usize,
}

// Finishing and crossing pieces leave, adjacent pairs are examined; starting and crossing ones enter, the active list is
// sorted, and adjacent pairs are examined again.
fn turn(
    table: &[i16],
    p: Point,
    active: &mut [u8],
    live: usize,
    here: &[u8],
    h: usize,
    starting: &[u8],
    finishing: &[u8],
    turning: &[u8],
    book: &mut Book,
    bytes: &mut [u8],
) -> Turned
    requires { (live ≤ length active.old) × (h ≤ length here.now) }
    ensures { Turning table.now p active.old live here.now h starting.now finishing.now turning.now
        book.old bytes.old active.new book.new bytes.new result }
{
    let stay = ported_active::leave(active, live, finishing, turning);
    examine_all(table, p, active, stay, book, bytes);
    let now_live = ported_active::enter(active, stay, here, h, starting, finishing, turning);
    ported_active::resort(table, p, active, now_live);
    examine_all(table, p, active, now_live, book, bytes);
    Turned {
        stay,
        live: now_live,
    }
}

// How many ends are passed, pieces stayed and are active.
#[derive(Clone, Copy)]
pub struct At {
    pub passed: usize,
    pub stay: usize,
    pub live: usize,
}

// One step, at the least point that is left.
pub fn step(
    table: &[i16],
    p: Point,
    ends: &[u16],
    passed: usize,
    active: &mut [u8],
    live: usize,
    book: &mut Book,
    bytes: &mut [u8],
) -> At
    requires { Fits ends.now passed active.old live book.old }
    ensures { Stepping table.now p ends.now passed active.old live book.old bytes.old active.new book.new bytes.new result }
{
    let mut starting = [0u8; MOST];
    let mut finishing = [0u8; MOST];
    let mut turning = [0u8; MOST];
    let mut here = [0u8; MOST];
    let e1 = ported_passing::pass_ends(table, p, ends, passed, &mut starting, &mut finishing);
    let w1 = ported_passing::pass_crossings(
        table,
        p,
        &book.waiting,
        book.head,
        &mut turning,
        &mut book.marks,
    );
    let h = ported_gather::gather(
        table,
        p,
        ends,
        passed,
        e1,
        &book.waiting,
        book.head,
        w1,
        active,
        live,
        &mut here,
        MOST,
    );
    book.head = w1;
    report_all(table, &here, h, book, bytes);
    let turned = turn(
        table, p, active, live, &here, h, &starting, &finishing, &turning, book, bytes,
    );
    At {
        passed: e1,
        stay: turned.stay,
        live: turned.live,
    }
}
