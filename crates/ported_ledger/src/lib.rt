// The pairs of the pieces: a mark for each, those that wait for their crossings, and the list of pairs in lent bytes.
#![tactic(auto)]

ghost use Rattle.std.specs.Prelude.{◌≡◌, ℕ, ◌≤◌, length, set, get_or, List};
ghost use Rattle.ported_pieces.specs.Table.{chart_in};
ghost use Rattle.ported_arrays.specs.Numbers.{cell};
ghost use Rattle.ported_arrays.specs.Ledger.{put, past, list, wait};

use charts::MOST;

// The marks of a pair.
pub const FREE: u8 = 0;

const WAITING: u8 = 1;

pub const LISTED: u8 = 2;

// A place for every pair.
pub const PLACES: usize = MOST * (MOST - 1) / 2;

// What is known of the pairs: the mark of each, those that wait, from `head` to the end of their array, and where the list
// in the lent bytes ends.
#[derive(Drop)]
pub struct Book {
    pub marks: [u8; MOST * MOST],
    pub waiting: [u16; PLACES],
    pub head: usize,
    pub end: usize,
    pub ghost within: { head ≤ length waiting },
}

// The number of a pair.
fn cell_of(i: u8, j: u8) -> usize
    ensures { result ≡ cell (i, j) }
{
    i as usize * MOST + j as usize
}

fn set_mark(marks: &mut [u8], c: usize, mark: u8)
    ensures { marks.new ≡ set marks.old c mark }
{
    if c < marks.len() {
        marks[c] = mark;
    }
}

// Two bytes at the end of the list, where there is room; where the list ends then.
fn push(bytes: &mut [u8], end: usize, i: u8, j: u8) -> usize
    ensures { (bytes.new ≡ put (i, j) end bytes.old) × (result ≡ past end bytes.old) }
{
    if bytes.len() <= end {
        return end;
    }
    if bytes.len() <= end + 1 {
        return end;
    }
    bytes[end] = i;
    bytes[end + 1] = j;
    end + 2
}

impl Book {
    ghost use Rattle.ported_ledger.specs.Books.{ledger_of};

    // The mark of pair i, j.
    pub fn mark_of(&self, i: u8, j: u8) -> u8
        ensures { result ≡ get_or self.now.marks (cell (i, j)) 0 }
    {
        let c = cell_of(i, j);
        if c < self.marks.len() {
            self.marks[c]
        } else {
            FREE
        }
    }

    // Pair i, j goes to the end of the list.
    pub fn list_pair(&mut self, bytes: &mut [u8], i: u8, j: u8)
        ensures listed { ledger_of self.new bytes.new ≡ list (i, j) (ledger_of self.old bytes.old) }
        ensures kept { self.new.waiting ≡ self.old.waiting }
    {
        set_mark(&mut self.marks, cell_of(i, j), LISTED);
        self.end = push(bytes, self.end, i, j);
    }

    // Pair i, j begins to wait.
    pub fn wait_pair(&mut self, table: &[i16], i: u8, j: u8)
        ensures { (n : ℕ) (bytes : List ℕ) → ledger_of self.new bytes ≡ wait (chart_in n table.now) (i, j) (ledger_of self.old bytes) }
    {
        let c = cell_of(i, j);
        set_mark(&mut self.marks, c, WAITING);
        self.head = ported_waiting::wait(table, &mut self.waiting, self.head, c as u16);
    }
}
