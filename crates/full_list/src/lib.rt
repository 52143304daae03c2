// The pairs that the new mode lists at a point, written behind those listed before. No pair is marked: a crossing is at this
// point and nowhere else, and an overlap is new where one of its two pieces starts.
#![tactic(auto)]

ghost use Rattle.std.specs.Prelude.{◌≡◌, [], ◌∷◌, ◌+◌, ◌≤◌, length, take};
ghost use Rattle.fractions.specs.declared.Point.{Point};
ghost use Rattle.sweep.specs.Lists.{keep, pairs, lesser_first};
ghost use Rattle.full_points.specs.Spot.{Fair, Marks};
ghost use Rattle.full_list.specs.Listed.{fresh_in, partners, Roomy, Listed};

use full_block::starts;
use full_points::Spot;
use line_segment::Meeting;
use ported_pieces::test;

// Of two pieces at p, i the lesser number: their pair is new there.
fn is_fresh(table: &[i16], p: Spot, i: u8, j: u8) -> bool
    requires { Fair p }
    ensures { (q : Point) → Marks p q → result ≡ fresh_in table.now q (i, j) }
{
    match test(table, i, j) {
        Meeting::Nothing => false,
        Meeting::Crossing => true,
        Meeting::Overlap(_) => {
            if starts(table, i, p) {
                return true;
            }
            starts(table, j, p)
        }
    }
}

// The pair of two pieces, the lesser number first; where the list ends now.
pub fn list_pair(i: u8, j: u8, bytes: &mut [u8], end: usize) -> usize
    requires { end + 2 ≤ length bytes.old }
    ensures { Listed (lesser_first i j ∷ []) bytes.old end bytes.new result }
{
    let mut a = j;
    let mut b = i;
    if i < j {
        a = i;
        b = j;
    }
    bytes[end] = a;
    bytes[end + 1] = b;
    end + 2
}

// The new pairs of piece i with those behind it; where the list ends now.
fn list_row(table: &[i16], p: Spot, i: u8, behind: &[u8], bytes: &mut [u8], end: usize) -> usize
    requires { Fair p × Roomy table.now p (partners i behind.now) bytes.old end }
    ensures { (q : Point) → Marks p q → Listed (keep (fresh_in table.now q) (partners i behind.now)) bytes.old end bytes.new result }
{
    let mut at = end;
    for j in behind {
        if is_fresh(table, p, i, *j) {
            bytes[at] = i;
            bytes[at + 1] = *j;
            at += 2;
        }
    }
    at
}

// The new pairs of the first `count` pieces, in order.
pub fn list_all(
    table: &[i16],
    p: Spot,
    here: &[u8],
    count: usize,
    bytes: &mut [u8],
    end: usize,
) -> usize
    requires { Fair p × (count ≤ length here.now) × Roomy table.now p (pairs (take count here.now)) bytes.old end }
    ensures { (q : Point) → Marks p q → Listed (keep (fresh_in table.now q) (pairs (take count here.now))) bytes.old end bytes.new result }
{
    let mut at = end;
    let mut rest = &here[..count];
    while let Some((i, behind)) = rest.split_first() {
        at = list_row(table, p, *i, behind, bytes, at);
        rest = behind;
    }
    at
}
