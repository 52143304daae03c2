// The array of a chart's pieces, from its list of numbers.
#![tactic(auto)]

ghost use Rattle.std.specs.Prelude.{◌≡◌, ◌≤◌, ◌<◌, pos, set};
ghost use Rattle.charts.specs.Chart.{most};
ghost use Rattle.ported_table.specs.Filled.{marks_of, written, filled};

use chart_pieces::piece_at;
use line_segment::LineSegment;

// Both marks as one number.
fn marks_of(s: LineSegment) -> i16
    ensures { result ≡ pos (marks_of s) }
{
    let a = s.min;
    let b = s.max;
    if a.included {
        return if b.included { 3 } else { 1 };
    }
    if b.included { 2 } else { 0 }
}

fn put(table: &mut [i16], at: usize, v: i16)
    ensures { table.new ≡ set table.old at v }
{
    if at < table.len() {
        table[at] = v;
    }
}

fn write(table: &mut [i16], i: usize, s: LineSegment)
    requires { i < most }
    ensures { table.new ≡ written table.old i s }
{
    let at = 5 * i;
    put(table, at, s.min.x);
    put(table, at + 1, s.min.y);
    put(table, at + 2, s.max.x);
    put(table, at + 3, s.max.y);
    put(table, at + 4, marks_of(s));
}

// The first n pieces of a list.
pub fn fill(list: &[i32], n: usize, table: &mut [i16])
    requires { n ≤ most }
    ensures { table.new ≡ filled list.now n table.old }
{
    // by number: a piece's number finds it in either array, and the one written to may end within a piece
    for i in 0..n {
        write(table, i, piece_at(list, i));
    }
}
