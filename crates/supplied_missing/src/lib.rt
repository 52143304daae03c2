// The first meeting pair that no entry of a supplier's list names.
#![tactic(auto)]

ghost use Rattle.std.specs.Prelude.{◌≡◌, ◌≤◌, ◌*◌, not, ◌&&◌, length};
ghost use Rattle.line_segment.specs.Piece.{HasLength};
ghost use Rattle.line_segment.specs.Segment.{intersect_of};
ghost use Rattle.line_segment.specs.Demand.{says_yes};
ghost use Rattle.charts.specs.Chart.{most};
ghost use Rattle.naive.specs.Pairs.{rows};
ghost use Rattle.naive.specs.Decoded.{meets_in};
ghost use Rattle.naive.specs.Sides.{Long};
ghost use Rattle.supplied.specs.Entries.{first_of};
ghost use Rattle.supplied.specs.Marks.{unmarked};

use charts::MOST;
use line_segment::LineSegment;
use naive::Pieces;

// Whether a pair meets that no entry names.
fn is_missing(named: bool, asking: LineSegment, other: LineSegment) -> bool
    requires { HasLength asking × HasLength other }
    ensures { result ≡ (not named && says_yes (intersect_of asking other)) }
{
    if named {
        return false;
    }
    quick_test::meets(asking, other)
}

// The first pair, for a from 0, for b below a, that meets and is not marked.
pub fn first_missing(pieces: Pieces, n: usize, marks: &[bool]) -> Option<(usize, usize)>
    requires { (n ≤ most) × Long pieces.all n × (length marks.now ≡ most * most) }
    ensures { result ≡ first_of (rows (unmarked marks.now (meets_in pieces.all)) n) }
{
    let all = pieces.all;
    for (a, asking) in all[..n].iter().enumerate() {
        for (b, other) in all[..a].iter().enumerate() {
            if is_missing(marks[a * MOST + b], *asking, *other) {
                return Some((a, b));
            }
        }
    }
    None
}
