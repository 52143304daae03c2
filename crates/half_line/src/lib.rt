// How a half-line meets a piece, after `HalfLineSoS` of the Rust's line.rs: its names, and its cases in its order.
#![tactic(auto)]

ghost use Rattle.std.specs.Prelude.{◌≡◌};
ghost use Rattle.charts.specs.Fault.{fault_of};
ghost use Rattle.charts.specs.Refusal.{fault_number};
ghost use Rattle.half_line.specs.Call.{corner_at, fault_then, half_line_answer_of};
ghost use Rattle.half_line.specs.HalfLine.{corner_of, leans_of, passes_of, point_turn, half_line_of};

use charts::Reason;
use line_segment::{EndPoint, LineSegment};
use orientation::Orientation;

// A point of a chart.
#[derive(Clone, Copy)]
pub struct Corner {
    pub x: i16,
    pub y: i16,
}

// What the half-line's call returns: zero where it is done, else the number of a refusal, whose place is zero.
#[derive(Clone, Copy)]
pub struct HalfLineAnswer {
    pub number: u8,
    pub meeting: Option<Orientation>,
}

// Where an end stands.
fn corner_of(e: EndPoint) -> Corner
    ensures { result ≡ corner_of e }
{
    Corner { x: e.x, y: e.y }
}

fn turn(a: Corner, b: Corner, c: Corner) -> Orientation
    ensures { result ≡ point_turn a b c }
{
    orientation::orient(a.x, a.y, b.x, b.y, c.x, c.y)
}

// One end on the line: a crossing where the start lies on the side of the other end.
fn leans(side: Orientation, start: Orientation) -> Option<Orientation>
    ensures { result ≡ leans_of side start }
{
    if side == start { Some(side) } else { None }
}

// No end on the line: a crossing where the ends lie on opposite sides and the piece lies on the start's.
fn passes(min: Orientation, max: Orientation, start: Orientation) -> Option<Orientation>
    ensures { result ≡ passes_of min max start }
{
    if min == max.reverse() {
        if min == start.reverse() {
            return Some(Orientation::CoLinear);
        }
    }
    None
}

// How the half-line from one point through another meets a piece, if it does: CoLinear where the ends lie on both sides of
// the line, and else the side of the one end that is not on it.
pub fn intersect(from: Corner, through: Corner, s: LineSegment) -> Option<Orientation>
    ensures { result ≡ half_line_of from through s }
{
    let min = corner_of(s.min);
    let max = corner_of(s.max);
    let to_min = turn(from, through, min);
    let to_max = turn(from, through, max);
    if to_min.is_colinear() {
        if to_max.is_colinear() {
            return None;
        }
        return leans(to_max, turn(min, max, from));
    }
    if to_max.is_colinear() {
        return leans(to_min, turn(max, min, from));
    }
    passes(to_min, to_max, turn(min, max, from))
}

// The point of two numbers.
pub fn corner_at(x: i32, y: i32) -> Corner
    ensures { result ≡ corner_at x y }
{
    Corner {
        x: chart_pieces::coordinate(x),
        y: chart_pieces::coordinate(y),
    }
}

// The piece's fault, and where it has none that of the two points, which are judged as the ends of a piece are.
fn fault(kind: i32, x1: i32, y1: i32, x2: i32, y2: i32, through: Option<Reason>) -> Option<Reason>
    ensures { fault_number result ≡ fault_then (fault_of kind x1 y1 x2 y2) (fault_number through) }
{
    piece_fault::fault_of(kind, x1, y1, x2, y2).or(through)
}

// How the half-line from x, y through tx, ty meets the piece of five numbers.
pub fn asked(
    kind: i32,
    x1: i32,
    y1: i32,
    x2: i32,
    y2: i32,
    x: i32,
    y: i32,
    tx: i32,
    ty: i32,
) -> HalfLineAnswer
    ensures { result ≡ half_line_answer_of kind x1 y1 x2 y2 x y tx ty }
{
    let five = [kind, x1, y1, x2, y2];
    match fault(kind, x1, y1, x2, y2, piece_fault::fault_of(3, x, y, tx, ty)) {
        Some(reason) => HalfLineAnswer {
            number: reason.number(),
            meeting: None,
        },
        None => HalfLineAnswer {
            number: 0,
            meeting: intersect(
                corner_at(x, y),
                corner_at(tx, ty),
                chart_pieces::piece_at(&five, 0),
            ),
        },
    }
}
