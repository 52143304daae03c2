// The place of a meeting in binary64: each number of the exact place rounded once, to the nearest.
#![tactic(auto)]

ghost use Rattle.std.specs.Prelude.{◌≡◌, ◌<◌, ◌≤◌, ◌^◌, nat_abs};
ghost use Rattle.place.specs.Binary64.{nearest};
ghost use Rattle.place.specs.Pair.{place_answer_of};
ghost use Rattle.place.specs.Place.{place_of, Held, nearest_point};

use chart_pieces::piece_at;
use fractions::Point;
use line_segment::LineSegment;
use place::{Place, PlaceAnswer, PlacePoint, Where};

// Binary64 holds both numbers as they stand, so only the division rounds.
fn quotient(x: i64, d: u64) -> f64
    requires { (nat_abs x ≤ 2 ^ 53) × (0 < d) × (d ≤ 2 ^ 53) }
    ensures { result ≡ nearest x d }
{
    let over = x as f64;
    let under = d as f64;
    over / under
}

fn rounded(p: Point) -> PlacePoint
    requires { Held p }
    ensures { result ≡ nearest_point p }
{
    PlacePoint {
        x: quotient(p.x, p.d),
        y: quotient(p.y, p.d),
    }
}

// The place of the meeting of two pieces.
pub fn place_of(a: LineSegment, b: LineSegment) -> Place
    ensures { result ≡ place_of a b }
{
    match exact_place::exact(a, b) {
        Where::Nothing => Place::Nothing,
        Where::At(p) => Place::At(rounded(p)),
        Where::Along(p, q) => Place::Along(rounded(p), rounded(q)),
    }
}

// The place of the meeting of two pieces that are given as ten numbers.
pub fn pair_place(list: &[i32]) -> PlaceAnswer
    ensures { result ≡ place_answer_of list.now }
{
    match chart_verdict::pair_verdict_of(list) {
        Err(refusal) => PlaceAnswer {
            number: refusal.reason.number(),
            place: refusal.place,
            meeting: Place::Nothing,
        },
        Ok(_) => PlaceAnswer {
            number: 0,
            place: 0,
            meeting: place_of(piece_at(list, 0), piece_at(list, 1)),
        },
    }
}
