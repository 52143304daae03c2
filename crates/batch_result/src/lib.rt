// What a sweep returns, in the ten numbers of a result.
#![tactic(auto)]

ghost use Rattle.std.specs.Prelude.{◌≡◌, length};
ghost use Rattle.batch.specs.Numbers.{last_numbers, numbers_of};

use bentley_ottmann::Swept;
use fractions::Point;

// Whether a point was visited, and its x, y and d; all zero where none was.
#[tactic(auto, unfolding(batch::specs::Numbers::word))]
fn last_numbers(last: Option<Point>) -> [u64; 4]
    ensures { result ≡ last_numbers last }
{
    match last {
        None => [0; 4],
        Some(p) => [1, p.x.cast_unsigned(), p.y.cast_unsigned(), p.d],
    }
}

// What a sweep returns, in ten numbers.
#[tactic(auto, unfolding(batch::specs::Numbers::numbers_of))]
pub fn put_result(swept: Swept, res: &mut [u64])
    requires { length res.old ≡ 10 }
    ensures { res.new ≡ numbers_of swept }
{
    let [visited, x, y, d] = last_numbers(swept.last);
    res.copy_from_slice(&[
        u64::from(swept.number),
        swept.place as u64,
        swept.pairs as u64,
        u64::from(swept.steps),
        u64::from(swept.ended),
        u64::from(swept.complete),
        visited,
        x,
        y,
        d,
    ]);
}
