// What a folded line is refused for.
#![tactic(auto)]

ghost use Rattle.std.specs.Prelude.{◌≡◌};
ghost use Rattle.charts.specs.Refusal.{told};
ghost use Rattle.folded_line.specs.Drawing.{off, off_range, uneven, line_verdict, drawing_of, Sized};

use charts::{Reason, Refusal};

// An order is from 1 to MOST_ORDER, half the sampling rate and the top speed from 1 to LIMIT.
const MOST_ORDER: usize = 60;

const LIMIT: usize = charts::RANGE as usize;

// A line has at most so many pieces.
const MOST_PIECES: usize = 200;

fn is_off(high: usize, v: usize) -> bool
    ensures { result ≡ off high v }
{
    !(1..=high).contains(&v)
}

fn is_off_range(m: usize, h: usize, s: usize) -> bool
    ensures { result ≡ off_range m h s }
{
    is_off(MOST_ORDER, m) || is_off(LIMIT, h) || is_off(LIMIT, s)
}

// Whether a joint would lie between two whole numbers.
fn is_uneven(m: usize, h: usize, s: usize) -> bool
    requires { Sized m h s }
    ensures { result ≡ uneven m h s }
{
    h < m * s && h % m != 0
}

// The verdict on the three numbers, then on the count of pieces.
fn line_verdict(m: usize, h: usize, s: usize) -> Result<usize, Refusal>
    ensures { told result ≡ line_verdict m h s }
{
    if is_off_range(m, h, s) {
        return Err(Reason::Argument.at(0));
    }
    if is_uneven(m, h, s) {
        return Err(Reason::Uneven.at(0));
    }
    let n = (m * s + (h - 1)) / h;
    if MOST_PIECES < n {
        return Err(Reason::TooMany.at(0));
    }
    Ok(n)
}

// The same where so many numbers are lent.
pub fn drawing_of(m: usize, h: usize, s: usize, lent: usize) -> Result<usize, Refusal>
    ensures { told result ≡ drawing_of m h s lent }
{
    let n = line_verdict(m, h, s)?;
    if lent < 5 * n {
        return Err(Reason::Room.at(0));
    }
    Ok(n)
}
