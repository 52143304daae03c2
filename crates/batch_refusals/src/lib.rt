// What a batch is refused for, and the bytes that each of its charts needs.
#![tactic(auto)]

ghost use Rattle.std.specs.Prelude.{◌≡◌};
ghost use Rattle.charts.specs.Refusal.{fault_number};
ghost use Rattle.batch.specs.Charts.{need, fits};
ghost use Rattle.batch.specs.Batch.{refusal_of};

use charts::{MOST, Reason};

// A call takes at most so many charts.
pub const CHARTS: usize = 16;

// A result is so many numbers.
pub const NUMBERS: usize = 10;

// The bytes that the pairs of a list of so many numbers need, none where it is no chart's.
#[tactic(auto, unfolding(batch::specs::Charts::need, charts::specs::Answer::room))]
pub fn need_of(numbers: usize) -> usize
    ensures { result ≡ need numbers }
{
    let n = numbers / 5;
    if numbers % 5 != 0 || MOST < n {
        return 0;
    }
    n * n.saturating_sub(1)
}

// Whether the lengths add up to the numbers given, and what the charts need to no more than the bytes lent. What is left of
// both is counted down, so no sum is made that could wrap.
fn is_fitting(lengths: &[usize], numbers: usize, lent: usize) -> bool
    ensures { result ≡ fits lengths.now numbers lent }
{
    let mut left = numbers;
    let mut room = lent;
    for &length in lengths {
        let bytes = need_of(length);
        if left < length || room < bytes {
            return false;
        }
        left -= length;
        room -= bytes;
    }
    left == 0
}

// Why the whole call is refused, if it is.
#[tactic(auto, unfolding(batch::specs::Batch::refusal_of))]
pub fn refusal_of(numbers: usize, lengths: &[usize], lent: usize, results: usize) -> Option<Reason>
    ensures { fault_number result ≡ refusal_of numbers lengths.now lent results }
{
    if CHARTS < lengths.len() {
        Some(Reason::Charts)
    } else if !is_fitting(lengths, numbers, lent) {
        Some(Reason::Parts)
    } else if results / NUMBERS < lengths.len() {
        Some(Reason::Room)
    } else {
        None
    }
}
