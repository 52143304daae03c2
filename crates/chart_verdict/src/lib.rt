// What is said of a list of numbers before any work on it, and what a call on it answers: accepted as a chart, or refused
// with the reason and the place of its first fault.
#![tactic(auto)]

ghost use Rattle.std.specs.Prelude.{◌≡◌, ◌≤◌};
ghost use Rattle.charts.specs.Chart.{fault_at, verdict_of};
ghost use Rattle.charts.specs.Answer.{done_with, refused_with, room, listing_of};
ghost use Rattle.charts.specs.Pair.{pair_verdict_of, meeting_of};
ghost use Rattle.charts.specs.Refusal.{number, fault_number, told};

use chart_pieces::{number_at, piece_at};
use charts::{Answer, MOST, MeetingAnswer, Reason, Refusal};
use line_segment::Meeting;

fn fault_at(list: &[i32], i: usize) -> Option<Reason>
    ensures { fault_number result ≡ fault_at list.now i }
{
    piece_fault::fault_of(
        number_at(list, i, 0),
        number_at(list, i, 1),
        number_at(list, i, 2),
        number_at(list, i, 3),
        number_at(list, i, 4),
    )
}

// The list's length, then the count, then the first fault of a piece; the place is that piece's number. Else the count.
pub fn verdict_of(list: &[i32]) -> Result<usize, Refusal>
    ensures { told result ≡ verdict_of list.now }
{
    let n = list.len() / 5;
    if list.len() % 5 != 0 {
        return Err(Reason::ListLength.at(0));
    }
    if MOST < n {
        return Err(Reason::Count.at(0));
    }
    // by number: it is the place of the refusal, and a piece's numbers are read by it
    for i in 0..n {
        if let Some(reason) = fault_at(list, i) {
            return Err(reason.at(i));
        }
    }
    Ok(n)
}

pub fn done(count: usize) -> Answer
    ensures { result ≡ done_with count }
{
    Answer {
        number: 0,
        place: 0,
        count,
    }
}

pub fn refused(refusal: Refusal) -> Answer
    ensures { result ≡ refused_with (number refusal.reason) refusal.place }
{
    Answer {
        number: refusal.reason.number(),
        place: refusal.place,
        count: 0,
    }
}

// Two bytes for each pair of n pieces, however many a call may ever take.
pub fn room_of(n: usize) -> usize
    requires { n ≤ 65536 }
    ensures { result ≡ room n }
{
    if n == 0 {
        return 0;
    }
    n * (n - 1)
}

// The verdict on a list whose pairs go into `lent` bytes.
pub fn listing_of(list: &[i32], lent: usize) -> Result<usize, Refusal>
    ensures { told result ≡ listing_of list.now lent }
{
    let n = verdict_of(list)?;
    if lent < room_of(n) {
        return Err(Reason::Room.at(0));
    }
    Ok(n)
}

// The verdict on a list of two pieces.
pub fn pair_verdict_of(list: &[i32]) -> Result<usize, Refusal>
    ensures { told result ≡ pair_verdict_of list.now }
{
    if list.len() == 10 {
        verdict_of(list)
    } else {
        Err(Reason::ListLength.at(0))
    }
}

// How the two pieces of ten numbers meet, the first one asking.
pub fn meeting_of(list: &[i32]) -> MeetingAnswer
    ensures { result ≡ meeting_of list.now }
{
    match pair_verdict_of(list) {
        Err(refusal) => MeetingAnswer {
            number: refusal.reason.number(),
            place: refusal.place,
            meeting: Meeting::Nothing,
        },
        Ok(_) => MeetingAnswer {
            number: 0,
            place: 0,
            meeting: segment_test::intersect(piece_at(list, 0), piece_at(list, 1)),
        },
    }
}
