// A chart given as a list of numbers, five a piece: kind, x1, y1, x2, y2. What its refusals, its pieces and the answers of
// a call on it mean and their laws stand here; the code is in piece_fault, chart_pieces and chart_verdict.
#![tactic(auto)]

ghost use Rattle.std.specs.Prelude.{◌≡◌};
ghost use Rattle.charts.specs.Refusal.{number};

use line_segment::Meeting;

// A chart has at most so many pieces.
pub const MOST: usize = 200;

// Coordinates run from -RANGE to RANGE.
pub const RANGE: i32 = 32767;

// Why a call is refused: the rows of the table of refusals, under their names and in their order.
#[derive(Clone, Copy)]
pub enum Reason {
    FileEnds,
    Groups,
    Count,
    Kind,
    Coordinate,
    NoLength,
    ExtraBytes,
    Room,
    ListLength,
    Charts,
    Parts,
    Argument,
    Uneven,
    TooMany,
    Outline,
    OddBytes,
    Full,
    Unused,
    Upright,
}

impl Reason {
    // The number of its row.
    pub fn number(self) -> u8
        ensures { result ≡ number self }
    {
        match self {
            Reason::FileEnds => 1,
            Reason::Groups => 2,
            Reason::Count => 3,
            Reason::Kind => 4,
            Reason::Coordinate => 5,
            Reason::NoLength => 6,
            Reason::ExtraBytes => 7,
            Reason::Room => 8,
            Reason::ListLength => 9,
            Reason::Charts => 10,
            Reason::Parts => 11,
            Reason::Argument => 12,
            Reason::Uneven => 13,
            Reason::TooMany => 14,
            Reason::Outline => 15,
            Reason::OddBytes => 16,
            Reason::Full => 17,
            Reason::Unused => 18,
            Reason::Upright => 19,
        }
    }

    // The refusal for it at a place.
    pub fn at(self, place: usize) -> Refusal
        ensures { result ≡ record { reason = self; place = place } }
    {
        Refusal {
            reason: self,
            place,
        }
    }
}

// A refusal: its reason, and the place of the first fault.
#[derive(Clone, Copy)]
pub struct Refusal {
    pub reason: Reason,
    pub place: usize,
}

// What the reader and the writer of a file and the calls that list pairs return.
#[repr(C)]
#[derive(Clone, Copy)]
pub struct Answer {
    // 0 where the call is done, else the refusal
    pub number: u8,
    pub place: usize,
    // of pieces read, of bytes written or of pairs listed, 0 where refused
    pub count: usize,
}

// What the test of two pieces returns: the meeting is nothing where the call is refused.
#[derive(Clone, Copy)]
pub struct MeetingAnswer {
    pub number: u8,
    pub place: usize,
    pub meeting: Meeting,
}
