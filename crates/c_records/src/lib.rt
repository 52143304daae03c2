// What the calls for C return: records of plain numbers, in which a case is told by its number.
#![tactic(auto)]

ghost use Rattle.std.specs.Prelude.{◌≡◌};
ghost use Rattle.c_records.specs.Sweeps.{swept_as};
ghost use Rattle.c_records.specs.Checks.{checked_as};
ghost use Rattle.c_records.specs.Numbers.{turn_number};
ghost use Rattle.c_records.specs.Meetings.{end_fields, met_as};
ghost use Rattle.c_records.specs.Places.{placed_as};
ghost use Rattle.region.specs.Region.{region_told};
ghost use Rattle.c_records.specs.Regions.{region_by, located_of, half_met_as};

use bentley_ottmann::Swept;
use charts::Refusal;
use fractions::Point;
use line_segment::{EndPoint, Meeting};
use orientation::Orientation;
use place::Place;
use region::Region;
use supplied::Checked;

// An end of a stretch.
#[repr(C)]
#[derive(Clone, Copy)]
pub struct End {
    pub x: i16,
    pub y: i16,
    pub included: bool,
}

// How two pieces meet: `meets` is 0 for nothing, 1 for a crossing and 2 for an overlap, whose stretch runs from
// `min` to `max`.
#[repr(C)]
#[derive(Clone, Copy)]
pub struct Met {
    pub number: u8,
    pub place: usize,
    pub meets: u8,
    pub min: End,
    pub max: End,
}

// Where two pieces meet, in binary64: `meets` is 0 for nothing, 1 at x1, y1, the one shared point, and 2 along from
// there to x2, y2.
#[repr(C)]
#[derive(Clone, Copy)]
pub struct Placed {
    pub number: u8,
    pub place: usize,
    pub meets: u8,
    pub x1: f64,
    pub y1: f64,
    pub x2: f64,
    pub y2: f64,
}

// What a sweep returns; where `visited`, the last point is x/d, y/d.
#[repr(C)]
#[derive(Clone, Copy)]
pub struct SweptFields {
    pub number: u8,
    pub place: usize,
    pub pairs: usize,
    pub steps: u32,
    pub ended: bool,
    pub complete: bool,
    pub visited: bool,
    pub x: i64,
    pub y: i64,
    pub d: u64,
    pub examined: u64,
}

// What is said of a supplier's list: `says` is 1 where it is accepted, 2 where entry `first` has fault `second`, and 3
// where the pair of pieces `first` and `second` is missing.
#[repr(C)]
#[derive(Clone, Copy)]
pub struct CheckedFields {
    pub number: u8,
    pub place: usize,
    pub says: u8,
    pub first: usize,
    pub second: usize,
}

// Where a peak lies to a region: `region` is 0 for none, 1 for on, 2 for inside and 3 for outside.
#[repr(C)]
#[derive(Clone, Copy)]
pub struct Located {
    pub number: u8,
    pub place: usize,
    pub region: u8,
}

// How a half-line meets a piece: `meets` is 0 for nothing and 1 for a crossing, which carries `turn`.
#[repr(C)]
#[derive(Clone, Copy)]
pub struct HalfMet {
    pub number: u8,
    pub place: usize,
    pub meets: u8,
    pub turn: i8,
}

const NO_END: End = End {
    x: 0,
    y: 0,
    included: false,
};

impl From<EndPoint> for End {
    ghost from_gives = { λ e r. r ≡ end_fields e };

    fn from(e: EndPoint) -> End {
        End {
            x: e.x,
            y: e.y,
            included: e.included,
        }
    }
}

// each whole, as in `values` and `half_met`: what is copied from another record is copied with its spare bytes
pub fn fields(number: u8, place: usize, meeting: Meeting) -> Met
    ensures { result ≡ met_as number place meeting }
{
    match meeting {
        Meeting::Nothing => Met {
            number,
            place,
            meets: 0,
            min: NO_END,
            max: NO_END,
        },
        Meeting::Crossing => Met {
            number,
            place,
            meets: 1,
            min: NO_END,
            max: NO_END,
        },
        Meeting::Overlap(stretch) => Met {
            number,
            place,
            meets: 2,
            min: stretch.min.into(),
            max: stretch.max.into(),
        },
    }
}

pub fn values(number: u8, place: usize, meeting: Place) -> Placed
    ensures { result ≡ placed_as number place meeting }
{
    match meeting {
        Place::Nothing => Placed {
            number,
            place,
            meets: 0,
            x1: 0.0,
            y1: 0.0,
            x2: 0.0,
            y2: 0.0,
        },
        Place::At(p) => Placed {
            number,
            place,
            meets: 1,
            x1: p.x,
            y1: p.y,
            x2: 0.0,
            y2: 0.0,
        },
        Place::Along(p, q) => Placed {
            number,
            place,
            meets: 2,
            x1: p.x,
            y1: p.y,
            x2: q.x,
            y2: q.y,
        },
    }
}

pub fn swept_fields(s: Swept, last: Option<Point>) -> SweptFields
    ensures { result ≡ swept_as s last }
{
    let unvisited = SweptFields {
        number: s.number,
        place: s.place,
        pairs: s.pairs,
        steps: s.steps,
        ended: s.ended,
        complete: s.complete,
        visited: false,
        x: 0,
        y: 0,
        d: 0,
        examined: s.examined,
    };
    match last {
        None => unvisited,
        Some(p) => SweptFields {
            visited: true,
            x: p.x,
            y: p.y,
            d: p.d,
            ..unvisited
        },
    }
}

pub fn checked_fields(checked: Checked) -> CheckedFields
    ensures { result ≡ checked_as checked }
{
    let nothing = CheckedFields {
        number: 0,
        place: 0,
        says: 0,
        first: 0,
        second: 0,
    };
    match checked {
        Checked::Accepted => CheckedFields { says: 1, ..nothing },
        Checked::Fault(first, fault) => CheckedFields {
            says: 2,
            first,
            second: fault,
            ..nothing
        },
        Checked::Missing(first, second) => CheckedFields {
            says: 3,
            first,
            second,
            ..nothing
        },
        Checked::Refused(number, place) => CheckedFields {
            number,
            place,
            ..nothing
        },
    }
}

// A match: the number is C's, and no `From` for i8 may be written outside the orientation's crate.
#[tactic(auto, unfolding(crate::specs::Numbers::turn_number))]
pub fn turn_number(o: Orientation) -> i8
    ensures { result ≡ turn_number o }
{
    match o {
        Orientation::CounterClockWise => 1,
        Orientation::ClockWise => -1,
        Orientation::CoLinear => 0,
    }
}

// A match: the number is C's, and no `From` for u8 may be written outside the region's crate.
#[tactic(auto, unfolding(crate::specs::Regions::region_number))]
pub fn region_number(r: Option<Region>) -> u8
    ensures { result ≡ region_by r }
{
    match r {
        None => 0,
        Some(Region::On) => 1,
        Some(Region::Inside) => 2,
        Some(Region::Outside) => 3,
    }
}

#[tactic(auto, unfolding(crate::specs::Regions::located_of))]
pub fn located_fields(answer: Result<Region, Refusal>) -> Located
    ensures { result ≡ located_of (region_told answer) }
{
    match answer {
        Ok(region) => Located {
            number: 0,
            place: 0,
            region: region_number(Some(region)),
        },
        Err(refusal) => Located {
            number: refusal.reason.number(),
            place: refusal.place,
            region: region_number(None),
        },
    }
}

pub fn half_met(number: u8, meeting: Option<Orientation>) -> HalfMet
    ensures { result ≡ half_met_as number meeting }
{
    match meeting {
        None => HalfMet {
            number,
            place: 0,
            meets: 0,
            turn: 0,
        },
        Some(o) => HalfMet {
            number,
            place: 0,
            meets: 1,
            turn: turn_number(o),
        },
    }
}
