// A number of a chart file at its place: the count, a kind or a coordinate, or why it is refused.
#![tactic(auto)]

ghost use Rattle.std.specs.Prelude.{◌≡◌, slice_get};
ghost use Rattle.std.specs.Option.{ok_or};
ghost use Rattle.chart_file.specs.Groups.{groups_at};
ghost use Rattle.chart_file.specs.Found.{groups_told, number_told};
ghost use Rattle.chart_file.specs.Coordinate.{signed_of};
ghost use Rattle.chart_file.specs.Format.{groups};
ghost use Rattle.chart_file.specs.Reading.{count_at, kind_at, coordinate_at};

use chart_file::{Found, GROUPS};
use charts::{MOST, Reason};

// A coordinate in range is stored as at most twice charts::RANGE.
const WIDEST: u32 = 2 * (charts::RANGE as u32);

// The byte at a place of a file that goes on there.
fn byte_at(file: &[u8], at: usize) -> Result<u8, Reason>
    ensures { result ≡ ok_or (slice_get file.now at) Reason.FileEnds }
{
    file.get(at).copied().ok_or(Reason::FileEnds)
}

fn groups_at(file: &[u8], at: usize) -> Result<Found<u32>, Reason>
    ensures { groups_told result ≡ groups_at groups file.now at }
{
    let mut value: u32 = 0;
    let mut weight: u32 = 1;
    // by place: an iterator's end would not tell a file that ends here, which is 1, from a group too many, which is 2
    for g in 0..GROUPS {
        let group = u32::from(byte_at(file, at + g)?);
        if group < 128 {
            if 0 < g && group == 0 {
                return Err(Reason::Groups);
            }
            return Ok(Found {
                value: value + weight * group,
                next: at + g + 1,
            });
        }
        value += weight * (group - 128);
        weight *= 128;
    }
    Err(Reason::Groups)
}

// The count with which a file begins, and the place after it. Neither a padded count is taken, nor one above MOST.
pub fn count_at(file: &[u8]) -> Result<Found<u32>, Reason>
    ensures { groups_told result ≡ count_at file.now }
{
    let count = groups_at(file, 0)?;
    if (MOST as u32) < count.value {
        return Err(Reason::Count);
    }
    Ok(count)
}

fn signed(v: u32) -> i32
    ensures { result ≡ signed_of v }
{
    let half = (v / 2) as i32;
    if v % 2 == 0 { half } else { -1 - half }
}

pub fn coordinate_at(file: &[u8], at: usize) -> Result<Found<i32>, Reason>
    ensures { number_told result ≡ coordinate_at file.now at }
{
    let stored = groups_at(file, at)?;
    if WIDEST < stored.value {
        return Err(Reason::Coordinate);
    }
    Ok(Found {
        value: signed(stored.value),
        next: stored.next,
    })
}

pub fn kind_at(file: &[u8], at: usize) -> Result<Found<i32>, Reason>
    ensures { number_told result ≡ kind_at file.now at }
{
    let kind = byte_at(file, at)?;
    if 3 < kind {
        return Err(Reason::Kind);
    }
    Ok(Found {
        value: i32::from(kind),
        next: at + 1,
    })
}
