// The chart file's reader: bytes from anywhere become a list of numbers, or a number and a place that say why not.
#![tactic(auto)]

ghost use Rattle.std.specs.Prelude.{◌≡◌, ◌*◌, ◌≤◌, length};
ghost use Rattle.chart_file.specs.Reading.{Left, Reads};
ghost use Rattle.chart_file.specs.Reading.{pieces as pieces_from};
ghost use Rattle.charts.specs.Answer.{answer_of};
ghost use Rattle.charts.specs.Chart.{most};
ghost use Rattle.charts.specs.Refusal.{told};

use chart_file::NUMBERS;
use charts::{Answer, Reason, Refusal};

// Reads pieces, which follow the count from its `next` place on, into `list`: where the last ends, or the first refusal.
fn pieces(
    file: &[u8],
    next: usize,
    count: usize,
    list: &mut [i32; NUMBERS],
) -> Result<usize, Refusal>
    requires { (count ≤ most) × (length list.old ≡ 5 * most) }
    ensures { Left count (pieces_from file.now next count) result list.new }
{
    let mut at = next;
    // left by label, the form that was asked for (docs/DECISIONS.md)
    'file: {
        // by index: of a list written through its chunks, no clause says what it then holds
        for p in 0..count {
            let start = at;
            let kind = match file_numbers::kind_at(file, at) {
                Ok(found) => found,
                Err(reason) => break 'file Err(reason.at(at)),
            };
            at = kind.next;
            let mut ends = [0i32; 4];
            for coordinate in ends.iter_mut() {
                let found = match file_numbers::coordinate_at(file, at) {
                    Ok(found) => found,
                    Err(reason) => break 'file Err(reason.at(at)),
                };
                *coordinate = found.value;
                at = found.next;
            }
            let [x1, y1, x2, y2] = ends;
            // the numbers are in range, so it can have no other fault
            if piece_fault::fault_of(kind.value, x1, y1, x2, y2).is_some() {
                break 'file Err(Reason::NoLength.at(start));
            }
            list[5 * p..5 * p + 5].copy_from_slice(&[kind.value, x1, y1, x2, y2]);
        }
        Ok(at)
    }
}

// The count of a file's pieces, whose numbers are then in front of the list. Where the file is refused, nothing is written.
fn chart_of(file: &[u8], list: &mut [i32]) -> Result<usize, Refusal>
    ensures { Reads file.now list.old (answer_of (λ n. n) (told result)) list.new }
{
    if list.len() < NUMBERS {
        return Err(Reason::Room.at(0));
    }
    let found = file_numbers::count_at(file).map_err(|reason| reason.at(0))?;
    let count = found.value as usize;
    let mut numbers = [0i32; NUMBERS];
    let end = pieces(file, found.next, count, &mut numbers)?;
    if end < file.len() {
        return Err(Reason::ExtraBytes.at(end));
    }
    list[..5 * count].copy_from_slice(&numbers[..5 * count]);
    Ok(count)
}

// Reads a chart file into a lent list of at least NUMBERS numbers. Where it is refused, nothing is written.
pub fn read(file: &[u8], list: &mut [i32]) -> Answer
    ensures { Reads file.now list.old result list.new }
{
    match chart_of(file, list) {
        Ok(count) => chart_verdict::done(count),
        Err(refusal) => chart_verdict::refused(refusal),
    }
}
