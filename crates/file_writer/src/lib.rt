// The chart file's writer: a list of numbers goes out as the file that the reader takes it from.
#![tactic(auto)]

ghost use Rattle.std.specs.Prelude.{◌≡◌, ◌+◌, ◌%◌, ◌≤◌, length};
ghost use Rattle.std.proofs.lemmas.List.Edits.{sets};
ghost use Rattle.charts.specs.Refusal.{told};
ghost use Rattle.chart_file.specs.Format.{bytes_from};
ghost use Rattle.chart_writer.specs.Writing.{InRanges, writing_of, Writes};

use chart_file::LONGEST;
use charts::{Answer, Reason, Refusal};

// Writes the pieces of a list from a place on, a kind plainly and a coordinate in groups; the place after them.
fn put_numbers(list: &[i32], out: &mut [u8], at: usize) -> usize
    requires { (length list.now % 5 ≡ 0) × InRanges list.now × (at + length (bytes_from 0 list.now) ≤ length out.old) }
    ensures { (result ≡ at + length (bytes_from 0 list.now)) × (out.new ≡ sets out.old at (bytes_from 0 list.now)) }
{
    let mut next = at;
    for piece in list.as_chunks::<5>().0 {
        out[next] = piece[0] as u8;
        next += 1;
        for v in &piece[1..] {
            next = file_groups::put_groups(file_groups::stored(*v), out, next);
        }
    }
    next
}

// The verdict on a list whose file goes into `lent` bytes: the longest file is to fit, whatever this one's length.
fn writing_of(list: &[i32], lent: usize) -> Result<usize, Refusal>
    ensures { told result ≡ writing_of list.now lent }
{
    let n = chart_verdict::verdict_of(list)?;
    if lent < LONGEST {
        return Err(Reason::Room.at(0));
    }
    Ok(n)
}

// Writes a chart's file into lent bytes, at least LONGEST of them; how many it takes. Where the list is refused, nothing is
// written.
pub fn write(list: &[i32], out: &mut [u8]) -> Answer
    ensures { Writes list.now out.old result out.new }
{
    match writing_of(list, out.len()) {
        Err(refusal) => chart_verdict::refused(refusal),
        Ok(n) => {
            let next = file_groups::put_groups(n as u32, out, 0);
            chart_verdict::done(put_numbers(list, out, next))
        }
    }
}
