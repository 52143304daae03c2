// All pairs of a chart's pieces that meet, greater number first.
use crate::text;
use charts::MOST;

pub fn write(list: &[i32]) {
    let mut bytes = [0u8; MOST * (MOST - 1)];
    let answer = all_pairs::all_pairs(list, &mut bytes);
    if answer.number == 0 {
        text::number(b"", answer.count as u64);
        text::pairs(&bytes, answer.count);
    } else {
        text::refusal(answer.number, answer.place);
    }
}
