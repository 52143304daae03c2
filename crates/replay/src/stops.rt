// Where each budget stops the sweep of a chart, from none to that of its last step, and the whole list; in the new mode or as
// the Rust does.
use crate::text;
use bentley_ottmann::Swept;
use charts::MOST;

fn write_stop(swept: Swept) {
    text::number(b"", swept.steps as u64);
    text::number(b" listed ", swept.pairs as u64);
    text::number(b" examined ", swept.examined);
    text::yes_or_no(b" ended ", swept.ended);
    match swept.last {
        None => {
            text::words(b" none");
        }
        Some(p) => {
            text::point(b" at ", p);
        }
    }
    text::words(b"\n");
}

fn sweep(list: &[i32], full: bool, budget: u32, bytes: &mut [u8]) -> Swept {
    if full {
        return full_sweep::sweep(list, budget, bytes);
    }
    bentley_ottmann::sweep(list, budget, bytes)
}

// Writes one stop, and answers whether the queue is empty there.
fn stop_at(list: &[i32], full: bool, budget: u32, bytes: &mut [u8]) -> bool {
    let swept = sweep(list, full, budget, bytes);
    write_stop(swept);
    swept.ended
}

fn write_stops(list: &[i32], full: bool, bytes: &mut [u8]) {
    for budget in 0..u32::MAX {
        if stop_at(list, full, budget, bytes) {
            return;
        }
    }
}

pub fn write(list: &[i32], full: bool) {
    let mut bytes = [0u8; MOST * (MOST - 1)];
    let swept = sweep(list, full, u32::MAX, &mut bytes);
    if swept.number == 0 {
        text::number(b"chart ", (list.len() / 5) as u64);
        text::yes_or_no(b" complete ", swept.complete);
        text::words(b"\n");
        write_stops(list, full, &mut bytes);
        text::words(b"list");
        text::pairs(&bytes, swept.pairs);
    } else {
        text::refusal(swept.number, swept.place);
    }
}
