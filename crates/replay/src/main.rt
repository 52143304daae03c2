// Replays recorded files. A record on standard input is a letter that says what is asked, the length of a chart file, two
// bytes, low first, and its bytes; what the library answers is written as the Rust's answers were (tests/recorded/README.md).
#![tactic(auto)]

mod meeting;
mod pairs;
mod places;
mod stops;
mod text;

// The descriptor that a program reads from.
const STANDARD_INPUT: i32 = 0;

fn answer(asked: u8, file: &[u8], list: &[i32]) {
    match asked {
        b'r' => text::chart(list),
        b'm' => meeting::write(list),
        b'p' => places::write(list),
        b'a' => pairs::write(list),
        b's' => stops::write(list, false),
        b'f' => stops::write(list, true),
        b'l' => print_parts::print(file),
        _ => text::words(b"asked nothing\n"),
    }
}

fn replay(asked: u8, file: &[u8]) {
    let mut list = [0i32; chart_file::NUMBERS];
    let read = file_reader::read(file, &mut list);
    if read.number == 0 {
        let end = 5 * read.count;
        answer(asked, file, &list[..end]);
    } else {
        text::refusal(read.number, read.place);
    }
}

fn size_of(low: u8, high: u8) -> usize {
    low as usize + 256 * (high as usize)
}

// Reads a file that fills `bytes`, replays it, and answers whether there was one.
fn replay_full(asked: u8, bytes: &mut [u8]) -> bool {
    let got = io::read_full(STANDARD_INPUT, bytes);
    if got < bytes.len() {
        return false;
    }
    replay(asked, &bytes[..got]);
    true
}

// Replays the next record, by way of `space`, and answers whether there was one.
fn replay_next(space: &mut [u8]) -> bool {
    let mut head = [0u8; 3];
    if io::read_full(STANDARD_INPUT, &mut head) < 3 {
        return false;
    }
    let size = size_of(head[1], head[2]);
    if space.len() < size {
        return false;
    }
    replay_full(head[0], &mut space[..size])
}

fn main() {
    let mut buffer = io::buffer();
    let space: &mut [u8] = &mut buffer;
    // a proved loop has to end, and nothing says that the input does
    for _ in 0..u64::MAX {
        if !replay_next(space) {
            return;
        }
    }
}
