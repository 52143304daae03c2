// The chart program: a chart file on standard input, its listing on standard output. What it prints is print_parts'; nothing
// of the input past what decides it is read.
#![tactic(auto)]

// The descriptor that a program reads from.
const STANDARD_INPUT: i32 = 0;

fn main() {
    let mut file = [0u8; listing::DECIDING];
    let size = io::read_full(STANDARD_INPUT, &mut file);
    print_parts::print(&file[..size]);
}
