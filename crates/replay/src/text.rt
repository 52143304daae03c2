// Words and numbers on standard output.
use fractions::Point;

// The descriptor that a program writes to.
const STANDARD_OUTPUT: i32 = 1;

pub fn words(bytes: &[u8]) {
    io::write_all(STANDARD_OUTPUT, bytes);
}

pub fn number(before: &[u8], v: u64) {
    words(before);
    io::print_decimal(STANDARD_OUTPUT, v);
}

pub fn signed(before: &[u8], v: i64) {
    words(before);
    if v < 0 {
        words(b"-");
    }
    io::print_decimal(STANDARD_OUTPUT, integers::size(v));
}

// A point as X, Y, D.
pub fn point(before: &[u8], p: Point) {
    signed(before, p.x);
    signed(b" ", p.y);
    number(b" ", p.d);
}

pub fn yes_or_no(before: &[u8], yes: bool) {
    words(before);
    let word: &[u8] = if yes { b"yes" } else { b"no" };
    words(word);
}

// The 16 hexadecimal digits of a binary64.
pub fn binary64(before: &[u8], v: f64) {
    words(before);
    if v == v {
        io::print_hex(STANDARD_OUTPUT, f64::to_bits(v), 16);
    } else {
        words(b"nan");
    }
}

pub fn refusal(fault: u8, place: usize) {
    number(b"refused ", fault as u64);
    number(b" ", place as u64);
    words(b"\n");
}

fn coordinate(v: i32) {
    signed(b" ", v as i64);
}

// The count of a chart's pieces and its numbers.
pub fn chart(list: &[i32]) {
    number(b"read ", (list.len() / 5) as u64);
    for v in list {
        coordinate(*v);
    }
    words(b"\n");
}

fn piece(i: u8) {
    number(b" ", i as u64);
}

// So many pairs, two bytes a pair.
pub fn pairs(bytes: &[u8], count: usize) {
    for pair in bytes.chunks(2).take(count) {
        for i in pair {
            piece(*i);
        }
    }
    words(b"\n");
}
