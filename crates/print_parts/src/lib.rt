// The listing of a chart file printed in parts: what the chart program prints.
#![tactic(auto)]

ghost use Rattle.std.specs.Prelude.{◌≤◌, length};
ghost use Rattle.listing_parts.specs.Parts.{part_of};
ghost use Rattle.listing_parts.specs.Demand.{ReadList};

use bentley_ottmann::Swept;
use charts::MOST;
use listing_parts::BYTES;

// The descriptor that a program writes to.
const STANDARD_OUTPUT: i32 = 1;

// The bytes of the longest part. They go out with one write.
const LONGEST: usize = 10 + 13 + BYTES / 2 * 47 + 17;

// Writes a part that has room.
fn write_part(number: u8, list: &[i32], swept: Swept, pairs: &[u8], part: usize, text: &mut [u8])
    requires { length (part_of number list.now swept pairs.now part) ≤ length text.old }
{
    let end = part_text::put_part(number, list, swept, pairs, part, text);
    io::write_all(STANDARD_OUTPUT, &text[..end]);
}

// Sweeps a list that was read with this number, and writes its parts one after the other.
fn print_list(number: u8, list: &[i32])
    requires { ReadList number list.now }
{
    let mut pairs = [0u8; MOST * (MOST - 1)];
    let swept = full_sweep::sweep(list, u32::MAX, &mut pairs);
    let bytes = 2 * swept.pairs;
    let parts = part_text::parts_of(bytes);
    let mut text = [0u8; LONGEST];
    // by number: a part is known by its number alone, and no list holds them
    for part in 0..parts {
        write_part(number, list, swept, &pairs[..bytes], part, &mut text);
    }
}

// Prints the listing of a file.
pub fn print(file: &[u8]) {
    let mut list = [0i32; chart_file::NUMBERS];
    let read = file_reader::read(file, &mut list);
    let end = 5 * read.count;
    print_list(read.number, &list[..end]);
}
