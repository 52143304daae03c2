// A part of a chart file's listing, put into lent bytes that hold no more than it.
#![tactic(auto)]

ghost use Rattle.std.specs.Prelude.{◌≡◌, ◌*◌, take, drop};
ghost use Rattle.decimals.specs.Text.{text as text_of, put};
ghost use Rattle.listing_lines.specs.Lines.{pairs_in, pair_lines};
ghost use Rattle.listing_parts.specs.Parts.{part_bytes, parts_of, head_of, foot_of, part_of};

use bentley_ottmann::Swept;
use listing_parts::BYTES;

// How many parts a listing has, of which the pairs are so many bytes.
pub fn parts_of(bytes: usize) -> usize
    ensures { result ≡ parts_of bytes }
{
    bytes / BYTES + 1
}

// The two lines that only the first part begins with; where they end.
fn put_head(list: &[i32], complete: bool, part: usize, text: &mut [u8]) -> usize
    ensures { text_of text.new result ≡ put (head_of list.now complete part) (text_of text.old 0) }
{
    if part != 0 {
        return 0;
    }
    let count = list.len() / 5;
    let counted = count_lines::put_count(text, 0, b"chart ", count as u64);
    count_lines::put_complete(text, counted, complete)
}

// The lines of a part's pairs, which the last part has fewer of than the others.
fn put_lines(list: &[i32], pairs: &[u8], part: usize, text: &mut [u8], end: usize) -> usize
    ensures { text_of text.new result ≡ put (pair_lines list.now (pairs_in (take part_bytes (drop (part_bytes * part) pairs.now)))) (text_of text.old end) }
{
    let last = pairs.len() / BYTES;
    if last < part {
        return end;
    }
    let from = BYTES * part;
    if part == last {
        return pair_lines::put_pairs(list, &pairs[from..], text, end);
    }
    let to = from + BYTES;
    pair_lines::put_pairs(list, &pairs[from..to], text, end)
}

// The line that only the last part ends with.
fn put_foot(steps: u32, bytes: usize, part: usize, text: &mut [u8], end: usize) -> usize
    ensures { text_of text.new result ≡ put (foot_of steps bytes part) (text_of text.old end) }
{
    if part != bytes / BYTES {
        return end;
    }
    count_lines::put_count(text, end, b"steps ", steps as u64)
}

// A part of the listing of a list that was read with this number, 0 where it is a chart's, and swept, with the bytes of its
// pairs; where the part ends.
pub fn put_part(
    number: u8,
    list: &[i32],
    swept: Swept,
    pairs: &[u8],
    part: usize,
    text: &mut [u8],
) -> usize
    ensures { text_of text.new result ≡ put (part_of number list.now swept pairs.now part) (text_of text.old 0) }
{
    if number != 0 {
        return count_lines::put_count(text, 0, b"refused ", number as u64);
    }
    let begun = put_head(list, swept.complete, part, text);
    let listed = put_lines(list, pairs, part, text, begun);
    put_foot(swept.steps, pairs.len(), part, text, listed)
}
