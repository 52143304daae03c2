// The listing of a chart file, as text in lent bytes.
#![tactic(auto)]

ghost use Rattle.std.specs.Prelude.{◌≡◌, ◌/◌, length};
ghost use Rattle.charts.specs.Chart.{verdict_of};
ghost use Rattle.charts.specs.Verdict.{Accepted};
ghost use Rattle.decimals.specs.Text.{text as text_of, put};
ghost use Rattle.listing.specs.Listing.{chart_text, listing_of, listing_answer, lent_after};

use charts::{Answer, MOST, Reason};

// The bytes of every pair of the largest chart.
const PAIRS: usize = MOST * (MOST - 1);

// The bytes of the longest listing, of which a line of a pair has 47: a caller lends as many.
pub const LONGEST: usize = 10 + 13 + PAIRS / 2 * 47 + 17;

// The text of an accepted list, swept to its end in the new mode.
fn put_chart(list: &[i32], text: &mut [u8]) -> usize
    requires { verdict_of list.now ≡ Accepted (length list.now / 5) }
    ensures { text_of text.new result ≡ put (chart_text list.now (length list.now / 5)) (text_of text.old 0) }
{
    let mut pairs = [0u8; PAIRS];
    let swept = full_sweep::sweep(list, u32::MAX, &mut pairs);
    let bytes = 2 * swept.pairs;
    let count = list.len() / 5;
    let counted = count_lines::put_count(text, 0, b"chart ", count as u64);
    let told = count_lines::put_complete(text, counted, swept.complete);
    let listed = pair_lines::put_pairs(list, &pairs[..bytes], text, told);
    count_lines::put_count(text, listed, b"steps ", swept.steps as u64)
}

// The text of a file, from the start of the bytes on; where it ends.
fn put_file(file: &[u8], text: &mut [u8]) -> usize
    ensures { text_of text.new result ≡ put (listing_of file.now) (text_of text.old 0) }
{
    let mut list = [0i32; chart_file::NUMBERS];
    let read = file_reader::read(file, &mut list);
    let number = read.number;
    if number != 0 {
        return count_lines::put_count(text, 0, b"refused ", number as u64);
    }
    let end = 5 * read.count;
    put_chart(&list[..end], text)
}

// The listing of a file into lent bytes, at least LONGEST of them; how many it takes.
pub fn put_listing(file: &[u8], text: &mut [u8]) -> Answer
    ensures { (result ≡ listing_answer file.now (length text.old)) × (text.new ≡ lent_after file.now text.old) }
{
    if text.len() < LONGEST {
        return chart_verdict::refused(Reason::Room.at(0));
    }
    chart_verdict::done(put_file(file, text))
}
