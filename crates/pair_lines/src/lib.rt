// The lines of pairs, each put at the end of a text; where the text ends then.
#![tactic(auto)]

ghost use Rattle.std.specs.Prelude.{◌≡◌};
ghost use Rattle.decimals.specs.Text.{text as text_of, put};
ghost use Rattle.charts.specs.Piece.{piece_at};
ghost use Rattle.place.specs.Place.{where_of};
ghost use Rattle.listing_lines.specs.Lines.{pair_line, pairs_in, pair_lines};

use chart_pieces::piece_at;

// The line of pieces a and b of a list.
fn put_pair(list: &[i32], text: &mut [u8], end: usize, a: u8, b: u8) -> usize
    ensures { text_of text.new result ≡ put (pair_line (where_of (piece_at list.now a) (piece_at list.now b)) a b) (text_of text.old end) }
{
    let i = a as usize;
    let j = b as usize;
    let found = exact_place::exact(piece_at(list, i), piece_at(list, j));
    let named = decimals::put_word(text, end, b"pair ");
    let first = decimals::put_natural(text, named, a as u64);
    let spaced = decimals::put_byte(text, first, b' ');
    let second = decimals::put_natural(text, spaced, b as u64);
    let placed = place_text::put_place(text, second, found);
    decimals::put_byte(text, placed, b'\n')
}

// The lines of pairs of pieces, two bytes a pair, in their order.
pub fn put_pairs(list: &[i32], pairs: &[u8], text: &mut [u8], end: usize) -> usize
    ensures { text_of text.new result ≡ put (pair_lines list.now (pairs_in pairs.now)) (text_of text.old end) }
{
    let mut next = end;
    for [a, b] in pairs.as_chunks::<2>().0 {
        next = put_pair(list, text, next, *a, *b);
    }
    next
}
