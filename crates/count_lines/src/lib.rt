// The lines of a listing that tell a count, and the one that tells whether anything is missing, each put at the end of a text;
// where the text ends then.
#![tactic(auto)]

ghost use Rattle.std.specs.Prelude.{◌≡◌};
ghost use Rattle.decimals.specs.Text.{text as text_of, put};
ghost use Rattle.listing_lines.specs.Lines.{count_line, complete_line};

// A word and a number.
pub fn put_count(text: &mut [u8], end: usize, word: &[u8], n: u64) -> usize
    ensures { text_of text.new result ≡ put (count_line word.now n) (text_of text.old end) }
{
    let named = decimals::put_word(text, end, word);
    let counted = decimals::put_natural(text, named, n);
    decimals::put_byte(text, counted, b'\n')
}

pub fn put_complete(text: &mut [u8], end: usize, complete: bool) -> usize
    ensures { text_of text.new result ≡ put (complete_line complete) (text_of text.old end) }
{
    if complete {
        return decimals::put_word(text, end, b"complete yes\n");
    }
    decimals::put_word(text, end, b"complete no\n")
}
