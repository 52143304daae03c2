// Text in lent bytes: words and decimal numbers, one after another. Every function takes every value and every text; where
// a text is full, what is put is left out.
#![tactic(auto)]

ghost use Rattle.std.specs.Prelude.{◌≡◌, [], ◌∷◌, ◌%◌};
ghost use Rattle.decimals.specs.Text.{text as text_of, put};
ghost use Rattle.decimals.specs.Decimal.{digit, decimal, signed_decimal};

// A byte at the end of a text; where the text ends then.
pub fn put_byte(text: &mut [u8], end: usize, byte: u8) -> usize
    ensures { text_of text.new result ≡ put (byte ∷ []) (text_of text.old end) }
{
    if text.len() <= end {
        return end;
    }
    text[end] = byte;
    end + 1
}

// A word at the end of a text.
pub fn put_word(text: &mut [u8], end: usize, word: &[u8]) -> usize
    ensures { text_of text.new result ≡ put word.now (text_of text.old end) }
{
    let mut next = end;
    for byte in word {
        next = put_byte(text, next, *byte);
    }
    next
}

// The ASCII code of the last digit of a number.
fn last_digit(n: u64) -> u8
    ensures { result ≡ digit (n % 10) }
{
    48 + (n % 10) as u8
}

// A number's digits at the end of a text: it falls at every call.
pub fn put_natural(text: &mut [u8], end: usize, n: u64) -> usize
    ensures { text_of text.new result ≡ put (decimal n) (text_of text.old end) }
{
    if n < 10 {
        return put_byte(text, end, last_digit(n));
    }
    let next = put_natural(text, end, n / 10);
    put_byte(text, next, last_digit(n))
}

// The same of a signed number.
pub fn put_integer(text: &mut [u8], end: usize, z: i64) -> usize
    ensures { text_of text.new result ≡ put (signed_decimal z) (text_of text.old end) }
{
    if z < 0 {
        let next = put_byte(text, end, b'-');
        return put_natural(text, next, integers::size(z));
    }
    put_natural(text, end, integers::size(z))
}
