// Where two pieces meet, as a pair's line tells it, put at the end of a text; where the text ends then.
#![tactic(auto)]

ghost use Rattle.std.specs.Prelude.{◌≡◌};
ghost use Rattle.decimals.specs.Text.{text as text_of, put};
ghost use Rattle.listing_lines.specs.Lines.{number_text, point_text, end_text, place_text};

use fractions::Point;
use place::Where;

// A space and a number.
fn put_number(text: &mut [u8], end: usize, z: i64) -> usize
    ensures { text_of text.new result ≡ put (number_text z) (text_of text.old end) }
{
    let spaced = decimals::put_byte(text, end, b' ');
    decimals::put_integer(text, spaced, z)
}

// The whole units between which a point's speed lies, and then its frequency.
fn put_point(text: &mut [u8], end: usize, p: Point) -> usize
    ensures { text_of text.new result ≡ put (point_text p) (text_of text.old end) }
{
    let speed = units::units_of(p.x, p.d);
    let frequency = units::units_of(p.y, p.d);
    let from = put_number(text, end, speed.low);
    let across = put_number(text, from, speed.high);
    let up = put_number(text, across, frequency.low);
    put_number(text, up, frequency.high)
}

// An end of an overlap, which is whole.
fn put_end(text: &mut [u8], end: usize, p: Point) -> usize
    ensures { text_of text.new result ≡ put (end_text p) (text_of text.old end) }
{
    let x = units::units_of(p.x, p.d);
    let y = units::units_of(p.y, p.d);
    let across = put_number(text, end, x.low);
    put_number(text, across, y.low)
}

// Where two pieces meet.
pub fn put_place(text: &mut [u8], end: usize, w: Where) -> usize
    ensures { text_of text.new result ≡ put (place_text w) (text_of text.old end) }
{
    match w {
        Where::Nothing => end,
        Where::At(p) => {
            let said = decimals::put_word(text, end, b" at");
            put_point(text, said, p)
        }
        Where::Along(p, q) => {
            let said = decimals::put_word(text, end, b" along");
            let from = put_end(text, said, p);
            put_end(text, from, q)
        }
    }
}
