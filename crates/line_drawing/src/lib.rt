// The folded line drawn: the pieces of m times x, folded at 0 and H, from x = 0 to S.
#![tactic(auto)]

ghost use Rattle.folded_line.specs.Drawing.{Draws};

use charts::Answer;

// Draws the line into a lent list, five numbers a piece; the count of pieces. Where it is refused, nothing is written.
pub fn draw(m: usize, h: usize, s: usize, out: &mut [i32]) -> Answer
    ensures { Draws m h s out.old result out.new }
{
    match line_refusals::drawing_of(m, h, s, out.len()) {
        Err(refusal) => chart_verdict::refused(refusal),
        Ok(n) => {
            line_pieces::put_pieces(m, h, s, n, out);
            chart_verdict::done(n)
        }
    }
}
