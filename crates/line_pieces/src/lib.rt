// The pieces of a folded line, written from left to right.
#![tactic(auto)]

ghost use Rattle.std.specs.Prelude.{◌≡◌, ◌+◌, ◌*◌, ◌≤◌, ◌<◌, pos, length};
ghost use Rattle.std.proofs.lemmas.List.Edits.{sets};
ghost use Rattle.folded_line.specs.Folded.{folded as folded_of};
ghost use Rattle.folded_line.specs.Line.{joint as joint_of, kind_of, end_at, five, fives};
ghost use Rattle.folded_line.specs.Drawing.{most_order, limit, most_pieces, Sized};

// How far v lies from the nearest even multiple of h.
fn folded(h: usize, v: usize) -> usize
    requires { (0 < h) × (h ≤ limit) }
    ensures { result ≡ folded_of h v }
{
    let r = v % (2 * h);
    if h < r { 2 * h - r } else { r }
}

// m times x, folded at 0 and H, from x = 0 to S.
#[derive(Clone, Copy)]
struct Line {
    m: usize,
    h: usize,
    s: usize,
}

// Where the line folds for the j-th time, or S where that comes first.
fn joint(line: Line, j: usize) -> usize
    requires { Sized line.m line.h line.s × (j ≤ most_pieces) }
    ensures { result ≡ joint_of line.m line.h line.s j }
{
    let x = j * line.h / line.m;
    if line.s < x { line.s } else { x }
}

// An end of a piece: x, and the folded value there.
fn end_at(line: Line, x: usize) -> [i32; 2]
    requires { Sized line.m line.h line.s × (x ≤ line.s) }
    ensures { result ≡ end_at line.m line.h x }
{
    [x as i32, folded(line.h, line.m * x) as i32]
}

// The final piece includes both its ends, any other its first.
fn kind_of(n: usize, j: usize) -> i32
    requires { j < most_pieces }
    ensures { result ≡ pos (kind_of n j) }
{
    if j + 1 == n { 3 } else { 1 }
}

// Piece j of n: its kind, its first end and its last.
fn five(line: Line, n: usize, j: usize) -> [i32; 5]
    requires { Sized line.m line.h line.s × (j < n) × (n ≤ most_pieces) }
    ensures { result ≡ five line.m line.h line.s n j }
{
    let kind = kind_of(n, j);
    let [x1, y1] = end_at(line, joint(line, j));
    let [x2, y2] = end_at(line, joint(line, j + 1));
    [kind, x1, y1, x2, y2]
}

// Writes the n pieces, from left to right.
pub fn put_pieces(m: usize, h: usize, s: usize, n: usize, out: &mut [i32])
    requires { Sized m h s × (n ≤ most_pieces) × (5 * n ≤ length out.old) }
    ensures { out.new ≡ sets out.old 0 (fives m h s n n) }
{
    let line = Line { m, h, s };
    // by number: after a walk over the list in fives nothing would be known of what it holds
    for j in 0..n {
        out[5 * j..5 * j + 5].copy_from_slice(&five(line, n, j));
    }
}
