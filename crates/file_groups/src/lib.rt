// A number of a chart file put in groups of seven bits, by its leading zeros.
#![tactic(auto)]

ghost use Rattle.std.specs.Prelude.{◌≡◌, ◌+◌, ◌≤◌, ◌<◌, ◌^◌, length};
ghost use Rattle.std.proofs.lemmas.List.Edits.{sets};
ghost use Rattle.chart_file.specs.Groups.{spelled};
ghost use Rattle.chart_file.specs.Coordinate.{stored};
ghost use Rattle.chart_file.specs.Format.{groups};
ghost use Rattle.chart_writer.specs.Zeros.{groups_by};

// What a coordinate is stored as.
pub fn stored(v: i32) -> u32
    ensures { result ≡ stored v }
{
    if v < 0 {
        return 2 * ((-1 - v) as u32) + 1;
    }
    2 * (v as u32)
}

// How many groups of a number come before its last: seven of its binary digits stand in each, and its digits are
// those below its leading zeros.
fn more_groups(v: u32) -> usize
    ensures { result + 1 ≡ groups_by 32 v }
{
    if v == 0 {
        return 0;
    }
    ((31 - u32::leading_zeros(v)) / 7) as usize
}

// Writes the groups of a count or of a stored number at a place; the place after them.
pub fn put_groups(v: u32, out: &mut [u8], at: usize) -> usize
    requires { (v < 128 ^ groups) × (at + length (spelled groups v) ≤ length out.old) }
    ensures { (result ≡ at + length (spelled groups v)) × (out.new ≡ sets out.old at (spelled groups v)) }
{
    let last = at + more_groups(v);
    let mut rest = v;
    for group in &mut out[at..last] {
        *group = (128 + rest % 128) as u8;
        rest /= 128;
    }
    out[last] = rest as u8;
    last + 1
}
