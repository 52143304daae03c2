#![tactic(auto)]

ghost use Rattle.std.specs.Prelude.{◌≡◌, nat_abs};

// The size of a number, without its sign: at the least i64 too, whose size no i64 holds.
pub fn size(z: i64) -> u64
    ensures { result ≡ nat_abs z }
{
    if z < 0 { (-1 - z) as u64 + 1 } else { z as u64 }
}
