// Two fractions with pencil and paper: whole parts first, then the remainders turned over, until they differ or one is
// zero. Everything under a line here is above 0.
#![tactic(auto)]

ghost use Rattle.std.specs.Prelude.{◌≡◌, ◌+◌, ◌*◌, ◌<◌, pos, neg_ℤ};
ghost use Rattle.fractions.specs.Fraction.{ratio_order};

use std::cmp::Ordering;

// A fraction below 0 is -whole and rest over the number under its line: -whole is its floor.
#[derive(Clone, Copy)]
struct Floor {
    whole: u64,
    rest: u64,
}

// n over d against m over e. What is left of each is below 1; turned over, the greater is the lesser, so the two
// change places. The divisors fall at every call.
pub fn compare_above(n: u64, d: u64, m: u64, e: u64) -> Ordering
    requires { (0 < d) × (0 < e) }
    ensures { result ≡ ratio_order (pos n) d (pos m) e }
{
    if d == e {
        return n.cmp(&m);
    }
    let p = n / d;
    let q = m / e;
    if p != q {
        return p.cmp(&q);
    }
    let s = n % d;
    let t = m % e;
    if s == 0 || t == 0 {
        return s.cmp(&t);
    }
    compare_above(e, t, d, s)
}

// The floor of -n over d: away from 0, unless d divides n.
fn floor_below(n: u64, d: u64) -> Floor
    requires { 0 < d }
    ensures { (result.whole * d ≡ n + result.rest) × (result.rest < d) }
{
    let whole = n / d;
    let rest = n % d;
    if rest == 0 {
        return Floor { whole, rest };
    }
    Floor {
        whole: whole + 1,
        rest: d - rest,
    }
}

// -n over d against -m over e.
pub fn compare_below(n: u64, d: u64, m: u64, e: u64) -> Ordering
    requires { (0 < d) × (0 < e) }
    ensures { result ≡ ratio_order (neg_ℤ (pos n)) d (neg_ℤ (pos m)) e }
{
    if d == e {
        return m.cmp(&n);
    }
    let p = floor_below(n, d);
    let q = floor_below(m, e);
    if p.whole != q.whole {
        return q.whole.cmp(&p.whole);
    }
    compare_above(p.rest, d, q.rest, e)
}
