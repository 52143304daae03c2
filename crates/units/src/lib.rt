// The whole units between which a fraction of whole numbers lies.
#![tactic(auto)]

ghost use Rattle.std.specs.Prelude.{◌≡◌, ◌<◌};
ghost use Rattle.units.specs.Units.{Divided, units_of};

// The greatest whole unit not above a value and the least not below it.
#[derive(Clone, Copy)]
pub struct Between {
    pub low: i64,
    pub high: i64,
}

// The greatest whole number not above a fraction, and what is left above the line.
#[derive(Clone, Copy)]
struct Parts {
    whole: i64,
    rest: u64,
}

fn divide(x: i64, d: u64) -> Parts
    requires { 0 < d }
    ensures { Divided x d result.whole result.rest }
{
    let size = integers::size(x);
    if x < 0 {
        let below = size - 1;
        return Parts {
            whole: -1 - (below / d) as i64,
            rest: d - 1 - below % d,
        };
    }
    Parts {
        whole: (size / d) as i64,
        rest: size % d,
    }
}

// x/d between two whole units, which are one where d divides x; 0 where nothing is under the line.
pub fn units_of(x: i64, d: u64) -> Between
    ensures { result ≡ units_of x d }
{
    if d == 0 {
        return Between { low: 0, high: 0 };
    }
    let parts = divide(x, d);
    let low = parts.whole;
    let high = if parts.rest == 0 { low } else { low + 1 };
    Between { low, high }
}
