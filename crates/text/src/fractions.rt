// Fractions in lowest terms.
ghost use Rattle.std.specs.Prelude.{Some};
ghost use Rattle.std.specs.Int.{IsGcd};
ghost use Rattle.text.specs.Lowest.{Reduced};
ghost use Rattle.text.specs.Spelling.{fraction};

use std::fmt;

// num / den; a minus sign stands above only.
#[derive(Clone, Copy, Debug)]
pub struct Fraction {
    pub num: i64,
    pub den: u64,
}

impl fmt::Display for Fraction {
    ghost output = { λ q. Some (fraction q.num q.den) };

    fn fmt<W: fmt::Write>(&self, f: &mut fmt::Formatter<W>) -> fmt::Result {
        write!(f, "{}/{}", self.num, self.den)
    }
}

// The greatest common divisor, by Euclid's way; of 0 and 0 it is 0.
pub fn gcd(mut a: u64, mut b: u64) -> u64
    ensures { IsGcd a b result }
{
    // A `while`: it goes over no items, and its end depends on what each turn computes.
    while b != 0 {
        (a, b) = (b, a % b);
    }
    a
}

impl Fraction {
    // x / w in lowest terms. Over 0 nothing is a fraction, and x and 0 stay as they are.
    pub fn lowest(x: i64, w: u64) -> Self
        ensures { Reduced x w result.num result.den }
    {
        if w == 0 {
            return Fraction { num: x, den: 0 };
        }
        let shared = gcd(x.unsigned_abs(), w);
        // the divisor may be 2^63, which no i64 holds
        let num = i128::from(x) / i128::from(shared);
        Fraction {
            num: num as i64,
            den: w / shared,
        }
    }
}
