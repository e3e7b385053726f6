// Products that pass 128 bits, compared exactly.
ghost use Rattle.std.specs.Prelude.{◌≡◌, ◌^◌, pos, ◌-ℤ◌, ◌*ℤ◌, ◌<ℤ◌};
ghost use Rattle.std.specs.Ordering.{MatchOrdering};
ghost use Rattle.algebra.specs.Near.{Near};
ghost use Rattle.exact.specs.Wide.{halves_value, thirds_value, Digit, HalvesNear, ThirdsNear, Carried};

use std::cmp::Ordering;

// 2 ^ 48
const HALF: i128 = 281474976710656;

// The number high * 2 ^ 48 + low.
#[derive(Clone, Copy, Debug)]
pub struct Halves {
    pub high: i128,
    pub low: i128,
}

// The number high * 2 ^ 96 + middle * 2 ^ 48 + low.
// Its type keeps no bound: each step has another.
#[derive(Clone, Copy, Debug)]
pub struct Thirds {
    pub high: i128,
    pub middle: i128,
    pub low: i128,
}

// A number with a sign, its low part without.
fn split(a: i128) -> Halves
    requires { Near (2 ^ 100) a }
    ensures value { halves_value result ≡ a }
    ensures low { Digit result.low }
{
    Halves {
        high: a.div_euclid(HALF),
        low: a.rem_euclid(HALF),
    }
}

impl Halves {
    fn times(self, by: Halves) -> Thirds
        requires first { HalvesNear self }
        requires second { HalvesNear by }
        ensures value { thirds_value result ≡ halves_value self *ℤ halves_value by }
        ensures bound { ThirdsNear (2 ^ 97) result }
    {
        Thirds {
            high: self.high * by.high,
            middle: self.high * by.low + self.low * by.high,
            low: self.low * by.low,
        }
    }
}

impl Thirds {
    fn minus(self, by: Thirds) -> Thirds
        requires first { ThirdsNear (2 ^ 97) self }
        requires second { ThirdsNear (2 ^ 97) by }
        ensures value { thirds_value result ≡ thirds_value self -ℤ thirds_value by }
        ensures bound { ThirdsNear (2 ^ 98) result }
    {
        Thirds {
            high: self.high - by.high,
            middle: self.middle - by.middle,
            low: self.low - by.low,
        }
    }

    // The same number, with what the lower parts carry moved up: then only the highest has a sign.
    fn carried(self) -> Thirds
        requires { ThirdsNear (2 ^ 98) self }
        ensures value { thirds_value result ≡ thirds_value self }
        ensures parts { Carried result }
    {
        let low = split(self.low);
        let middle = split(self.middle + low.high);
        Thirds {
            high: self.high + middle.high,
            middle: middle.low,
            low: low.low,
        }
    }

    // The number against 0.
    fn sign(self) -> Ordering
        requires { ThirdsNear (2 ^ 98) self }
        ensures { MatchOrdering result (thirds_value self <ℤ pos 0) (thirds_value self ≡ pos 0) (pos 0 <ℤ thirds_value self) }
    {
        let number = self.carried();
        (number.high, number.middle, number.low).cmp(&(0, 0, 0))
    }
}

// a times b against c times d.
pub fn product_order(a: i128, b: i128, c: i128, d: i128) -> Ordering
    requires a { Near (2 ^ 96) a }
    requires b { Near (2 ^ 96) b }
    requires c { Near (2 ^ 96) c }
    requires d { Near (2 ^ 96) d }
    ensures { MatchOrdering result ((a *ℤ b) <ℤ (c *ℤ d)) (a *ℤ b ≡ c *ℤ d) ((c *ℤ d) <ℤ (a *ℤ b)) }
{
    let first = split(a).times(split(b));
    let second = split(c).times(split(d));
    first.minus(second).sign()
}
