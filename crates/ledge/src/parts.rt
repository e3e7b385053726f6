// Ledges in words: the parts of a map. The words are lent by the caller, since a map takes no memory of its own.
ghost use Rattle.std.specs.Prelude.{◌≡◌, ℕ, ◌+◌, ◌-◌, ◌*◌, ◌^◌, ◌<◌, ◌≤◌, length, Decides};
ghost use Rattle.exact.specs.Points.{place_of};
ghost use Rattle.exact.specs.Sides.{PlaceNear};
ghost use Rattle.ledge.specs.Parts.{words_place, words_part, Written, LedgeNear, Along, Marked};

use exact::orders::x_order;
use exact::points::Place;

// A run of free places of a surface, from left to right, its ends included.
#[derive(Clone, Copy)]
pub struct Ledge {
    pub from: Place,
    pub to: Place,
}

// What a part of the map is. No Option: the project wants an enum with data here (docs/DECISIONS.md).
#[derive(Clone, Copy)]
pub enum Part {
    Free(Ledge),
    Vacant,
}

// A place takes three words.
pub fn place_at(words: &[u64], at: usize) -> Place
    requires { at + 3 ≤ length words.now }
    ensures { result ≡ words_place words.now at }
{
    Place {
        x: words[at].cast_signed(),
        y: words[at + 1].cast_signed(),
        w: words[at + 2],
    }
}

pub fn put_place(words: &mut [u64], at: usize, p: Place)
    requires { at + 3 ≤ length words.old }
    ensures here { words_place words.new at ≡ p }
    ensures others { Written words.old words.new at 3 }
{
    words[at] = p.x.cast_unsigned();
    words[at + 1] = p.y.cast_unsigned();
    words[at + 2] = p.w;
}

// A ledge takes six; where the first place has no w, there is none.
pub fn part_at(words: &[u64], i: usize) -> Part
    requires { 6 * i + 6 ≤ length words.now }
    ensures { result ≡ words_part words.now i }
{
    let from = place_at(words, 6 * i);
    if from.w == 0 {
        return Part::Vacant;
    }
    Part::Free(Ledge {
        from,
        to: place_at(words, 6 * i + 3),
    })
}

pub fn put_part(words: &mut [u64], i: usize, part: Part)
    requires room { 6 * i + 6 ≤ length words.old }
    requires real { Marked part }
    ensures here { words_part words.new i ≡ part }
    ensures others { Written words.old words.new (6 * i) 6 }
{
    match part {
        Part::Free(ledge) => {
            put_place(words, 6 * i, ledge.from);
            put_place(words, 6 * i + 3, ledge.to);
        }
        Part::Vacant => words[6 * i + 2] = 0,
    }
}

impl Ledge {
    // Whether a place of the surface is on the ledge.
    pub fn holds(self, p: Place) -> bool
        requires ledge { LedgeNear self }
        requires place { PlaceNear (2 ^ 38 - 1) (2 ^ 25 - 1) p }
        ensures { Decides result (Along self (place_of p)) }
    {
        x_order(self.from, p).is_le() && x_order(p, self.to).is_le()
    }
}
