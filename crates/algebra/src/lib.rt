// The laws of integers, places and linear forms that the crates above rest on, each the contract of a function.
#![tactic(auto)]

ghost use Rattle.algebra.specs.Laws.{RingLaws, Solver, SignRules, Intervals, SideIsForm, Interpolation, Moved, Negation, SignAlong, Stretch, Crossing, Triangle, ThreeVectors, SamePlace, Convexity, SameStanding, Straightness};

// The integers are a commutative ring.
pub fn ring_laws()
    ensures { RingLaws }
{}

// Two polynomials are equal where their difference has an empty normal form.
pub fn solver()
    ensures { Solver }
{}

// Signs and orders of sums and products.
pub fn sign_rules()
    ensures { SignRules }
{}

// Between what a sum, a difference and a product lie, and when that fits a type.
pub fn intervals()
    ensures { Intervals }
{}

// The side of a line that a place lies on is the value of a form.
pub fn side_is_form()
    ensures { SideIsForm }
{}

// A form's value on a stretch, from those at its ends.
pub fn interpolation()
    ensures { Interpolation }
{}

// A form's value at a place that is moved.
pub fn moved()
    ensures { Moved }
{}

// The negated form has the negated value.
pub fn negation()
    ensures { Negation }
{}

// The sign of a form along a stretch, from those at its ends.
pub fn sign_along()
    ensures { SignAlong }
{}

// Where a stretch begins and ends, and what lies on it.
pub fn stretch()
    ensures { Stretch }
{}

// A form that changes its sign on a stretch is 0 at a place of it.
pub fn crossing()
    ensures { Crossing }
{}

// A place, put together from a triangle's corners.
pub fn triangle()
    ensures { Triangle }
{}

// A vector, put together from two others.
pub fn three_vectors()
    ensures { ThreeVectors }
{}

// Places that are the same, as 2/2 is 1/1.
pub fn same_place()
    ensures { SamePlace }
{}

// A shape's inside is convex, and so is what it covers.
pub fn convexity()
    ensures { Convexity }
{}

// What is free, met, covered or inside at a place is so at the same place written otherwise.
pub fn same_standing()
    ensures { SameStanding }
{}

// A free stretch is free the other way, at its ends, and between any two of its places.
pub fn straightness()
    ensures { Straightness }
{}
