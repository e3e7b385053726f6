// How large the numbers of this crate become.
ghost use Rattle.exact.specs.Stands.{Stands};

// No number on the way passes the bounds that are stated.
pub fn exact_stands()
    ensures { Stands }
{}
