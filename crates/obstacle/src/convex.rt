// The theory of sound shapes, law by law: each is the contract of a function.
ghost use Rattle.obstacle.specs.Section.{CrossSection, InsideSpans};
ghost use Rattle.obstacle.specs.Convex.{Strictly, EachOnce, Fan, Supports, SupportsStrictly, Open, Away, Closed, HasInside, InsideCovers};

// A corner that is no end of a side lies strictly to the left of it.
pub fn strictly()
    ensures { Strictly }
{}

// Each corner of a sound shape comes once.
pub fn each_once()
    ensures { EachOnce }
{}

// The triangles from corner 0 cover what a sound shape covers.
pub fn fan()
    ensures { Fan }
{}

// A form that is not below 0 at the corners is not below 0 at what the shape covers.
pub fn supports()
    ensures { Supports }
{}

// And it is above 0 at what is inside.
pub fn supports_strictly()
    ensures { SupportsStrictly }
{}

// An inside place can be moved a little towards any other.
pub fn open()
    ensures { Open }
{}

// And a little away from it.
pub fn away()
    ensures { Away }
{}

// What is not inside is closed along a stretch.
pub fn closed()
    ensures { Closed }
{}

// Every sound shape has an inside place.
pub fn has_inside()
    ensures { HasInside }
{}

// What is inside is covered.
pub fn inside_covers()
    ensures { InsideCovers }
{}

// An upright line meets a sound shape between a lower and an upper side.
pub fn cross_section()
    ensures { CrossSection }
{}

// What is inside has corners to its left and to its right.
pub fn inside_spans()
    ensures { InsideSpans }
{}
