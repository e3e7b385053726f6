// What a program has to say.
ghost use Rattle.std.specs.Prelude.{Some};
ghost use Rattle.text.specs.Spelling.{line, lines, told};

use crate::fractions::Fraction;
use exact::points::Place;
use std::fmt;

#[derive(Clone, Copy)]
pub enum Answer<'a> {
    // over these places, the start and the end among them
    Way(&'a [Place]),
    // there is no way
    None,
    // the way that was given is one
    Accepted,
    // it is not known whether there is one
    Undecided,
}

// A place of a way, to be printed on a line of its own.
#[derive(Clone, Copy)]
struct Line(Place);

impl fmt::Display for Line {
    ghost output = { λ l. Some (line l.0) };

    fn fmt<W: fmt::Write>(&self, f: &mut fmt::Formatter<W>) -> fmt::Result {
        let Place { x, y, w } = self.0;
        let x = Fraction::lowest(x, w);
        let y = Fraction::lowest(y, w);
        writeln!(f, "{x} {y}")
    }
}

// The lines of places. A type of its own: of a slice in an enum the check doesn't know that an index times a size fits.
#[derive(Clone, Copy)]
struct Lines<'a>(&'a [Place]);

impl fmt::Display for Lines<'_> {
    ghost output = { λ l. Some (lines l.0.now) };

    fn fmt<W: fmt::Write>(&self, f: &mut fmt::Formatter<W>) -> fmt::Result {
        // A `for` with `?` is as plain as `try_for_each`.
        for place in self.0 {
            write!(f, "{}", Line(*place))?;
        }
        Ok(())
    }
}

// Lines, each ended by a newline.
impl fmt::Display for Answer<'_> {
    ghost output = { λ a. Some (told a) };

    fn fmt<W: fmt::Write>(&self, f: &mut fmt::Formatter<W>) -> fmt::Result {
        match *self {
            Answer::Way(places) => write!(f, "way\n{}", Lines(places)),
            Answer::None => f.write_str("none\n"),
            Answer::Accepted => f.write_str("accepted\n"),
            Answer::Undecided => f.write_str("undecided\n"),
        }
    }
}
