// Shapes, as values: the first corners of an array, which make a sound shape.
ghost use Rattle.std.specs.Prelude.{◌≡◌, ◌<◌, ◌≤◌, T, length};
ghost use Rattle.hall.specs.Format.{sound};
ghost use Rattle.hall.specs.Outlines.{outline, within};

use exact::points::Corner;

// A sound shape of at most N corners, each below 2,048 in size. The corners are an array beside their count, and no `Vec`: shapes are copied and take
// no memory that could be wanting.
#[derive(Clone, Copy)]
pub struct Shape<const N: usize> {
    pub(crate) corners: [Corner; N],
    pub(crate) count: u8,
    ghost few: { (count ≤ N) × (length corners ≡ N) × (count < 256) },
    ghost near: { T (within 2047 (outline count corners)) },
    ghost sound: { T (sound (outline count corners)) },
}
