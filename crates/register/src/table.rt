// Rows in an array of the caller's.
ghost use Rattle.std.specs.Prelude.{◌≤◌, length};

pub mod grants;
pub mod placed;
pub mod rows;

/// The first `used` places of an array that the caller lends, at most `MOST` of them.
// A slice with its length beside it, since a register allocates nothing: its rows lie in arrays of the caller's.
#[derive(Drop)]
pub(crate) struct Table<'a, T, const MOST: usize> {
    pub(crate) places: &'a mut [T],
    pub(crate) used: usize,
    ghost room: { MOST ≤ length places.now },
    ghost few: { used ≤ MOST },
}
