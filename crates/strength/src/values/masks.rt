// The test of a mask.
ghost use Rattle.std.specs.Prelude.{◌≡◌, ℕ, ◌<◌, ◌≤◌, Decides};
ghost use Rattle.strength.specs.Masks.{bit, Within};

use super::Marks;

/// How many bits marks and masks have.
const MARK_BITS: u32 = 24;

impl Marks {
    /// Whether each of the 24 bits that the mask has is among these marks.
    pub fn contains(self, mask: Marks) -> bool
        ensures { Decides result (Within mask.0 self.0) }
    {
        (0..MARK_BITS).all(|k| (mask.0 >> k) % 2 == 0 || (self.0 >> k) % 2 == 1)
    }
}
