// Reach as a kind of strength.
ghost use Rattle.std.specs.Prelude.{◌≡◌};
ghost use Rattle.strength.specs.Masks.{within};
ghost use Rattle.strength.specs.Reaches.{reach_kind, passes, lowered_reach, next_count, next_mask};
ghost use Rattle.strength.specs.ReachLaws.{reach_reflexive, reach_transitive, reach_antisymmetric, reach_decreasing, reach_monotone, reach_reads_back, reach_keeps_word};
ghost use Rattle.std.proofs.Common.{rules};

use super::{Count, Marks, Reach};
use crate::kinds::Half;

/// The count after passing on.
fn count_left(count: Count) -> Count
    ensures { result.0 ≡ next_count count.0 }
{
    if count == Count::UNLIMITED {
        return count;
    }
    Count(count.0.saturating_sub(1))
}

/// The mask after passing on, at the new count.
fn mask_left(count: Count, mask: Marks) -> Marks
    ensures { result.0 ≡ next_mask count.0 mask.0 }
{
    if count.0 == 0 { Marks(0) } else { mask }
}

impl Reach {
    /// Whether these marks have all of the mask.
    fn is_open_to(self, marks: Marks) -> bool
        ensures { result ≡ within self.mask.0 marks.0 }
    {
        marks.contains(self.mask)
    }

    /// Whether this reach can be passed on to somebody with these marks.
    fn passes_to(self, marks: Marks) -> bool
        ensures { result ≡ passes self marks.0 }
    {
        self.count.0 > 0 && self.is_open_to(marks)
    }

    /// What is left after passing on.
    fn lowered(self) -> Reach
        ensures { result ≡ lowered_reach self }
    {
        let count = count_left(self.count);
        let mask = mask_left(count, self.mask);
        Reach { count, mask }
    }
}

/// A reach is at least any of count 0, and those of no higher count that ask for all its marks. Its
/// word is the count above the 24 bits of the mask.
impl Half for Reach {
    ghost half = { reach_kind };

    ghost reflexive = { reach_reflexive };

    ghost transitive = { reach_transitive };

    ghost antisymmetric = { reach_antisymmetric };

    ghost decreasing = { reach_decreasing };

    ghost monotone = { reach_monotone };

    ghost reads_back = { reach_reads_back };

    ghost keeps_word = { reach_keeps_word };

    ghost short = { Prim.search rules };

    fn half_at_least(self, other: Reach) -> bool {
        other.count.0 == 0 || (self.count.0 >= other.count.0 && self.is_open_to(other.mask))
    }

    fn half_passed_on(self, marks: Marks) -> Option<Reach> {
        if self.passes_to(marks) {
            Some(self.lowered())
        } else {
            None
        }
    }

    fn half_word(self) -> u32 {
        u32::from(self.count.0) * Marks::LIMIT + self.mask.0
    }

    fn from_half_word(word: u32) -> Option<Reach> {
        let count = Count((word / Marks::LIMIT) as u8);
        let mask = Marks(word % Marks::LIMIT);
        Reach::new(count, mask)
    }
}
