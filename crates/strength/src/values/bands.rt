// Band as a kind of strength.
ghost use Rattle.strength.specs.Bands.{band_kind};
ghost use Rattle.strength.specs.BandLaws.{band_antisymmetric, band_monotone, band_reads_back, band_keeps_word};
ghost use Rattle.std.proofs.Common.{rules};

use super::{Band, Marks, Tenths};
use crate::kinds::Half;

/// Temperatures in a word are below this, as they have 16 bits.
const TENTHS_LIMIT: u32 = 65_536;

/// A band is at least any that lies inside it, and passes to any marks, as itself. Its word is the
/// highest above the 16 bits of the lowest.
impl Half for Band {
    ghost half = { band_kind };

    ghost reflexive = { Prim.search rules };

    ghost transitive = { Prim.search rules };

    ghost antisymmetric = { band_antisymmetric };

    ghost decreasing = { Prim.search rules };

    ghost monotone = { band_monotone };

    ghost reads_back = { band_reads_back };

    ghost keeps_word = { band_keeps_word };

    ghost short = { Prim.search rules };

    fn half_at_least(self, other: Band) -> bool {
        self.lowest.0 <= other.lowest.0 && other.highest.0 <= self.highest.0
    }

    fn half_passed_on(self, _marks: Marks) -> Option<Band> {
        Some(self)
    }

    fn half_word(self) -> u32 {
        u32::from(self.highest.0) * TENTHS_LIMIT + u32::from(self.lowest.0)
    }

    fn from_half_word(word: u32) -> Option<Band> {
        let lowest = Tenths((word % TENTHS_LIMIT) as u16);
        let highest = Tenths((word / TENTHS_LIMIT) as u16);
        Band::new(lowest, highest)
    }
}
