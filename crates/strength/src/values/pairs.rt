// A pair of two kinds as a kind of strength.
ghost use Rattle.strength.specs.Pairs.{pair_kind};
ghost use Rattle.strength.specs.PairLaws.{pair_reflexive, pair_transitive, pair_antisymmetric, pair_decreasing, pair_monotone, pair_reads_back, pair_keeps_word};
ghost use Rattle.std.proofs.Common.{arith};

use super::{Marks, Pair};
use crate::kinds::{Half, Strength};

/// The words of both halves are below this, as they have 32 bits.
const HALF_LIMIT: u64 = 4_294_967_296;

impl<P: Half, Q: Half> Strength for Pair<P, Q> {
    ghost kind = { pair_kind P.Half.half Q.Half.half };

    ghost reflexive = { pair_reflexive P.Half.half Q.Half.half P.Half.reflexive Q.Half.reflexive };

    ghost transitive = { pair_transitive P.Half.half Q.Half.half P.Half.transitive Q.Half.transitive };

    ghost antisymmetric = { pair_antisymmetric P.Half.half Q.Half.half P.Half.antisymmetric Q.Half.antisymmetric };

    ghost decreasing = { pair_decreasing P.Half.half Q.Half.half P.Half.decreasing Q.Half.decreasing };

    ghost monotone = { pair_monotone P.Half.half Q.Half.half P.Half.monotone Q.Half.monotone };

    ghost reads_back = { pair_reads_back P.Half.half Q.Half.half P.Half.reads_back Q.Half.reads_back P.Half.short };

    ghost keeps_word = { pair_keeps_word P.Half.half Q.Half.half P.Half.keeps_word Q.Half.keeps_word };

    ghost bounded = { λ a. omega (arith, P.Half.short a.first, Q.Half.short a.second) };

    fn at_least(self, other: Pair<P, Q>) -> bool {
        self.first.half_at_least(other.first) && self.second.half_at_least(other.second)
    }

    fn passed_on(self, marks: Marks) -> Option<Pair<P, Q>> {
        let first = self.first.half_passed_on(marks)?;
        let second = self.second.half_passed_on(marks)?;
        Some(Pair { first, second })
    }

    fn word(self) -> u64 {
        u64::from(self.second.half_word()) * HALF_LIMIT + u64::from(self.first.half_word())
    }

    fn from_word(word: u64) -> Option<Pair<P, Q>> {
        let first = P::from_half_word((word % HALF_LIMIT) as u32)?;
        let second = Q::from_half_word((word / HALF_LIMIT) as u32)?;
        Some(Pair { first, second })
    }
}
