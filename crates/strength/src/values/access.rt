// Making the values, and reading them.
ghost use Rattle.std.specs.Prelude.{◌≡◌};
ghost use Rattle.strength.specs.Reaches.{reach};
ghost use Rattle.strength.specs.Bands.{band};

use super::{Band, Count, HIGHEST_TENTHS, Marks, Pair, Reach, Tenths};

impl Reach {
    /// The reach of this count and mask, if there is one.
    pub fn new(count: Count, mask: Marks) -> Option<Reach>
        ensures { result ≡ reach count.0 mask.0 }
    {
        if mask.0 >= Marks::LIMIT {
            return None;
        }
        if count.0 == 0 && mask.0 != 0 {
            return None;
        }
        Some(Reach { count, mask })
    }

    /// How often the right may still be passed on.
    pub fn count(self) -> Count
        ensures { result ≡ self.count }
    {
        self.count
    }

    /// The marks that a receiver needs.
    pub fn mask(self) -> Marks
        ensures { result ≡ self.mask }
    {
        self.mask
    }
}

impl Band {
    /// The band from this lowest to this highest, if there is one.
    pub fn new(lowest: Tenths, highest: Tenths) -> Option<Band>
        ensures { result ≡ band lowest.0 highest.0 }
    {
        if highest.0 < lowest.0 || highest.0 > HIGHEST_TENTHS {
            return None;
        }
        Some(Band { lowest, highest })
    }

    /// The lowest temperature that it allows.
    pub fn lowest(self) -> Tenths
        ensures { result ≡ self.lowest }
    {
        self.lowest
    }

    /// The highest temperature that it allows.
    pub fn highest(self) -> Tenths
        ensures { result ≡ self.highest }
    {
        self.highest
    }
}

impl<P: Copy, Q: Copy> Pair<P, Q> {
    /// The pair of these two.
    pub fn new(first: P, second: Q) -> Pair<P, Q>
        ensures { (result.first ≡ first) × (result.second ≡ second) }
    {
        Pair { first, second }
    }

    /// Its first strength.
    pub fn first(self) -> P
        ensures { result ≡ self.first }
    {
        self.first
    }

    /// Its second strength.
    pub fn second(self) -> Q
        ensures { result ≡ self.second }
    {
        self.second
    }
}
