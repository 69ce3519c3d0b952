// The values that strengths are made of. The modules below see their fields.
ghost use Rattle.strength.specs.Lawful.{LawfulReach, LawfulBand};

pub mod access;
pub mod bands;
pub mod masks;
pub mod pairs;
pub mod reaches;

/// The highest temperature of a band, in tenths of a degree.
const HIGHEST_TENTHS: u16 = 600;

/// A set of 24 bits, each of them a fact about a person, such as a ticket.
#[derive(Clone, Copy, Debug, PartialEq, Eq)]
pub struct Marks(pub u32);

impl Marks {
    /// Marks and masks are below this, as they have 24 bits.
    pub const LIMIT: u32 = 16_777_216;
}

/// How often a right may still be passed on; 255 is without limit.
// A number with 255 for no limit, and no enum, since the rules and the words of books say it so.
#[derive(Clone, Copy, Debug, PartialEq, Eq)]
pub struct Count(pub u8);

impl Count {
    /// Without limit: the highest count, which stays as it is when a right is passed on.
    pub const UNLIMITED: Count = Count(255);
}

/// A temperature in tenths of a degree Celsius.
#[derive(Clone, Copy, Debug, PartialEq, Eq)]
pub struct Tenths(pub u16);

/// How often a right may be passed on, and the marks that each receiver needs. At count 0 the
/// mask is empty, so that equal strengths are equal values.
#[derive(Clone, Copy, Debug, PartialEq, Eq)]
pub struct Reach {
    count: Count,
    mask: Marks,
    ghost lawful: { LawfulReach count.0 mask.0 },
}

/// The temperatures that a right allows, from the lowest to the highest.
#[derive(Clone, Copy, Debug, PartialEq, Eq)]
pub struct Band {
    lowest: Tenths,
    highest: Tenths,
    ghost lawful: { LawfulBand lowest.0 highest.0 },
}

/// Two strengths, each of a kind of its own.
#[derive(Clone, Copy, Debug, PartialEq, Eq)]
pub struct Pair<P, Q> {
    first: P,
    second: Q,
}
