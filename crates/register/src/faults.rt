// Why a call is refused.
ghost use Rattle.std.specs.Prelude.{◌≡◌};
ghost use Rattle.register.specs.Numbers.{number};

/// What speaks against a call, or against the arrays of a register.
#[derive(Clone, Copy, Debug, PartialEq, Eq)]
pub enum Cause {
    /// An array of the caller's has too few places.
    ShortArrays = 7,
    /// There is no such person.
    UnknownPerson = 10,
    /// There is no such step.
    UnknownStep = 11,
    /// No strength has the word.
    UnlawfulWord = 12,
    /// The lot's number is above the last.
    LotOutOfRange = 13,
    /// The lot is not open.
    LotNotOpen = 14,
    /// The lot is open already.
    LotAlreadyOpen = 15,
    /// As many lots are open as may be.
    TooManyLots = 16,
    /// The giver is the receiver.
    GiverIsReceiver = 17,
    /// No right of the giver backs the grant.
    NotBacked = 18,
    /// A bar forbids the grant.
    Barred = 19,
    /// An equal grant stands.
    AlreadyStands = 20,
    /// As many grants stand as may be.
    TooManyGrants = 21,
}

// Each layer has its own causes, and a definition of their numbers: a trait for one cast would be no plainer.
impl Cause {
    /// The number by which the panels know it.
    pub fn number(self) -> u8
        ensures { result ≡ number self }
    {
        self as u8
    }

    /// The fault of which it is the cause, at this place.
    pub(crate) fn at(self, place: usize) -> RegisterFault
        ensures cause { result.cause ≡ self }
        ensures place { result.place ≡ place }
    {
        RegisterFault { cause: self, place }
    }
}

/// The cause of a refused call, and the place of the argument or the row that it concerns.
#[derive(Clone, Copy, Debug, PartialEq, Eq)]
pub struct RegisterFault {
    pub cause: Cause,
    pub place: usize,
}

impl RegisterFault {
    /// The number of the cause.
    pub fn number(self) -> u8
        ensures { result ≡ number self.cause }
    {
        self.cause.number()
    }
}
