// Why a line is refused.
ghost use Rattle.std.specs.Prelude.{◌≡◌, ℕ};
ghost use Rattle.script.specs.declared.faults.Fault.TheVariants.{OfRegister, OfScript};
ghost use Rattle.script.specs.Faults.{number, number_of, place_of};

use register::RegisterFault;

/// What is wrong with a script, a line of it or a buffer. Each cause has the number that is told of it.
#[derive(Clone, Copy, Debug, PartialEq, Eq, PartialOrd, Ord, Hash)]
pub enum Cause {
    /// The letter is missing or unknown.
    UnknownLetter = 40,
    /// There are too few fields or too many.
    FieldCount = 41,
    /// A field is not 1 to 19 digits.
    NotANumber = 42,
    /// The line is too long.
    LongLine = 43,
    /// The script is too long.
    LongScript = 44,
    /// The buffer for the output line is too short.
    ShortBuffer = 45,
}

// Each layer has its own causes, and a definition of their numbers: a trait for one cast would be no plainer.
impl Cause {
    /// The number that is told of the cause.
    pub fn number(self) -> u8
        ensures { result ≡ number self }
    {
        self as u8
    }
}

/// A cause, and the place of the field or the number of bytes that it concerns.
pub type Refusal = (Cause, usize);

/// A refusal, whole, with the layer that gave it.
#[derive(Clone, Copy, Debug, PartialEq, Eq)]
pub enum Fault {
    OfBook(book::Refusal),
    OfRegister(RegisterFault),
    OfScript(Refusal),
}

/// A refusal with the line that met it, counted from 1; line 0 is the script as a whole.
#[derive(Clone, Copy, Debug, PartialEq, Eq)]
pub struct LineFault {
    pub line: usize,
    pub fault: Fault,
}

// By hand, since the clause says which fault `?` makes; a derive would promise nothing of it.
impl From<Refusal> for Fault {
    ghost from_gives = { λ p r. r ≡ OfScript p };

    fn from(refusal: Refusal) -> Fault {
        Fault::OfScript(refusal)
    }
}

// By hand, since the clause says which fault `?` makes; a derive would promise nothing of it.
impl From<RegisterFault> for Fault {
    ghost from_gives = { λ p r. r ≡ OfRegister p };

    fn from(fault: RegisterFault) -> Fault {
        Fault::OfRegister(fault)
    }
}

/// A refusal that is told by a number and a place.
pub trait ToldByNumber: Copy {
    ghost told: { Self → ℕ × ℕ };

    fn told(self) -> (u8, usize)
        ensures { result ≡ told self };
}

impl ToldByNumber for Fault {
    ghost told = { λ f. (number_of f, place_of f) };

    fn told(self) -> (u8, usize) {
        (self.number(), self.place())
    }
}

/// Whatever number and place are told, so also those of no layer here.
impl ToldByNumber for (u8, usize) {
    ghost told = { λ t. t };

    fn told(self) -> (u8, usize) {
        let (number, place) = self;
        (number, place)
    }
}

impl Fault {
    pub fn number(self) -> u8
        ensures { result ≡ number_of self }
    {
        match self {
            Fault::OfBook(refusal) => refusal.0.number(),
            Fault::OfRegister(fault) => fault.number(),
            Fault::OfScript(refusal) => refusal.0.number(),
        }
    }

    pub fn place(self) -> usize
        ensures { result ≡ place_of self }
    {
        match self {
            Fault::OfBook(refusal) => refusal.1,
            Fault::OfRegister(fault) => fault.place,
            Fault::OfScript(refusal) => refusal.1,
        }
    }
}
