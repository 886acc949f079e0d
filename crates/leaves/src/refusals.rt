// What bytes are refused for, and where.
ghost use Rattle.std.specs.Prelude.{ℕ, ◌≡◌};
ghost use Rattle.leaves.specs.Faults.{number_of};

// The faults, each with the number that a refusal carries, which stands here and nowhere else in the code (01-scope.md, "Numbers that a refusal
// carries").
#[derive(Clone, Copy, Debug, PartialEq, Eq)]
pub enum Fault {
    // The bytes end too early.
    CutShort = 1,
    // The first byte is not assigned.
    NotAssigned = 2,
    // A size does not match.
    SizeWrong = 3,
    // A LEB128 number is not finished, has over two bytes, or is not the shortest.
    NumberWrong = 4,
    // A text is not UTF-8.
    NotUtf8 = 5,
    // A long form stands where a short one exists.
    LongForm = 6,
    // A shape is deeper than its limit.
    TooDeep = 7,
    // An input is longer than its limit.
    InputTooLong = 8,
    // A table's section is broken.
    SectionBroken = 9,
    // A table's node is broken.
    NodeBroken = 10,
    // A table's name is broken.
    NameBroken = 11,
    // The lent buffer is shorter than the answer.
    BufferShort = 12,
    // A sheet is broken; when joining, the first.
    SheetBroken = 13,
    // The second sheet is broken.
    SecondBroken = 14,
    // A made shape is deeper than its limit.
    MadeTooDeep = 15,
    // A made shape is longer than its limit.
    MadeTooLong = 16,
    // A joined sheet has more entries, or more bytes, than its limit.
    JoinedTooLarge = 17,
    // There is no such child or name.
    NoSuchPart = 18,
}

impl Fault {
    // Three faults of a LEB128 number share one case today, and so the number 4. The code says each under its own name, so that a request that tells
    // them apart gives each a case here and leaves the rest of the code alone.

    // A LEB128 number is not finished.
    pub const UNFINISHED: Fault = Fault::NumberWrong;

    // A LEB128 number has over two bytes.
    pub const OVER_TWO_BYTES: Fault = Fault::NumberWrong;

    // A LEB128 number is not the shortest.
    pub const NOT_SHORTEST: Fault = Fault::NumberWrong;

    // The number that a refusal carries.
    pub fn number(self) -> usize
        ensures { result ≡ number_of self }
    {
        self as usize
    }
}

// A fault, and where it is.
#[derive(Clone, Copy, Debug, PartialEq, Eq)]
pub struct Refusal {
    pub fault: Fault,
    pub place: usize,
}

// What a call refuses with: the number that it carries, and a place.
pub trait Refuses: Copy {
    ghost number_told: { Self → ℕ };

    ghost place_told: { Self → ℕ };

    fn number(self) -> usize
        ensures { result ≡ number_told self };

    fn place(self) -> usize
        ensures { result ≡ place_told self };
}

// A fault's number, and its place.
impl Refuses for Refusal {
    ghost number_told = { λ r. number_of r.fault };

    ghost place_told = { λ r. r.place };

    fn number(self) -> usize {
        self.fault.number()
    }

    fn place(self) -> usize {
        self.place
    }
}
