// What a first byte says (01-scope.md, "First bytes").
ghost use Rattle.std.specs.Prelude.{◌≡◌};
ghost use Rattle.meaning.specs.FirstByte.{class_of};
ghost use Rattle.payloads.specs.First.{first_said};
ghost use Rattle.payloads.specs.Payload.{named, shaped};

// The code's one place for first bytes: bytes of the format, which the match below gives their kinds.
pub const SHORT_BLANKS: u8 = 32;

pub const PRIMITIVES: u8 = 32;

pub const PAST_PRIMITIVES: u8 = 37;

pub const ARRAY: u8 = 64;

pub const MAP: u8 = 65;

pub const RECORD: u8 = 66;

pub const FUNCTION: u8 = 67;

pub const SYMBOL: u8 = 68;

pub const VARIABLE: u8 = 69;

pub const PACKED: u8 = 96;

pub const PACKED_MAPS: u8 = 101;

pub const PAST_PACKED: u8 = 126;

// What a payload holds.
#[derive(Clone, Copy, PartialEq, Eq)]
pub enum Kind {
    Array,
    Map,
    Record,
    Function,
    Symbol,
    Variable,
}

impl Kind {
    // Whether each item of a payload's list has a text.
    pub fn is_named(self) -> bool
        ensures { result ≡ named self }
    {
        match self {
            Kind::Record | Kind::Symbol => true,
            Kind::Array | Kind::Map | Kind::Function | Kind::Variable => false,
        }
    }

    // Whether each item of a payload's list has a shape.
    pub fn is_shaped(self) -> bool
        ensures { result ≡ shaped self }
    {
        match self {
            Kind::Array | Kind::Map | Kind::Record | Kind::Function => true,
            Kind::Symbol | Kind::Variable => false,
        }
    }
}

// What a first byte says: a shape of one byte, with its depth, or one with a size and a payload.
#[derive(Clone, Copy)]
pub enum First {
    Unassigned,
    Short { levels: usize },
    Long { kind: Kind },
}

// A primitive is tested for by a guard, so that it is the first test: with a range there, a list of shapes of one byte took twice as long to read.
impl From<u8> for First {
    ghost from_gives = { λ b first. first ≡ first_said (class_of b) };

    #[tactic(auto, using(meaning::proofs::Rules::tests), unfolding(meaning::specs::FirstByte::class_of))]
    fn from(b: u8) -> First {
        match b {
            b if b < PAST_PRIMITIVES => First::Short { levels: 1 },
            ARRAY => First::Long { kind: Kind::Array },
            MAP => First::Long { kind: Kind::Map },
            RECORD => First::Long { kind: Kind::Record },
            FUNCTION => First::Long {
                kind: Kind::Function,
            },
            SYMBOL => First::Long { kind: Kind::Symbol },
            VARIABLE => First::Long {
                kind: Kind::Variable,
            },
            PACKED..PAST_PACKED => First::Short { levels: 2 },
            _ => First::Unassigned,
        }
    }
}
