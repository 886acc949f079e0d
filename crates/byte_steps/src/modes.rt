// What a reader that is fed is in the middle of: the payload in hand, and what the next byte is.
ghost use Rattle.std.specs.Prelude.{◌≡◌, ◌≤◌};
ghost use Rattle.byte_steps.specs.Automaton.{bare, more, named, no_primitive, plain, unplain, with_due};
ghost use Rattle.leaves.specs.Faults.{number_of};
ghost use Rattle.byte_steps.specs.declared.modes.Mode.TheVariants.{Faulty};

use leaves::limits::{MAX_BYTES, MAX_LEVELS};
use leaves::refusals::Fault;
use payloads::first::Kind;

// The levels and the bytes of an encoding, at most, as the state has its numbers.
pub const LEVELS: u16 = MAX_LEVELS as u16;

pub const BYTES: u16 = MAX_BYTES as u16;

// What the items of a list are: shapes, all primitives so far (so that a short form exists if it stays so); shapes; texts with shapes; texts.
#[derive(Clone, Copy)]
pub enum Items {
    Plain,
    Bare,
    Fields,
    Texts,
}

impl Items {
    // Whether all items so far are primitives, in a list that would have a short form then.
    pub fn is_plain(self) -> bool
        ensures { result ≡ plain self }
    {
        matches!(self, Items::Plain)
    }

    // Whether the items are shapes, in a list without a short form.
    pub fn is_bare(self) -> bool
        ensures { result ≡ bare self }
    {
        matches!(self, Items::Bare)
    }

    // Whether the items have texts.
    pub fn is_named(self) -> bool
        ensures { result ≡ named self }
    {
        matches!(self, Items::Fields | Items::Texts)
    }

    // A list one of whose items is no primitive has no short form.
    fn unplain(self) -> Items
        ensures { result ≡ unplain self }
    {
        match self {
            Items::Plain => Items::Bare,
            _ => self,
        }
    }

    // A Function's return is one item more than its count.
    pub fn more(self) -> u16
        ensures is { result ≡ more self }
        ensures small { result ≤ 1 }
    {
        match self {
            Items::Plain | Items::Bare => 1,
            Items::Fields | Items::Texts => 0,
        }
    }
}

// An open payload: the place of its shape, where it ends, how many items are due after the one that is read, and what they are.
#[derive(Clone, Copy)]
pub struct Level {
    pub at: u16,
    pub stop: u16,
    pub due: u16,
    pub items: Items,
}

impl Level {
    // The payload in hand after an item that is no primitive.
    pub fn no_primitive(self) -> Level
        ensures { result ≡ no_primitive self }
    {
        Level {
            items: self.items.unplain(),
            ..self
        }
    }

    // The payload in hand, with so many items due after the one that is read.
    pub fn with_due(self, due: u16) -> Level
        ensures { result ≡ with_due self due }
    {
        Level { due, ..self }
    }
}

// What the next byte is. Between and Opening are passed through at once: an item is read to its end; a payload opens.
#[derive(Clone, Copy)]
pub enum Mode {
    Head,
    SizeLow {
        kind: Kind,
        at: u16,
    },
    SizeHigh {
        kind: Kind,
        at: u16,
        low: u8,
    },
    Opening {
        kind: Kind,
        at: u16,
        stop: u16,
    },
    Count,
    CountMore {
        at: u16,
        low: u8,
    },
    Length,
    LengthMore {
        at: u16,
        low: u8,
    },
    Letters {
        from: u16,
        left: u16,
        more: u8,
        low: u8,
        high: u8,
    },
    BlankLow {
        at: u16,
    },
    BlankHigh {
        at: u16,
        low: u8,
    },
    Between,
    Done,
    // A host keeps a state as plain numbers, and may hand any back: the number need not be that of a fault.
    Faulty {
        number: u16,
        place: u16,
    },
}

impl Mode {
    // A fault was met at a place.
    pub fn faulty(fault: Fault, place: u16) -> Mode
        ensures { result ≡ Faulty (number_of fault) place }
    {
        Mode::Faulty {
            number: fault as u16,
            place,
        }
    }
}
