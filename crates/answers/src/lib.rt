// What a call says, in four numbers of 32 bits: the one place where what was said becomes numbers. The board's calls hand these out.
#![tactic(auto)]

ghost use Rattle.std.specs.Prelude.{ℕ, ◌≡◌, ◌<◌};
ghost use Rattle.answers.specs.Answers.{answered, refused, Fits, result_put, accepted_put, child_put, name_put, sound_put, written_put};
ghost use Rattle.answers.specs.declared.Answer.{Answer};

use leaves::refusals::Refuses;
use parts::{FoundChild, FoundName};
use reader::Accepted;
use sheets::Sound;

// What every call says. Number 0 is an answer; otherwise number and place are the paper's. A field that a call does not use is 0.
#[repr(C)]
#[derive(Clone, Copy)]
pub struct Answer {
    pub number: u32,
    pub place: u32,
    pub length: u32,
    pub extra: u32,
}

// An answer in 32 bits a number.
fn answer_of(place: usize, length: usize, extra: usize) -> Answer
    requires { (place < 4294967296) × (length < 4294967296) × (extra < 4294967296) }
    ensures { result ≡ answered place length extra }
{
    Answer {
        number: 0,
        place: place as u32,
        length: length as u32,
        extra: extra as u32,
    }
}

// A refusal in 32 bits a number.
fn refusal_of(number: usize, place: usize) -> Answer
    requires { (number < 4294967296) × (place < 4294967296) }
    ensures { result ≡ refused number place }
{
    Answer {
        number: number as u32,
        place: place as u32,
        length: 0,
        extra: 0,
    }
}

// What a call says that does not refuse, as an answer.
pub trait Said {
    ghost put: { Self → Answer };

    fn told(self) -> Answer
        requires { Fits (put self) }
        ensures { result ≡ put self };
}

// Of the reader: length, and depth as extra.
impl Said for Accepted {
    ghost put = { accepted_put };

    fn told(self) -> Answer {
        answer_of(0, self.length, self.depth)
    }
}

// Of a child: its place and length, or a primitive's number as place with extra 1.
impl Said for FoundChild {
    ghost put = { child_put };

    fn told(self) -> Answer {
        match self {
            FoundChild::Primitive { number } => answer_of(number, 0, 1),
            FoundChild::Part { place, length } => answer_of(place, length, 0),
        }
    }
}

// Of a name: its text's place and length.
impl Said for FoundName {
    ghost put = { name_put };

    fn told(self) -> Answer {
        answer_of(self.place, self.length, 0)
    }
}

// Of a sheet: how many bytes of encodings it has as length, and how many entries as extra.
impl Said for Sound {
    ghost put = { sound_put };

    fn told(self) -> Answer {
        answer_of(0, self.bytes, self.entries)
    }
}

// Of a call that writes into a lent buffer: how many bytes were written as length.
impl Said for usize {
    ghost put = { written_put };

    fn told(self) -> Answer {
        answer_of(0, self, 0)
    }
}

// What a call says: its answer, or its refusal.
pub fn in_numbers<T: Said, E: Refuses>(said: Result<T, E>) -> Answer
    requires { Fits (result_put T.put E.number_told E.place_told said) }
    ensures { result ≡ result_put T.put E.number_told E.place_told said }
{
    match said {
        Ok(it) => it.told(),
        Err(refusal) => refusal_of(refusal.number(), refusal.place()),
    }
}
