// A reader that is fed with parts and answers at the finish, as the whole reader does for the parts joined: its start and its finish. The
// loop over a part stands in the exported call itself (board), where it needs one copy of the state less.
#![tactic(auto)]

ghost use Rattle.std.specs.Prelude.{◌≡◌, true, false, ℕ, ◌+◌, ◌<◌, ◌≤◌, List, [], IfSome};
ghost use Rattle.meaning.specs.Limits.{max_levels};
ghost use Rattle.turns.specs.Moves.{sized};
ghost use Rattle.byte_steps.specs.Automaton.{finish, verdict};
ghost use Rattle.pieces.specs.Led.{LettersOnly, Small, closed_of, finish_said, judged_out, led_to, lettered};
ghost use Rattle.meaning.specs.Within.{Bytes};
ghost use Rattle.meaning.specs.Reading.{reading};
ghost use Rattle.reader.specs.Walk.{stopped};
ghost use Rattle.states.specs.Kept.{run_of};
ghost use Rattle.leaves.specs.Faults.{number_of};

use byte_steps::modes::{BYTES, LEVELS, Mode};
use leaves::limits::MAX_LEVELS;
use leaves::refusals::{Fault, Refuses};
use reader::Accepted;
use states::{BARE, Entry, HEAD, LETTERS, NO_ENTRY, State, Word};
use turns::moves::sized;

// The state before any byte came.
pub fn start() -> State
    ensures { result ≡ led_to [] }
{
    State {
        next: Word {
            a: 0,
            b: 0,
            code: HEAD,
            more: 0,
            low: 0,
            high: 0,
        },
        count: 0,
        whole: 1,
        used: 0,
        deepest: 0,
        kinds: BARE,
        top: Entry {
            at: 0,
            stop: BYTES,
            due: 0,
        },
        closed: 0,
        levels: [NO_ENTRY; MAX_LEVELS],
    }
}

// What an input is refused for, and where, as the state holds it: a host keeps the state as plain numbers, and the number is the one that it handed back.
#[derive(Clone, Copy)]
pub struct Faulty {
    pub number: u16,
    pub place: u16,
}

// The number and the place that it holds.
impl Refuses for Faulty {
    ghost number_told = { λ f. f.number };

    ghost place_told = { λ f. f.place };

    fn number(self) -> usize {
        self.number as usize
    }

    fn place(self) -> usize {
        self.place as usize
    }
}

// The answer, and the state that repeats it.
#[derive(Clone, Copy)]
pub struct Finished {
    pub state: State,
    pub answer: Result<Accepted, Faulty>,
}

// A fault at a place.
fn refused(fault: Fault, place: u16) -> Result<Accepted, Faulty>
    ensures { result ≡ judged_out (stopped (number_of fault) place) }
{
    Err(Faulty {
        number: fault as u16,
        place,
    })
}

// What the finish says of an input that is neither too long nor shorter than its root.
#[tactic(auto, using(meaning::proofs::Rules::tests), unfolding(byte_steps::specs::Automaton::verdict))]
fn verdict(mode: Mode, count: u16, whole: u16, deepest: u16) -> Result<Accepted, Faulty>
    ensures { result ≡ judged_out (verdict mode count whole deepest) }
{
    match mode {
        Mode::Done => {
            if whole < count {
                return refused(Fault::SizeWrong, whole);
            }
            Ok(Accepted {
                length: count as usize,
                depth: deepest as usize,
            })
        }
        Mode::Faulty { number, place } => Err(Faulty { number, place }),
        _ => refused(Fault::CutShort, 0),
    }
}

// What the finish says of any state.
#[tactic(auto, using(meaning::proofs::Rules::tests), unfolding(byte_steps::specs::Automaton::finish))]
fn judged(state: &State) -> Result<Accepted, Faulty>
    ensures { result ≡ judged_out (finish (run_of state.now)) }
{
    if BYTES < state.count {
        return refused(Fault::InputTooLong, BYTES);
    }
    if state.count < state.whole {
        return refused(Fault::CutShort, 0);
    }
    verdict(
        Mode::from(state.next),
        state.count,
        state.whole,
        state.deepest,
    )
}

// The answer to the bytes that came, and the state that repeats it.
pub fn finish(mut state: State) -> Finished
    ensures closed { result.state ≡ closed_of state }
    ensures led { (u : List ℕ) → Bytes u → closed_of state ≡ closed_of (led_to u) → result.answer ≡ finish_said (reading u) }
    ensures small { Small result.answer }
{
    state.closed = 1;
    let answer = judged(&state);
    Finished { state, answer }
}

// Whether a part changes nothing: the state is finished, or is one that no part leads to.
pub fn halted(closed: u16, used: u16, mode: Mode) -> bool
    ensures yes { result ≡ true → closed ≡ 0 → max_levels < used + sized mode }
    ensures no { result ≡ false → (closed ≡ 0) × (used + sized mode ≤ max_levels) }
{
    0 < closed || LEVELS < used || LEVELS < used + sized(mode)
}

// How many bytes a part has, if it has some, is letters of one text to its end, and the text goes on: such a part only makes the text's rest shorter.
pub fn letters_only(part: &[u8], next: Word, count: u16, closed: u16) -> Option<u16>
    ensures { IfSome result (λ size. (0 < size) × LettersOnly part.now next count closed size) }
{
    let size = part.len();
    if next.code == LETTERS
        && closed == 0
        && next.more == 0
        && 0 < size
        && size < next.b as usize
        && count <= BYTES
        && size <= (BYTES - count) as usize
        && leaves::block_at(part, 0, size)
    {
        Some(size as u16)
    } else {
        None
    }
}

// A text after so many of its letters.
pub fn lettered(next: Word, size: u16) -> Word
    requires { size ≤ next.b }
    ensures { result ≡ lettered next size }
{
    Word {
        a: next.a,
        b: next.b - size,
        code: LETTERS,
        more: 0,
        low: 0,
        high: 0,
    }
}
