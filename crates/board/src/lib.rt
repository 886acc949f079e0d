// Every call that a host makes, on byte slices and plain numbers. Each trusts nobody to have looked first. `board_c` exports each of them under its
// name, with the same clauses, and include/shiulbart.h is that page for C.
#![tactic(auto)]

ghost use Rattle.std.specs.Prelude.{ℕ, ◌<◌, ◌≡◌, List, [], ◌++◌, length};
ghost use Rattle.meaning.specs.Refusals.{sheet_broken};
ghost use Rattle.meaning.specs.Within.{Bytes};
ghost use Rattle.meaning.specs.Reading.{reading};
ghost use Rattle.meaning.specs.SheetReading.{read_sheet};
ghost use Rattle.meaning.specs.Answers.{fill_answer, join_answer, write_answer, table_answer, buffer_after};
ghost use Rattle.pieces.specs.Led.{closed_of, led_to};
ghost use Rattle.answers.specs.Calls.{read_answer, child_answer, name_answer, sheet_answer, made_answer};
ghost use Rattle.board.specs.Answers.{records_answer};

use answers::{Answer, in_numbers};
use byte_steps::modes::Mode;
use editor::Node;
use pieces::{halted, lettered, letters_only};
use states::{DIGIT, Entry, NO_ENTRY, State, Word, kinds_with, level_of};
use turns::moves::Act;
use turns::{begun, turn};

// Judges an encoding: its length, and its depth as extra, or the refusal.
pub fn shiulbart_read(bytes: &[u8]) -> Answer
    ensures { result ≡ read_answer (reading bytes.now) }
{
    in_numbers(reader::read(bytes))
}

// Child k of an encoding: its place and length, or a primitive's number as place with extra 1, or the refusal.
pub fn shiulbart_child(bytes: &[u8], k: u64) -> Answer
    ensures { result ≡ child_answer (reading bytes.now) k }
{
    in_numbers(parts::child(bytes, k))
}

// Name k of an encoding: its text's place and length, or the refusal.
pub fn shiulbart_name(bytes: &[u8], k: u64) -> Answer
    ensures { result ≡ name_answer (reading bytes.now) k }
{
    in_numbers(parts::name(bytes, k))
}

// Checks a sheet: how many bytes of encodings it has as length, how many entries as extra, or the refusal.
pub fn shiulbart_sheet(sheet: &[u8]) -> Answer
    ensures { result ≡ sheet_answer (read_sheet sheet_broken sheet.now) }
{
    in_numbers(sheets::check(sheet))
}

// Fills a template with a sheet, into the front of a lent buffer: how many bytes were written as length, or the refusal.
pub fn shiulbart_fill(template: &[u8], sheet: &[u8], out: &mut [u8]) -> Answer
    ensures is { result ≡ made_answer (fill_answer template.now sheet.now (length out.old)) }
    ensures buffer { out.new ≡ buffer_after out.old (fill_answer template.now sheet.now (length out.old)) }
{
    in_numbers(fills::fill(template, sheet, out))
}

// Joins two sheets, into the front of a lent buffer: how many bytes were written as length, or the refusal.
pub fn shiulbart_join(first: &[u8], second: &[u8], out: &mut [u8]) -> Answer
    ensures is { result ≡ made_answer (join_answer first.now second.now (length out.old)) }
    ensures buffer { out.new ≡ buffer_after out.old (join_answer first.now second.now (length out.old)) }
{
    in_numbers(joins::join(first, second, out))
}

// Writes the encoding of what a node table means, into the front of a lent buffer: how many bytes were written as length, or the refusal.
pub fn shiulbart_write(table: &[u8], out: &mut [u8]) -> Answer
    ensures is { result ≡ made_answer (write_answer table.now (length out.old)) }
    ensures buffer { out.new ≡ buffer_after out.old (write_answer table.now (length out.old)) }
{
    in_numbers(writer::write(table, out))
}

// The same of a table whose nodes are lent as records, and the rest of it as bytes.
pub fn shiulbart_write_records(nodes: &[Node], rest: &[u8], out: &mut [u8]) -> Answer
    ensures { (result, out.new) ≡ records_answer nodes.now rest.now out.old }
{
    in_numbers(editor::write_records(nodes, rest, out))
}

// Makes the node table of an encoding, in the front of a lent buffer: how many bytes were written as length, or the refusal.
pub fn shiulbart_table(bytes: &[u8], out: &mut [u8]) -> Answer
    ensures is { result ≡ made_answer (table_answer bytes.now (length out.old)) }
    ensures buffer { out.new ≡ buffer_after out.old (table_answer bytes.now (length out.old)) }
{
    in_numbers(way_back::to_table(bytes, out))
}

// A reader that is fed with parts: the state before any bytes. A state is plain numbers, and the host keeps it between two calls.
pub fn shiulbart_pieces_start() -> State
    ensures { result ≡ led_to [] }
{
    pieces::start()
}

// The state after one more part, of whatever length, also of none. A part after the finish changes nothing. The state is worked on in place: what the
// loop needs at each turn is held beside it, and put back where the part ends. Of a part that is letters alone two numbers change.
pub fn shiulbart_pieces_part(mut state: State, part: &[u8]) -> State
    ensures still { 0 < state.closed → result ≡ state }
    ensures led { (u : List ℕ) → state ≡ led_to u → result ≡ led_to (u ++ part.now) }
{
    let next = state.next;
    if let Some(size) = letters_only(part, next, state.count, state.closed) {
        state.next = lettered(next, size);
        state.count += size;
        return state;
    }
    let mode = Mode::from(next);
    if halted(state.closed, state.used, mode) {
        return state;
    }
    let top = level_of(state.top, state.kinds);
    let mut t = begun(mode, top, state.count, state.whole, state.deepest);
    let mut n = state.used;
    let mut kinds = state.kinds / DIGIT;
    // no iterator: each turn takes what the one before it gave, and says itself when the part is at its end
    loop {
        // the level in hand, should the turn lay it by
        let over = t.top;
        t = turn(part, t, n);
        // no closure: each arm moves what the call itself holds
        match t.act {
            Act::Stay => {}
            Act::Push => {
                state.levels[n as usize] = Entry::from(over);
                kinds = kinds_with(kinds, over);
                n += 1;
            }
            Act::Pop => {
                n -= 1;
                let k = n as usize;
                t.top = level_of(state.levels[k], kinds);
                state.levels[k] = NO_ENTRY;
                kinds /= DIGIT;
            }
            Act::Rest => {
                state.top = Entry::from(t.top);
                state.kinds = kinds_with(kinds, t.top);
                state.next = Word::from(t.mode);
                state.used = n;
                state.count = t.count;
                state.whole = t.whole;
                state.deepest = t.deepest;
                return state;
            }
        }
    }
}

// What the finish gives: the state, finished, and the answer.
#[repr(C)]
#[derive(Clone, Copy)]
pub struct PiecesEnd {
    pub state: State,
    pub answer: Answer,
}

// Judges all parts joined, as `shiulbart_read` does. With the state that it gives, the finish repeats its answer.
pub fn shiulbart_pieces_finish(state: State) -> PiecesEnd
    ensures closed { result.state ≡ closed_of state }
    ensures led { (u : List ℕ) → Bytes u → closed_of state ≡ closed_of (led_to u) → result.answer ≡ read_answer (reading u) }
{
    let finished = pieces::finish(state);
    PiecesEnd {
        state: finished.state,
        answer: in_numbers(finished.answer),
    }
}
