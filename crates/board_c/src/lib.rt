// The exported calls: those of `board`, under the same names and with the same clauses. include/shiulbart.h is this page for C.
#![tactic(auto)]

ghost use Rattle.std.specs.Prelude.{ℕ, ◌<◌, ◌≡◌, List, [], ◌++◌, length};
ghost use Rattle.meaning.specs.Refusals.{sheet_broken};
ghost use Rattle.meaning.specs.Within.{Bytes};
ghost use Rattle.meaning.specs.Reading.{reading};
ghost use Rattle.meaning.specs.SheetReading.{read_sheet};
ghost use Rattle.meaning.specs.Answers.{fill_answer, join_answer, write_answer, table_answer, buffer_after};
ghost use Rattle.pieces.specs.Led.{closed_of, led_to};
ghost use Rattle.answers.specs.Calls.{read_answer, child_answer, name_answer, sheet_answer, made_answer};
ghost use Rattle.board.specs.Answers.{records_answer};

use answers::Answer;
use board::PiecesEnd;
use editor::Node;
use states::State;

// Judges an encoding: its length, and its depth as extra, or the refusal.
#[unsafe(no_mangle)]
pub extern "C" fn shiulbart_read(bytes: &[u8]) -> Answer
    ensures { result ≡ read_answer (reading bytes.now) }
{
    board::shiulbart_read(bytes)
}

// Child k of an encoding: its place and length, or a primitive's number as place with extra 1, or the refusal.
#[unsafe(no_mangle)]
pub extern "C" fn shiulbart_child(bytes: &[u8], k: u64) -> Answer
    ensures { result ≡ child_answer (reading bytes.now) k }
{
    board::shiulbart_child(bytes, k)
}

// Name k of an encoding: its text's place and length, or the refusal.
#[unsafe(no_mangle)]
pub extern "C" fn shiulbart_name(bytes: &[u8], k: u64) -> Answer
    ensures { result ≡ name_answer (reading bytes.now) k }
{
    board::shiulbart_name(bytes, k)
}

// Checks a sheet: how many bytes of encodings it has as length, how many entries as extra, or the refusal.
#[unsafe(no_mangle)]
pub extern "C" fn shiulbart_sheet(sheet: &[u8]) -> Answer
    ensures { result ≡ sheet_answer (read_sheet sheet_broken sheet.now) }
{
    board::shiulbart_sheet(sheet)
}

// Fills a template with a sheet, into the front of a lent buffer: how many bytes were written as length, or the refusal.
#[unsafe(no_mangle)]
pub extern "C" fn shiulbart_fill(template: &[u8], sheet: &[u8], out: &mut [u8]) -> Answer
    ensures is { result ≡ made_answer (fill_answer template.now sheet.now (length out.old)) }
    ensures buffer { out.new ≡ buffer_after out.old (fill_answer template.now sheet.now (length out.old)) }
{
    board::shiulbart_fill(template, sheet, out)
}

// Joins two sheets, into the front of a lent buffer: how many bytes were written as length, or the refusal.
#[unsafe(no_mangle)]
pub extern "C" fn shiulbart_join(first: &[u8], second: &[u8], out: &mut [u8]) -> Answer
    ensures is { result ≡ made_answer (join_answer first.now second.now (length out.old)) }
    ensures buffer { out.new ≡ buffer_after out.old (join_answer first.now second.now (length out.old)) }
{
    board::shiulbart_join(first, second, out)
}

// Writes the encoding of what a node table means, into the front of a lent buffer: how many bytes were written as length, or the refusal.
#[unsafe(no_mangle)]
pub extern "C" fn shiulbart_write(table: &[u8], out: &mut [u8]) -> Answer
    ensures is { result ≡ made_answer (write_answer table.now (length out.old)) }
    ensures buffer { out.new ≡ buffer_after out.old (write_answer table.now (length out.old)) }
{
    board::shiulbart_write(table, out)
}

// The same of a table whose nodes are lent as records, and the rest of it as bytes.
#[unsafe(no_mangle)]
pub extern "C" fn shiulbart_write_records(nodes: &[Node], rest: &[u8], out: &mut [u8]) -> Answer
    ensures { (result, out.new) ≡ records_answer nodes.now rest.now out.old }
{
    board::shiulbart_write_records(nodes, rest, out)
}

// Makes the node table of an encoding, in the front of a lent buffer: how many bytes were written as length, or the refusal.
#[unsafe(no_mangle)]
pub extern "C" fn shiulbart_table(bytes: &[u8], out: &mut [u8]) -> Answer
    ensures is { result ≡ made_answer (table_answer bytes.now (length out.old)) }
    ensures buffer { out.new ≡ buffer_after out.old (table_answer bytes.now (length out.old)) }
{
    board::shiulbart_table(bytes, out)
}

// A reader that is fed with parts: the state before any bytes. A state is plain numbers, and the host keeps it between two calls.
#[unsafe(no_mangle)]
pub extern "C" fn shiulbart_pieces_start() -> State
    ensures { result ≡ led_to [] }
{
    board::shiulbart_pieces_start()
}

// The state after one more part, of whatever length, also of none. A part after the finish changes nothing.
#[unsafe(no_mangle)]
pub extern "C" fn shiulbart_pieces_part(state: State, part: &[u8]) -> State
    ensures still { 0 < state.closed → result ≡ state }
    ensures led { (u : List ℕ) → state ≡ led_to u → result ≡ led_to (u ++ part.now) }
{
    board::shiulbart_pieces_part(state, part)
}

// Judges all parts joined, as `shiulbart_read` does. With the state that it gives, the finish repeats its answer.
#[unsafe(no_mangle)]
pub extern "C" fn shiulbart_pieces_finish(state: State) -> PiecesEnd
    ensures closed { result.state ≡ closed_of state }
    ensures led { (u : List ℕ) → Bytes u → closed_of state ≡ closed_of (led_to u) → result.answer ≡ read_answer (reading u) }
{
    board::shiulbart_pieces_finish(state)
}
