// Join (01-scope.md, "Sheets"): each blank of the first sheet with its shape filled by the second, and each blank only in the second as it is
// there. The joined entries are counted, measured, and then written. A refusal has written nothing.
#![tactic(auto)]

ghost use Rattle.std.specs.Prelude.{◌≡◌, ◌≤◌, ◌+◌, length};
ghost use Rattle.meaning.specs.Limits.{max_bytes, max_entries, max_encodings};
ghost use Rattle.meaning.specs.Encode.{encode};
ghost use Rattle.meaning.specs.Sheet.{join, lengths, entries_bytes, encodings, sheet_bytes};
ghost use Rattle.meaning.specs.SheetReading.{count_size};
ghost use Rattle.meaning.specs.Answers.{join_answer, buffer_after};
ghost use Rattle.buffers.specs.Written.{written};
ghost use Rattle.buffers.specs.Said.{made_said};
ghost use Rattle.sheets.specs.Steps.{entry_place};
ghost use Rattle.sheets.specs.Index.{sheet_in};
ghost use Rattle.merges.specs.Merge.{IsThere, next_entry, Fitting};

use buffers::{put_bytes, put_two};
use leaves::COUNT_SIZE;
use leaves::limits::{MAX_ENCODINGS, MAX_ENTRIES};
use leaves::refusals::{Fault, Refusal};
use merges::{Entry, Joined, joined_count, measure_all};
use sheets::{ENTRY_SIZE, Sheet};

// Writes the encoding of an entry of the joined sheet. The place after it.
fn put_encoding(first: &Sheet, second: &Sheet, entry: Entry, out: &mut [u8], to: usize) -> usize
    requires { IsThere (sheet_in first.now.bytes.now) (sheet_in second.now.bytes.now) entry × (to + length (encode (next_entry (sheet_in first.now.bytes.now) (sheet_in second.now.bytes.now) entry).item) ≤ length out.old) × (length (encode (next_entry (sheet_in first.now.bytes.now) (sheet_in second.now.bytes.now) entry).item) ≤ max_bytes) }
    ensures after { result ≡ to + length (encode (next_entry (sheet_in first.now.bytes.now) (sheet_in second.now.bytes.now) entry).item) }
    ensures wrote { out.new ≡ written out.old to (encode (next_entry (sheet_in first.now.bytes.now) (sheet_in second.now.bytes.now) entry).item) }
{
    match entry {
        Entry::First(i) => {
            let part = first.entry(i);
            writes::write(&first.bytes[part.start..part.end], second, out, to)
        }
        Entry::Second(j) => {
            let part = second.entry(j);
            put_bytes(out, to, &second.bytes[part.start..part.end]);
            to + (part.end - part.start)
        }
    }
}

// Writes the joined entries, count of them, after the place of the first count, and their encodings after the place of the second.
fn put_entries(first: &Sheet, second: &Sheet, count: usize, out: &mut [u8])
    requires { (count ≡ length (join (sheet_in first.now.bytes.now) (sheet_in second.now.bytes.now))) × (count ≤ max_entries) × Fitting (join (sheet_in first.now.bytes.now) (sheet_in second.now.bytes.now)) × (entry_place count + count_size + length (encodings (join (sheet_in first.now.bytes.now) (sheet_in second.now.bytes.now))) ≤ length out.old) }
    ensures { out.new ≡ written (written out.old count_size (entries_bytes (lengths (join (sheet_in first.now.bytes.now) (sheet_in second.now.bytes.now))))) (entry_place count + count_size) (encodings (join (sheet_in first.now.bytes.now) (sheet_in second.now.bytes.now))) }
{
    let mut at = COUNT_SIZE;
    let mut to = COUNT_SIZE + ENTRY_SIZE * count + COUNT_SIZE;
    for turn in Joined::new(first, second) {
        let end = put_encoding(first, second, turn.entry, out, to);
        put_two(out, at, turn.blank);
        put_two(out, at + COUNT_SIZE, end - to);
        at += ENTRY_SIZE;
        to = end;
    }
}

// Writes the joined sheet, which is known to fit.
fn put_sheet(first: &Sheet, second: &Sheet, count: usize, bytes: usize, out: &mut [u8])
    requires { (count ≡ length (join (sheet_in first.now.bytes.now) (sheet_in second.now.bytes.now))) × (count ≤ max_entries) × Fitting (join (sheet_in first.now.bytes.now) (sheet_in second.now.bytes.now)) × (bytes ≡ length (encodings (join (sheet_in first.now.bytes.now) (sheet_in second.now.bytes.now)))) × (bytes ≤ max_encodings) × (entry_place count + count_size + bytes ≤ length out.old) }
    ensures { out.new ≡ written out.old 0 (sheet_bytes (join (sheet_in first.now.bytes.now) (sheet_in second.now.bytes.now))) }
{
    put_entries(first, second, count, out);
    put_two(out, 0, count);
    put_two(out, COUNT_SIZE + ENTRY_SIZE * count, bytes);
}

// Joins two accepted sheets.
fn join_sound(first: &Sheet, second: &Sheet, out: &mut [u8]) -> Result<usize, Refusal>
    ensures is { result ≡ made_said (join_answer first.now.bytes.now second.now.bytes.now (length out.old)) }
    ensures buffer { out.new ≡ buffer_after out.old (join_answer first.now.bytes.now second.now.bytes.now (length out.old)) }
{
    let count = joined_count(first, second);
    if MAX_ENTRIES < count {
        return Err(Refusal {
            fault: Fault::JoinedTooLarge,
            place: count,
        });
    }
    let bytes = measure_all(first, second)?;
    if MAX_ENCODINGS < bytes {
        return Err(Refusal {
            fault: Fault::JoinedTooLarge,
            place: bytes,
        });
    }
    let needed = COUNT_SIZE + ENTRY_SIZE * count + COUNT_SIZE + bytes;
    if out.len() < needed {
        return Err(Refusal {
            fault: Fault::BufferShort,
            place: needed,
        });
    }
    put_sheet(first, second, count, bytes, out);
    Ok(needed)
}

// Joins two sheets, whatever their bytes are, into the front of a lent buffer of any length.
pub fn join(first: &[u8], second: &[u8], out: &mut [u8]) -> Result<usize, Refusal>
    ensures is { result ≡ made_said (join_answer first.now second.now (length out.old)) }
    ensures buffer { out.new ≡ buffer_after out.old (join_answer first.now second.now (length out.old)) }
{
    let first = Sheet::read(first, Fault::SheetBroken)?;
    let second = Sheet::read(second, Fault::SecondBroken)?;
    join_sound(&first, &second, out)
}
