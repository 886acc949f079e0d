// Sheets, in place (01-scope.md, "Sheets"): the check of a fill sheet, and what an accepted one has for a blank.
#![tactic(auto)]

ghost use Rattle.std.specs.Prelude.{◌≡◌, ◌≤◌, ◌<◌, ◌+◌, length, MatchResult};
ghost use Rattle.leaves.specs.Faults.{number_of};
ghost use Rattle.meaning.specs.Limits.{max_entries};
ghost use Rattle.meaning.specs.Reading.{bad};
ghost use Rattle.meaning.specs.Refusals.{sheet_broken};
ghost use Rattle.meaning.specs.SheetReading.{count_size, read_sheet};
ghost use Rattle.sheets.specs.Said.{checked};
ghost use Rattle.sheets.specs.Steps.{entry_place, sum_from, entries_from, encodings_from, second_at, sheet_at, broken_at};
ghost use Rattle.sheets.specs.Index.{IndexSaid, ReadyIf, entry, sheet_in, PartIs, Ready, EntryIs};

use leaves::COUNT_SIZE;
use leaves::limits::{MAX_BYTES, MAX_ENCODINGS, MAX_ENTRIES};
use leaves::refusals::{Fault, Refusal};

// An entry has two numbers of two bytes: the blank's, and the length.
pub const ENTRY_SIZE: usize = 4;

// Where a sheet is broken. As which fault it is refused, its caller knows.
#[derive(Clone, Copy)]
struct Broken {
    place: usize,
}

// Where the encoding of an entry starts, and how deep its shape is: what the check finds of each entry, and keeps.
#[derive(Clone, Copy)]
pub struct Slot {
    pub start: u16,
    pub depth: u16,
}

// The entries of a sheet that has room for them, their numbers rising, each length that of an encoding: what their lengths say together.
fn entries_of(sheet: &[u8], count: usize) -> Result<usize, Broken>
    requires { (count ≤ max_entries) × (entry_place count ≤ length sheet.now) }
    ensures { result ≡ entries_from sheet.now count 0 0 0 }
{
    let mut least = 0;
    let mut sum = 0;
    for i in 0..count {
        let at = COUNT_SIZE + ENTRY_SIZE * i;
        let blank = leaves::two_at(sheet, at);
        let size = leaves::two_at(sheet, at + COUNT_SIZE);
        if blank < least || size == 0 || MAX_BYTES < size {
            return Err(Broken { place: i });
        }
        least = blank + 1;
        sum += size;
    }
    Ok(sum)
}

// The encodings of a sheet, from a place on, each judged by the reader as long as its entry says, and put into the slots.
fn encodings_at(
    sheet: &[u8],
    count: usize,
    from: usize,
    slots: &mut [Slot; MAX_ENTRIES],
) -> Result<(), Broken>
    requires { (count ≤ max_entries) × (entry_place count ≤ length sheet.now) × (from + sum_from sheet.now count 0 ≤ length sheet.now) × (length sheet.now < 65536) }
    ensures is { broken_at result ≡ encodings_from sheet.now count 0 from }
    ensures found { IndexSaid sheet.now count from slots.new result }
{
    let mut at = from;
    for entry in 0..count {
        let size = leaves::two_at(sheet, COUNT_SIZE + ENTRY_SIZE * entry + COUNT_SIZE);
        let end = at + size;
        let Ok(shape) = reader::read(&sheet[at..end]) else {
            return Err(Broken { place: entry });
        };
        slots[entry] = Slot {
            start: at as u16,
            depth: shape.depth as u16,
        };
        at = end;
    }
    Ok(())
}

// The second count of a sheet, at its place after the entries, whose lengths say sum together, and what follows it.
fn second_at(
    sheet: &[u8],
    place: usize,
    count: usize,
    sum: usize,
    slots: &mut [Slot; MAX_ENTRIES],
) -> Result<(), Broken>
    requires { (count ≤ max_entries) × (place ≡ entry_place count) × (place ≤ length sheet.now) × (sum ≡ sum_from sheet.now count 0) }
    ensures is { broken_at result ≡ second_at sheet.now place count sum }
    ensures found { IndexSaid sheet.now count (place + count_size) slots.new result }
{
    if sheet.len() - place < COUNT_SIZE {
        return Err(Broken { place });
    }
    let bytes = leaves::two_at(sheet, place);
    let from = place + COUNT_SIZE;
    let left = sheet.len() - from;
    if MAX_ENCODINGS < bytes || bytes != sum || left < bytes {
        return Err(Broken { place });
    }
    if bytes < left {
        return Err(Broken {
            place: from + bytes,
        });
    }
    encodings_at(sheet, count, from, slots)
}

// The slots of a sheet's entries, whatever the bytes are, put where the caller has room for them.
fn slots_of(sheet: &[u8], slots: &mut [Slot; MAX_ENTRIES]) -> Result<(), Broken>
    ensures is { broken_at result ≡ sheet_at sheet.now }
    ensures ready { ReadyIf sheet.now slots.new result }
{
    if sheet.len() < COUNT_SIZE {
        return Err(Broken { place: 0 });
    }
    let count = leaves::two_at(sheet, 0);
    if MAX_ENTRIES < count || sheet.len() - COUNT_SIZE < ENTRY_SIZE * count {
        return Err(Broken { place: 0 });
    }
    let sum = entries_of(sheet, count)?;
    second_at(sheet, COUNT_SIZE + ENTRY_SIZE * count, count, sum, slots)
}

// Where the encoding of an entry stands, from start to end, and how deep its shape is.
#[derive(Clone, Copy)]
pub struct Part {
    pub start: usize,
    pub end: usize,
    pub depth: usize,
}

// A sheet that was checked, with a slot for each of its entries.
#[derive(Clone, Copy)]
pub struct Sheet<'a> {
    pub bytes: &'a [u8],
    pub slots: [Slot; MAX_ENTRIES],
    pub ghost ready: { Ready bytes.now slots },
}

impl<'a> Sheet<'a> {
    // Checks a sheet, whatever the bytes are. A broken one is refused as the fault that its caller names: it is the only sheet, the first or the
    // second.
    pub fn read(bytes: &'a [u8], fault: Fault) -> Result<Sheet<'a>, Refusal>
        ensures { MatchResult result (λ s. s.bytes.now ≡ bytes.now) (λ r. (r.fault ≡ fault) × (read_sheet (number_of fault) bytes.now ≡ bad (number_of fault) r.place)) }
    {
        let mut slots = [Slot { start: 0, depth: 0 }; MAX_ENTRIES];
        match slots_of(bytes, &mut slots) {
            Ok(()) => Ok(Sheet { bytes, slots }),
            Err(broken) => Err(Refusal {
                fault,
                place: broken.place,
            }),
        }
    }

    // How many entries it has.
    pub fn count(&self) -> usize
        ensures { result ≡ length (sheet_in self.now.bytes.now) }
    {
        leaves::two_at(self.bytes, 0)
    }

    // The number of entry i.
    pub fn blank(&self, i: usize) -> usize
        requires { i < length (sheet_in self.now.bytes.now) }
        ensures { result ≡ (entry (sheet_in self.now.bytes.now) i).number }
    {
        leaves::two_at(self.bytes, COUNT_SIZE + ENTRY_SIZE * i)
    }

    // Where the encoding of entry i stands.
    pub fn entry(&self, i: usize) -> Part
        requires { i < length (sheet_in self.now.bytes.now) }
        ensures { PartIs self.now.bytes.now (entry (sheet_in self.now.bytes.now) i).item result }
    {
        let slot = self.slots[i];
        let start = slot.start as usize;
        let size = leaves::two_at(self.bytes, COUNT_SIZE + ENTRY_SIZE * i + COUNT_SIZE);
        Part {
            start,
            end: start + size,
            depth: slot.depth as usize,
        }
    }

    // What it has for the blank n. The numbers rise: the entries where it may still stand are halved at each turn. By hand, since they stand in bytes,
    // and the library's search goes over a slice of numbers.
    pub fn get(&self, n: usize) -> Option<Part>
        ensures { EntryIs self.now.bytes.now n result }
    {
        let mut low = 0;
        let mut high = self.count();
        while low < high {
            let middle = (low + high) / 2;
            let blank = self.blank(middle);
            if blank == n {
                return Some(self.entry(middle));
            }
            if blank < n {
                low = middle + 1;
            } else {
                high = middle;
            }
        }
        None
    }
}

// A sound sheet: how many entries it has, and how many bytes of encodings.
#[derive(Clone, Copy)]
pub struct Sound {
    pub entries: usize,
    pub bytes: usize,
}

// Checks a sheet, whatever the bytes are. The encodings are what follows the second count.
pub fn check(sheet: &[u8]) -> Result<Sound, Refusal>
    ensures { result ≡ checked (read_sheet sheet_broken sheet.now) }
{
    let entries = Sheet::read(sheet, Fault::SheetBroken)?.count();
    Ok(Sound {
        entries,
        bytes: sheet.len() - (COUNT_SIZE + ENTRY_SIZE * entries + COUNT_SIZE),
    })
}
