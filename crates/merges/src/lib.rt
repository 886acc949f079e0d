// The joined sheet of two sheets, entry by entry. The numbers of both rise, so the joined entries are met in order by going through both at once: to
// count them, to measure them, and (crate `joins`) to write them.
#![tactic(auto)]

ghost use Rattle.std.specs.Prelude.{◌≡◌, length};
ghost use Rattle.std.specs.Iterator.{at_most};
ghost use Rattle.meaning.specs.Sheet.{join};
ghost use Rattle.sheets.specs.Index.{sheet_in};
ghost use Rattle.merges.specs.Merge.{IsThere, next_entry, JoinedGives, turns_left, span_of, measured_all};

use leaves::limits::{MAX_BYTES, MAX_LEVELS};
use leaves::refusals::{Fault, Refusal};
use sheets::Sheet;
use std::cmp::Ordering;

// An entry of the joined sheet: one of the first, which the second fills, or one of the second, as it is there.
#[derive(Clone, Copy)]
pub enum Entry {
    First(usize),
    Second(usize),
}

// The entry that comes next, and its blank.
#[derive(Clone, Copy)]
pub struct Turn {
    pub entry: Entry,
    pub blank: usize,
}

// The joined entries of two sheets that are still to come, in rising order: i of the first and j of the second are passed.
#[derive(Drop)]
pub struct Joined<'a> {
    pub first: &'a Sheet<'a>,
    pub second: &'a Sheet<'a>,
    pub i: usize,
    pub j: usize,
}

impl<'a> Joined<'a> {
    // All of them.
    pub fn new(first: &'a Sheet<'a>, second: &'a Sheet<'a>) -> Joined<'a>
        ensures first { result.first.now ≡ first.now }
        ensures second { result.second.now ≡ second.now }
        ensures i { result.i ≡ 0 }
        ensures j { result.j ≡ 0 }
    {
        Joined {
            first,
            second,
            i: 0,
            j: 0,
        }
    }
}

impl<'a> Iterator for Joined<'a> {
    type Item = Turn;

    ghost next_gives = { JoinedGives };

    ghost remaining = { λ s. at_most (turns_left s) };

    // Where both have the blank, the first's counts.
    #[tactic(auto, using(crate::proofs::Merging::first_next, crate::proofs::Merging::both_next, crate::proofs::Merging::second_next, crate::proofs::Merging::joined_end))]
    fn next(&mut self) -> Option<Turn> {
        if self.second.count() <= self.j {
            if self.first.count() <= self.i {
                return None;
            }
            let first = Turn {
                entry: Entry::First(self.i),
                blank: self.first.blank(self.i),
            };
            self.i += 1;
            return Some(first);
        }
        let second = Turn {
            entry: Entry::Second(self.j),
            blank: self.second.blank(self.j),
        };
        if self.first.count() <= self.i {
            self.j += 1;
            return Some(second);
        }
        let first = Turn {
            entry: Entry::First(self.i),
            blank: self.first.blank(self.i),
        };
        match first.blank.cmp(&second.blank) {
            Ordering::Less => {
                self.i += 1;
                Some(first)
            }
            Ordering::Equal => {
                self.i += 1;
                self.j += 1;
                Some(first)
            }
            Ordering::Greater => {
                self.j += 1;
                Some(second)
            }
        }
    }
}

// How many entries the joined sheet has.
pub fn joined_count(first: &Sheet, second: &Sheet) -> usize
    ensures { result ≡ length (join (sheet_in first.now.bytes.now) (sheet_in second.now.bytes.now)) }
{
    Joined::new(first, second).count()
}

// The length and the depth of a shape.
#[derive(Clone, Copy)]
pub struct Span {
    pub length: usize,
    pub depth: usize,
}

// The span of an entry of the joined sheet.
fn span_at(first: &Sheet, second: &Sheet, entry: Entry) -> Span
    requires { IsThere (sheet_in first.now.bytes.now) (sheet_in second.now.bytes.now) entry }
    ensures { result ≡ span_of (next_entry (sheet_in first.now.bytes.now) (sheet_in second.now.bytes.now) entry) }
{
    match entry {
        Entry::First(i) => {
            let part = first.entry(i);
            let size = sizes::measure(&first.bytes[part.start..part.end], second);
            Span {
                length: size.length,
                depth: size.depth,
            }
        }
        Entry::Second(j) => {
            let part = second.entry(j);
            Span {
                length: part.end - part.start,
                depth: part.depth,
            }
        }
    }
}

// Measures the joined entries, in rising order: together so many bytes of encodings, or the first blank whose shape is too deep or too long.
pub fn measure_all(first: &Sheet, second: &Sheet) -> Result<usize, Refusal>
    ensures { result ≡ measured_all (join (sheet_in first.now.bytes.now) (sheet_in second.now.bytes.now)) 0 }
{
    let mut bytes = 0;
    for turn in Joined::new(first, second) {
        let span = span_at(first, second, turn.entry);
        if MAX_LEVELS < span.depth {
            return Err(Refusal {
                fault: Fault::MadeTooDeep,
                place: turn.blank,
            });
        }
        if MAX_BYTES < span.length {
            return Err(Refusal {
                fault: Fault::MadeTooLong,
                place: turn.blank,
            });
        }
        bytes += span.length;
    }
    Ok(bytes)
}
