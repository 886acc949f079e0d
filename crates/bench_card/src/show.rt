// What a call answers for a case, as one line: `NAME INPUT: ok NUMBERS BUFFER` or `NAME INPUT: no NUMBER PLACE BUFFER`. An input is its bytes, or only
// how many they are. The buffer is every byte of it, where one was lent; it held EE before.
use leaves::limits::MAX_BYTES;
use leaves::refusals::Refusal;
use parts::FoundChild;
use std::{fmt, io};

// So many equal bytes in a row are printed once, with how many they are.
const LONG_RUN: usize = 10;

// Bytes as a line has them: each in two digits of base sixteen.
#[derive(Clone, Copy)]
struct Bytes<'a>(&'a [u8]);

impl fmt::Display for Bytes<'_> {
    fn fmt<W: fmt::Write>(&self, f: &mut fmt::Formatter<W>) -> fmt::Result {
        for equal in self.0.chunk_by(|a, b| a == b) {
            write!(f, "{}", Run(equal))?;
        }
        Ok(())
    }
}

// Equal bytes in a row.
#[derive(Clone, Copy)]
struct Run<'a>(&'a [u8]);

impl fmt::Display for Run<'_> {
    fn fmt<W: fmt::Write>(&self, f: &mut fmt::Formatter<W>) -> fmt::Result {
        let count = self.0.len();
        if LONG_RUN <= count {
            return write!(f, " {:02X}x{count}", self.0[0]);
        }
        for b in self.0 {
            write!(f, " {b:02X}")?;
        }
        Ok(())
    }
}

// How long bytes are, as a line has it that leaves them out.
#[derive(Clone, Copy)]
struct Length<'a>(&'a [u8]);

impl fmt::Display for Length<'_> {
    fn fmt<W: fmt::Write>(&self, f: &mut fmt::Formatter<W>) -> fmt::Result {
        let length = self.0.len();
        write!(f, ", {length} bytes")
    }
}

// What a call that writes answered, and the buffer.
#[derive(Drop)]
struct Made<'a>(Result<usize, Refusal>, &'a [u8]);

impl fmt::Display for Made<'_> {
    fn fmt<W: fmt::Write>(&self, f: &mut fmt::Formatter<W>) -> fmt::Result {
        let buffer = Bytes(self.1);
        match self.0 {
            Ok(length) => write!(f, ": ok {length}{buffer}"),
            Err(refusal) => write!(f, "{}{buffer}", No(refusal)),
        }
    }
}

// A refusal.
#[derive(Drop)]
struct No(Refusal);

impl fmt::Display for No {
    fn fmt<W: fmt::Write>(&self, f: &mut fmt::Formatter<W>) -> fmt::Result {
        let number = self.0.fault.number();
        let place = self.0.place;
        write!(f, ": no {number} {place}")
    }
}

// Length and depth of a shape.
fn show_judged(
    rt: &impl Print,
    name: &str,
    input: impl fmt::Display + Drop,
    bytes: &[u8],
) -> io::Result<()> {
    match reader::read(bytes) {
        Ok(shape) => println!(rt; "{name}{input}: ok {} {}", shape.length, shape.depth),
        Err(refusal) => println!(rt; "{name}{input}{}", No(refusal)),
    }
}

pub fn show_read(rt: &impl Print, name: &str, bytes: &[u8]) -> io::Result<()> {
    show_judged(rt, name, Bytes(bytes), bytes)
}

pub fn show_long_read(rt: &impl Print, name: &str, bytes: &[u8]) -> io::Result<()> {
    show_judged(rt, name, Length(bytes), bytes)
}

// Place and length of child k, or the number of a primitive without bytes.
pub fn show_child(rt: &impl Print, name: &str, bytes: &[u8], k: usize) -> io::Result<()> {
    let input = Bytes(bytes);
    match parts::child(bytes, k as u64) {
        Ok(FoundChild::Part { place, length }) => {
            println!(rt; "{name}{input}, child {k}: ok {place} {length}")
        }
        Ok(FoundChild::Primitive { number }) => println!(rt;
            "{name}{input}, child {k}: ok {number}"
        ),
        Err(refusal) => println!(rt; "{name}{input}, child {k}{}", No(refusal)),
    }
}

// The length of a template that is filled into a lent buffer.
fn show_filled(
    rt: &impl Print,
    name: &str,
    input: impl fmt::Display + Drop,
    template: &[u8],
    sheet: &[u8],
    out: &mut [u8],
) -> io::Result<()> {
    let made = fills::fill(template, sheet, out);
    println!(rt;
        "{name}{input} filled with{}{}",
        Bytes(sheet),
        Made(made, out)
    )
}

pub fn show_fill(rt: &impl Print, name: &str, template: &[u8], sheet: &[u8]) -> io::Result<()> {
    let mut out = [0xEEu8; 8];
    show_filled(rt, name, Bytes(template), template, sheet, &mut out)
}

pub fn show_long_fill(
    rt: &impl Print,
    name: &str,
    template: &[u8],
    sheet: &[u8],
) -> io::Result<()> {
    let mut out = [0xEEu8; MAX_BYTES];
    show_filled(rt, name, Length(template), template, sheet, &mut out)
}

// The length of a joined sheet, which is left in the lent buffer.
pub fn show_join(
    rt: &impl Print,
    name: &str,
    first: &[u8],
    second: &[u8],
    out: &mut [u8],
) -> io::Result<()> {
    let made = joins::join(first, second, out);
    println!(rt;
        "{name}{} joined with{}{}",
        Bytes(first),
        Bytes(second),
        Made(made, out)
    )
}

// The length of the encoding that a table means, written into a lent buffer.
fn show_written(
    rt: &impl Print,
    name: &str,
    input: impl fmt::Display + Drop,
    table: &[u8],
    out: &mut [u8],
) -> io::Result<()> {
    let made = writer::write(table, out);
    println!(rt; "{name}{input} written{}", Made(made, out))
}

pub fn show_write(rt: &impl Print, name: &str, table: &[u8]) -> io::Result<()> {
    let mut out = [0xEEu8; 16];
    show_written(rt, name, Bytes(table), table, &mut out)
}

pub fn show_long_write(rt: &impl Print, name: &str, table: &[u8]) -> io::Result<()> {
    let mut out = [0xEEu8; MAX_BYTES];
    show_written(rt, name, Length(table), table, &mut out)
}

// The length of an encoding's table, made in a lent buffer, and what the writer makes of that.
pub fn show_table(rt: &impl Print, name: &str, bytes: &[u8]) -> io::Result<()> {
    let mut table = [0xEEu8; 80];
    let made = way_back::to_table(bytes, &mut table);
    println!(rt; "{name}{} as a table{}", Bytes(bytes), Made(made, &table))?;
    match made {
        Ok(length) if length <= table.len() => show_write(rt, name, &table[..length]),
        _ => Ok(()),
    }
}

// Length and depth of a shape, and its table, which tells it from others of that length and depth.
pub fn show_shape(rt: &impl Print, name: &str, bytes: &[u8]) -> io::Result<()> {
    show_read(rt, name, bytes)?;
    show_table(rt, name, bytes)
}
