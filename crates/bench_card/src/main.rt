// Runs every case of the bench card (01-scope.md, "Bytes on the bench card", "To run" and "Slips a good mechanic makes"), and some of ours, and
// prints a line for each.
#![tactic(auto)]

mod inputs;
mod show;

use inputs::{put_nested, put_repeated};
use show::{
    show_child, show_fill, show_join, show_long_fill, show_long_read, show_long_write, show_read,
    show_shape, show_table, show_write,
};
use std::io;

// M1 to M11.
fn readings(rt: &impl Print) -> io::Result<()> {
    let m4 = b"\x42\x07\x00\x02\x01\x61\x20\x01\x62\x62";
    show_shape(rt, "M1", b"\x20")?;
    show_shape(rt, "M2", b"\x76")?;
    show_read(rt, "M3", b"\x40\x01\x00\x20")?;
    show_shape(rt, "M4", m4)?;
    show_child(rt, "M4", m4, 1)?;
    show_shape(rt, "M5", b"\x45\x02\x00\x20\x00")?;
    show_read(rt, "M6", b"\x45\x02\x00\x1F\x00")?;
    show_read(rt, "M7", b"")?;
    show_read(rt, "M8", b"\x20\x20")?;
    show_shape(rt, "M9", b"\x43\x02\x00\x00\x20")?;
    show_read(rt, "M10", b"\x44\x03\x00\x81\x00\x00")?;
    show_read(rt, "M11", b"\xA0")
}

// M12 to M14. Two of them are slips too: replacing again in what was just put in, and keeping the long Array after its blank became Int.
fn fillings(rt: &impl Print) -> io::Result<()> {
    let swap = b"\x02\x00\x00\x00\x01\x00\x01\x00\x01\x00\x02\x00\x01\x00";
    show_fill(rt, "M12", b"\x41\x02\x00\x00\x01", swap)?;
    let int = b"\x01\x00\x00\x00\x01\x00\x01\x00\x20";
    show_fill(rt, "M13", b"\x40\x01\x00\x00", int)?;
    let first = b"\x01\x00\x00\x00\x01\x00\x01\x00\x01";
    let second = b"\x01\x00\x01\x00\x01\x00\x01\x00\x20";
    let mut joined = [0xEEu8; 16];
    show_join(rt, "M14", first, second, &mut joined)
}

// Symbol of one text of 2,042 letters, and of 2,043: from the reader, and from the writer.
fn symbols(rt: &impl Print) -> io::Result<()> {
    let mut most = [0u8; 2048];
    put_repeated(b"\x44\xFD\x07\x01\xFA\x0F", b"x", &mut most);
    show_long_read(rt, "Symbol of 2,042 letters", &most)?;
    let most_front =
        b"\x01\x00\x09\x00\x00\x00\x01\x00\x01\x00\x00\x00\x00\x00\x01\x00\x00\x00\xFA\x07\xFA\x07";
    let mut most_table = [0u8; 2064];
    put_repeated(most_front, b"x", &mut most_table);
    show_long_write(rt, "table of Symbol of 2,042 letters", &most_table)?;
    let mut over = [0u8; 2049];
    put_repeated(b"\x44\xFE\x07\x01\xFB\x0F", b"x", &mut over);
    show_long_read(rt, "Symbol of 2,043 letters", &over)?;
    let over_front =
        b"\x01\x00\x09\x00\x00\x00\x01\x00\x01\x00\x00\x00\x00\x00\x01\x00\x00\x00\xFB\x07\xFB\x07";
    let mut over_table = [0u8; 2065];
    put_repeated(over_front, b"x", &mut over_table);
    show_long_write(rt, "table of Symbol of 2,043 letters", &over_table)
}

// "To run", and the byte that the page's first section names.
fn to_run(rt: &impl Print) -> io::Result<()> {
    let mut fifteen = [0u8; 43];
    put_nested(0x60, &mut fifteen);
    show_long_read(rt, "fifteen Arrays round Int", &fifteen)?;
    let mut sixteen = [0u8; 46];
    put_nested(0x60, &mut sixteen);
    show_long_read(rt, "sixteen Arrays round Int", &sixteen)?;
    symbols(rt)?;
    show_read(rt, "Symbol of a cut text", b"\x44\x02\x00\x01\x05")?;
    show_read(rt, "Array of Int", b"\x60")
}

// The slip of refusing stage by stage: a Function of 500 Arrays of Variable 0, returning Int.
fn stages(rt: &impl Print) -> io::Result<()> {
    let mut template = [0u8; 2006];
    put_repeated(b"\x43\xD3\x07\xF4\x03", b"\x40\x01\x00\x00", &mut template);
    template[2005] = 0x20;
    show_long_read(rt, "500 Arrays", &template)?;
    let first = b"\x01\x00\x00\x00\x05\x00\x05\x00\x45\x02\x00\x28\x00";
    show_long_fill(rt, "500 Arrays", &template, first)?;
    let second = b"\x01\x00\x28\x00\x01\x00\x01\x00\x20";
    let mut joined = [0xEEu8; 14];
    show_join(
        rt,
        "0 as Variable 40 and 40 as Int",
        first,
        second,
        &mut joined,
    )?;
    show_long_fill(rt, "500 Arrays", &template, &joined)
}

// The slip of taking a packed byte at level 16, where a byte that is not packed may stand: fifteen Arrays round Map of Int to Int, and round Variable 0.
fn level_16(rt: &impl Print) -> io::Result<()> {
    let mut bytes = [0u8; 46];
    put_nested(0x65, &mut bytes);
    show_long_read(rt, "packed Map at level 16", &bytes)?;
    put_nested(0x00, &mut bytes);
    show_long_read(rt, "Variable 0 at level 16", &bytes)
}

// Cases that are ours, not the card's: fill and join.
fn our_fillings(rt: &impl Print) -> io::Result<()> {
    let int = b"\x01\x00\x00\x00\x01\x00\x01\x00\x20";
    let map = b"\x01\x00\x00\x00\x01\x00\x01\x00\x65";
    let mut deep = [0u8; 46];
    put_nested(0x00, &mut deep);
    show_long_fill(rt, "ours, Int at level 16", &deep, int)?;
    show_long_fill(rt, "ours, packed Map at level 16", &deep, map)?;
    let record = b"\x42\x07\x00\x02\x01\x61\x00\x01\x62\x62";
    show_fill(rt, "ours, buffer too short", record, int)?;
    let mut joined = [0xEEu8; 16];
    show_join(
        rt,
        "ours, second sheet cut short",
        int,
        b"\x01\x00\x01",
        &mut joined,
    )
}

// Ours too: tables.
fn our_tables(rt: &impl Print) -> io::Result<()> {
    let inner = b"\x42\x0D\x00\x02\x01\x61\x42\x04\x00\x01\x01\x62\x21\x01\x63\x75";
    show_table(rt, "ours, Record in a Record", inner)?;
    let empty = b"\x43\x06\x00\x01\x60\x42\x01\x00\x00";
    show_table(rt, "ours, empty Record after a link", empty)?;
    show_table(rt, "ours, M3", b"\x40\x01\x00\x20")?;
    let shared =
        b"\x02\x00\x0A\x00\x07\x00\x00\x00\x06\x00\x00\x00\x02\x00\x02\x00\x00\x00\x00\x00\x00\x00\x00\x00\x00\x00\x00\x00";
    show_write(rt, "ours, shared Variable", shared)?;
    let own = b"\x01\x00\x05\x00\x00\x00\x01\x00\x01\x00\x00\x00\x00\x00\x00\x00\x00\x00";
    show_write(rt, "ours, its own target", own)?;
    show_write(rt, "ours, no nodes", b"\x00\x00")?;
    let more = b"\x01\x00\x00\x00\x00\x00\x00\x00\x00\x00\x00\x00\x00\x00\x07";
    show_write(rt, "ours, leftover byte", more)
}

fn main(rt: HostRuntime) -> io::Result<()> {
    readings(&rt)?;
    fillings(&rt)?;
    to_run(&rt)?;
    stages(&rt)?;
    level_16(&rt)?;
    our_fillings(&rt)?;
    our_tables(&rt)
}
