// Inputs that are too long to be written out.

// Byte i of a front with a part after it, over and over.
fn repeated_byte(front: &[u8], part: &[u8], i: usize) -> u8 {
    if i < front.len() {
        return front[i];
    }
    if part.is_empty() {
        return 0;
    }
    part[(i - front.len()) % part.len()]
}

// A front, and a part after it, over and over.
pub fn put_repeated(front: &[u8], part: &[u8], out: &mut [u8]) {
    for (i, b) in out.iter_mut().enumerate() {
        *b = repeated_byte(front, part, i);
    }
}

// Byte i of Arrays in their long form, one in the other, round a shape of one byte; so many bytes are left from it on. Each Array has 40 and its size.
fn nested_byte(inner: u8, i: usize, left: usize) -> u8 {
    if left < 2 {
        return inner;
    }
    match i % 3 {
        0 => 0x40,
        1 => ((left - 2) % 256) as u8,
        _ => 0,
    }
}

// Arrays in their long form, one in the other, round a shape of one byte: 3 bytes for each Array, and that one.
pub fn put_nested(inner: u8, out: &mut [u8]) {
    let size = out.len();
    for (i, b) in out.iter_mut().enumerate() {
        *b = nested_byte(inner, i, size - i);
    }
}
