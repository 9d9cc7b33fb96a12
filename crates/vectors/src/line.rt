// The fields of a line, with a blank between two, and the buffers that they tell of.
ghost use Rattle.std.specs.Prelude.{◌≡◌, ◌+◌, ◌*◌, ◌≤◌, ◌<◌, min, length, get_or};
ghost use Rattle.io.specs.Counts.{IsPrefixLen};
ghost use Rattle.vectors.specs.Lines.{end_of, start_of, digit_of, number_of, refused_of, no_bytes, with_byte, bytes_of, output_of, byte_or_filler, holds_of};

// The most bytes of a field.
pub const SIZE: usize = 64;

// What a buffer has before a call.
pub const FILLER: u8 = 0xa5;

// The first `count` bytes.
#[derive(Clone, Copy)]
pub struct Bytes {
    pub bytes: [u8; 64],
    pub count: usize,
}

// The count, at most the number of the bytes.
pub fn size(bytes: &[u8], count: usize) -> usize
    ensures value { result ≡ min count (length bytes.now) }
    ensures counts { IsPrefixLen result bytes.now }
{
    if count < bytes.len() {
        count
    } else {
        bytes.len()
    }
}

// The byte at i, and 0 past the end.
pub fn letter(line: &[u8], i: usize) -> u8
    ensures { result ≡ get_or line.now i 0 }
{
    if i < line.len() { line[i] } else { 0 }
}

// The place where field k starts, or the end.
pub fn start(line: &[u8], k: u8) -> usize
    ensures place { result ≡ start_of line.now k }
    ensures within { result ≤ length line.now }
{
    let mut left = k;
    let mut i = 0;
    while i < line.len() {
        if left == 0 {
            return i;
        }
        if line[i] == b' ' {
            left -= 1;
        }
        i += 1;
    }
    i
}

// The value of a hexadecimal digit: 0 is 48 and a is 97.
pub fn digit(b: u8) -> u8
    ensures value { result ≡ digit_of b }
    ensures below { result < 16 }
{
    if b < b'a' {
        return b % 16;
    }
    (b - b'a' + 10) % 16
}

// The byte whose two digits start at i.
fn byte(line: &[u8], i: usize) -> u8
    requires { i ≤ length line.now }
    ensures { result ≡ 16 * digit_of (get_or line.now i 0) + digit_of (get_or line.now (i + 1) 0) }
{
    16 * digit(letter(line, i)) + digit(letter(line, i + 1))
}

// A byte behind the others.
fn with(mut b: Bytes, x: u8) -> Bytes
    ensures { result ≡ with_byte b x }
{
    let i = b.count % SIZE;
    b.bytes[i] = x;
    b.count = i + 1;
    b
}

pub fn no_bytes() -> Bytes
    ensures { result ≡ no_bytes }
{
    Bytes {
        bytes: [0; SIZE],
        count: 0,
    }
}

// The bytes of field k, two digits each; `-` says none.
pub fn bytes_of(line: &[u8], k: u8) -> Bytes
    ensures { result ≡ bytes_of line.now k }
{
    let mut b = no_bytes();
    let mut i = start(line, k);
    while i + 1 < line.len() {
        if line[i] < b'0' {
            return b;
        }
        b = with(b, byte(line, i));
        i += 2;
    }
    b
}

// The number that field k says in decimal, and 0 where there is no such field.
pub fn number_of(line: &[u8], k: u8) -> u16
    ensures { result ≡ number_of line.now k }
{
    let mut x: u16 = 0;
    let mut i = start(line, k);
    while i < line.len() {
        if line[i] == b' ' {
            return x;
        }
        x = (x % 6000) * 10 + (digit(line[i]) as u16);
        i += 1;
    }
    x
}

// The number that field k and the next say: 0 for `ok`.
pub fn refused(line: &[u8], k: u8) -> u16
    ensures { result ≡ refused_of line.now k }
{
    if letter(line, start(line, k)) == b'r' {
        return number_of(line, k % 100 + 1);
    }
    0
}

// The output that field k and the next say: none where field k is `refused`.
pub fn output(line: &[u8], k: u8) -> Bytes
    ensures { result ≡ output_of line.now k }
{
    if refused(line, k) != 0 {
        return no_bytes();
    }
    bytes_of(line, k % 100 + 1)
}

// The byte at i, and filler past the end.
fn byte_or_filler(b: Bytes, i: usize) -> u8
    requires { i < 64 }
    ensures { result ≡ byte_or_filler b i }
{
    if i < b.count { b.bytes[i] } else { FILLER }
}

// The buffer starts with the bytes and is filler past them.
pub fn holds(buffer: &[u8; 64], b: Bytes) -> bool
    ensures { result ≡ holds_of buffer.now b }
{
    let mut i = 0;
    while i < SIZE {
        if buffer[i] != byte_or_filler(b, i) {
            return false;
        }
        i += 1;
    }
    true
}

// The place of the text's first newline, or its end.
pub fn end(text: &[u8]) -> usize
    ensures place { result ≡ end_of text.now }
    ensures within { result ≤ length text.now }
{
    let mut i = 0;
    while i < text.len() {
        if text[i] == b'\n' {
            return i;
        }
        i += 1;
    }
    i
}
