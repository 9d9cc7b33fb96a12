// The word read with its marked bits 0, and with them 1.
ghost use Rattle.std.specs.Prelude.{◌≡◌};
ghost use Rattle.key.specs.Kept.{kept, parts};
ghost use Rattle.marked_reading.specs.Parts.{differences_found, try_found, marked_found};

use super::rows::{differences, with_marked};
use decoding::{Found, decode, nothing};
use field::Verdict;
use key::kept::Key;

// A pattern found in the filled word, as the differences of the word from the same code word, with d, the number of those at unmarked
// places; nothing where 2d + s > 2t for s marks. The verdict is handed on.
pub fn as_differences(
    e: Found,
    filled: &[u8; 1024],
    word: &[u8],
    marks: &[u8],
    n: u16,
    t: u16,
) -> Found
    ensures { result ≡ differences_found n t filled.now word.now marks.now e }
{
    if !e.found {
        return e;
    }
    let mut pattern = e.pattern;
    packed::xor_row(&mut pattern, filled);
    packed::xor_row(&mut pattern, word);
    let places = n as usize;
    let d = differences(pattern, marks, places);
    let s = bits::weight(marks, places);
    let verdict = e.verdict;
    if 2 * (t as usize) < 2 * d + s {
        return nothing(verdict);
    }
    let ones = d as u16;
    Found {
        verdict,
        found: true,
        ones,
        pattern,
    }
}

// What the word gives whose marked bits are 1 or 0.
pub fn tried<'a>(
    m: u8,
    n: u16,
    t: u16,
    support: &'a [u16; Key::MOST_PLACES],
    g: &'a [u16; Key::MOST_ERRORS],
    word: &[u8],
    marks: &[u8],
    one: bool,
) -> Found
    ensures { result ≡ try_found (kept (parts m n t support.now g.now)) word.now marks.now one }
{
    let filled = with_marked(word, marks, one);
    let e = decode(m, n, t, support, g, &filled);
    as_differences(e, &filled, word, marks, n, t)
}

// What is found with the marked bits 0, or its refusal; where nothing is found, what is found with them 1.
pub fn decode_marked<'a>(
    m: u8,
    n: u16,
    t: u16,
    support: &'a [u16; Key::MOST_PLACES],
    g: &'a [u16; Key::MOST_ERRORS],
    word: &[u8],
    marks: &[u8],
) -> Found
    ensures { result ≡ marked_found (kept (parts m n t support.now g.now)) word.now marks.now }
{
    let e = tried(m, n, t, support, g, word, marks, false);
    let x = e.verdict;
    let Verdict::Accepted = x else {
        return e;
    };
    if e.found {
        return e;
    }
    tried(m, n, t, support, g, word, marks, true)
}
