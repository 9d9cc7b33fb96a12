// The call on a kept key, lent by its parts.
ghost use Rattle.std.specs.Prelude.{◌≡◌};
ghost use Rattle.field.specs.Numbers.{first_of};
ghost use Rattle.field.specs.Verdicts.{verdict_of};
ghost use Rattle.key.specs.Kept.{kept, parts};
ghost use Rattle.marks.specs.Marked.{marked_output};
ghost use Rattle.marked_reading.specs.Answers.{marked_of, rows_checks, marked_checks};

use super::tries::decode_marked;
use field::Verdict;
use key::checks::check;
use key::kept::Key;
use reading::{Answer, check_row, given};

// Whether a word of n bits, its marks and an output of len bytes are right: 8, 9, 37 or 10 on refusal.
fn check_rows(n: usize, word: &[u8], marks: &[u8], len: usize) -> Verdict
    ensures { result ≡ verdict_of (first_of (rows_checks n word.now marks.now len)) }
{
    let x = check_row(n, word);
    let Verdict::Accepted = x else {
        return x;
    };
    if !bits::well_formed(marks, n) {
        return Verdict::Refused(37);
    }
    if len < bits::bytes_for(n) {
        return Verdict::Refused(10);
    }
    x
}

// Whether a marked word can be read: 25, 8, 9, 37 or 10 on refusal.
fn check_marked<'a>(
    m: u8,
    n: u16,
    t: u16,
    support: &'a [u16; Key::MOST_PLACES],
    g: &'a [u16; Key::MOST_ERRORS],
    word: &[u8],
    marks: &[u8],
    len: usize,
) -> Verdict
    ensures { result ≡ verdict_of (first_of (marked_checks (kept (parts m n t support.now g.now)) word.now marks.now len)) }
{
    let Verdict::Accepted = check(m, n, t, support, g) else {
        return Verdict::Refused(25);
    };
    check_rows(n as usize, word, marks, len)
}

// Reading a word with marked places: the pattern that leads into the code is written from the output's start, and nothing on refusal,
// with 25, 8, 9, 37, 10 or 14. The answer is its number of ones at unmarked places.
pub fn read_marked<'a>(
    m: u8,
    n: u16,
    t: u16,
    support: &'a [u16; Key::MOST_PLACES],
    g: &'a [u16; Key::MOST_ERRORS],
    word: &[u8],
    marks: &[u8],
    out: &mut [u8],
) -> Answer
    ensures answer { result ≡ marked_of (kept (parts m n t support.now g.now)) word.now marks.now out.old }
    ensures output { out.new ≡ marked_output (kept (parts m n t support.now g.now)) word.now marks.now out.old }
{
    let x = check_marked(m, n, t, support, g, word, marks, out.len());
    let Verdict::Accepted = x else {
        return Answer::Refused(field::number(x));
    };
    let e = decode_marked(m, n, t, support, g, word, marks);
    given(e, 14, n, out)
}
