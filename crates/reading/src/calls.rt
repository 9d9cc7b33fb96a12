// The calls read and open on a kept key, lent by its parts.
ghost use Rattle.std.specs.Prelude.{◌≡◌, not, ◌*◌};
ghost use Rattle.bits.specs.Bits.{bytes_for, unpack};
ghost use Rattle.field.specs.Numbers.{first_of};
ghost use Rattle.field.specs.Verdicts.{verdict_of};
ghost use Rattle.key.specs.Kept.{kept, parts};
ghost use Rattle.decoder.specs.Reading.{exactly};
ghost use Rattle.decoder.specs.Calls.{open_output, read_output};
ghost use Rattle.decoding.specs.Parts.{decoded_number, decoded, found_of};
ghost use Rattle.reading.specs.Answers.{key_checks, row_checks, buffer_checks, open_checks, read_checks, counted_of, given_of, open_of, read_of};

use decoding::{Found, decode, nothing};
use field::Verdict;
use irreducible::check_exchange;
use key::checks::check;
use key::kept::Key;

// How many ones of the pattern that is written count, all but in a marked reading, or the number of a refusal.
#[derive(Drop)]
pub enum Answer {
    Ones(u16),
    Refused(u8),
}

// The bits of a capsule.
pub fn capsule_bits(m: u8, t: u16) -> usize
    ensures { result ≡ m * t }
{
    (m as usize) * (t as usize)
}

// Its bytes.
pub fn capsule_bytes(m: u8, t: u16) -> usize
    ensures { result ≡ bytes_for (m * t) }
{
    bits::bytes_for(capsule_bits(m, t))
}

// Whether a row of k bits is right: 8 or 9 on refusal.
pub fn check_row(k: usize, row: &[u8]) -> Verdict
    ensures { result ≡ verdict_of (first_of (row_checks k row.now)) }
{
    if row.len() != bits::bytes_for(k) {
        return Verdict::Refused(8);
    }
    if !bits::filler_clear(row, k) {
        return Verdict::Refused(9);
    }
    Verdict::Accepted
}

// Whether a row of k bits and an output of len bytes for n bits are right: 8, 9 or 10 on refusal.
fn check_buffers(k: usize, n: usize, row: &[u8], len: usize) -> Verdict
    ensures { result ≡ verdict_of (first_of (buffer_checks k n row.now len)) }
{
    let x = check_row(k, row);
    let Verdict::Accepted = x else {
        return x;
    };
    if len < bits::bytes_for(n) {
        return Verdict::Refused(10);
    }
    x
}

// Whether a word can be read: 25, 8, 9 or 10 on refusal.
pub fn check_word<'a>(
    m: u8,
    n: u16,
    t: u16,
    support: &'a [u16; Key::MOST_PLACES],
    g: &'a [u16; Key::MOST_ERRORS],
    word: &[u8],
    len: usize,
) -> Verdict
    ensures { result ≡ verdict_of (first_of (read_checks (kept (parts m n t support.now g.now)) word.now len)) }
{
    let Verdict::Accepted = check(m, n, t, support, g) else {
        return Verdict::Refused(25);
    };
    let places = n as usize;
    check_buffers(places, places, word, len)
}

// Whether capsules can be opened under a kept key: 25, 34 or 24 on refusal.
pub fn check_published<'a>(
    m: u8,
    n: u16,
    t: u16,
    support: &'a [u16; Key::MOST_PLACES],
    g: &'a [u16; Key::MOST_ERRORS],
    published: bool,
) -> Verdict
    ensures { result ≡ verdict_of (first_of (key_checks (not published) (kept (parts m n t support.now g.now)))) }
{
    let x = check_exchange(m, n, t, support, g);
    let Verdict::Accepted = x else {
        return x;
    };
    if !published {
        return Verdict::Refused(24);
    }
    x
}

// Whether a capsule can be opened: 25, 34, 24, 8, 9 or 10 on refusal.
fn check_capsule<'a>(
    m: u8,
    n: u16,
    t: u16,
    support: &'a [u16; Key::MOST_PLACES],
    g: &'a [u16; Key::MOST_ERRORS],
    published: bool,
    capsule: &[u8],
    len: usize,
) -> Verdict
    ensures { result ≡ verdict_of (first_of (open_checks (not published) (kept (parts m n t support.now g.now)) capsule.now len)) }
{
    let x = check_published(m, n, t, support, g, published);
    let Verdict::Accepted = x else {
        return x;
    };
    check_buffers(capsule_bits(m, t), n as usize, capsule, len)
}

// How many ones of the pattern found count; its n bits are written from the output's start where it has room. Or a refusal and
// nothing written: the verdict's, or with the number where there is no pattern.
pub fn given(e: Found, number: u8, n: u16, out: &mut [u8]) -> Answer
    ensures answer { result ≡ counted_of number e }
    ensures output { out.new ≡ given_of n e out.old }
{
    let x = e.verdict;
    let Verdict::Accepted = x else {
        return Answer::Refused(field::number(x));
    };
    if !e.found {
        return Answer::Refused(number);
    }
    let p = e.pattern;
    packed::write_row(out, &p, 0, n as u32);
    Answer::Ones(e.ones)
}

// Reading a word: its pattern is written from the output's start, and nothing on refusal, with 25, 8, 9, 10 or 14.
pub fn read<'a>(
    m: u8,
    n: u16,
    t: u16,
    support: &'a [u16; Key::MOST_PLACES],
    g: &'a [u16; Key::MOST_ERRORS],
    word: &[u8],
    out: &mut [u8],
) -> Answer
    ensures answer { result ≡ read_of (kept (parts m n t support.now g.now)) word.now out.old }
    ensures output { out.new ≡ read_output (kept (parts m n t support.now g.now)) word.now out.old }
{
    let x = check_word(m, n, t, support, g, word, out.len());
    let Verdict::Accepted = x else {
        return Answer::Refused(field::number(x));
    };
    let e = decode(m, n, t, support, g, word);
    given(e, 14, n, out)
}

// The pattern found in a capsule, the word whose other bits are 0, where it has exactly t ones, or the refusal of `decode`: at a
// key that load accepts and a capsule of the right form the pattern that opening gives (`found-opening`).
pub fn open_checked<'a>(
    m: u8,
    n: u16,
    t: u16,
    support: &'a [u16; Key::MOST_PLACES],
    g: &'a [u16; Key::MOST_ERRORS],
    capsule: &[u8],
) -> Found
    ensures { result ≡ (let k = kept (parts m n t support.now g.now) in let w = unpack n capsule.now in found_of (decoded_number k w) (exactly t (decoded k w))) }
{
    let e = decode(m, n, t, support, g, capsule);
    let x = e.verdict;
    let Verdict::Accepted = x else {
        return nothing(x);
    };
    if e.ones != t {
        return nothing(Verdict::Accepted);
    }
    e
}

// Opening a capsule: its pattern is written from the output's start, and nothing on refusal, with 25, 34, 24, 8, 9, 10
// or 13.
pub fn open<'a>(
    m: u8,
    n: u16,
    t: u16,
    support: &'a [u16; Key::MOST_PLACES],
    g: &'a [u16; Key::MOST_ERRORS],
    published: bool,
    capsule: &[u8],
    out: &mut [u8],
) -> Answer
    ensures answer { result ≡ open_of (not published) (kept (parts m n t support.now g.now)) capsule.now out.old }
    ensures output { out.new ≡ open_output (not published) (kept (parts m n t support.now g.now)) capsule.now out.old }
{
    let x = check_capsule(m, n, t, support, g, published, capsule, out.len());
    let Verdict::Accepted = x else {
        return Answer::Refused(field::number(x));
    };
    let e = open_checked(m, n, t, support, g, capsule);
    given(e, 13, n, out)
}
