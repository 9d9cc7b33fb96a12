// Reading a word with the sums of `sums`: the contracts are those of `decoding` and `reading`, word for word.
ghost use Rattle.std.specs.Prelude.{◌≡◌, true, ◌≤◌, length};
ghost use Rattle.bits.specs.Bits.{unpack};
ghost use Rattle.field.specs.Field.{is_width};
ghost use Rattle.field.specs.Answers.{inverse_number};
ghost use Rattle.key.specs.Keys.{key_of};
ghost use Rattle.key.specs.Kept.{kept, parts};
ghost use Rattle.decoder.specs.Calls.{read_output};
ghost use Rattle.decoder.specs.Decoding.{explained};
ghost use Rattle.decoding.specs.Parts.{decoded_divisors, decoded_number, decoded, found_of};
ghost use Rattle.reading.specs.Answers.{read_of};

use super::sums::sums_afresh;
use decoding::{Found, candidate, in_limits, nothing, settled};
use field::Verdict;
use key::kept::Key;
use reading::{Answer, check_word, given};

// The places that the word's sums give, where they are at most t and have the word's sums; 32 where a sum divides by 0.
fn explain_afresh(m: u8, support: &[u16], g: &[u16], word: &[u8]) -> Found
    requires { (is_width m ≡ true) × (length support.now ≤ 8192) × (length g.now ≤ 128) }
    ensures { result ≡ (let k = key_of m support.now g.now in let c = unpack (length support.now) word.now in found_of (inverse_number m (decoded_divisors k c)) (explained k c)) }
{
    let w = sums_afresh(m, support, g, word);
    let f = candidate(m, support, g.len(), w);
    if !f.found {
        return f;
    }
    let pattern = f.pattern;
    let own = sums_afresh(m, support, g, &pattern);
    settled(f, w, own)
}

// The pattern found in a word at a kept key.
fn decode_afresh<'a>(
    m: u8,
    n: u16,
    t: u16,
    support: &'a [u16; Key::MOST_PLACES],
    g: &'a [u16; Key::MOST_ERRORS],
    word: &[u8],
) -> Found
    ensures { result ≡ (let k = kept (parts m n t support.now g.now) in let w = unpack n word.now in found_of (decoded_number k w) (decoded k w)) }
{
    let places = n as usize;
    let errors = t as usize;
    if !in_limits(m, places, errors) {
        return nothing(Verdict::Accepted);
    }
    let s = &support[..];
    let h = &g[..];
    explain_afresh(m, &s[..places], &h[..errors], word)
}

// Reading a word: its pattern is written from the output's start, and nothing on refusal, with 25, 8, 9, 10 or 14.
pub fn read_afresh<'a>(
    m: u8,
    n: u16,
    t: u16,
    support: &'a [u16; Key::MOST_PLACES],
    g: &'a [u16; Key::MOST_ERRORS],
    word: &[u8],
    out: &mut [u8],
) -> Answer
    ensures answer { result ≡ read_of (kept (parts m n t support.now g.now)) word.now out.old }
    ensures output { out.new ≡ read_output (kept (parts m n t support.now g.now)) word.now out.old }
{
    let x = check_word(m, n, t, support, g, word, out.len());
    let Verdict::Accepted = x else {
        return Answer::Refused(field::number(x));
    };
    let e = decode_afresh(m, n, t, support, g, word);
    given(e, 14, n, out)
}
