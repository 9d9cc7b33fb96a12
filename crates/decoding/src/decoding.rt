// Reading a word: the places that its sums give, checked.
ghost use Rattle.std.specs.Prelude.{◌≡◌, true, ◌&&◌, ◌≤◌, leb, length, take};
ghost use Rattle.bits.specs.Bits.{unpack};
ghost use Rattle.field.specs.Field.{is_width};
ghost use Rattle.field.specs.Answers.{inverse_number};
ghost use Rattle.key.specs.Keys.{key_of};
ghost use Rattle.key.specs.Kept.{kept, parts};
ghost use Rattle.decoder.specs.Decoding.{explained};
ghost use Rattle.decoding.specs.Parts.{decoded_divisors, decoded_number, decoded, nothing_of, found_of, candidate_of, settled_of, points_of};

use super::places::located;
use super::points::{Points, chosen};
use super::sums::{Sums, same, word_sums};
use field::Verdict;
use key::kept::Key;

// A packed pattern of n bits with zeros behind it, and how many of its ones count; zeros only where none is found, and where a
// divisor was 0: the verdict is then the refusal, 32.
#[derive(Drop)]
pub struct Found {
    pub verdict: Verdict,
    pub found: bool,
    pub ones: u16,
    pub pattern: [u8; 1024],
}

// No pattern, with the verdict.
pub fn nothing(verdict: Verdict) -> Found
    ensures { result ≡ nothing_of verdict }
{
    Found {
        verdict,
        found: false,
        ones: 0,
        pattern: [0u8; 1024],
    }
}

// The points of a word, whose bits past its last byte are 0; none where the support has more than 8192 members.
pub fn word_points(support: &[u16], word: &[u8]) -> Points
    ensures all { take result.count result.at ≡ points_of support.now word.now }
    ensures number { result.count ≡ length (points_of support.now word.now) }
{
    if Key::MOST_PLACES < support.len() {
        let at = [0u16; Key::MOST_PLACES];
        return Points { count: 0, at };
    }
    chosen(support, word)
}

// m is a width, and n and t are at most the lengths of a kept key's arrays.
pub fn in_limits(m: u8, n: usize, t: usize) -> bool
    ensures { result ≡ (is_width m && leb n 8192 && leb t 128) }
{
    if field::modulus(m) == 0 {
        return false;
    }
    if Key::MOST_PLACES < n {
        return false;
    }
    t <= Key::MOST_ERRORS
}

// The places that the register of the first 2t sums gives, where they are at most t. A refusal of the sums is handed on; nothing
// where m is no width, the support or t is too large, or a sum is no element.
pub fn candidate(m: u8, support: &[u16], t: usize, w: Sums) -> Found
    ensures { result ≡ candidate_of m support.now t w }
{
    let x = w.verdict;
    let Verdict::Accepted = x else {
        return nothing(x);
    };
    if !in_limits(m, support.len(), t) {
        return nothing(Verdict::Accepted);
    }
    let s = w.s;
    let k = 2 * t;
    let sums = &s[..k];
    if !field::elements(m, sums) {
        return nothing(Verdict::Accepted);
    }
    let pattern = located(m, support, sums);
    let ones = bits::weight(&pattern, support.len());
    if t < ones {
        return nothing(Verdict::Accepted);
    }
    let count = ones as u16;
    Found {
        verdict: Verdict::Accepted,
        found: true,
        ones: count,
        pattern,
    }
}

// What is found, where its own sums are the word's; a refusal of its sums is handed on.
pub fn settled(f: Found, w: Sums, own: Sums) -> Found
    ensures { result ≡ settled_of f w own }
{
    let y = own.verdict;
    let Verdict::Accepted = y else {
        return nothing(y);
    };
    let o = own.s;
    let s = w.s;
    if !same(&o, &s) {
        return nothing(Verdict::Accepted);
    }
    f
}

// The places that the word's sums give, where they are at most t and have the word's sums; 32 where a sum divides by 0.
fn explain(m: u8, support: &[u16], g: &[u16], word: &[u8]) -> Found
    requires { (is_width m ≡ true) × (length support.now ≤ 8192) × (length g.now ≤ 128) }
    ensures { result ≡ (let k = key_of m support.now g.now in let c = unpack (length support.now) word.now in found_of (inverse_number m (decoded_divisors k c)) (explained k c)) }
{
    let w = word_sums(m, support, g, word);
    let f = candidate(m, support, g.len(), w);
    if !f.found {
        return f;
    }
    let pattern = f.pattern;
    let own = word_sums(m, support, g, &pattern);
    settled(f, w, own)
}

// The pattern found in a word at a kept key: at one that load accepts what reading gives (`decoded-reading`), and no refusal
// (`decoded_divides`). Nothing where m is no width or n or t is larger than its array. Bits past the word's last byte are 0.
pub fn decode<'a>(
    m: u8,
    n: u16,
    t: u16,
    support: &'a [u16; Key::MOST_PLACES],
    g: &'a [u16; Key::MOST_ERRORS],
    word: &[u8],
) -> Found
    ensures { result ≡ (let k = kept (parts m n t support.now g.now) in let w = unpack n word.now in found_of (decoded_number k w) (decoded k w)) }
{
    let places = n as usize;
    let errors = t as usize;
    if !in_limits(m, places, errors) {
        return nothing(Verdict::Accepted);
    }
    let s = &support[..];
    let h = &g[..];
    explain(m, &s[..places], &h[..errors], word)
}
