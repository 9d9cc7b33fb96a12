// The 2t sums of a word.
ghost use Rattle.std.specs.Prelude.{◌≡◌, true, map, ◌≤◌, length};
ghost use Rattle.bits.specs.Bits.{unpack};
ghost use Rattle.field.specs.Field.{is_width};
ghost use Rattle.field.specs.Answers.{inverse_number};
ghost use Rattle.poly.specs.Polynomials.{same as same_as};
ghost use Rattle.key.specs.Keys.{key_of, goppa_at};
ghost use Rattle.decoder.specs.Decoding.{square_sums};
ghost use Rattle.decoding.specs.Parts.{point_sums, sums_of, divisors};

use super::points::chosen;
use field::Verdict;
use register::Registered;

// The sums with zeros behind them; on refusal zeros.
#[derive(Clone, Copy)]
pub struct Sums {
    pub verdict: Verdict,
    pub s: [u16; Registered::LONGEST],
}

// The sums of a^k / g(a)² over the points a, k below 2t, by the values g(a) in v; 32 where one of them is 0.
fn sums_by_values(m: u8, g: &[u16], v: &mut [u16], points: &[u16]) -> Sums
    requires { (is_width m ≡ true) × (length g.now ≤ 128) × (v.old ≡ map (goppa_at (key_of m points.now g.now)) points.now) }
    ensures { result ≡ sums_of (inverse_number m v.old) (point_sums m g.now points.now) }
{
    let x = field_places::inverse_each(m, v);
    let Verdict::Accepted = x else {
        let s = [0u16; Registered::LONGEST];
        return Sums { verdict: x, s };
    };
    field_places::square_each(m, v);
    let s = point_sums::weighted_sums(m, 2 * g.len(), v, points);
    Sums { verdict: x, s }
}

// The 2t sums of a word; 32 where g is 0 at one of its points.
pub fn word_sums(m: u8, support: &[u16], g: &[u16], word: &[u8]) -> Sums
    requires { (is_width m ≡ true) × (length support.now ≤ 8192) × (length g.now ≤ 128) }
    ensures { result ≡ (let k = key_of m support.now g.now in let c = unpack (length support.now) word.now in sums_of (inverse_number m (divisors k c)) (square_sums k c)) }
{
    let c = chosen(support, word);
    let n = c.count;
    let at = c.at;
    let points = &at[..n];
    let mut v = transform::values(m, g, points);
    sums_by_values(m, g, &mut v[..n], points)
}

// The two lists, of one length, are equal.
pub fn same(a: &[u16], b: &[u16]) -> bool
    requires { length a.now ≡ length b.now }
    ensures { result ≡ same_as a.now b.now }
{
    let mut i = 0;
    while i < a.len() {
        if a[i] != b[i] {
            return false;
        }
        i += 1;
    }
    true
}
