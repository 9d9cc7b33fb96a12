// The 2t sums of a word, with g's value and its inverse square at each point worked out afresh in each sum.
ghost use Rattle.std.specs.Prelude.{◌≡◌, true, map, ◌≤◌, length};
ghost use Rattle.bits.specs.Bits.{unpack};
ghost use Rattle.field.specs.Field.{is_width};
ghost use Rattle.field.specs.Answers.{inverse_number};
ghost use Rattle.key.specs.Keys.{key_of, goppa_at};
ghost use Rattle.decoder.specs.Decoding.{square_sums};
ghost use Rattle.decoding.specs.Parts.{point_sums, sums_of, divisors};
ghost use Rattle.bench_calls.specs.Weights.{sum_by_squares};

use decoding::{Sums, word_points};
use field::Verdict;
use key::kept::Key;
use point_sums::total;
use register::Registered;

// A sum; 0 on refusal.
#[derive(Drop)]
struct Sum {
    verdict: Verdict,
    value: u16,
}

// The sum of x / v² for each v of the list and x of p.
fn sum_by_squares(m: u8, v: &mut [u16], p: &[u16]) -> Sum
    ensures { result ≡ sum_by_squares m v.old p.now }
{
    let x = field_places::inverse_each(m, v);
    let Verdict::Accepted = x else {
        return Sum {
            verdict: x,
            value: 0,
        };
    };
    field_places::square_each(m, v);
    field_places::horner_each(m, v, p, 0);
    let value = total(v);
    Sum { verdict: x, value }
}

// The sum of x / g(a)² for each point a and x of p, with g's values worked out from g.
fn sum_afresh(m: u8, g: &[u16], p: &[u16], points: &[u16]) -> Sum
    requires { (is_width m ≡ true) × (length points.now ≤ 8192) }
    ensures { result ≡ sum_by_squares m (map (goppa_at (key_of m points.now g.now)) points.now) p.now }
{
    let n = points.len();
    let mut v = transform::values(m, g, points);
    sum_by_squares(m, &mut v[..n], p)
}

// The sums of a^k / g(a)² over the points a, k below 2t, each by itself; 32 where g is 0 at one of them. p has the powers a^k.
fn each_sum(m: u8, g: &[u16], points: &[u16]) -> Sums
    requires { (is_width m ≡ true) × (length points.now ≤ 8192) × (length g.now ≤ 128) }
    ensures { result ≡ sums_of (inverse_number m (map (goppa_at (key_of m points.now g.now)) points.now)) (point_sums m g.now points.now) }
{
    let mut s = [0u16; Registered::LONGEST];
    let mut p = [1u16; Key::MOST_PLACES];
    let mut k = 0;
    while k < 2 * g.len() {
        let d = sum_afresh(m, g, &p, points);
        let x = d.verdict;
        let Verdict::Accepted = x else {
            let z = [0u16; Registered::LONGEST];
            return Sums { verdict: x, s: z };
        };
        s[k] = d.value;
        field_places::horner_each(m, &mut p, points, 0);
        k += 1;
    }
    Sums {
        verdict: Verdict::Accepted,
        s,
    }
}

// The 2t sums of a word; 32 where g is 0 at one of its points.
pub fn sums_afresh(m: u8, support: &[u16], g: &[u16], word: &[u8]) -> Sums
    requires { (is_width m ≡ true) × (length support.now ≤ 8192) × (length g.now ≤ 128) }
    ensures { result ≡ (let k = key_of m support.now g.now in let c = unpack (length support.now) word.now in sums_of (inverse_number m (divisors k c)) (square_sums k c)) }
{
    let c = word_points(support, word);
    let n = c.count;
    let at = c.at;
    each_sum(m, g, &at[..n])
}
