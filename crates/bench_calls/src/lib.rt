// Parts of the calls under C names, for the benchmark; and reading, as it is and with slow sums.
#![tactic(auto)]

mod afresh;
mod sums;

ghost use Rattle.std.specs.Prelude.{◌≡◌, get_or};
ghost use Rattle.field.specs.Poly.{horner_each};
ghost use Rattle.poly.specs.Polynomials.{values_at};
ghost use Rattle.euclid.specs.Euclid.{square_test};
ghost use Rattle.irreducible.specs.Answers.{factor_test};
ghost use Rattle.key.specs.Parts.{distinct_below};
ghost use Rattle.key.specs.Kept.{kept, parts};
ghost use Rattle.decoder.specs.Calls.{read_number, read_output};
ghost use Rattle.bench_calls.specs.Chain.{chain};
ghost use Rattle.bench_calls.specs.Weights.{refusal_of};

use afresh::read_afresh;
use reading::Answer;

// b·a^n: n products, each of which waits for the one before.
#[unsafe(no_mangle)]
pub extern "C" fn bench_chain(m: u8, a: u16, b: u16, n: u32) -> u16
    ensures { result ≡ chain n m a b }
{
    let mut r = b;
    let mut k = n;
    while 0 < k {
        k -= 1;
        r = field::times(m, r, a);
    }
    r
}

// One step of Horner's rule at each place.
#[unsafe(no_mangle)]
pub extern "C" fn bench_horner(m: u8, r: &mut [u16], a: &[u16], c: u16)
    ensures { r.new ≡ horner_each m c r.old a.now }
{
    field_places::horner_each(m, r, a, c);
}

// One of the values of a monic polynomial at each point, and 0 past them.
#[unsafe(no_mangle)]
pub extern "C" fn bench_values(m: u8, g: &[u16], points: &[u16], i: usize) -> u16
    ensures { result ≡ get_or (values_at m g.now points.now) i 0 }
{
    if 8192 <= i {
        return 0;
    }
    let v = transform::values(m, g, points);
    v[i]
}

// The square test.
#[unsafe(no_mangle)]
pub extern "C" fn bench_square(m: u8, g: &[u16]) -> bool
    ensures { result ≡ square_test m g.now }
{
    euclid::has_square(m, g)
}

// The test for a proper factor, the square test included.
#[unsafe(no_mangle)]
pub extern "C" fn bench_factor(m: u8, g: &[u16]) -> bool
    ensures { result ≡ factor_test m g.now }
{
    irreducible::has_factor(m, g)
}

// The distinctness pass.
#[unsafe(no_mangle)]
pub extern "C" fn bench_distinct(s: &[u16]) -> bool
    ensures { result ≡ distinct_below 8192 s.now }
{
    key::checks::distinct(s)
}

// The number of a refusal, and 0 where there is none.
fn refusal(a: Answer) -> u8
    ensures { result ≡ refusal_of a }
{
    match a {
        Answer::Ones(_) => 0,
        Answer::Refused(n) => n,
    }
}

// Reading a word: the number of the refusal, or 0.
#[unsafe(no_mangle)]
pub extern "C" fn bench_read<'a>(
    m: u8,
    n: u16,
    t: u16,
    support: &'a [u16; 8192],
    g: &'a [u16; 128],
    word: &[u8],
    out: &mut [u8],
) -> u8
    ensures number { result ≡ read_number (kept (parts m n t support.now g.now)) word.now out.old }
    ensures output { out.new ≡ read_output (kept (parts m n t support.now g.now)) word.now out.old }
{
    refusal(reading::read(m, n, t, support, g, word, out))
}

// The same with g's value and its inverse square worked out afresh in each sum for each place.
#[unsafe(no_mangle)]
pub extern "C" fn bench_read_afresh<'a>(
    m: u8,
    n: u16,
    t: u16,
    support: &'a [u16; 8192],
    g: &'a [u16; 128],
    word: &[u8],
    out: &mut [u8],
) -> u8
    ensures number { result ≡ read_number (kept (parts m n t support.now g.now)) word.now out.old }
    ensures output { out.new ≡ read_output (kept (parts m n t support.now g.now)) word.now out.old }
{
    refusal(read_afresh(m, n, t, support, g, word, out))
}
