// The check of a kept key.
ghost use Rattle.std.specs.Prelude.{◌≡◌, true, not, eqb, length, take, ◌≤◌};
ghost use Rattle.bits.specs.Bits.{every};
ghost use Rattle.field.specs.Field.{is_width};
ghost use Rattle.field.specs.Numbers.{first_of};
ghost use Rattle.field.specs.Verdicts.{verdict_of};
ghost use Rattle.key.specs.Keys.{key_number};
ghost use Rattle.key.specs.Parts.{distinct_below, no_root, faults as faults_of, head_number, number_but_roots};
ghost use Rattle.key.specs.Kept.{kept, parts};

use super::kept::Key;
use super::shape::in_limits;
use field::Verdict;

// Each number is below 8192, and none stands twice: bit x of seen is 1 for each x passed.
pub fn distinct(s: &[u16]) -> bool
    ensures { result ≡ distinct_below 8192 s.now }
{
    let mut seen = [0u8; 1024];
    let mut i = 0;
    while i < s.len() {
        let x = s[i] as usize;
        if 8192 <= x {
            return false;
        }
        if bits::bit_at(&seen, x) != 0 {
            return false;
        }
        bits::set_bit(&mut seen, x, 1);
        i += 1;
    }
    true
}

// No number is 0.
fn no_zero(s: &[u16]) -> bool
    ensures { result ≡ every (λ x. not (eqb x 0)) s.now }
{
    let mut i = 0;
    while i < s.len() {
        if s[i] == 0 {
            return false;
        }
        i += 1;
    }
    true
}

// No g(a) is 0, a from at most 64 numbers.
pub fn no_root_of_few(m: u8, g: &[u16], s: &[u16]) -> bool
    requires { (is_width m ≡ true) × (length s.now ≤ 64) }
    ensures { result ≡ no_root m g.now s.now }
{
    let n = s.len();
    let mut values = [1u16; 64];
    poly::value_each(m, g, &mut values, s);
    no_zero(&values[..n])
}

// The same, a from at most 8192.
fn no_root_of_many(m: u8, g: &[u16], s: &[u16]) -> bool
    requires { (is_width m ≡ true) × (length s.now ≤ 8192) }
    ensures { result ≡ no_root m g.now s.now }
{
    let n = s.len();
    let values = transform::values(m, g, s);
    no_zero(&values[..n])
}

// No g(a) is 0, a from s: a short list takes no long array.
fn no_root(m: u8, g: &[u16], s: &[u16]) -> bool
    requires { (is_width m ≡ true) × (length s.now ≤ 8192) }
    ensures { result ≡ no_root m g.now s.now }
{
    if s.len() <= 64 {
        return no_root_of_few(m, g, s);
    }
    no_root_of_many(m, g, s)
}

// Whether the elements are right but for g's roots: 4, 5 or 6 on refusal.
fn faults_but_roots(m: u8, s: &[u16], g: &[u16]) -> Verdict
    requires { (is_width m ≡ true) × (length g.now ≤ 128) }
    ensures { result ≡ verdict_of (first_of (take 3 (faults_of m s.now g.now))) }
{
    if !field::elements(m, s) {
        return Verdict::Refused(4);
    }
    if !field::elements(m, g) {
        return Verdict::Refused(4);
    }
    if !distinct(s) {
        return Verdict::Refused(5);
    }
    if euclid::has_square(m, g) {
        return Verdict::Refused(6);
    }
    Verdict::Accepted
}

// Whether the elements are right: 4, 5, 6 or 7 on refusal.
fn faults(m: u8, s: &[u16], g: &[u16]) -> Verdict
    requires { (is_width m ≡ true) × (length s.now ≤ 8192) × (length g.now ≤ 128) }
    ensures { result ≡ verdict_of (first_of (faults_of m s.now g.now)) }
{
    let x = faults_but_roots(m, s, g);
    let Verdict::Accepted = x else {
        return x;
    };
    if !no_root(m, g, s) {
        return Verdict::Refused(7);
    }
    x
}

// Whether width, lengths and shape of a kept key, lent by its parts, are right: 1, 2 or 3 on refusal.
fn head<'a>(
    m: u8,
    n: u16,
    t: u16,
    support: &'a [u16; Key::MOST_PLACES],
    g: &'a [u16; Key::MOST_ERRORS],
) -> Verdict
    ensures { result ≡ verdict_of (head_number (kept (parts m n t support.now g.now))) }
{
    let s = &support[..];
    let h = &g[..];
    let places = n as usize;
    let errors = t as usize;
    if field::modulus(m) == 0 {
        return Verdict::Refused(1);
    }
    if s.len() < places {
        return Verdict::Refused(2);
    }
    if h.len() < errors {
        return Verdict::Refused(2);
    }
    if !in_limits(m, n, t) {
        return Verdict::Refused(3);
    }
    Verdict::Accepted
}

// Whether a kept key, lent by its parts, is right but for g's roots: 1, 2, 3, 4, 5 or 6 on refusal.
pub fn check_but_roots<'a>(
    m: u8,
    n: u16,
    t: u16,
    support: &'a [u16; Key::MOST_PLACES],
    g: &'a [u16; Key::MOST_ERRORS],
) -> Verdict
    ensures { result ≡ verdict_of (number_but_roots (kept (parts m n t support.now g.now))) }
{
    let x = head(m, n, t, support, g);
    let Verdict::Accepted = x else {
        return x;
    };
    let s = &support[..];
    let h = &g[..];
    faults_but_roots(m, &s[..n as usize], &h[..t as usize])
}

// Whether a kept key, lent by its parts, is one that load accepts: 1, 2, 3, 4, 5, 6 or 7 on refusal.
pub fn check<'a>(
    m: u8,
    n: u16,
    t: u16,
    support: &'a [u16; Key::MOST_PLACES],
    g: &'a [u16; Key::MOST_ERRORS],
) -> Verdict
    ensures { result ≡ verdict_of (key_number (kept (parts m n t support.now g.now))) }
{
    let x = head(m, n, t, support, g);
    let Verdict::Accepted = x else {
        return x;
    };
    let s = &support[..];
    let h = &g[..];
    faults(m, &s[..n as usize], &h[..t as usize])
}
