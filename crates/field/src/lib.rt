// The fields GF(2^m) for m of 4, 12 and 13 (document 01, 'Field').
#![tactic(auto)]

ghost use Rattle.std.specs.Prelude.{◌≡◌, true, suc, ◌^◌, ◌<◌, ◌≤◌, [], ◌∷◌, ltb};
ghost use Rattle.bits.specs.Bits.{every};
ghost use Rattle.field.specs.Field.{is_width, is_element, modulus_of, mul_mod, product_by, mul, inv};
ghost use Rattle.field.specs.Verdicts.{verdict_of, number_of};
ghost use Rattle.field.specs.Answers.{elements_number, add_of, multiply_of, invert_of, inverse_number, inverse_of};

// What a check answers, here and in the crates above: accepted, or the number of a refusal.
#[derive(Clone, Copy)]
pub enum Verdict {
    Accepted,
    Refused(u8),
}

// The number of a refusal, and 0 where it is accepted.
pub fn number(v: Verdict) -> u8
    ensures { result ≡ number_of v }
{
    match v {
        Verdict::Accepted => 0,
        Verdict::Refused(n) => n,
    }
}

// What an inverse answers, and each public call: the element, or the number of a refusal.
#[derive(Clone, Copy)]
pub enum Answer {
    Value(u16),
    Refused(u8),
}

// The modulus at each width, and 0 where there is none.
const MODULI: [u16; 14] = [0, 0, 0, 0, 0x13, 0, 0, 0, 0, 0, 0, 0, 0x1009, 0x201B];

// The modulus of the width m, and 0 where m is no width.
pub fn modulus(m: u8) -> u16
    ensures { result ≡ modulus_of m }
{
    if m < 14 { MODULI[m as usize] } else { 0 }
}

// a·b modulo f, of degree m, by Horner's rule from b's digit n - 1 down. Scalar callers take n = m; loops over places take the
// constant 13, which the compiler unrolls once the product is inlined there, so that the loop vectorises.
fn product(m: u8, f: u16, a: u16, b: u16, n: u16) -> u16
    requires { (2 ^ m ≤ f) × (f < 2 ^ suc m) × (a < 2 ^ m) × (b < 2 ^ m) × (m ≤ n) × (n < 14) }
    ensures { result ≡ mul_mod m f a b }
{
    let mut r: u16 = 0;
    let mut k = n;
    while 0 < k {
        k -= 1;
        let d = r << 1;
        r = d ^ ((d >> m) & 1) * f ^ ((b >> k) & 1) * a;
    }
    r
}

// a·b in the field of width m, of the m low digits of a and b; 0 where m is no width.
pub fn times(m: u8, a: u16, b: u16) -> u16
    ensures { result ≡ mul m a b }
{
    let f = modulus(m);
    if f == 0 {
        return 0;
    }
    let mask: u16 = (1 << m) - 1;
    product(m, f, a & mask, b & mask, m as u16)
}

// a·b modulo f, of the m low digits of a and b, for loops over places; 0 where f has not the degree m, at most 13.
pub fn lane_product(m: u8, f: u16, a: u16, b: u16) -> u16
    ensures { result ≡ product_by m f a b }
{
    if 13 < m {
        return 0;
    }
    if f >> m != 1 {
        return 0;
    }
    let mask: u16 = (1 << m) - 1;
    product(m, f, a & mask, b & mask, 13)
}

// a^(2^m - 2): from a^2 on, multiplied by a and squared, a^(2^k - 2) becomes a^(2^(k+1) - 2).
fn inverse_power(m: u8, a: u16) -> u16
    requires { is_width m ≡ true }
    ensures { result ≡ inv m a }
{
    let mut r = times(m, a, a);
    let mut k = 2;
    while k < m {
        let p = times(m, r, a);
        r = times(m, p, p);
        k += 1;
    }
    r
}

// Whether every number has an inverse: 1 where m is no width, 32 where the m low digits of one are 0.
pub fn check_units(m: u8, s: &[u16]) -> Verdict
    ensures { result ≡ verdict_of (inverse_number m s.now) }
{
    if modulus(m) == 0 {
        return Verdict::Refused(1);
    }
    let mask: u16 = (1 << m) - 1;
    let mut i = 0;
    while i < s.len() {
        if s[i] & mask == 0 {
            return Verdict::Refused(32);
        }
        i += 1;
    }
    Verdict::Accepted
}

// The inverse of a's m low digits; 1 or 32 on refusal.
pub fn inverse(m: u8, a: u16) -> Answer
    ensures { result ≡ inverse_of m a }
{
    let one = [a];
    let x = check_units(m, &one);
    let Verdict::Accepted = x else {
        return Answer::Refused(number(x));
    };
    Answer::Value(inverse_power(m, a))
}

// Every number is below 2^m.
pub fn elements(m: u8, s: &[u16]) -> bool
    ensures { result ≡ every (is_element m) s.now }
{
    if 16 <= m {
        return true;
    }
    below(1 << m, s)
}

// Every number is below top.
fn below(top: u16, s: &[u16]) -> bool
    ensures { result ≡ every (λ x. ltb x top) s.now }
{
    let mut i = 0;
    while i < s.len() {
        if top <= s[i] {
            return false;
        }
        i += 1;
    }
    true
}

// Whether a is an element of width m: 1 or 4 on refusal.
fn check(m: u8, a: u32) -> Verdict
    ensures { result ≡ verdict_of (elements_number m (a ∷ [])) }
{
    if modulus(m) == 0 {
        return Verdict::Refused(1);
    }
    let top: u16 = 1 << m;
    if top as u32 <= a {
        return Verdict::Refused(4);
    }
    Verdict::Accepted
}

// The same for two elements.
fn check_pair(m: u8, a: u32, b: u32) -> Verdict
    ensures { result ≡ verdict_of (elements_number m (a ∷ b ∷ [])) }
{
    let x = check(m, a);
    let Verdict::Accepted = x else {
        return x;
    };
    check(m, b)
}

// The sum, exclusive or, of two elements.
pub fn add(m: u8, a: u32, b: u32) -> Answer
    ensures { result ≡ add_of m a b }
{
    let x = check_pair(m, a, b);
    let Verdict::Accepted = x else {
        return Answer::Refused(number(x));
    };
    Answer::Value((a as u16) ^ (b as u16))
}

// The product of two elements.
pub fn multiply(m: u8, a: u32, b: u32) -> Answer
    ensures { result ≡ multiply_of m a b }
{
    let x = check_pair(m, a, b);
    let Verdict::Accepted = x else {
        return Answer::Refused(number(x));
    };
    Answer::Value(times(m, a as u16, b as u16))
}

// The inverse of an element other than 0.
pub fn invert(m: u8, a: u32) -> Answer
    ensures { result ≡ invert_of m a }
{
    let x = check(m, a);
    let Verdict::Accepted = x else {
        return Answer::Refused(number(x));
    };
    inverse(m, a as u16)
}
