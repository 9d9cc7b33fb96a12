// The shortest register for a list of elements: document 004's Figure 1.
#![tactic(auto)]

ghost use Rattle.std.specs.Prelude.{◌≡◌, true, ◌++◌, map, ◌+◌, ◌-◌, ◌*◌, ◌/◌, ◌≤◌, ◌<◌, min, length, get_or, replicate};
ghost use Rattle.bits.specs.Xor.{◌⊕◌};
ghost use Rattle.bits.specs.Bits.{from, every, xor_row};
ghost use Rattle.field.specs.Field.{is_width, is_element, mul};
ghost use Rattle.field.specs.Answers.{is_unit};
ghost use Rattle.field.specs.Verdicts.{verdict_of};
ghost use Rattle.field.specs.PointTable.{digit_sum};
ghost use Rattle.poly.specs.Polynomials.{sum};
ghost use Rattle.poly.specs.Register.{register as register_of, register_number};
ghost use Rattle.poly.specs.Parts.{Earlier};
ghost use Rattle.register.specs.Registered.{figure, registered, registered_of};
ghost use Rattle.register.specs.Across.{Past, Multiples, Fits, discrepancy_across, corrected_across, turn_across, divided};

use field::{Answer, Verdict};

// A register: its length and its connection polynomial's coefficients 0 to 256, with 0 past the length; or the number of
// a refusal, with length 0 and coefficients 0.
#[repr(C)]
#[derive(Drop)]
pub struct Registered {
    pub refused: u8,
    pub length: usize,
    pub c: [u16; Registered::COEFFICIENTS],
}

// Figure 1's l and y, and its d_m multiplied by a unit; B(x), beside it, by the same, and C(x) by another.
#[derive(Clone, Copy)]
struct Step {
    l: usize,
    d: u16,
    y: usize,
}

impl Registered {
    // The longest list.
    pub const LONGEST: usize = 256;

    // The number of coefficients.
    pub const COEFFICIENTS: usize = 257;

    // The shortest register that generates s, or a refusal: 1, no width; 2, s too long; 4, an element 2^m or more.
    pub fn of(m: u8, s: &[u16]) -> Registered
        ensures { result ≡ registered_of m s.now }
    {
        let x = check(m, s);
        let Verdict::Accepted = x else {
            return Registered {
                refused: field::number(x),
                length: 0,
                c: [0u16; Registered::COEFFICIENTS],
            };
        };
        run(m, s)
    }
}

// Whether the list is one for the register: 1, 2 or 4 on refusal.
fn check(m: u8, s: &[u16]) -> Verdict
    ensures { result ≡ verdict_of (register_number m s.now) }
{
    if field::modulus(m) == 0 {
        return Verdict::Refused(1);
    }
    if Registered::LONGEST < s.len() {
        return Verdict::Refused(2);
    }
    if !field::elements(m, s) {
        return Verdict::Refused(4);
    }
    Verdict::Accepted
}

// Figure 1 over the whole list, without quotients but for the last step.
fn run(m: u8, s: &[u16]) -> Registered
    requires { (is_width m ≡ true) × (length s.now ≤ 256) × (every (is_element m) s.now ≡ true) }
    ensures { result ≡ registered 0 (register_of m s.now) }
{
    let mut c = [0u16; Registered::COEFFICIENTS];
    c[0] = 1;
    let mut b = c;
    let mut k = Step { l: 0, d: 1, y: 1 };
    let mut n = 0;
    while n < s.len() {
        let d = discrepancy(m, s, &c, k.l, n);
        k = turn(m, d, n, k, &mut c, &mut b);
        n += 1;
    }
    let q = quotient(m, c, k.l);
    Registered {
        refused: 0,
        length: k.l,
        c: q,
    }
}

// The first l + 1 places, with others up to a multiple of 8, so that the loops over places vectorise.
fn places(l: usize) -> usize
    requires { l ≤ 256 }
    ensures { result ≡ min ((l / 8 + 1) * 8) 257 }
{
    bits::smaller((l / 8 + 1) * 8, Registered::COEFFICIENTS)
}

// Line 3 for any c_0: c_0·s_n + the sum of c_i·s_{n-i}, i from 1 to l, the products over all places at once.
fn discrepancy(m: u8, s: &[u16], c: &[u16], l: usize, n: usize) -> u16
    requires { (is_width m ≡ true) × (length c.now ≡ 257) × (l ≤ n) × (n < length s.now) × (n < 256) }
    ensures { result ≡ discrepancy_across m s.now c.now l n }
{
    let e = places(l);
    let mut p = earlier(s, n, l);
    p[0] = s[n];
    field_places::horner_each(m, &mut p, &c[..e], 0);
    total(p[0], &p, l)
}

// s_{n-i} at the places i from 1 to l.
fn earlier(s: &[u16], n: usize, l: usize) -> [u16; Registered::COEFFICIENTS]
    requires { (l ≤ n) × (n < length s.now) × (n < 256) }
    ensures { Earlier s.now n (l + 1) result }
{
    let mut w = [0u16; Registered::COEFFICIENTS];
    let mut i = 1;
    while i <= l {
        w[i] = s[n - i];
        i += 1;
    }
    w
}

// x + the sum of p's places 1 to l.
fn total(x: u16, p: &[u16], l: usize) -> u16
    requires { (l ≤ 256) × (length p.now ≡ 257) }
    ensures { result ≡ x ⊕ sum (map (λ i. get_or p.now i 0) (from 1 l)) }
{
    let mut d = x;
    let mut i = 1;
    while i <= l {
        d ^= p[i];
        i += 1;
    }
    d
}

// Lines 4 to 16.
fn turn(m: u8, d: u16, n: usize, k: Step, c: &mut [u16], b: &mut [u16]) -> Step
    requires { (is_width m ≡ true) × (length c.old ≡ 257) × (length b.old ≡ 257) × (k.l + k.y ≤ n + 1) × (n < 256)
        × Past k.l c.old × Past (n + 1 - k.l - k.y) b.old }
    ensures { figure c.new b.new result ≡ turn_across m d n (figure c.old b.old k) }
{
    if d == 0 {
        return Step {
            l: k.l,
            d: k.d,
            y: k.y + 1,
        };
    }
    if n < 2 * k.l {
        correct(m, d, n, k, c, b);
        return Step {
            l: k.l,
            d: k.d,
            y: k.y + 1,
        };
    }
    let old = copied(c);
    correct(m, d, n, k, c, b);
    copy(b, &old);
    Step {
        l: n + 1 - k.l,
        d,
        y: 1,
    }
}

// The list's 257 coefficients.
fn copied(c: &[u16]) -> [u16; Registered::COEFFICIENTS]
    requires { length c.now ≡ 257 }
    ensures { result ≡ c.now }
{
    let mut r = [0u16; Registered::COEFFICIENTS];
    copy(&mut r, c);
    r
}

// 257 coefficients in the place of others.
fn copy(b: &mut [u16], c: &[u16])
    requires { (length b.old ≡ 257) × (length c.now ≡ 257) }
    ensures { b.new ≡ c.now }
{
    let mut i = 0;
    while i < Registered::COEFFICIENTS {
        b[i] = c[i];
        i += 1;
    }
}

// Lines 7 and 11, multiplied by d_m: d_m·C(x) - d·x^y·B(x).
fn correct(m: u8, d: u16, n: usize, k: Step, c: &mut [u16], b: &[u16])
    requires { (is_width m ≡ true) × (length c.old ≡ 257) × (length b.now ≡ 257) × (k.l + k.y ≤ n + 1) × (n < 256)
        × Past k.l c.old × Past (n + 1 - k.l - k.y) b.now }
    ensures { c.new ≡ corrected_across m (figure c.old b.now k) d }
{
    scale(m, k.d, c, k.l);
    add_multiple(m, d, c, b, k.y, n + 1 - k.l - k.y);
}

// a·z^j for each j below 13; 0 where j is no digit of the field.
fn multiples(m: u8, a: u16) -> [u16; 13]
    requires { is_width m ≡ true }
    ensures { Multiples m a result }
{
    let f = field::modulus(m);
    let n = m as usize;
    let mask: u16 = (1 << m) - 1;
    let mut t = [0u16; 13];
    t[0] = a & mask;
    let mut j = 1;
    while j < n {
        let d = t[j - 1] << 1;
        t[j] = d ^ (d >> m & 1) * f;
        j += 1;
    }
    t
}

// The sum of the multiples that x's 13 low digits select. The constant 13 lets the loop over places vectorise.
fn combined(t: &[u16; 13], x: u16) -> u16
    requires { Fits t.now }
    ensures { result ≡ digit_sum 13 (λ j. get_or t.now j 0) x }
{
    let mut s: u16 = 0;
    let mut j = 0;
    while j < 13 {
        s ^= (x >> j & 1) * t[j];
        j += 1;
    }
    s
}

// c := a·c, for c with 0 past the place l.
fn scale(m: u8, a: u16, c: &mut [u16], l: usize)
    requires { (is_width m ≡ true) × (length c.old ≡ 257) × (l ≤ 256) × Past l c.old }
    ensures { c.new ≡ map (mul m a) c.old }
{
    let t = multiples(m, a);
    let e = places(l);
    let mut i = 0;
    while i < e {
        c[i] = combined(&t, c[i]);
        i += 1;
    }
}

// c := c + a·x^y·b, as far as c goes, for b with 0 past the place k.
fn add_multiple(m: u8, a: u16, c: &mut [u16], b: &[u16], y: usize, k: usize)
    requires { (is_width m ≡ true) × (length c.old ≡ 257) × (length b.now ≡ 257) × (y + k ≤ 256) × Past k b.now }
    ensures { c.new ≡ xor_row c.old (replicate y 0 ++ map (mul m a) b.now) }
{
    let t = multiples(m, a);
    let e = bits::smaller(y + places(k), Registered::COEFFICIENTS);
    let mut i = y;
    while i < e {
        c[i] ^= combined(&t, b[i - y]);
        i += 1;
    }
}

// c / c_0, for c with 0 past the place l.
fn quotient(m: u8, c: [u16; Registered::COEFFICIENTS], l: usize) -> [u16; Registered::COEFFICIENTS]
    requires { (is_width m ≡ true) × (l ≤ 256) × (Past l c) × (is_unit m (get_or c 0 0) ≡ true) }
    ensures { result ≡ divided m c }
{
    let i = field::inverse(m, c[0]);
    // Not refused: c_0 is a unit.
    let Answer::Value(v) = i else {
        return c;
    };
    let mut r = c;
    scale(m, v, &mut r, l);
    r
}
