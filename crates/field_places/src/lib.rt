// Products, squares and inverses in GF(2^m) at each place of a list. The loop over places vectorises.
#![tactic(auto)]

ghost use Rattle.std.specs.Prelude.{◌≡◌, true, map, ◌*◌, ◌%◌, ◌≤◌, ◌<◌, length, take};
ghost use Rattle.bits.specs.Bits.{padded};
ghost use Rattle.field.specs.Field.{is_width, inv};
ghost use Rattle.field.specs.Poly.{horner_each};
ghost use Rattle.field.specs.Verdicts.{verdict_of};
ghost use Rattle.field.specs.Answers.{inverse_number, inverses_of};
ghost use Rattle.field.specs.PointTable.{multiples_of, combination, combine_each};

use field::Verdict;

// One step of Horner's rule at each place, r[i] := r[i]·a[i] + c, as far as both go; nothing where m is no width.
pub fn horner_each(m: u8, r: &mut [u16], a: &[u16], c: u16)
    ensures { r.new ≡ horner_each m c r.old a.now }
{
    let f = field::modulus(m);
    if f == 0 {
        return;
    }
    let n = bits::smaller(r.len(), a.len());
    let mut i = 0;
    while i < n {
        r[i] = field::lane_product(m, f, r[i], a[i]) ^ c;
        i += 1;
    }
}

// The numbers of v, at most 512 of them, with zeros behind them.
pub fn block(v: &[u16]) -> [u16; 512]
    ensures { result ≡ padded 512 (take 512 v.now) }
{
    let n = bits::smaller(v.len(), 512);
    let mut a = [0u16; 512];
    let mut i = 0;
    while i < n {
        a[i] = v[i];
        i += 1;
    }
    a
}

// a² for each a of v, by a copy, so that `lane_product` has one caller.
fn square_block(m: u8, v: &mut [u16])
    requires { length v.old ≤ 512 }
    ensures { v.new ≡ horner_each m 0 v.old v.old }
{
    let a = block(v);
    horner_each(m, v, &a, 0);
}

// a^(2^m - 2) for each a of v, as `inverse_power` of `field` has it.
fn inverse_block(m: u8, v: &mut [u16])
    requires { (is_width m ≡ true) × (length v.old ≤ 512) }
    ensures { v.new ≡ map (inv m) v.old }
{
    let a = block(v);
    square_block(m, v);
    let mut k = 2;
    while k < m {
        horner_each(m, v, &a, 0);
        square_block(m, v);
        k += 1;
    }
}

// a² for each a of v, in blocks of 512 places; nothing where m is no width.
pub fn square_each(m: u8, v: &mut [u16])
    ensures { v.new ≡ horner_each m 0 v.old v.old }
{
    if field::modulus(m) == 0 {
        return;
    }
    let n = v.len();
    let mut at = 0;
    while at < n {
        let e = at + bits::smaller(n - at, 512);
        square_block(m, &mut v[at..e]);
        at = e;
    }
}

// 1/a for each a of v, in blocks of 512 places; nothing on refusal, with 1 where m is no width or 32 where the m low digits
// of some a are 0.
pub fn inverse_each(m: u8, v: &mut [u16]) -> Verdict
    ensures answer { result ≡ verdict_of (inverse_number m v.old) }
    ensures output { v.new ≡ inverses_of m v.old }
{
    let x = field::check_units(m, v);
    let Verdict::Accepted = x else {
        return x;
    };
    let n = v.len();
    let mut at = 0;
    while at < n {
        let e = at + bits::smaller(n - at, 512);
        inverse_block(m, &mut v[at..e]);
        at = e;
    }
    x
}

// v where d's lowest digit is 1, else 0.
fn selected(d: u16, v: u16) -> u16
    ensures { result ≡ d % 2 * v }
{
    (d & 1) * v
}

// The first row of `multiples`, with zeros behind it: the m low digits of each of a's first 64 points.
fn first_row(m: u8, a: &[u16]) -> [u16; 832]
    requires { is_width m ≡ true }
    ensures { result ≡ padded 832 (take 64 (multiples_of m a.now)) }
{
    let n = bits::smaller(a.len(), 64);
    let mask: u16 = (1 << m) - 1;
    let mut t = [0u16; 832];
    let mut i = 0;
    while i < n {
        t[i] = a[i] & mask;
        i += 1;
    }
    t
}

// a·z^j for each j below 13 and each of the first 64 points a, a row of 64 for each j; 0 past the points, where j is no digit of
// the field, and where m is no width.
pub fn multiples(m: u8, a: &[u16]) -> [u16; 832]
    ensures { result ≡ multiples_of m a.now }
{
    let f = field::modulus(m);
    if f == 0 {
        return [0u16; 832];
    }
    let n = 64 * (m as usize);
    let mut t = first_row(m, a);
    let mut q = 64;
    while q < n {
        let d = t[q - 64] << 1;
        t[q] = d ^ selected(d >> m, f);
        q += 1;
    }
    t
}

// The sum of the multiples in column i of t that r's 13 low digits select. The constant 13 lets the loop over places vectorise.
fn combined(t: &[u16; 832], i: usize, r: u16) -> u16
    requires { i < 64 }
    ensures { result ≡ combination t.now i r }
{
    let mut s: u16 = 0;
    let mut j = 0;
    while j < 13 {
        s ^= selected(r >> j, t[64 * j + i]);
        j += 1;
    }
    s
}

// One step of Horner's rule at each of the first 64 places, r[i] := r[i]·a[i] + c, by the multiples t of the points a.
pub fn horner_with(t: &[u16; 832], r: &mut [u16], c: u16)
    ensures { r.new ≡ combine_each t.now c r.old }
{
    let n = bits::smaller(r.len(), 64);
    let mut i = 0;
    while i < n {
        r[i] = combined(t, i, r[i]) ^ c;
        i += 1;
    }
}
