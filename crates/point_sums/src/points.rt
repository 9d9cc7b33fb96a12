// The sums by powers, in blocks of 64 points.
ghost use Rattle.std.specs.Prelude.{◌≡◌, true, map, ◌%◌, ◌^◌, ◌≤◌, length};
ghost use Rattle.bits.specs.Bits.{padded, xor_row};
ghost use Rattle.field.specs.Field.{is_width};
ghost use Rattle.poly.specs.Polynomials.{sum};
ghost use Rattle.point_sums.specs.Weighted.{weighted_sums};

// The sum, exclusive or, of all numbers.
pub fn total(p: &[u16]) -> u16
    ensures { result ≡ sum p.now }
{
    let mut d: u16 = 0;
    let mut i = 0;
    while i < p.len() {
        d ^= p[i];
        i += 1;
    }
    d
}

// The m low digits of at most 64 numbers, with zeros behind them.
fn low_digits(m: u8, w: &[u16]) -> [u16; 64]
    requires { (is_width m ≡ true) × (length w.now ≤ 64) }
    ensures { result ≡ padded 64 (map (λ x. x % 2 ^ m) w.now) }
{
    let mask: u16 = (1 << m) - 1;
    let mut p = [0u16; 64];
    let mut i = 0;
    while i < w.len() {
        p[i] = w[i] & mask;
        i += 1;
    }
    p
}

// The sums over at most 64 points for the first k powers, added to s, by the multiples of the points; p has the terms of the next sum.
fn block_sums(m: u8, k: usize, s: &mut [u16], w: &[u16], points: &[u16])
    requires { (is_width m ≡ true) × (k ≤ length s.old) × (length w.now ≡ length points.now) × (length points.now ≤ 64) }
    ensures { s.new ≡ xor_row s.old (weighted_sums m k w.now points.now) }
{
    let t = field_places::multiples(m, points);
    let mut p = low_digits(m, w);
    let mut j = 0;
    while j < k {
        s[j] ^= total(&p);
        field_places::horner_with(&t, &mut p, 0);
        j += 1;
    }
}

// The sums for the first k powers, with zeros behind them.
pub fn over_points(m: u8, k: usize, w: &[u16], points: &[u16]) -> [u16; 256]
    requires { (is_width m ≡ true) × (k ≤ 256) }
    ensures { result ≡ padded 256 (weighted_sums m k w.now points.now) }
{
    let n = bits::smaller(w.len(), points.len());
    let mut s = [0u16; 256];
    let mut at = 0;
    while at < n {
        let e = at + bits::smaller(n - at, 64);
        block_sums(m, k, &mut s, &w[at..e], &points[at..e]);
        at = e;
    }
    s
}
