// The value of a polynomial at a point, and at each of a list of points.
ghost use Rattle.std.specs.Prelude.{◌≡◌, true, ◌≤◌, length};
ghost use Rattle.bits.specs.Bits.{each_with};
ghost use Rattle.field.specs.Field.{is_width};
ghost use Rattle.field.specs.Poly.{value as value_of};
ghost use Rattle.poly.specs.Polynomials.{value_from, each_value};

// p(a) by Horner's rule, coefficient 0 of p first.
pub fn value(m: u8, p: &[u16], a: u16) -> u16
    ensures { result ≡ value_of m p.now a }
{
    let mut r: u16 = 0;
    let mut k = p.len();
    while 0 < k {
        k -= 1;
        r = p[k] ^ field::times(m, a, r);
    }
    r
}

// The polynomial with the lower coefficients g and the leading coefficient r[i] at the point a[i], for at most 64 points, by
// Horner's rule with the multiples of the points.
fn value_block(m: u8, g: &[u16], r: &mut [u16], a: &[u16])
    requires { (is_width m ≡ true) × (length r.old ≡ length a.now) × (length a.now ≤ 64) }
    ensures { r.new ≡ each_with (value_from m g.now) r.old a.now }
{
    let t = field_places::multiples(m, a);
    let mut k = g.len();
    while 0 < k {
        k -= 1;
        field_places::horner_with(&t, r, g[k]);
    }
}

// The polynomial with the lower coefficients g and the leading coefficient r[i] at the point a[i], as far as both go, in blocks of 64
// points; nothing where m is no width.
pub fn value_each(m: u8, g: &[u16], r: &mut [u16], points: &[u16])
    ensures { r.new ≡ each_value m g.now r.old points.now }
{
    if field::modulus(m) == 0 {
        return;
    }
    let n = bits::smaller(r.len(), points.len());
    let mut at = 0;
    while at < n {
        let e = bits::smaller(at + 64, n);
        value_block(m, g, &mut r[at..e], &points[at..e]);
        at = e;
    }
}
