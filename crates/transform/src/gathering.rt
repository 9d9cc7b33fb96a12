// The values at a list of points.
ghost use Rattle.std.specs.Prelude.{◌≡◌, true, ◌%◌, ◌^◌, ◌≤◌, ◌<◌, get_or};
ghost use Rattle.bits.specs.Bits.{each_with};
ghost use Rattle.field.specs.Field.{is_width};
ghost use Rattle.poly.specs.Polynomials.{values_at};

use super::everywhere::everywhere;

// Whether the transform is the shorter way for t coefficients at n points: Horner's rule takes n·t products, the transform as long as
// about 16·2^m.
fn worth(m: u8, t: usize, n: usize) -> bool
    requires { n ≤ 8192 }
    ensures { result ≡ true → (is_width m ≡ true) × (9 ≤ m) × (t < 512) }
{
    if field::modulus(m) == 0 {
        return false;
    }
    if m < 9 {
        return false;
    }
    if 511 < t {
        return false;
    }
    levels::two(m) <= n * t / 16
}

// The place of the element a: its m low digits.
fn place(m: u8, a: u16) -> usize
    requires { is_width m ≡ true }
    ensures { result ≡ a % 2 ^ m }
{
    let mask: u16 = (1 << m) - 1;
    (a & mask) as usize
}

// v at the place of each point in r, as far as both go.
fn gather(m: u8, v: &[u16; 8192], r: &mut [u16], points: &[u16])
    requires { is_width m ≡ true }
    ensures { r.new ≡ each_with (λ x a. get_or v.now (a % 2 ^ m) 0) r.old points.now }
{
    let n = bits::smaller(r.len(), points.len());
    let mut i = 0;
    while i < n {
        let p = place(m, points[i]);
        r[i] = v[p];
        i += 1;
    }
}

// The monic polynomial with the lower coefficients g at each point, of at most 8192; 1 past them, and everywhere where m is no
// width. By the transform where that is shorter, else by Horner's rule.
pub fn values(m: u8, g: &[u16], points: &[u16]) -> [u16; 8192]
    ensures { result ≡ values_at m g.now points.now }
{
    let mut r = [1u16; 8192];
    if worth(m, g.len(), bits::smaller(points.len(), 8192)) {
        let mut v = [0u16; 8192];
        everywhere(m, g, &mut v);
        gather(m, &v, &mut r, points);
        return r;
    }
    poly::value_each(m, g, &mut r, points);
    r
}
