// The values at every element.
ghost use Rattle.std.specs.Prelude.{◌≡◌, true, ℕ, ◌^◌, ◌≤◌, ◌<◌, length, replicate};
ghost use Rattle.bits.specs.Bits.{padded};
ghost use Rattle.field.specs.Field.{is_width};
ghost use Rattle.poly.specs.Polynomials.{monic as monic_of};
ghost use Rattle.levels.specs.Levels.{Factors, Tops};
ghost use Rattle.transform.specs.Values.{parts_of, joins_of, everywhere as everywhere_of};

use super::halves::split_level;
use super::joining::{join_level, spread};
use levels::{Levels, two};

// The least k with n ≤ 2^k.
fn depth(n: usize) -> u8
    requires { n ≤ 512 }
    ensures { (n ≤ 2 ^ result) × ((j : ℕ) → n ≤ 2 ^ j → result ≤ j) }
{
    let mut k: u8 = 0;
    let mut w: usize = 1;
    while w < n {
        w += w;
        k += 1;
    }
    k
}

// All levels of the polynomial with the 2^k coefficients c.
fn descend(m: u8, k: u8, tops: [u16; 16], c: &mut [u16])
    requires { (is_width m ≡ true) × (k ≤ m) × (k ≤ 9) × (length c.old ≡ 2 ^ k) × Tops m k tops }
    ensures { c.new ≡ parts_of m k k c.old }
{
    let mut j: u8 = 0;
    while j < k {
        split_level(m, tops[j as usize], two(k - 1 - j), two(j), c);
        j += 1;
    }
}

// The values of k levels joined, by the factors g.
fn ascend(m: u8, k: u8, g: &[u16; 8192], d: &mut [u16])
    requires { (is_width m ≡ true) × (k ≤ m) × (length d.old ≡ 2 ^ m) × Factors m k g.now }
    ensures { d.new ≡ joins_of m k d.old }
{
    let f = &g[..];
    let mut j = k;
    while 0 < j {
        j -= 1;
        let h = two(m - 1 - j);
        join_level(m, &f[h..h + h], two(j), d);
    }
}

// The values of the polynomial with the 2^k coefficients c at every element.
fn transformed(m: u8, k: u8, c: &mut [u16], d: &mut [u16])
    requires { (is_width m ≡ true) × (k ≤ m) × (k ≤ 9) × (length c.old ≡ 2 ^ k) × (length d.old ≡ 2 ^ m) }
    ensures { d.new ≡ everywhere_of m c.old }
{
    let l = Levels::of(m);
    descend(m, k, l.tops, c);
    spread(c, two(m - k), d);
    ascend(m, k, &l.factors, d);
}

// The lower coefficients and the leading coefficient 1, with zeros behind them.
fn monic(g: &[u16]) -> [u16; 512]
    requires { length g.now < 512 }
    ensures { result ≡ padded 512 (monic_of g.now) }
{
    let mut c = field_places::block(g);
    c[g.len()] = 1;
    c
}

// The monic polynomial with the lower coefficients g at a at place a of d for each element a, where d is zeros.
pub fn everywhere(m: u8, g: &[u16], d: &mut [u16])
    requires { (is_width m ≡ true) × (9 ≤ m) × (length g.now < 512) × (d.old ≡ replicate 8192 0) }
    ensures { d.new ≡ padded 8192 (everywhere_of m (monic_of g.now)) }
{
    let mut c = monic(g);
    let k = depth(g.len() + 1);
    let n = two(k);
    let top = two(m);
    transformed(m, k, &mut c[..n], &mut d[..top]);
}
