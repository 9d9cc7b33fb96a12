// The sums of powers over all elements.
ghost use Rattle.std.specs.Prelude.{◌≡◌, true, ◌*◌, ◌^◌, ◌≤◌, min, length, get_or};
ghost use Rattle.field.specs.Field.{is_width};
ghost use Rattle.levels.specs.Levels.{Factors, Tops};
ghost use Rattle.power_sums.specs.Sums.{sum_to, heaped, weights_of, merges_of, power_sums, sums_all};

use super::folding::fold_level;
use super::merging::merge_level;
use levels::{Levels, two};

// The sum, exclusive or, of all numbers.
fn total(l: &[u16]) -> u16
    ensures { result ≡ sum_to (length l.now) (λ i. get_or l.now i 0) }
{
    let mut s: u16 = 0;
    let mut i = 0;
    while i < l.len() {
        s ^= l[i];
        i += 1;
    }
    s
}

// The sum's low digits for each part of r numbers.
fn heap(m: u8, d: &[u16], r: usize, c: &mut [u16])
    requires { length d.now ≡ length c.old * r }
    ensures { c.new ≡ heaped m r (length c.old) d.now }
{
    let mut at = 0;
    let mut k = 0;
    while k < c.len() {
        c[k] = field::times(m, total(&d[at..at + r]), 1);
        at += r;
        k += 1;
    }
}

// k levels of the weights, by the factors g.
fn fold_down(m: u8, k: u8, g: &[u16; 8192], d: &mut [u16])
    requires { (is_width m ≡ true) × (k ≤ m) × (length d.old ≡ 2 ^ m) × Factors m k g.now }
    ensures { d.new ≡ weights_of m k d.old }
{
    let f = &g[..];
    let mut j: u8 = 0;
    while j < k {
        let h = two(m - 1 - j);
        fold_level(m, &f[h..h + h], two(j), d);
        j += 1;
    }
}

// The sums of k levels merged.
fn merge_up(m: u8, k: u8, t: [u16; 16], c: &mut [u16])
    requires { (is_width m ≡ true) × (k ≤ m) × (k ≤ 9) × (length c.old ≡ 2 ^ k) × Tops m k t }
    ensures { c.new ≡ merges_of m k k c.old }
{
    let mut j = k;
    while 0 < j {
        j -= 1;
        merge_level(m, t[j as usize], two(k - 1 - j), two(j), c);
    }
}

// The sums of the first 2^k powers over all elements, with the weights d.
fn summed(m: u8, k: u8, d: &mut [u16], c: &mut [u16])
    requires { (is_width m ≡ true) × (k ≤ m) × (k ≤ 9) × (length d.old ≡ 2 ^ m) × (length c.old ≡ 2 ^ k) }
    ensures { c.new ≡ power_sums m (2 ^ k) d.old }
{
    let l = Levels::of(m);
    fold_down(m, k, &l.factors, d);
    heap(m, d, two(m - k), c);
    merge_up(m, k, l.tops, c);
}

// The lesser of m and 8.
fn least(m: u8) -> u8
    ensures { result ≡ min m 8 }
{
    if m < 8 { m } else { 8 }
}

// The sum of w_a·a^s over all elements a of a width, for each s below 256 and below 2^m, and 0 past them.
fn first_powers(m: u8, w: [u16; 8192]) -> [u16; 256]
    requires { is_width m ≡ true }
    ensures { result ≡ sums_all m w }
{
    let mut c = [0u16; 256];
    let mut d = w;
    let k = least(m);
    let n = two(k);
    let top = two(m);
    summed(m, k, &mut d[..top], &mut c[..n]);
    c
}

// The same, and 0 only where m is no width.
pub fn power_sums(m: u8, w: [u16; 8192]) -> [u16; 256]
    ensures { result ≡ sums_all m w }
{
    if field::modulus(m) == 0 {
        return [0u16; 256];
    }
    first_powers(m, w)
}
