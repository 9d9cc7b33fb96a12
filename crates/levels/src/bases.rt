// The basis of each level.
ghost use Rattle.std.specs.Prelude.{◌≡◌, true, ◌+◌, ◌^◌, ◌≤◌, ◌<◌, length, get_or};
ghost use Rattle.field.specs.Field.{is_width};
ghost use Rattle.field.specs.Answers.{is_unit};
ghost use Rattle.levels.specs.Levels.{basis_of, ratios as ratios_of, lowered as lowered_of, points_of, points_put, doubled, two_of};

use field::Answer;

// 2^j for j below 14, else 0.
pub fn two(j: u8) -> usize
    ensures { result ≡ two_of j }
{
    if 14 <= j {
        return 0;
    }
    1 << j
}

// 1, z, z², .., with zeros behind them.
pub fn first_basis(m: u8) -> [u16; 16]
    requires { is_width m ≡ true }
    ensures { result ≡ basis_of m 0 }
{
    let mut r = [0u16; 16];
    let mut i: u8 = 0;
    while i < m {
        r[i as usize] = 1 << i;
        i += 1;
    }
    r
}

// The first n divided by the number behind them.
pub fn ratios(m: u8, n: usize, b: [u16; 16]) -> [u16; 16]
    requires { (is_width m ≡ true) × (n < 16) × (is_unit m (get_or b n 0) ≡ true) }
    ensures { result ≡ ratios_of m n b }
{
    let mut r = b;
    let d = field::inverse(m, b[n]);
    // Not refused: it is a unit.
    let Answer::Value(v) = d else {
        return r;
    };
    let mut i = 0;
    while i < n {
        r[i] = field::times(m, r[i], v);
        i += 1;
    }
    r
}

// t² + t for each t of the first n.
pub fn lowered(m: u8, n: usize, t: [u16; 16]) -> [u16; 16]
    requires { n < 16 }
    ensures { result ≡ lowered_of m n t }
{
    let mut r = t;
    let mut i = 0;
    while i < n {
        r[i] = field::times(m, r[i], r[i]) ^ r[i];
        i += 1;
    }
    r
}

// x added to each of the first w numbers, behind them.
fn double(g: &mut [u16], w: usize, x: u16)
    requires { w + w ≤ length g.old }
    ensures { g.new ≡ doubled w x g.old }
{
    let mut i = 0;
    while i < w {
        g[w + i] = g[i] ^ x;
        i += 1;
    }
}

// The sums of the first n.
fn points(n: usize, b: [u16; 16], g: &mut [u16])
    requires { (n < 14) × (length g.old ≡ 2 ^ n) }
    ensures { g.new ≡ points_of n b }
{
    g[0] = 0;
    let mut w = 1;
    let mut j = 0;
    while j < n {
        double(g, w, b[j]);
        w += w;
        j += 1;
    }
}

// The sums of the first n in g, at the places from 2^n on.
pub fn put_points(n: u8, b: [u16; 16], g: &mut [u16])
    requires { (n < 13) × (length g.old ≡ 8192) }
    ensures { g.new ≡ points_put n b g.old }
{
    let h = two(n);
    points(n as usize, b, &mut g[h..h + h]);
}
