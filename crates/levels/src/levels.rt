// What each level multiplies by.
ghost use Rattle.std.specs.Prelude.{◌≡◌, true, min};
ghost use Rattle.field.specs.Field.{is_width};
ghost use Rattle.levels.specs.Levels.{tops_put, factors_put, levels_of};

use super::bases::{first_basis, lowered, put_points, ratios};

// The last number of each level's basis, and the sums of its other numbers divided by it: those of level j stand at the places from
// 2^(m - 1 - j) on.
#[derive(Drop)]
pub struct Levels {
    pub tops: [u16; 16],
    pub factors: [u16; 8192],
}

impl Levels {
    // The levels of width m, at most 9; zeros where m is no width.
    pub fn of(m: u8) -> Levels
        ensures { result ≡ levels_of m }
    {
        if field::modulus(m) == 0 {
            return Levels {
                tops: [0u16; 16],
                factors: [0u16; 8192],
            };
        }
        filled(m)
    }
}

// The lesser of m and 9.
fn depth(m: u8) -> u8
    ensures { result ≡ min m 9 }
{
    if m < 9 { m } else { 9 }
}

// The levels of a width.
#[inline(never)]
fn filled(m: u8) -> Levels
    requires { is_width m ≡ true }
    ensures tops { result.tops ≡ tops_put m (min m 9) }
    ensures factors { result.factors ≡ factors_put m (min m 9) }
{
    let mut tops = [0u16; 16];
    let mut factors = [0u16; 8192];
    let k = depth(m);
    let mut b = first_basis(m);
    let mut j: u8 = 0;
    while j < k {
        let n = m - 1 - j;
        let i = n as usize;
        tops[j as usize] = b[i];
        b = ratios(m, i, b);
        put_points(n, b, &mut factors);
        b = lowered(m, i, b);
        j += 1;
    }
    Levels { tops, factors }
}
