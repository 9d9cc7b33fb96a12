// A polynomial in two halves.
ghost use Rattle.std.specs.Prelude.{◌≡◌, true, ◌++◌, ◌+◌, ◌*◌, ◌≤◌, ◌<◌, length};
ghost use Rattle.field.specs.Field.{is_width};
ghost use Rattle.levels.specs.Twist.{each_block};
ghost use Rattle.transform.specs.Halves.{paired, expanded, unzip as unzip_of, split_by, split as split_of};

// a + b and b for each pair of neighbours a, b.
fn pair_up(c: &mut [u16])
    ensures { c.new ≡ paired c.old }
{
    let n = c.len() / 2;
    let mut k = 0;
    while k < n {
        c[2 * k] ^= c[2 * k + 1];
        k += 1;
    }
}

// The coefficients by powers of t² + t, from the last coefficient on.
fn expand(c: &mut [u16])
    ensures { c.new ≡ expanded c.old }
{
    let mut i = c.len();
    while 0 < i {
        pair_up(&mut c[i..]);
        i -= 1;
    }
}

// The numbers of t at even places, then those at odd places.
fn unzip(t: &[u16], c: &mut [u16], h: usize)
    requires { (length t.now ≡ h + h) × (length c.old ≡ h + h) }
    ensures { c.new ≡ (unzip_of t.now).0 ++ (unzip_of t.now).1 }
{
    let mut i = 0;
    while i < h {
        c[i] = t[2 * i];
        c[h + i] = t[2 * i + 1];
        i += 1;
    }
}

// The numbers at even places, then those at odd places.
fn part(c: &mut [u16], h: usize)
    requires { (length c.old ≡ h + h) × (h ≤ 256) }
    ensures { c.new ≡ (unzip_of c.old).0 ++ (unzip_of c.old).1 }
{
    let t = field_places::block(c);
    unzip(&t[..h + h], c, h);
}

// The two halves of the polynomial with the coefficients c for a number, whose powers are p.
fn split(m: u8, p: &[u16], c: &mut [u16], h: usize)
    requires { (is_width m ≡ true) × (length c.old ≡ h + h) × (0 < h) × (h ≤ 256) }
    ensures { c.new ≡ split_by m p.now c.old }
{
    levels::twist(m, p, c);
    expand(c);
    part(c, h);
}

// Each of q polynomials of 2h coefficients in two halves.
pub fn split_level(m: u8, b: u16, h: usize, q: usize, c: &mut [u16])
    requires { (is_width m ≡ true) × (length c.old ≡ q * (h + h)) × (0 < h) × (h ≤ 256) }
    ensures { c.new ≡ each_block (split_of m b) (h + h) q c.old }
{
    let p = levels::powers(m, b, h + h);
    let mut at = 0;
    let mut k = 0;
    while k < q {
        split(m, &p, &mut c[at..at + (h + h)], h);
        at += h + h;
        k += 1;
    }
}
