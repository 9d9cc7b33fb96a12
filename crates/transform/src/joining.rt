// The values of a level from those of the next.
ghost use Rattle.std.specs.Prelude.{◌≡◌, true, ◌+◌, ◌*◌, ◌≤◌, ◌<◌, length, replicate};
ghost use Rattle.field.specs.Field.{is_width};
ghost use Rattle.levels.specs.Twist.{each_block};
ghost use Rattle.transform.specs.Values.{butterfly as butterfly_of, spread as spread_of};

use levels::{add_each, copy_each};

// u + g·v and u + g·v + v for the two halves u and v of b, by way of p.
fn butterfly(m: u8, b: &mut [u16], g: &[u16], p: &mut [u16])
    requires { (is_width m ≡ true) × (length b.old ≡ length g.now + length g.now) × (length p.old ≡ length g.now) }
    ensures { b.new ≡ butterfly_of m g.now b.old }
{
    let h = g.len();
    copy_each(p, &b[h..]);
    field_places::horner_each(m, p, g, 0);
    add_each(&mut b[..h], p);
    copy_each(p, &b[..h]);
    add_each(&mut b[h..], p);
}

// The same on each of q parts.
#[inline(never)]
pub fn join_level(m: u8, g: &[u16], q: usize, b: &mut [u16])
    requires { (is_width m ≡ true) × (length b.old ≡ q * (length g.now + length g.now)) × (length g.now ≤ 4096) }
    ensures { b.new ≡ each_block (butterfly_of m g.now) (length g.now + length g.now) q b.old }
{
    let h = g.len();
    let w = h + h;
    let mut p = [0u16; 4096];
    let mut at = 0;
    let mut k = 0;
    while k < q {
        butterfly(m, &mut b[at..at + w], g, &mut p[..h]);
        at += w;
        k += 1;
    }
}

// x at every place.
fn fill(d: &mut [u16], x: u16)
    ensures { d.new ≡ replicate (length d.old) x }
{
    let mut i = 0;
    while i < d.len() {
        d[i] = x;
        i += 1;
    }
}

// Each number of c, r times.
pub fn spread(c: &[u16], r: usize, d: &mut [u16])
    requires { length d.old ≡ length c.now * r }
    ensures { d.new ≡ spread_of r c.now }
{
    let mut at = 0;
    let mut k = 0;
    while k < c.len() {
        fill(&mut d[at..at + r], c[k]);
        at += r;
        k += 1;
    }
}
