// The weights of a level from those of the level above.
ghost use Rattle.std.specs.Prelude.{◌≡◌, true, ◌+◌, ◌*◌, ◌≤◌, ◌<◌, length};
ghost use Rattle.field.specs.Field.{is_width};
ghost use Rattle.levels.specs.Twist.{each_block};
ghost use Rattle.power_sums.specs.Sums.{folded};

use levels::{add_each, copy_each};

// u + v and g·(u + v) + v for the two halves u and v of b, by way of p.
fn fold(m: u8, b: &mut [u16], g: &[u16], p: &mut [u16])
    requires { (is_width m ≡ true) × (length b.old ≡ length g.now + length g.now) × (length p.old ≡ length g.now) }
    ensures { b.new ≡ folded m g.now b.old }
{
    let h = g.len();
    copy_each(p, &b[h..]);
    add_each(&mut b[..h], p);
    copy_each(p, &b[..h]);
    field_places::horner_each(m, p, g, 0);
    add_each(&mut b[h..], p);
}

// The same on each of q parts.
pub fn fold_level(m: u8, g: &[u16], q: usize, b: &mut [u16])
    requires { (is_width m ≡ true) × (length b.old ≡ q * (length g.now + length g.now)) × (length g.now ≤ 4096) }
    ensures { b.new ≡ each_block (folded m g.now) (length g.now + length g.now) q b.old }
{
    let h = g.len();
    let w = h + h;
    let mut p = [0u16; 4096];
    let mut at = 0;
    let mut k = 0;
    while k < q {
        fold(m, &mut b[at..at + w], g, &mut p[..h]);
        at += w;
        k += 1;
    }
}
