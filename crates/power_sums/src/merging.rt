// The sums of powers of a level from those of the next.
ghost use Rattle.std.specs.Prelude.{◌≡◌, true, ◌+◌, ◌*◌, ◌≤◌, ◌<◌, length, take, drop};
ghost use Rattle.field.specs.Field.{is_width};
ghost use Rattle.levels.specs.Twist.{each_block};
ghost use Rattle.power_sums.specs.Sums.{added, collected, zip, merged_by, merged};

// a and a + b for each pair of neighbours a, b.
fn add_up(c: &mut [u16])
    ensures { c.new ≡ added c.old }
{
    let n = c.len() / 2;
    let mut k = 0;
    while k < n {
        c[2 * k + 1] ^= c[2 * k];
        k += 1;
    }
}

// The sums of t^s from those of (t² + t)^j and t·(t² + t)^j in turn.
fn gather(c: &mut [u16])
    ensures { c.new ≡ collected (length c.old) c.old }
{
    let mut i = 0;
    while i < c.len() {
        i += 1;
        add_up(&mut c[i..]);
    }
}

// The numbers of the two halves of t in turn.
fn weave(t: &[u16], c: &mut [u16], h: usize)
    requires { (length t.now ≡ h + h) × (length c.old ≡ h + h) }
    ensures { c.new ≡ zip (take h t.now) (drop h t.now) }
{
    let mut i = 0;
    while i < h {
        c[2 * i] = t[i];
        c[2 * i + 1] = t[h + i];
        i += 1;
    }
}

// The numbers of the two halves in turn.
fn mingle(c: &mut [u16], h: usize)
    requires { (length c.old ≡ h + h) × (h ≤ 256) }
    ensures { c.new ≡ zip (take h c.old) (drop h c.old) }
{
    let t = field_places::block(c);
    weave(&t[..h + h], c, h);
}

// The sums of powers of b·t, by the powers p of b.
fn merge(m: u8, p: &[u16], c: &mut [u16], h: usize)
    requires { (is_width m ≡ true) × (length c.old ≡ h + h) × (0 < h) × (h ≤ 256) }
    ensures { c.new ≡ merged_by m p.now h c.old }
{
    mingle(c, h);
    gather(c);
    levels::twist(m, p, c);
}

// The same on each of q parts of 2h sums.
pub fn merge_level(m: u8, b: u16, h: usize, q: usize, c: &mut [u16])
    requires { (is_width m ≡ true) × (length c.old ≡ q * (h + h)) × (0 < h) × (h ≤ 256) }
    ensures { c.new ≡ each_block (merged m b h) (h + h) q c.old }
{
    let p = levels::powers(m, b, h + h);
    let mut at = 0;
    let mut k = 0;
    while k < q {
        merge(m, &p, &mut c[at..at + (h + h)], h);
        at += h + h;
        k += 1;
    }
}
