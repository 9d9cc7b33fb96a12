// The control bits of a permutation (document 02, L7), by the standard's routine.
#![tactic(auto)]

ghost use Rattle.std.specs.Prelude.{◌≡◌, ◌+◌, ◌-◌, ◌*◌, ◌^◌, ◌<◌, ◌≤◌, length, take};
ghost use Rattle.bits.specs.Bits.{bytes_for, pack};
ghost use Rattle.network.specs.Network.{val, seek, switches, control_bits};
ghost use Rattle.network.specs.Tables.{Each};
ghost use Rattle.control_passes.specs.Passes.{Level, Done, Fits, Work};

// The control bits of pi, a permutation of 2^k numbers: bit i at off + step * i. The bits of the middle's halves stand in turn, the
// even half's first, behind the first layer.
fn control(
    k: usize,
    pi: &mut [u16],
    inv: &mut [u16],
    p: &mut [u16],
    c: &mut [u16],
    p2: &mut [u16],
    c2: &mut [u16],
    b: &mut [u8],
    off: usize,
    step: usize,
)
    requires level { Level k pi.old }
    requires work { Work (2 ^ k) inv.old p.old c.old p2.old c2.old }
    requires fits { Fits (k - 1) off step b.old }
    requires step_nonzero { (0 < step) × (length b.old ≤ 4294967296) }
    ensures { Done (k - 1) off step (val pi.old) (seek (val pi.old) (2 ^ k)) b.old b.new }
{
    if k == 1 {
        control_passes::put(pi, 1, b, off, step, 0);
        return;
    }
    control_passes::outer(k, pi, inv, p, c, p2, c2, b, off, step);
    let h = pi.len() / 2;
    let even = off + step * h;
    let odd = even + step;
    control(k - 1, &mut pi[..h], inv, p, c, p2, c2, b, even, 2 * step);
    control(k - 1, &mut pi[h..], inv, p, c, p2, c2, b, odd, 2 * step);
}

// write_control_bits, for a slice.
fn control_row(m: usize, values: &mut [u16], row: &mut [u8])
    requires le_m { (4 ≤ m) × (m < 14) }
    requires m_in_bounds { (2 ^ m ≤ length values.old) × Each (2 ^ m) (take (2 ^ m) values.old) }
    requires row_len { length row.old ≡ bytes_for (switches m) }
    ensures { row.new ≡ pack (control_bits m (take (2 ^ m) values.old)) }
{
    let n = 1usize << m;
    let mut inv = [0u16; 8192];
    let mut p = [0u16; 8192];
    let mut c = [0u16; 8192];
    let mut p2 = [0u16; 8192];
    let mut c2 = [0u16; 8192];
    control(
        m,
        &mut values[..n],
        &mut inv,
        &mut p,
        &mut c,
        &mut p2,
        &mut c2,
        row,
        0,
        1,
    );
}

// The control bits of the list of the numbers below 2^m that starts `values`, packed; the list is overwritten.
pub fn write_control_bits(m: usize, values: &mut [u16; 8192], row: &mut [u8])
    requires le_m { (4 ≤ m) × (m < 14) }
    requires each { Each (2 ^ m) (take (2 ^ m) values.old) }
    requires row_len { length row.old ≡ bytes_for (switches m) }
    ensures { row.new ≡ pack (control_bits m (take (2 ^ m) values.old)) }
{
    control_row(m, values, row);
}
