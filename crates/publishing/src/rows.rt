// T written row after row.
ghost use Rattle.std.specs.Prelude.{◌≡◌, ◌-◌, ◌*◌, ◌≤◌, length, drop};
ghost use mathlib.Core.List.{map, flat_map};
ghost use Rattle.bits.specs.Bits.{bytes_for, pack, over};
ghost use Rattle.code.specs.Lock.{rows_of};

// Of the rows of n bits in work, the bits behind the first `rows`, row after row, each row packed.
pub fn write_rows(out: &mut [u8], work: &[u8], rows: usize, n: usize)
    requires { (rows ≤ n) × (n ≤ 8192) × (rows * bytes_for (n - rows) ≤ length out.old) }
    ensures { out.new ≡ over (flat_map pack (map (drop rows) (rows_of rows n work.now))) out.old }
{
    let w = n - rows;
    let size = bits::bytes_for(w);
    let step = 8 * bits::bytes_for(n);
    let mut at = 0;
    let mut base = rows;
    let mut r = 0;
    while r < rows {
        packed::write_row(&mut out[at..], work, base as u32, w as u32);
        at += size;
        base += step;
        r += 1;
    }
}
