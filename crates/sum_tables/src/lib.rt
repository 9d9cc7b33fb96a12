// Tables of the sums of a few packed rows.
#![tactic(auto)]

ghost use Rattle.std.specs.Prelude.{◌≡◌, ◌++◌, map, ◌+◌, ◌*◌, ◌^◌, ◌≤◌, ◌<◌, length, drop};
ghost use Rattle.bits.specs.Bits.{from, bytes_for, unpack};
ghost use Rattle.code.specs.Lock.{rows_of};
ghost use Rattle.small_key.specs.Sums.{table_row};
ghost use Rattle.sum_tables.specs.Apart.{plus, rows_apart};

// The row p added to each of the first `rows` rows of n bits.
fn add_rows(w: &mut [u8], p: &[u8], rows: usize, n: usize)
    requires { (rows * bytes_for n ≤ length w.old) × (length p.now ≡ bytes_for n) }
    ensures w_after { rows_of rows n w.new ≡ map (plus (unpack n p.now)) (rows_of rows n w.old) }
    ensures w_unchanged { drop (rows * bytes_for n) w.new ≡ drop (rows * bytes_for n) w.old }
{
    let b = bits::bytes_for(n);
    let mut r = 0;
    let mut at = 0;
    while r < rows {
        packed::xor_row(&mut w[at..], p);
        at += b;
        r += 1;
    }
}

// Behind the first `half` rows of n bits, the same rows with p added.
fn double(w: &mut [u8], p: &[u8], half: usize, n: usize)
    requires { (half * bytes_for n + half * bytes_for n ≤ length w.old) × (length p.now ≡ bytes_for n) }
    ensures { rows_of (half + half) n w.new ≡ rows_of half n w.old ++ map (plus (unpack n p.now)) (rows_of half n w.old) }
{
    let at = half * bits::bytes_for(n);
    elimination::move_up(w, at, at);
    add_rows(&mut w[at..], p, half, n);
}

// The table of c rows of n bits of h, which lie `step` bytes apart: row v is the sum of those at the ones of v.
pub fn table(t: &mut [u8], h: &[u8], n: usize, c: usize, step: usize)
    requires { (c ≤ 8) × (n ≤ 8192) × (step ≤ 1024) × (bytes_for n ≤ step) × (2 ^ c * bytes_for n ≤ length t.old) × (c * step ≤ length h.now) }
    ensures { rows_of (2 ^ c) n t.new ≡ map (table_row n (rows_apart c n step h.now)) (from 0 (2 ^ c)) }
{
    let k = bits::bytes_for(n);
    packed::clear_row(t, n as u32);
    let mut half = 1;
    let mut at = 0;
    let mut z = 0;
    while z < c {
        let end = at + k;
        double(t, &h[at..end], half, n);
        half += half;
        at += step;
        z += 1;
    }
}
