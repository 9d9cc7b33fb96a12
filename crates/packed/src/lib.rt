// Packed rows added, multiplied and written.
#![tactic(auto)]

ghost use Rattle.std.specs.Prelude.{◌≡◌, [], map, ◌+◌, ◌*◌, ◌%◌, ◌^◌, ◌≤◌, ◌<◌, length, replicate};
ghost use Rattle.std.specs.Int.Count.{ones};
ghost use Rattle.bits.specs.Bits.{from, bytes_for, bit_at, number, put_bits, over, row_written, xor_row, row_product};

// The bytes of src added to those of dst, as far as both go.
pub fn xor_row(dst: &mut [u8], src: &[u8])
    ensures { dst.new ≡ xor_row dst.old src.now }
{
    let n = bits::smaller(src.len(), dst.len());
    let mut i = 0;
    while i < n {
        dst[i] ^= src[i];
        i += 1;
    }
}

// The sum of the products of the bits of the row and the pattern, over the pattern's bytes. Bit k of `sums` is the sum for the
// places k, k + 8, k + 16 and so on.
pub fn row_product(row: &[u8], pat: &[u8]) -> u8
    ensures { result ≡ row_product row.now pat.now }
{
    let n = bits::smaller(row.len(), pat.len());
    let mut sums: u8 = 0;
    let mut q = 0;
    while q < n {
        sums ^= products(&row[q..], &pat[q..]);
        q += 1;
    }
    parity(sums)
}

// The products of the first eight bits of two rows, that of the bits k as bit k.
fn products(row: &[u8], pat: &[u8]) -> u8
    ensures { result ≡ number (map (λ k. bit_at row.now k * bit_at pat.now k) (from 0 8)) }
{
    let mut d: u8 = 0;
    let mut k = 0;
    while k < 8 {
        d ^= (bits::bit_at(row, k) & bits::bit_at(pat, k)) << k;
        k += 1;
    }
    d
}

// The sum of the eight bits of d.
fn parity(d: u8) -> u8
    ensures { result ≡ ones d % 2 }
{
    let mut s: u8 = 0;
    let mut k: usize = 0;
    while k < 8 {
        s ^= (d >> k) & 1;
        k += 1;
    }
    s
}

// The w bits of s from bit b on become a packed row at the start of out, with zero filler; nothing where it has no room.
pub fn write_row(out: &mut [u8], s: &[u8], b: u32, w: u32)
    ensures { out.new ≡ row_written s.now b w out.old }
{
    let n = bits::bytes_for(w as usize);
    if out.len() < n {
        return;
    }
    clear_bytes(out, n);
    copy_row(out, s, b as usize, w as usize);
}

// The row of w bits at the start of out becomes 0; nothing where it has no room.
pub fn clear_row(out: &mut [u8], w: u32)
    ensures { out.new ≡ row_written [] 0 w out.old }
{
    let size = bits::bytes_for(w as usize);
    if out.len() < size {
        return;
    }
    clear_bytes(out, size);
}

// The first n bytes become 0.
fn clear_bytes(out: &mut [u8], n: usize)
    requires { n ≤ length out.old }
    ensures { out.new ≡ over (replicate n 0) out.old }
{
    let mut i = 0;
    while i < n {
        out[i] = 0;
        i += 1;
    }
}

// The w bits of s from bit b on become the first bits of out, which has their bytes. Eight at a time, so that the compiler knows the
// place of each in its byte.
fn copy_row(out: &mut [u8], s: &[u8], b: usize, w: usize)
    requires { (b + w < 2 ^ 64) × (bytes_for w ≤ length out.old) }
    ensures { out.new ≡ put_bits (map (bit_at s.now) (from b w)) 0 out.old }
{
    let whole = w / 8;
    let mut q = 0;
    while q < whole {
        copy_bits(&mut out[q..], s, b + 8 * q, 8);
        q += 1;
    }
    copy_bits(&mut out[q..], s, b + 8 * q, w % 8);
}

// The w bits of s from bit b on become the first bits of out.
fn copy_bits(out: &mut [u8], s: &[u8], b: usize, w: usize)
    requires { b + w < 2 ^ 64 }
    ensures { out.new ≡ put_bits (map (bit_at s.now) (from b w)) 0 out.old }
{
    let mut j = 0;
    while j < w {
        bits::set_bit(out, j, bits::bit_at(s, b + j));
        j += 1;
    }
}
