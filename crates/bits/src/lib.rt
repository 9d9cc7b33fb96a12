// Bits of packed rows, read and written one by one (document 01, 'Bits').
#![tactic(auto)]

ghost use Rattle.std.specs.Prelude.{◌≡◌, min};
ghost use Rattle.bits.specs.Bits.{bytes_for, bit_at, set_bit, weight as weight_of, filler_clear, well_formed};

// The bytes of a row of n bits, n / 8 rounded up.
pub fn bytes_for(n: usize) -> usize
    ensures { result ≡ bytes_for n }
{
    n / 8 + (n % 8 + 7) / 8
}

// Bit i, and 0 past the last byte.
pub fn bit_at(s: &[u8], i: usize) -> u8
    ensures { result ≡ bit_at s.now i }
{
    let at = i / 8;
    if s.len() <= at {
        return 0;
    }
    (s[at] >> (i % 8)) & 1
}

// Bit i becomes v's lowest digit. Past the last byte nothing is written.
pub fn set_bit(out: &mut [u8], i: usize, v: u8)
    ensures { out.new ≡ set_bit out.old i v }
{
    let at = i / 8;
    if out.len() <= at {
        return;
    }
    let k = i % 8;
    let b = out[at];
    out[at] = (b & !(1u8 << k)) | ((v & 1) << k);
}

// The number of ones among the first n bits.
pub fn weight(row: &[u8], n: usize) -> usize
    ensures { result ≡ weight_of n row.now }
{
    let mut w: usize = 0;
    let mut i = 0;
    while i < n {
        if row.len() <= i / 8 {
            return w;
        }
        w += wide(bit_at(row, i));
        i += 1;
    }
    w
}

// The filler, the bits from n to the end of n's last byte, is 0.
pub fn filler_clear(s: &[u8], n: usize) -> bool
    ensures { result ≡ filler_clear n s.now }
{
    let filler = (8 - n % 8) % 8;
    let mut j = 0;
    while j < filler {
        if bit_at(s, n + j) != 0 {
            return false;
        }
        j += 1;
    }
    true
}

// The byte length is right for n bits, and the filler is 0.
pub fn well_formed(s: &[u8], n: usize) -> bool
    ensures { result ≡ well_formed n s.now }
{
    if s.len() != bytes_for(n) {
        return false;
    }
    filler_clear(s, n)
}

// A byte as a usize.
pub fn wide(x: u8) -> usize
    ensures { result ≡ x }
{
    x as usize
}

// The smaller of two lengths.
pub fn smaller(a: usize, b: usize) -> usize
    ensures { result ≡ min a b }
{
    if a < b { a } else { b }
}
