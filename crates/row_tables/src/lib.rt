// A row of at most 128 coefficients in GF(2^m): the table of its multiples, and a multiple of it added to another row.
#![tactic(auto)]

ghost use Rattle.std.specs.Prelude.{◌≡◌, ◌⊎◌, ℕ, ◌+◌, ◌*◌, ◌%◌, ◌≤◌, ◌<◌, length, get_or};
ghost use Rattle.row_tables.specs.RowTable.{table_in, add_multiple};
ghost use Rattle.row_tables.specs.Making.{earlier_rows, digit_places, Put, Zeroed, Columns};

// Each row of a table but row 0 is an earlier row plus the coefficients times a power of z: which row, and which power.
const EARLIER: [usize; 40] = [
    0, 0, 0, 1, 0, 1, 2, 3, 0, 1, 2, 3, 4, 5, 6, 7, 1, 16, 16, 17, 16, 17, 18, 19, 1, 24, 24, 25,
    24, 25, 26, 27, 1, 32, 32, 33, 32, 33, 34, 35,
];

const DIGITS: [usize; 40] = [
    0, 0, 1, 1, 2, 2, 2, 2, 3, 3, 3, 3, 3, 3, 3, 3, 0, 4, 5, 5, 6, 6, 6, 6, 0, 7, 8, 8, 9, 9, 9, 9,
    0, 10, 11, 11, 12, 12, 12, 12,
];

// The earlier row of row q.
fn earlier(q: usize) -> usize
    requires { q < 40 }
    ensures { result ≡ get_or earlier_rows q 0 }
{
    EARLIER[q]
}

// The power of z of row q.
fn digit(q: usize) -> usize
    requires { q < 40 }
    ensures { result ≡ get_or digit_places q 0 }
{
    DIGITS[q]
}

// The 64 numbers from place `at` on become those from place s on plus row j of t.
fn put_half(t: &[u16; 832], j: usize, s: usize, at: usize, p: &mut [u16])
    requires { (j < 13) × (s + 64 ≤ at) × (at + 64 ≤ length p.old) × (length p.old ≤ 5120) }
    ensures { Put t.now j s at 64 p.old p.new }
{
    let mut i = 0;
    while i < 64 {
        p[at + i] = p[s + i] ^ t[64 * j + i];
        i += 1;
    }
}

// The 64 numbers from place h on become 0.
fn zero_half(h: usize, p: &mut [u16])
    requires { (h ≤ 64) × (length p.old ≡ 5120) }
    ensures { Zeroed h 64 p.old p.new }
{
    let mut i = 0;
    while i < 64 {
        p[h + i] = 0;
        i += 1;
    }
}

// In the 64 columns from h on, the rows of p become the multiples of a's first 64 coefficients.
fn fill(m: u8, a: &[u16], h: usize, p: &mut [u16])
    requires { (h ≤ 64) × (length p.old ≡ 5120) }
    ensures columns { Columns m a.now h 40 p.new }
    ensures by_index { (x : ℕ) → (x % 128 < h) ⊎ (h + 64 ≤ x % 128) → get_or p.new x 0 ≡ get_or p.old x 0 }
{
    zero_half(h, p);
    let t = field_places::multiples(m, a);
    let mut q = 1;
    while q < 40 {
        let j = digit(q);
        let s = 128 * earlier(q) + h;
        let at = 128 * q + h;
        put_half(&t, j, s, at, p);
        q += 1;
    }
}

// p, where it has 5120 places, becomes a's table: the multiples of its first 128 coefficients by the numbers of the digits 0 to 3, 4 to
// 6, 7 to 9 and 10 to 12, 40 rows of 128; 0 past the coefficients and where m is no width.
pub fn put_table(m: u8, a: &[u16], p: &mut [u16])
    ensures { p.new ≡ table_in m a.now p.old }
{
    if p.len() != 5120 {
        return;
    }
    let n = bits::smaller(a.len(), 64);
    fill(m, a, 0, p);
    fill(m, &a[n..], 64, p);
}

// Where row q of a table starts.
fn start(q: u16) -> usize
    requires { q < 40 }
    ensures { result ≡ 128 * q }
{
    128 * (q as usize)
}

// r plus c times the row whose table is t, at the first 128 places.
pub fn add_multiple(t: &[u16; 5120], c: u16, r: &mut [u16])
    ensures { r.new ≡ add_multiple t.now c r.old }
{
    let n = bits::smaller(r.len(), 128);
    let p = start(c & 15);
    let q = start(16 + ((c >> 4) & 7));
    let u = start(24 + ((c >> 7) & 7));
    let v = start(32 + ((c >> 10) & 7));
    let mut i = 0;
    while i < n {
        r[i] ^= t[p + i] ^ t[q + i] ^ t[u + i] ^ t[v + i];
        i += 1;
    }
}
