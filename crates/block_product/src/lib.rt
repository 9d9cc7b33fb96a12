// The product of a square matrix with a block of columns, both in a workspace: the block's rows of w bits at the front of the workspace's
// rows, those of the square matrix in their right halves.
#![tactic(auto)]

ghost use Rattle.std.specs.Prelude.{◌≡◌, ◌⊎◌, ℕ, ◌+◌, ◌-◌, ◌*◌, ◌%◌, ◌^◌, ◌≤◌, ◌<◌, length, get_or, drop, replicate};
ghost use Rattle.bits.specs.Bits.{bytes_for, unpack, pack, xor_row};
ghost use Rattle.small_key.specs.Sums.{table_row};
ghost use Rattle.sum_tables.specs.Apart.{rows_apart};
ghost use Rattle.block_product.specs.Blocks.{step_of, block_row};

// The number of the c low digits of v.
fn low_digits(v: u8, c: usize) -> usize
    requires { c ≤ 8 }
    ensures { result ≡ v % 2 ^ c }
{
    let mask: usize = (1 << c) - 1;
    (v as usize) & mask
}

// The row of the table t that the c low digits of v number is added to the row.
fn add_sum(row: &mut [u8], t: &[u8], v: u8, c: usize, w: usize)
    requires { (c ≤ 8) × (w ≤ 512) × (2 ^ c * bytes_for w ≤ length t.now) × (bytes_for w ≤ length row.old) }
    ensures sum { unpack w row.new ≡ xor_row (unpack w row.old) (unpack w (drop (v % 2 ^ c * bytes_for w) t.now)) }
    ensures rest { drop (bytes_for w) row.new ≡ drop (bytes_for w) row.old }
{
    let k = bits::bytes_for(w);
    let at = low_digits(v, c) * k;
    let end = at + k;
    packed::xor_row(row, &t[at..end]);
}

// To each of the first `count` rows of w bits of acc the row of the table t that a byte of b numbers, `step` bytes behind the one before.
fn add_sums(acc: &mut [u8], t: &[u8], b: &[u8], count: usize, w: usize, step: usize, c: usize)
    requires { (c ≤ 8) × (w ≤ 512) × (step ≤ 1024) × (count ≤ 640) × (2 ^ c * bytes_for w ≤ length t.now) × (count * bytes_for w ≤ length acc.old)
        × ((i : ℕ) → i < count → i * step < length b.now) }
    ensures { (i : ℕ) → i < count → unpack w (drop (i * bytes_for w) acc.new)
        ≡ xor_row (unpack w (drop (i * bytes_for w) acc.old)) (unpack w (drop (get_or b.now (i * step) 0 % 2 ^ c * bytes_for w) t.now)) }
{
    let k = bits::bytes_for(w);
    let mut at = 0;
    let mut from = 0;
    let mut i = 0;
    while i < count {
        add_sum(&mut acc[at..], t, b[from], c, w);
        at += k;
        from += step;
        i += 1;
    }
}

// The products of `count` rows of the square matrix, from row `first` on, with the group of c rows of the block that begins with row 8·q are
// added to acc, by way of the table t.
fn add_group(
    acc: &mut [u8],
    t: &mut [u8],
    work: &[u8],
    first: usize,
    count: usize,
    rows: usize,
    w: usize,
    q: usize,
    c: usize,
)
    requires { (c ≤ 8) × (8 * q + c ≤ rows) × (rows ≤ 1664) × (w ≤ 512) × (bytes_for w ≤ bytes_for rows) × (0 < count) × (first + count ≤ rows) × (count ≤ 640)
        × (q < bytes_for rows) × (rows * step_of rows ≤ length work.now) × (count * bytes_for w ≤ length acc.old) × (256 * bytes_for w ≤ length t.old) }
    ensures { (i : ℕ) → i < count → unpack w (drop (i * bytes_for w) acc.new)
        ≡ xor_row (unpack w (drop (i * bytes_for w) acc.old))
        (table_row w (rows_apart c w (step_of rows) (drop (8 * q * step_of rows) work.now))
        (get_or work.now ((first + i) * step_of rows + bytes_for rows + q) 0 % 2 ^ c)) }
{
    let b = bits::bytes_for(rows);
    let step = b + b;
    let h = 8 * q * step;
    sum_tables::table(t, &work[h..], w, c, step);
    let at = first * step + b + q;
    add_sums(acc, t, &work[at..], count, w, step, c);
}

// The rows of acc, which are 0, become those of the product, from row `first` on.
fn multiply(acc: &mut [u8], work: &[u8], first: usize, count: usize, rows: usize, w: usize)
    requires { (rows ≤ 1664) × (w ≤ 512) × (bytes_for w ≤ bytes_for rows) × (0 < count) × (first + count ≤ rows) × (count ≤ 640)
        × (rows * step_of rows ≤ length work.now) × (count * bytes_for w ≤ length acc.old)
        × ((i : ℕ) → i < count → unpack w (drop (i * bytes_for w) acc.old) ≡ replicate w 0) }
    ensures { (i : ℕ) → i < count → unpack w (drop (i * bytes_for w) acc.new) ≡ block_row rows w work.now (first + i) }
{
    let mut t = [0u8; 16384];
    let mut d = 0;
    let mut q = 0;
    while d < rows {
        let c = bits::smaller(8, rows - d);
        add_group(acc, &mut t, work, first, count, rows, w, q, c);
        d += c;
        q += 1;
    }
}

// Each of the first `count` rows of w bits of acc becomes a packed row of out, `size` bytes behind the one before.
fn write_rows(out: &mut [u8], acc: &[u8], count: usize, w: usize, size: usize)
    requires { (w ≤ 512) × (bytes_for w ≤ size) × (size ≤ 1024) × (count ≤ 640) × (count * bytes_for w ≤ length acc.now)
        × ((i : ℕ) → i < count → i * size + bytes_for w ≤ length out.old) }
    ensures inside { (i x : ℕ) → i < count → x < bytes_for w
        → get_or out.new (i * size + x) 0 ≡ get_or (pack (unpack w (drop (i * bytes_for w) acc.now))) x 0 }
    ensures outside { (y : ℕ) → ((i : ℕ) → i < count → (y < i * size) ⊎ (i * size + bytes_for w ≤ y))
        → get_or out.new y 0 ≡ get_or out.old y 0 }
{
    let k = bits::bytes_for(w);
    let mut at = 0;
    let mut from = 0;
    let mut i = 0;
    while i < count {
        packed::write_row(&mut out[at..], &acc[from..], 0, w as u32);
        at += size;
        from += k;
        i += 1;
    }
}

// The rows of the product from row `first` on, at most 640 of them, written so.
#[inline(never)]
fn some_rows(
    out: &mut [u8],
    work: &[u8],
    first: usize,
    count: usize,
    rows: usize,
    w: usize,
    size: usize,
)
    requires { (rows ≤ 1664) × (w ≤ 512) × (bytes_for w ≤ bytes_for rows) × (0 < count) × (first + count ≤ rows) × (count ≤ 640) × (bytes_for w ≤ size) × (size ≤ 1024)
        × (rows * step_of rows ≤ length work.now) × ((i : ℕ) → i < count → i * size + bytes_for w ≤ length out.old) }
    ensures inside { (i x : ℕ) → i < count → x < bytes_for w
        → get_or out.new (i * size + x) 0 ≡ get_or (pack (block_row rows w work.now (first + i))) x 0 }
    ensures outside { (y : ℕ) → ((i : ℕ) → i < count → (y < i * size) ⊎ (i * size + bytes_for w ≤ y))
        → get_or out.new y 0 ≡ get_or out.old y 0 }
{
    let mut acc = [0u8; 40960];
    multiply(&mut acc, work, first, count, rows, w);
    write_rows(out, &acc, count, w, size);
}

// All rows of the product, 640 at a time, each a packed row of out, `size` bytes behind the one before. The last rows are a call of their
// own, so that the arrays of `some_rows` are on the stack only while it runs.
pub fn product(out: &mut [u8], work: &[u8], rows: usize, w: usize, size: usize)
    requires { (0 < rows) × (rows ≤ 1664) × (w ≤ 512) × (bytes_for w ≤ bytes_for rows) × (bytes_for w ≤ size) × (size ≤ 1024)
        × (rows * step_of rows ≤ length work.now) × ((i : ℕ) → i < rows → i * size + bytes_for w ≤ length out.old) }
    ensures inside { (i x : ℕ) → i < rows → x < bytes_for w
        → get_or out.new (i * size + x) 0 ≡ get_or (pack (block_row rows w work.now i)) x 0 }
    ensures outside { (y : ℕ) → ((i : ℕ) → i < rows → (y < i * size) ⊎ (i * size + bytes_for w ≤ y))
        → get_or out.new y 0 ≡ get_or out.old y 0 }
{
    let mut at = 0;
    let mut first = 0;
    while 640 < rows - first {
        some_rows(&mut out[at..], work, first, 640, rows, w, size);
        first += 640;
        at += 640 * size;
    }
    some_rows(&mut out[at..], work, first, rows - first, rows, w, size);
}
