// Gauss-Jordan elimination in a workspace of packed rows.
#![tactic(auto)]

ghost use Rattle.std.specs.Prelude.{◌≡◌, true, false, ◌++◌, map, ◌+◌, ◌*◌, ◌≤◌, ◌<◌, length, take, drop};
ghost use Rattle.bits.specs.Bits.{from, bytes_for, unpack};
ghost use Rattle.poly.specs.Polynomials.{same};
ghost use Rattle.code.specs.PublicKey.{clear, find_pivot, echelon};
ghost use Rattle.code.specs.Lock.{row_of, rows_of};
ghost use Rattle.elimination.specs.Elimination.{moved_up, to_front, pivot_row, clear_front, first_row, stage, pivoted, stepped, next, fits, eliminates};

// Gauss-Jordan elimination of the first `rows` rows of n bits: every row i gets a one in column i, and the others a zero there.
// False where the first `rows` columns are dependent or the sizes do not fit. Where the sizes fit, the contents of the rows are
// free if it is false, and their filler always.
pub fn eliminate(work: &mut [u8], rows: usize, n: usize) -> bool
    ensures value { result ≡ eliminates rows n work.old }
    ensures work_after { result ≡ true → rows_of rows n work.new ≡ (echelon n (rows_of rows n work.old)).done }
    ensures work_unchanged { drop (rows * bytes_for n) work.new ≡ drop (rows * bytes_for n) work.old }
    ensures work_unchanged_2 { fits rows n work.old ≡ false → work.new ≡ work.old }
{
    if n < rows {
        return false;
    }
    if 8192 < n {
        return false;
    }
    if work.len() < rows * bits::bytes_for(n) {
        return false;
    }
    reduce(work, rows, n)
}

// The first n bytes of src in the place of those of dst.
fn copy(dst: &mut [u8], src: &[u8], n: usize)
    requires { (n ≤ length dst.old) × (n ≤ length src.now) }
    ensures { dst.new ≡ take n src.now ++ drop n dst.old }
{
    let mut i = 0;
    while i < n {
        dst[i] = src[i];
        i += 1;
    }
}

// The first k bytes moved up by b places.
pub fn move_up(w: &mut [u8], k: usize, b: usize)
    requires { k + b ≤ length w.old }
    ensures { w.new ≡ moved_up k b w.old }
{
    let mut i = k;
    while 0 < i {
        i -= 1;
        w[i + b] = w[i];
    }
}

// The row of b bytes from index k on, moved to the front.
fn to_front(w: &mut [u8], k: usize, b: usize)
    requires { (k + b ≤ length w.old) × (b ≤ 1024) }
    ensures { w.new ≡ to_front k b w.old }
{
    let mut t = [0u8; 1024];
    copy(&mut t, &w[k..], b);
    move_up(w, k, b);
    copy(w, &t, b);
}

// The number of rows before the first with a one in column j.
fn find_pivot(w: &[u8], rows: usize, n: usize, j: usize) -> usize
    requires { (rows * bytes_for n ≤ length w.now) × (j < n) }
    ensures { result ≡ pivot_row j (rows_of rows n w.now) }
{
    let b = bits::bytes_for(n);
    let mut r = 0;
    let mut at = 0;
    while r < rows {
        if bits::bit_at(&w[at..], j) == 1 {
            return r;
        }
        at += b;
        r += 1;
    }
    r
}

// The row at the front of w, with t added where it has a one in column j.
fn clear_row(w: &mut [u8], t: &[u8], j: usize)
    ensures { w.new ≡ clear_front j t.now w.old }
{
    if bits::bit_at(w, j) == 0 {
        return;
    }
    packed::xor_row(w, t);
}

// The first `rows` rows, cleared in column j by the row t.
fn clear_rows(w: &mut [u8], t: &[u8], rows: usize, n: usize, j: usize)
    requires { (rows * bytes_for n ≤ length w.old) × (length t.now ≡ bytes_for n) × (j < n) }
    ensures w_after { rows_of rows n w.new ≡ map (clear j (unpack n t.now)) (rows_of rows n w.old) }
    ensures w_unchanged { drop (rows * bytes_for n) w.new ≡ drop (rows * bytes_for n) w.old }
{
    let b = bits::bytes_for(n);
    let mut r = 0;
    let mut at = 0;
    while r < rows {
        clear_row(&mut w[at..], t, j);
        at += b;
        r += 1;
    }
}

// The first of the rows with a one in column j, moved to the front; false where there is none.
fn lift(w: &mut [u8], rows: usize, n: usize, j: usize) -> bool
    requires { (rows * bytes_for n ≤ length w.old) × (j < n) × (n ≤ 8192) }
    ensures w_value { find_pivot j (rows_of rows n w.old) ≡ first_row result rows n w.new }
    ensures w_unchanged { result ≡ false → w.new ≡ w.old }
    ensures w_unchanged_2 { drop (rows * bytes_for n) w.new ≡ drop (rows * bytes_for n) w.old }
{
    let p = find_pivot(w, rows, n, j);
    if p == rows {
        return false;
    }
    let b = bits::bytes_for(n);
    to_front(w, p * b, b);
    true
}

// Row i is t: the other rows, cleared in column i.
fn clear_around(w: &mut [u8], t: &[u8], rows: usize, n: usize, i: usize)
    requires { (rows * bytes_for n ≤ length w.old) × (i < rows) × (rows ≤ n) × (t.now ≡ row_of n w.old i) }
    ensures w_after { stage (i + 1) rows n w.new ≡ pivoted i rows n w.old }
    ensures w_unchanged { drop (rows * bytes_for n) w.new ≡ drop (rows * bytes_for n) w.old }
{
    clear_rows(w, t, i, n, i);
    let at = (i + 1) * bits::bytes_for(n);
    clear_rows(&mut w[at..], t, rows - (i + 1), n, i);
}

// The rows other than row i, cleared in column i by row i.
fn clear_others(w: &mut [u8], rows: usize, n: usize, i: usize)
    requires { (rows * bytes_for n ≤ length w.old) × (i < rows) × (rows ≤ n) × (n ≤ 8192) }
    ensures w_after { stage (i + 1) rows n w.new ≡ pivoted i rows n w.old }
    ensures w_unchanged { drop (rows * bytes_for n) w.new ≡ drop (rows * bytes_for n) w.old }
{
    let mut t = [0u8; 1024];
    let b = bits::bytes_for(n);
    let at = i * b;
    copy(&mut t, &w[at..], b);
    clear_around(w, &t[..b], rows, n, i);
}

// Column i, with its pivot among the rows from row i on; false where there is none.
fn column(w: &mut [u8], rows: usize, n: usize, i: usize) -> bool
    requires { (rows * bytes_for n ≤ length w.old) × (i < rows) × (rows ≤ n) × (n ≤ 8192) }
    ensures w_after { stage (next result i) rows n w.new ≡ stepped i rows n w.old }
    ensures w_unchanged { drop (rows * bytes_for n) w.new ≡ drop (rows * bytes_for n) w.old }
{
    let at = i * bits::bytes_for(n);
    if !lift(&mut w[at..], rows - i, n, i) {
        return false;
    }
    clear_others(w, rows, n, i);
    true
}

// The first `rows` columns, one after the other; false at the first without a pivot.
fn reduce(w: &mut [u8], rows: usize, n: usize) -> bool
    requires { (rows * bytes_for n ≤ length w.old) × (rows ≤ n) × (n ≤ 8192) }
    ensures value { result ≡ same (echelon n (rows_of rows n w.old)).pivots (from 0 rows) }
    ensures w_after { result ≡ true → rows_of rows n w.new ≡ (echelon n (rows_of rows n w.old)).done }
    ensures w_unchanged { drop (rows * bytes_for n) w.new ≡ drop (rows * bytes_for n) w.old }
{
    let mut i = 0;
    while i < rows {
        if !column(w, rows, n, i) {
            return false;
        }
        i += 1;
    }
    true
}
