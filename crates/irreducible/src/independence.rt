// The images of x, .., x^(n-1) under h -> h^(2^m) + h modulo g, and whether they are independent: rows of n coefficients.
ghost use Rattle.std.specs.Prelude.{◌≡◌, true, false, map, ℕ, ◌+◌, ◌-◌, ◌*◌, ◌≤◌, ◌<◌, length, get_or};
ghost use Rattle.field.specs.Answers.{is_unit};
ghost use Rattle.field.specs.Field.{is_width, mul, inv};
ghost use Rattle.field.proofs.Arrays.{Elements, poly};
ghost use Rattle.field.proofs.Gf.{gf, laws};
ghost use Rattle.field.proofs.Table.{Width};
ghost use Rattle.algebra.proofs.Factor.{Prime};
ghost use Rattle.algebra.proofs.Goppa.{Separable};
ghost use Rattle.poly.specs.Polynomials.{monic};
ghost use Rattle.irreducible.specs.Rows.{row_at, Added};
ghost use Rattle.irreducible.specs.Ready.{Shifted, Pivot, Cleared, Basis};

use field::Answer;
use row_tables::{add_multiple, put_table};

// 1 is added in row r at place r + 1, for each r below n - 1.
pub fn add_unit(n: usize, rows: &mut [u16])
    requires { (n ≤ 128) × (length rows.old ≡ 16384) }
    ensures { Shifted n (n - 1) rows.old rows.new }
{
    let mut r = 0;
    let mut at = 1;
    while r + 1 < n {
        rows[at] ^= 1;
        at += n + 1;
        r += 1;
    }
}

// The first place that is not 0, or the length.
fn pivot(r: &[u16]) -> usize
    ensures { Pivot result r.now }
{
    let mut i = 0;
    while i < r.len() {
        if r[i] != 0 {
            return i;
        }
        i += 1;
    }
    i
}

// w is divided by its coefficient at place p.
fn divide(m: u8, p: usize, w: &mut [u16])
    requires { (is_width m ≡ true) × (p < length w.old) × (length w.old ≤ 128) × (is_unit m (get_or w.old p 0) ≡ true) }
    ensures { w.new ≡ map (mul m (inv m (get_or w.old p 0))) w.old }
{
    let i = field::inverse(m, w[p]);
    // Not refused: the pivot is an element other than 0.
    let Answer::Value(x) = i else {
        return;
    };
    let s = [x; 128];
    field_places::horner_each(m, w, &s, 0);
}

// To k rows from row d on a multiple of the row is added whose table is t: by coefficient p of the row itself.
fn add_column(t: &[u16; 5120], n: usize, p: usize, d: usize, k: usize, rows: &mut [u16])
    requires { (n ≤ 128) × (p < n) × ((d + k) * n ≤ length rows.old) × (length rows.old ≤ 16384) }
    ensures { Added t.now n p d k rows.old rows.new }
{
    let mut i = 0;
    let mut at = d * n;
    while i < k {
        let e = at + n;
        let c = rows[at + p];
        add_multiple(t, c, &mut rows[at..e]);
        at = e;
        i += 1;
    }
}

// The rows behind row i, of n - 1 rows, become 0 at the first place where row i is not 0; false where row i is 0.
fn clear(m: u8, n: usize, i: usize, rows: &mut [u16]) -> bool
    requires { (is_width m ≡ true) × (n ≤ 128) × (i + 1 < n) × (length rows.old ≡ 16384) × Elements m (row_at n rows.old i) }
    ensures cleared { result ≡ true → Cleared m n i rows.old rows.new }
    ensures k_value { result ≡ false → (k : ℕ) → get_or (row_at n rows.old i) k 0 ≡ 0 }
{
    let at = i * n;
    let e = at + n;
    let mut w = field_places::block(&rows[at..e]);
    let p = pivot(&w[..n]);
    if p == n {
        return false;
    }
    divide(m, p, &mut w[..n]);
    let mut t = [0u16; 5120];
    put_table(m, &w[..n], &mut t);
    add_column(&t, n, p, i + 1, n - (i + 2), rows);
    true
}

// Whether the rows are independent, n - 1 of them.
pub fn independent(m: u8, g: &[u16], rows: &mut [u16]) -> bool
    requires m_value { (is_width m ≡ true) × (0 < length g.now) × (length g.now ≤ 128) × (length rows.old ≡ 16384) }
    requires basis { (W : Width m) → Basis m W g.now 0 rows.old }
    ensures prime { result ≡ true → (W : Width m) → Separable (laws m W) (length g.now) (poly m (monic g.now)) → Prime (gf m W) (length g.now) (poly m (monic g.now)) }
    ensures not_prime { result ≡ false → (W : Width m) → ¬ Prime (gf m W) (length g.now) (poly m (monic g.now)) }
{
    let n = g.len();
    let mut i = 0;
    while i + 1 < n {
        if !clear(m, n, i, rows) {
            return false;
        }
        i += 1;
    }
    true
}
