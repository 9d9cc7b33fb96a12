// Powers modulo a monic polynomial g of degree n, by the table t of its lower coefficients (`row_tables`).
ghost use Rattle.std.specs.Prelude.{◌≡◌, true, List, ℕ, ◌+◌, ◌-◌, ◌≤◌, ◌<◌, length};
ghost use Rattle.field.specs.Field.{is_width};
ghost use Rattle.field.proofs.Table.{Width};
ghost use Rattle.row_tables.specs.RowTable.{table_of};
ghost use Rattle.irreducible.specs.Residues.{Product, Reduced, Residue, ProductModulo, FirstPower, Powers};

use row_tables::{add_multiple, put_table};

// b, of 2·n coefficients, becomes equal modulo g to its own n lower coefficients: from the top on, b_j·x^(j-n)·g is added.
fn reduce(t: &[u16; 5120], n: usize, b: &mut [u16])
    requires { (n ≤ 128) × (length b.old ≡ n + n) }
    ensures { Reduced t.now n n b.old b.new }
{
    let mut j = n + n;
    while n < j {
        j -= 1;
        let s = j - n;
        let c = b[j];
        add_multiple(t, c, &mut b[s..j]);
    }
}

// r becomes b modulo g.
fn residue(t: &[u16; 5120], b: [u16; 256], r: &mut [u16])
    requires { length r.old ≤ 128 }
    ensures { Residue t.now b (length r.old) r.new }
{
    let n = r.len();
    let z = n + n;
    let mut c = b;
    reduce(t, n, &mut c[..z]);
    levels::copy_each(r, &c[..n]);
}

// r².
fn squares(m: u8, r: &[u16]) -> [u16; 256]
    requires { (is_width m ≡ true) × (length r.now ≤ 128) }
    ensures { Product m r.now r.now result }
{
    let n = r.len();
    let mut s = field_places::block(r);
    field_places::square_each(m, &mut s[..n]);
    let mut b = [0u16; 256];
    let mut i = 0;
    while i < n {
        b[i + i] ^= s[i];
        i += 1;
    }
    b
}

// r·y, by the table s of y's as many coefficients.
fn products(s: &[u16; 5120], r: &[u16]) -> [u16; 256]
    requires { length r.now ≤ 128 }
    ensures { (m : ℕ) (y : List ℕ) → Width m → s.now ≡ table_of m y → length y ≡ length r.now → Product m r.now y result }
{
    let n = r.len();
    let mut b = [0u16; 256];
    let mut j = 0;
    while j < n {
        let e = j + n;
        add_multiple(s, r[j], &mut b[j..e]);
        j += 1;
    }
    b
}

// r becomes r² modulo g.
fn square(m: u8, t: &[u16; 5120], r: &mut [u16])
    requires { (is_width m ≡ true) × (length r.old ≤ 128) }
    ensures { ProductModulo m t.now r.old r.old r.new }
{
    let b = squares(m, r);
    residue(t, b, r);
}

// r becomes r·y modulo g, by the table s of y.
fn multiply(s: &[u16; 5120], t: &[u16; 5120], r: &mut [u16])
    requires { length r.old ≤ 128 }
    ensures { (m : ℕ) (y : List ℕ) → Width m → s.now ≡ table_of m y → length y ≡ length r.old → ProductModulo m t.now r.old y r.new }
{
    let b = products(s, r);
    residue(t, b, r);
}

// x^(2^m) modulo g: m squares of x.
fn first_power(m: u8, t: &[u16; 5120], n: usize) -> [u16; 128]
    requires { (is_width m ≡ true) × (1 < n) × (n ≤ 128) }
    ensures { FirstPower m t.now n m result }
{
    let mut w = [0u16; 128];
    w[1] = 1;
    let mut k: u8 = 0;
    while k < m {
        square(m, t, &mut w[..n]);
        k += 1;
    }
    w
}

// Row r becomes x^(2^m·(r + 1)) modulo g, for each r below n - 1.
pub fn powers(m: u8, g: &[u16], rows: &mut [u16])
    requires { (is_width m ≡ true) × (1 < length g.now) × (length g.now ≤ 128) × (length rows.old ≡ 16384) }
    ensures { Powers m g.now (length g.now - 1) rows.new }
{
    let n = g.len();
    let mut t = [0u16; 5120];
    put_table(m, g, &mut t);
    let mut w = first_power(m, &t, n);
    let mut s = [0u16; 5120];
    put_table(m, &w[..n], &mut s);
    let mut r = 0;
    let mut at = 0;
    while r + 1 < n {
        let e = at + n;
        levels::copy_each(&mut rows[at..e], &w[..n]);
        multiply(&s, &t, &mut w[..n]);
        at = e;
        r += 1;
    }
}
