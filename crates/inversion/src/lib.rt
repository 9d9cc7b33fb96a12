// A square matrix of packed rows, inverted in a workspace.
#![tactic(auto)]

ghost use Rattle.std.specs.Prelude.{◌≡◌, true, ◌+◌, ◌*◌, ◌≤◌, ◌<◌, length, drop};
ghost use Rattle.bits.specs.Bits.{from, bytes_for};
ghost use Rattle.poly.specs.Polynomials.{same};
ghost use Rattle.code.specs.PublicKey.{echelon};
ghost use Rattle.code.specs.Lock.{rows_of};
ghost use Rattle.inversion.specs.Inversion.{pair_bits, unit_bytes, beside_rows};

// The first bytes become row i of the identity with `rows` rows.
fn unit_row(row: &mut [u8], rows: usize, i: usize)
    requires { (rows ≤ 4096) × (bytes_for rows ≤ length row.old) }
    ensures { row.new ≡ unit_bytes (bytes_for rows) i row.old }
{
    packed::clear_row(row, rows as u32);
    bits::set_bit(row, i, 1);
}

// The right half of each row becomes that of the identity.
fn identity(w: &mut [u8], rows: usize)
    requires { (rows ≤ 4096) × (rows * (bytes_for rows + bytes_for rows) ≤ length w.old) }
    ensures rows { rows_of rows (pair_bits rows) w.new ≡ beside_rows rows rows w.old }
    ensures rest { drop (rows * (bytes_for rows + bytes_for rows)) w.new ≡ drop (rows * (bytes_for rows + bytes_for rows)) w.old }
{
    let b = bits::bytes_for(rows);
    let mut r = 0;
    let mut at = b;
    while r < rows {
        unit_row(&mut w[at..], rows, r);
        at += b + b;
        r += 1;
    }
}

// Of rows whose left halves are those of a square matrix A: [A|I] reduced to [I|B]; false where A has no inverse.
pub fn reduce(w: &mut [u8], rows: usize) -> bool
    requires { (rows ≤ 4088) × (rows * (bytes_for rows + bytes_for rows) ≤ length w.old) }
    ensures answer { result ≡ same (echelon (pair_bits rows) (beside_rows rows rows w.old)).pivots (from 0 rows) }
    ensures reduced { result ≡ true → rows_of rows (pair_bits rows) w.new ≡ (echelon (pair_bits rows) (beside_rows rows rows w.old)).done }
    ensures rest { drop (rows * (bytes_for rows + bytes_for rows)) w.new ≡ drop (rows * (bytes_for rows + bytes_for rows)) w.old }
{
    identity(w, rows);
    let n = 8 * bits::bytes_for(rows) + rows;
    elimination::eliminate(w, rows, n)
}
