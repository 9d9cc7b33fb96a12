// Rows of H in a lent workspace, from g's values at the places of a support. Rows lie `step` bytes apart; what lies behind a
// row's bits, and behind the rows, stays.
#![tactic(auto)]

ghost use Rattle.std.specs.Prelude.{◌≡◌, true, map, ◌*◌, ◌≤◌, ◌<◌, length, take, drop};
ghost use Rattle.bits.specs.Bits.{every, bytes_for, put_bits};
ghost use Rattle.field.specs.Field.{is_width};
ghost use Rattle.field.specs.Answers.{is_unit};
ghost use Rattle.key.specs.Keys.{key_of, goppa_at};
ghost use Rattle.code.specs.Code.{entry, parity_rows};
ghost use Rattle.code.specs.Lock.{rows_of};
ghost use Rattle.parity.specs.Rows.{digit_row, digit_rows, over_rows};

use field::Verdict;

// Digit k of the first n numbers of p, bit after bit from the start of row.
pub fn digit_row(row: &mut [u8], p: &[u16], n: usize, k: u8)
    requires { (n ≤ length p.now) × (k < 16) }
    ensures { row.new ≡ put_bits (digit_row (take n p.now) k) 0 row.old }
{
    let mut j = 0;
    while j < n {
        bits::set_bit(row, j, ((p[j] >> k) & 1) as u8);
        j += 1;
    }
}

// A row for each digit k below m.
fn digit_rows(out: &mut [u8], p: &[u16], n: usize, m: u8, step: usize)
    requires { (n ≤ length p.now) × (n ≤ 8192) × (m < 16) × (bytes_for n ≤ step) × (step ≤ 1024) × (m * step ≤ length out.old) }
    ensures rows { rows_of m (8 * step) out.new ≡ over_rows (digit_rows m (take n p.now)) (rows_of m (8 * step) out.old) }
    ensures rest { drop (m * step) out.new ≡ drop (m * step) out.old }
{
    let mut at = 0;
    let mut k = 0;
    while k < m {
        digit_row(&mut out[at..], p, n, k);
        at += step;
        k += 1;
    }
}

// H: for each s from 0 on, the rows of the digits of α^s / g(α), α from the support. p has 1/g(α) first, and is used up.
fn power_rows(work: &mut [u8], m: u8, p: &mut [u16], support: &[u16], g: &[u16], step: usize)
    requires { (is_width m ≡ true) × (length support.now ≤ length p.old) × (length support.now ≤ 8192)
        × (take (length support.now) p.old ≡ map (entry (key_of m support.now g.now) 0) support.now)
        × (bytes_for (length support.now) ≤ step) × (step ≤ 1024) × (m * length g.now * step ≤ length work.old) }
    ensures rows { rows_of (m * length g.now) (8 * step) work.new
        ≡ over_rows (parity_rows (key_of m support.now g.now)) (rows_of (m * length g.now) (8 * step) work.old) }
    ensures rest { drop (m * length g.now * step) work.new ≡ drop (m * length g.now * step) work.old }
{
    let n = support.len();
    let size = (m as usize) * step;
    let mut at = 0;
    let mut s = 0;
    while s < g.len() {
        digit_rows(&mut work[at..], p, n, m, step);
        field_places::horner_each(m, p, support, 0);
        at += size;
        s += 1;
    }
}

// The same where p has g(α) first.
pub fn parity_rows(work: &mut [u8], m: u8, p: &mut [u16], support: &[u16], g: &[u16], step: usize)
    requires { (is_width m ≡ true) × (length support.now ≤ length p.old) × (length support.now ≤ 8192)
        × (take (length support.now) p.old ≡ map (goppa_at (key_of m support.now g.now)) support.now)
        × (every (is_unit m) (map (goppa_at (key_of m support.now g.now)) support.now) ≡ true)
        × (bytes_for (length support.now) ≤ step) × (step ≤ 1024) × (m * length g.now * step ≤ length work.old) }
    ensures rows { rows_of (m * length g.now) (8 * step) work.new
        ≡ over_rows (parity_rows (key_of m support.now g.now)) (rows_of (m * length g.now) (8 * step) work.old) }
    ensures rest { drop (m * length g.now * step) work.new ≡ drop (m * length g.now * step) work.old }
{
    let n = support.len();
    let x = field_places::inverse_each(m, &mut p[..n]);
    // Not refused: g has no root in the support.
    let Verdict::Accepted = x else {
        return;
    };
    power_rows(work, m, p, support, g, step);
}
