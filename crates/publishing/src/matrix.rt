// Rows of H in a lent workspace, one directly behind another.
ghost use Rattle.std.specs.Prelude.{◌≡◌, true, map, ◌*◌, ◌≤◌, ◌<◌, length, take, drop};
ghost use Rattle.bits.specs.Bits.{every, bytes_for};
ghost use Rattle.field.specs.Field.{is_width};
ghost use Rattle.field.specs.Answers.{is_unit};
ghost use Rattle.key.specs.Keys.{key_of, goppa_at, key_number};
ghost use Rattle.code.specs.Code.{parity_rows};
ghost use Rattle.code.specs.Lock.{rows_of};
ghost use Rattle.parity.specs.Rows.{digit_rows};

use field::Verdict;
use key::kept::Key;

// A row for each digit k below m; what lies behind the rows stays, here and below.
fn digit_rows(out: &mut [u8], p: &[u16], n: usize, m: u8)
    requires { (n ≤ length p.now) × (n ≤ 8192) × (m < 16) × (m * bytes_for n ≤ length out.old) }
    ensures rows { rows_of m n out.new ≡ digit_rows m (take n p.now) }
    ensures rest { drop (m * bytes_for n) out.new ≡ drop (m * bytes_for n) out.old }
{
    let size = bits::bytes_for(n);
    let mut at = 0;
    let mut k = 0;
    while k < m {
        parity::digit_row(&mut out[at..], p, n, k);
        at += size;
        k += 1;
    }
}

// H: for each s from 0 on, the rows of the digits of α^s / g(α), α from the support.
fn parity_rows(work: &mut [u8], m: u8, support: &[u16], g: &[u16])
    requires { (is_width m ≡ true) × (length support.now ≤ 8192)
        × (m * length g.now * bytes_for (length support.now) ≤ length work.old)
        × (every (is_unit m) (map (goppa_at (key_of m support.now g.now)) support.now) ≡ true) }
    ensures rows { rows_of (m * length g.now) (length support.now) work.new
        ≡ parity_rows (key_of m support.now g.now) }
    ensures rest { drop (m * length g.now * bytes_for (length support.now)) work.new
        ≡ drop (m * length g.now * bytes_for (length support.now)) work.old }
{
    let n = support.len();
    let size = (m as usize) * bits::bytes_for(n);
    let mut p = transform::values(m, g, support);
    let x = field_places::inverse_each(m, &mut p[..n]);
    // Not refused: g has no root in the support.
    let Verdict::Accepted = x else {
        return;
    };
    let mut at = 0;
    let mut s = 0;
    while s < g.len() {
        digit_rows(&mut work[at..], &p, n, m);
        field_places::horner_each(m, &mut p, support, 0);
        at += size;
        s += 1;
    }
}

// H of a kept key, from the first n and t numbers of its arrays.
pub fn key_rows<'a>(
    work: &mut [u8],
    m: u8,
    n: usize,
    t: usize,
    support: &'a [u16; Key::MOST_PLACES],
    g: &'a [u16; Key::MOST_ERRORS],
)
    requires { (n ≤ 8192) × (t ≤ 128) × (m * t * bytes_for n ≤ length work.old)
        × (key_number (key_of m (take n support.now) (take t g.now)) ≡ 0) }
    ensures rows { rows_of (m * t) n work.new ≡ parity_rows (key_of m (take n support.now) (take t g.now)) }
    ensures rest { drop (m * t * bytes_for n) work.new ≡ drop (m * t * bytes_for n) work.old }
{
    let s = &support[..];
    let h = &g[..];
    parity_rows(work, m, &s[..n], &h[..t]);
}
