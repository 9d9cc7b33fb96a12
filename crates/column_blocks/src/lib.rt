// T, some columns after another, by way of a workspace whose right halves hold the inverse of H's left part.
#![tactic(auto)]

ghost use Rattle.std.specs.Prelude.{◌≡◌, true, ◌⊎◌, map, ℕ, ◌+◌, ◌*◌, ◌≤◌, ◌<◌, length, get_or, drop};
ghost use Rattle.bits.specs.Bits.{every, bytes_for, pack};
ghost use Rattle.field.specs.Field.{is_width};
ghost use Rattle.field.specs.Answers.{is_unit};
ghost use Rattle.key.specs.Keys.{key_of, goppa_at};
ghost use Rattle.code.specs.Code.{parity_rows};
ghost use Rattle.code.specs.Lock.{rows_of};
ghost use Rattle.parity.specs.Rows.{over_rows};
ghost use Rattle.block_product.specs.Blocks.{step_of, right_row};
ghost use Rattle.column_blocks.specs.Tails.{tail_row};

// H's rows for at most 1664 points, `step` bytes apart; what lies behind them in a row stays.
#[inline(never)]
pub fn left_rows(work: &mut [u8], m: u8, points: &[u16], g: &[u16], step: usize)
    requires { (is_width m ≡ true) × (length points.now ≤ 1664) × (every (is_unit m) (map (goppa_at (key_of m points.now g.now)) points.now) ≡ true)
        × (bytes_for (length points.now) ≤ step) × (step ≤ 1024) × (m * length g.now * step ≤ length work.old) }
    ensures rows { rows_of (m * length g.now) (8 * step) work.new
        ≡ over_rows (parity_rows (key_of m points.now g.now)) (rows_of (m * length g.now) (8 * step) work.old) }
    ensures rest { drop (m * length g.now * step) work.new ≡ drop (m * length g.now * step) work.old }
{
    let mut p = [1u16; 1664];
    poly::value_each(m, g, &mut p, points);
    parity::parity_rows(work, m, &mut p, points, g, step);
}

// The columns of T for some points: in each of its rows, `size` bytes apart, the packed bits; the right halves stay.
fn block(
    out: &mut [u8],
    work: &mut [u8],
    m: u8,
    points: &[u16],
    g: &[u16],
    rows: usize,
    size: usize,
)
    requires { (is_width m ≡ true) × (rows ≡ m * length g.now) × (0 < rows) × (rows ≤ 1664) × (length points.now ≤ 512)
        × (bytes_for (length points.now) ≤ bytes_for rows) × (bytes_for (length points.now) ≤ size) × (size ≤ 1024)
        × (every (is_unit m) (map (goppa_at (key_of m points.now g.now)) points.now) ≡ true)
        × (rows * step_of rows ≤ length work.old) × ((i : ℕ) → i < rows → i * size + bytes_for (length points.now) ≤ length out.old) }
    ensures inside { (i x : ℕ) → i < rows → x < bytes_for (length points.now)
        → get_or out.new (i * size + x) 0 ≡ get_or (pack (tail_row m points.now g.now rows work.old i)) x 0 }
    ensures outside { (y : ℕ) → ((i : ℕ) → i < rows → (y < i * size) ⊎ (i * size + bytes_for (length points.now) ≤ y))
        → get_or out.new y 0 ≡ get_or out.old y 0 }
    ensures right { (i : ℕ) → i < rows → right_row rows work.new i ≡ right_row rows work.old i }
    ensures rest { drop (rows * step_of rows) work.new ≡ drop (rows * step_of rows) work.old }
{
    let b = bits::bytes_for(rows);
    left_rows(work, m, points, g, b + b);
    block_product::product(out, work, rows, points.len(), size);
}

// All columns of T, for the points behind the support's first: at most 512 at a time, and no more than a left half has room for.
pub fn blocks(
    out: &mut [u8],
    work: &mut [u8],
    m: u8,
    points: &[u16],
    g: &[u16],
    rows: usize,
    size: usize,
)
    requires { (is_width m ≡ true) × (rows ≡ m * length g.now) × (0 < rows) × (rows ≤ 1664) × (length points.now ≤ 8192) × (size ≡ bytes_for (length points.now))
        × (every (is_unit m) (map (goppa_at (key_of m points.now g.now)) points.now) ≡ true)
        × (rows * step_of rows ≤ length work.old) × (rows * size ≤ length out.old) }
    ensures inside { (i x : ℕ) → i < rows → x < size
        → get_or out.new (i * size + x) 0 ≡ get_or (pack (tail_row m points.now g.now rows work.old i)) x 0 }
    ensures outside { (y : ℕ) → rows * size ≤ y → get_or out.new y 0 ≡ get_or out.old y 0 }
    ensures rest { drop (rows * step_of rows) work.new ≡ drop (rows * step_of rows) work.old }
{
    let width = bits::smaller(512, 8 * bits::bytes_for(rows));
    let mut j = 0;
    while j < points.len() {
        let e = j + bits::smaller(width, points.len() - j);
        let at = j / 8;
        block(&mut out[at..], work, m, &points[j..e], g, rows, size);
        j = e;
    }
}
