// Locking a pattern under a shape and a public key (document 01, 'Code and public key').
#![tactic(auto)]

ghost use Rattle.std.specs.Prelude.{◌≡◌, map, ◌+◌, ◌*◌, ◌≤◌, length, take, drop, replicate};
ghost use Rattle.bits.specs.Bits.{from, every, bytes_for, bit_at, put_bits, pack, filler_clear, over, row_product};
ghost use Rattle.field.specs.Verdicts.{verdict_of};
ghost use Rattle.code.specs.Lock.{row_of, lock_number, lock_output};
ghost use Rattle.locking.specs.Locking.{capsule_bit};

use field::Verdict;

// The capsule of a pattern with exactly t ones, from the start of out; 1, 3, 8, 9, 12 or 10 on refusal.
pub fn lock(m: u8, n: u16, t: u16, public: &[u8], pattern: &[u8], out: &mut [u8]) -> Verdict
    ensures value { result ≡ verdict_of (lock_number m n t public.now pattern.now out.old) }
    ensures out_after { out.new ≡ lock_output m n t public.now pattern.now out.old }
{
    let x = check(m, n, t, public, pattern, &out[..]);
    let Verdict::Accepted = x else {
        return x;
    };
    let rows = (m as usize) * (t as usize);
    packed::clear_row(out, rows as u32);
    put_capsule(out, public, pattern, rows, n as usize - rows);
    Verdict::Accepted
}

// Whether a pattern can be locked: 1, 3, 8, 9, 12 or 10 on refusal.
fn check(m: u8, n: u16, t: u16, public: &[u8], pattern: &[u8], out: &[u8]) -> Verdict
    ensures { result ≡ verdict_of (lock_number m n t public.now pattern.now out.now) }
{
    if field::modulus(m) == 0 {
        return Verdict::Refused(1);
    }
    if !key::shape::in_limits(m, n, t) {
        return Verdict::Refused(3);
    }
    let rows = (m as usize) * (t as usize);
    let w = n as usize - rows;
    if public.len() != rows * bits::bytes_for(w) {
        return Verdict::Refused(8);
    }
    if pattern.len() != bits::bytes_for(n as usize) {
        return Verdict::Refused(8);
    }
    if !fillers_clear(public, rows, w) {
        return Verdict::Refused(9);
    }
    if !bits::filler_clear(pattern, n as usize) {
        return Verdict::Refused(9);
    }
    if bits::weight(pattern, n as usize) != t as usize {
        return Verdict::Refused(12);
    }
    if out.len() < bits::bytes_for(rows) {
        return Verdict::Refused(10);
    }
    Verdict::Accepted
}

// The filler of each row of w bits is 0.
fn fillers_clear(public: &[u8], rows: usize, w: usize) -> bool
    requires { (rows * bytes_for w ≤ length public.now) × (rows ≤ 8192) × (w ≤ 8192) }
    ensures { result ≡ every (λ r. filler_clear w (row_of w public.now r)) (from 0 rows) }
{
    let size = bits::bytes_for(w);
    let mut at = 0;
    let mut r = 0;
    while r < rows {
        if !bits::filler_clear(&public[at..], w) {
            return false;
        }
        at += size;
        r += 1;
    }
    true
}

// [I|T]·e becomes the first bits of out: T has rows of w bits, and the pattern e has rows + w bits.
fn put_capsule(out: &mut [u8], public: &[u8], pattern: &[u8], rows: usize, w: usize)
    requires { (rows * bytes_for w ≤ length public.now) × (rows ≤ 8192) × (w ≤ 8192) }
    ensures { out.new ≡ put_bits (map (capsule_bit w rows public.now pattern.now) (from 0 rows)) 0 out.old }
{
    let size = bits::bytes_for(w);
    let tail = tail_of(pattern, rows, w);
    let mut at = 0;
    let mut r = 0;
    while r < rows {
        bits::set_bit(
            out,
            r,
            bits::bit_at(pattern, r) ^ row_bit(public, at, &tail[..size]),
        );
        at += size;
        r += 1;
    }
}

// The pattern's bits behind the first `rows`, packed.
fn tail_of(pattern: &[u8], rows: usize, w: usize) -> [u8; 1024]
    requires { (rows ≤ 8192) × (w ≤ 8192) }
    ensures { result ≡ over (pack (map (bit_at pattern.now) (from rows w))) (replicate 1024 0) }
{
    let mut t = [0u8; 1024];
    packed::write_row(&mut t, pattern, rows as u32, w as u32);
    t
}

// The product of the tail with the row whose first byte is at `at`.
fn row_bit(public: &[u8], at: usize, tail: &[u8]) -> u8
    requires { at + length tail.now ≤ length public.now }
    ensures { result ≡ row_product (take (length tail.now) (drop at public.now)) tail.now }
{
    let end = at + tail.len();
    packed::row_product(&public[at..end], tail)
}
