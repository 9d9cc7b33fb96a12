// The public key of a kept key, in the small workspace (request L9).
#![tactic(auto)]

ghost use Rattle.std.specs.Prelude.{◌≡◌, not, cond, ◌-◌, ◌*◌, ◌≤◌, length, drop};
ghost use Rattle.bits.specs.Bits.{bytes_for, over};
ghost use Rattle.field.specs.Numbers.{first_of};
ghost use Rattle.field.specs.Verdicts.{verdict_of};
ghost use Rattle.key.specs.Keys.{key_of, key_number, unsound};
ghost use Rattle.key.specs.Kept.{kept, parts};
ghost use Rattle.code.specs.PublicKey.{public_key, dependent, written};
ghost use Rattle.code.specs.Publish.{small_bytes, free_bytes_within, publish_number_within, publish_output_within};
ghost use Rattle.publishing.specs.Checks.{size_checks_within};
ghost use Rattle.block_product.specs.Blocks.{step_of};

use field::Verdict;
use key::kept::Key;

// Whether the key and the lengths are right: 25, 34, 10 or 11 on refusal.
fn check<'a>(
    m: u8,
    n: u16,
    t: u16,
    support: &'a [u16; Key::MOST_PLACES],
    g: &'a [u16; Key::MOST_ERRORS],
    out: usize,
    work: usize,
) -> Verdict
    ensures { result ≡ (let k = kept (parts m n t support.now g.now) in verdict_of (first_of (size_checks_within (small_bytes k) (unsound k) k out work))) }
{
    let x = irreducible::check_exchange_by(m, n, t, support, g, true);
    let Verdict::Accepted = x else {
        return x;
    };
    let places = n as usize;
    let rows = (m as usize) * (t as usize);
    if out < rows * bits::bytes_for(places - rows) {
        return Verdict::Refused(10);
    }
    if work < 2 * rows * bits::bytes_for(rows) {
        return Verdict::Refused(11);
    }
    x
}

// T of an accepted key from the start of out: [A|I] for the first columns A of H is reduced to [I|B] in work, and T is B times the other
// columns; false where A has no inverse, and then nothing is written.
fn make_rows(m: u8, support: &[u16], g: &[u16], out: &mut [u8], work: &mut [u8]) -> bool
    requires { (key_number (key_of m support.now g.now) ≡ 0) × (m * length g.now * bytes_for (length support.now - m * length g.now) ≤ length out.old)
        × (m * length g.now * step_of (m * length g.now) ≤ length work.old) }
    ensures answer { result ≡ not (dependent (key_of m support.now g.now)) }
    ensures output { out.new ≡ over (written (public_key (key_of m support.now g.now))) out.old }
    ensures rest { drop (m * length g.now * step_of (m * length g.now)) work.new
        ≡ drop (m * length g.now * step_of (m * length g.now)) work.old }
{
    let rows = (m as usize) * g.len();
    let b = bits::bytes_for(rows);
    column_blocks::left_rows(work, m, &support[..rows], g, b + b);
    if !inversion::reduce(work, rows) {
        return false;
    }
    let size = bits::bytes_for(support.len() - rows);
    column_blocks::blocks(out, work, m, &support[rows..], g, rows, size);
    true
}

// The same of a kept key; 23 where A has no inverse.
fn make<'a>(
    m: u8,
    n: u16,
    t: u16,
    support: &'a [u16; Key::MOST_PLACES],
    g: &'a [u16; Key::MOST_ERRORS],
    out: &mut [u8],
    work: &mut [u8],
) -> Verdict
    requires { let k = kept (parts m n t support.now g.now) in first_of (size_checks_within (small_bytes k) (unsound k) k (length out.old) (length work.old)) ≡ 0 }
    ensures answer { result ≡ verdict_of (cond (dependent (kept (parts m n t support.now g.now))) 23 0) }
    ensures output { out.new ≡ over (written (public_key (kept (parts m n t support.now g.now)))) out.old }
    ensures rest { let k = kept (parts m n t support.now g.now) in
        drop (small_bytes k) work.new ≡ drop (small_bytes k) work.old }
{
    let s = &support[..];
    let h = &g[..];
    let places = n as usize;
    let errors = t as usize;
    if !make_rows(m, &s[..places], &h[..errors], out, work) {
        return Verdict::Refused(23);
    }
    Verdict::Accepted
}

// The public key of a kept key, lent by its parts, from the start of out; bytes beyond keep their contents. Of work the first
// 2·m·t·ceil(m·t/8) bytes are free once the checks before 23 have passed; every other byte keeps its contents.
pub fn publish_small<'a>(
    m: u8,
    n: u16,
    t: u16,
    support: &'a [u16; Key::MOST_PLACES],
    g: &'a [u16; Key::MOST_ERRORS],
    out: &mut [u8],
    work: &mut [u8],
) -> Verdict
    ensures answer { result ≡ (let k = kept (parts m n t support.now g.now) in verdict_of (publish_number_within (small_bytes k) k out.old work.old)) }
    ensures output { out.new ≡ (let k = kept (parts m n t support.now g.now) in publish_output_within (small_bytes k) k out.old work.old) }
    ensures workspace { let k = kept (parts m n t support.now g.now) in let f = free_bytes_within (small_bytes k) k out.old work.old in
        drop f work.new ≡ drop f work.old }
{
    let x = check(m, n, t, support, g, out.len(), work.len());
    let Verdict::Accepted = x else {
        return x;
    };
    make(m, n, t, support, g, out, work)
}
