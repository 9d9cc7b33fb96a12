// The public key of a kept key (document 01, 'Code and public key' and 'Station').
#![tactic(auto)]

mod matrix;
mod rows;

ghost use Rattle.std.specs.Prelude.{◌≡◌, cond, length, drop};
ghost use Rattle.bits.specs.Bits.{over};
ghost use Rattle.field.specs.Numbers.{first_of};
ghost use Rattle.field.specs.Verdicts.{verdict_of};
ghost use Rattle.key.specs.Keys.{unsound};
ghost use Rattle.key.specs.Kept.{kept, parts};
ghost use Rattle.code.specs.PublicKey.{public_key, dependent, written};
ghost use Rattle.code.specs.Publish.{work_bytes, free_bytes, publish_number, publish_output};
ghost use Rattle.publishing.specs.Checks.{size_checks};

use field::Verdict;
use key::kept::Key;

// Whether the key and the lengths are right: 25, 34, 10 or 11 on refusal.
fn check<'a>(
    m: u8,
    n: u16,
    t: u16,
    support: &'a [u16; Key::MOST_PLACES],
    g: &'a [u16; Key::MOST_ERRORS],
    out: usize,
    work: usize,
) -> Verdict
    ensures { result ≡ (let k = kept (parts m n t support.now g.now) in verdict_of (first_of (size_checks (unsound k) k out work))) }
{
    let x = irreducible::check_exchange(m, n, t, support, g);
    let Verdict::Accepted = x else {
        return x;
    };
    let places = n as usize;
    let rows = (m as usize) * (t as usize);
    if out < rows * bits::bytes_for(places - rows) {
        return Verdict::Refused(10);
    }
    if work < rows * bits::bytes_for(places) {
        return Verdict::Refused(11);
    }
    x
}

// T from the start of out, made in work; 23 where there is none.
fn make<'a>(
    m: u8,
    n: u16,
    t: u16,
    support: &'a [u16; Key::MOST_PLACES],
    g: &'a [u16; Key::MOST_ERRORS],
    out: &mut [u8],
    work: &mut [u8],
) -> Verdict
    requires { let k = kept (parts m n t support.now g.now) in first_of (size_checks (unsound k) k (length out.old) (length work.old)) ≡ 0 }
    ensures answer { result ≡ verdict_of (cond (dependent (kept (parts m n t support.now g.now))) 23 0) }
    ensures output { out.new ≡ over (written (public_key (kept (parts m n t support.now g.now)))) out.old }
    ensures rest { let k = kept (parts m n t support.now g.now) in
        drop (work_bytes k) work.new ≡ drop (work_bytes k) work.old }
{
    let places = n as usize;
    let errors = t as usize;
    let rows = (m as usize) * errors;
    matrix::key_rows(work, m, places, errors, support, g);
    if !elimination::eliminate(work, rows, places) {
        return Verdict::Refused(23);
    }
    rows::write_rows(out, work, rows, places);
    Verdict::Accepted
}

// The public key of a kept key, lent by its parts, from the start of out; bytes beyond keep their contents. Of work the first
// m·t·ceil(n/8) bytes are free once the checks before 23 have passed; every other byte keeps its contents.
pub fn publish<'a>(
    m: u8,
    n: u16,
    t: u16,
    support: &'a [u16; Key::MOST_PLACES],
    g: &'a [u16; Key::MOST_ERRORS],
    out: &mut [u8],
    work: &mut [u8],
) -> Verdict
    ensures answer { result ≡ verdict_of (publish_number (kept (parts m n t support.now g.now)) out.old work.old) }
    ensures output { out.new ≡ publish_output (kept (parts m n t support.now g.now)) out.old work.old }
    ensures workspace { let f = free_bytes (kept (parts m n t support.now g.now)) out.old work.old in
        drop f work.new ≡ drop f work.old }
{
    let x = check(m, n, t, support, g, out.len(), work.len());
    let Verdict::Accepted = x else {
        return x;
    };
    make(m, n, t, support, g, out, work)
}
