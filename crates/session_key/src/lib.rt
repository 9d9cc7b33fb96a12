// The session key of a capsule under a kept key, lent by its parts (request L4).
#![tactic(auto)]

ghost use Rattle.std.specs.Prelude.{◌≡◌, not, cond, ◌&&◌, ◌+◌, ◌≤◌, eqb, length, take};
ghost use Rattle.std.proofs.Math.Seq.{paste};
ghost use Rattle.field.specs.Verdicts.{verdict_of};
ghost use Rattle.key.specs.Kept.{kept, parts};
ghost use Rattle.session.specs.Session.{hashed, session_number};
ghost use Rattle.session_key.specs.Answers.{found_key, refused_key, session_answer};

use decoding::{Found, decode};
use field::Verdict;
use key::kept::Key;
use reading::{capsule_bits, check_published, check_row};

// The number of a refusal, or 0, and the session key; zeros on refusal.
#[derive(Drop)]
pub struct SessionKey {
    pub refused: u8,
    pub key: [u8; 32],
}

// Whether a session key can be derived: 25, 34, 24, 8, 9 or 33 on refusal.
fn check_session<'a>(
    m: u8,
    n: u16,
    t: u16,
    support: &'a [u16; Key::MOST_PLACES],
    g: &'a [u16; Key::MOST_ERRORS],
    published: bool,
    capsule: &[u8],
    secret: &[u8],
) -> Verdict
    ensures { result ≡ verdict_of (session_number (not published) (kept (parts m n t support.now g.now)) capsule.now secret.now) }
{
    let x = check_published(m, n, t, support, g, published);
    let Verdict::Accepted = x else {
        return x;
    };
    let y = check_row(capsule_bits(m, t), capsule);
    let Verdict::Accepted = y else {
        return y;
    };
    if !bits::well_formed(secret, n as usize) {
        return Verdict::Refused(33);
    }
    y
}

// s becomes what stands in out from `at` on.
fn put(out: &mut [u8], at: usize, s: &[u8])
    requires { at + length s.now ≤ length out.old }
    ensures { out.new ≡ paste out.old at s.now (length s.now) }
{
    let mut i = 0;
    while i < s.len() {
        out[at + i] = s[i];
        i += 1;
    }
}

// The first 32 bytes of SHAKE256 for a byte, a packed row and the capsule: at most 2049 bytes.
fn hash(first: u8, row: &[u8], capsule: &[u8]) -> [u8; 32]
    requires { length row.now + length capsule.now ≤ 2048 }
    ensures { result ≡ hashed first row.now capsule.now }
{
    let mut text = [0u8; 2049];
    text[0] = first;
    put(&mut text, 1, row);
    let at = 1 + row.len();
    put(&mut text, at, capsule);
    let end = at + capsule.len();
    let mut key = [0u8; 32];
    shake::shake256(&text[..end], &mut key);
    key
}

// A pattern of exactly t ones is found.
fn is_opened(found: bool, ones: u16, t: u16) -> bool
    ensures { result ≡ (found && eqb ones t) }
{
    found && ones == t
}

// The pattern's first bytes where it is opened, else the secret.
fn row<'a>(opened: bool, pattern: &'a [u8; 1024], end: usize, secret: &'a [u8]) -> &'a [u8]
    requires { end ≤ 1024 }
    ensures { result.now ≡ cond opened (take end pattern.now) secret.now }
{
    if opened {
        let p = &pattern[..];
        return &p[..end];
    }
    secret
}

// For the byte 1 and the n bits of a pattern that is found with t ones; where none is, for the byte 0 and the secret.
fn key_found(e: Found, n: u16, t: u16, capsule: &[u8], secret: &[u8]) -> [u8; 32]
    requires n_bound { n ≤ 8192 }
    requires capsule_len_bound { length capsule.now ≤ 1024 }
    requires secret_len_bound { length secret.now ≤ 1024 }
    ensures { result ≡ found_key n t e capsule.now secret.now }
{
    let opened = is_opened(e.found, e.ones, t);
    let end = bits::bytes_for(n as usize);
    hash(opened as u8, row(opened, &e.pattern, end, secret), capsule)
}

// No key, with the number.
fn refuse(number: u8) -> SessionKey
    ensures { result ≡ refused_key number }
{
    let key = [0u8; 32];
    SessionKey {
        refused: number,
        key,
    }
}

// The session key of a capsule, with the secret for one that gives 13; 25, 34, 24, 8, 9 or 33 on refusal. No refusal comes from
// `decode` (`decode_not_refused`). It is short for the C call's sake: a longer one copies the station once more (`scripts/copies`).
pub fn session<'a>(
    m: u8,
    n: u16,
    t: u16,
    support: &'a [u16; Key::MOST_PLACES],
    g: &'a [u16; Key::MOST_ERRORS],
    published: bool,
    capsule: &[u8],
    secret: &[u8],
) -> SessionKey
    ensures { result ≡ session_answer (not published) (kept (parts m n t support.now g.now)) capsule.now secret.now }
{
    let x = check_session(m, n, t, support, g, published, capsule, secret);
    let Verdict::Accepted = x else {
        return refuse(field::number(x));
    };
    let e = decode(m, n, t, support, g, capsule);
    let y = e.verdict;
    let Verdict::Accepted = y else {
        return refuse(field::number(y));
    };
    let key = key_found(e, n, t, capsule, secret);
    SessionKey { refused: 0, key }
}
