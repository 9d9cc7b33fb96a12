// The check of a kept key without long arrays: g's values are looked at in blocks of 64 places.
#![tactic(auto)]

ghost use Rattle.std.specs.Prelude.{◌≡◌, true};
ghost use Rattle.field.specs.Field.{is_width};
ghost use Rattle.field.specs.Verdicts.{verdict_of};
ghost use Rattle.key.specs.Keys.{key_number};
ghost use Rattle.key.specs.Parts.{no_root};
ghost use Rattle.key.specs.Kept.{kept, parts};

use field::Verdict;
use key::checks::{check_but_roots, no_root_of_few};
use key::kept::Key;

// No g(a) is 0, a from s.
fn no_root(m: u8, g: &[u16], s: &[u16]) -> bool
    requires { is_width m ≡ true }
    ensures { result ≡ no_root m g.now s.now }
{
    let n = s.len();
    let mut at = 0;
    while at < n {
        let e = at + bits::smaller(n - at, 64);
        if !no_root_of_few(m, g, &s[at..e]) {
            return false;
        }
        at = e;
    }
    true
}

// Whether a kept key, lent by its parts, is one that load accepts: 1, 2, 3, 4, 5, 6 or 7 on refusal.
pub fn check<'a>(
    m: u8,
    n: u16,
    t: u16,
    support: &'a [u16; Key::MOST_PLACES],
    g: &'a [u16; Key::MOST_ERRORS],
) -> Verdict
    ensures { result ≡ verdict_of (key_number (kept (parts m n t support.now g.now))) }
{
    let x = check_but_roots(m, n, t, support, g);
    let Verdict::Accepted = x else {
        return x;
    };
    let s = &support[..];
    let h = &g[..];
    let places = n as usize;
    let errors = t as usize;
    if !no_root(m, &h[..errors], &s[..places]) {
        return Verdict::Refused(7);
    }
    x
}
