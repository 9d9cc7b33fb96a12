// Whether a monic polynomial over GF(2^m) has a proper factor: Berlekamp's criterion.
#![tactic(auto)]

mod independence;
mod residues;

ghost use Rattle.std.specs.Prelude.{◌≡◌, true, false, ◌≤◌, ◌<◌, length};
ghost use Rattle.bits.specs.Bits.{every};
ghost use Rattle.field.specs.Field.{is_width, is_element};
ghost use Rattle.field.specs.Numbers.{first_of};
ghost use Rattle.field.specs.Verdicts.{verdict_of};
ghost use Rattle.poly.specs.Polynomials.{has_square};
ghost use Rattle.factors.specs.Factors.{has_factor};
ghost use Rattle.key.specs.Keys.{key_number};
ghost use Rattle.key.specs.Kept.{kept, parts};
ghost use Rattle.irreducible.specs.Answers.{factor_test, exchange_checks};

use field::Verdict;
use independence::{add_unit, independent};
use key::checks::check;
use key::kept::Key;
use residues::powers;

// Whether the monic polynomial with the lower coefficients g, which no square divides, has a proper factor.
fn splits(m: u8, g: &[u16]) -> bool
    requires { (is_width m ≡ true) × (0 < length g.now) × (length g.now ≤ 128) × (every (is_element m) g.now ≡ true) × (has_square m g.now ≡ false) }
    ensures { result ≡ has_factor m g.now }
{
    if g.len() == 1 {
        return false;
    }
    let mut rows = [0u16; 16384];
    powers(m, g, &mut rows);
    add_unit(g.len(), &mut rows);
    !independent(m, g, &mut rows)
}

// Whether the monic polynomial with the lower coefficients g has a factor of degree 1 to one less than its own; false where m is no
// width, g has over 128 coefficients or one of them is no element.
pub fn has_factor(m: u8, g: &[u16]) -> bool
    ensures { result ≡ factor_test m g.now }
{
    if 128 < g.len() {
        return false;
    }
    if field::modulus(m) == 0 {
        return false;
    }
    if !field::elements(m, g) {
        return false;
    }
    if g.len() == 0 {
        return false;
    }
    if euclid::has_square(m, g) {
        return true;
    }
    splits(m, g)
}

// Whether a kept key, lent by its parts, is one that load accepts; where it is to be lean, without long arrays.
fn check_key<'a>(
    m: u8,
    n: u16,
    t: u16,
    support: &'a [u16; Key::MOST_PLACES],
    g: &'a [u16; Key::MOST_ERRORS],
    lean: bool,
) -> Verdict
    ensures { result ≡ verdict_of (key_number (kept (parts m n t support.now g.now))) }
{
    if lean {
        return lean_check::check(m, n, t, support, g);
    }
    check(m, n, t, support, g)
}

// Whether it is an exchange key: 25 or 34 on refusal, without long arrays where it is to be lean. No square divides g once 25 has
// passed.
pub fn check_exchange_by<'a>(
    m: u8,
    n: u16,
    t: u16,
    support: &'a [u16; Key::MOST_PLACES],
    g: &'a [u16; Key::MOST_ERRORS],
    lean: bool,
) -> Verdict
    ensures { result ≡ verdict_of (first_of (exchange_checks (kept (parts m n t support.now g.now)))) }
{
    let x = check_key(m, n, t, support, g, lean);
    let Verdict::Accepted = x else {
        return Verdict::Refused(25);
    };
    let h = &g[..];
    let errors = t as usize;
    if splits(m, &h[..errors]) {
        return Verdict::Refused(34);
    }
    x
}

// Whether a kept key, lent by its parts, is an exchange key: 25 or 34 on refusal. No square divides g once 25 has passed.
pub fn check_exchange<'a>(
    m: u8,
    n: u16,
    t: u16,
    support: &'a [u16; Key::MOST_PLACES],
    g: &'a [u16; Key::MOST_ERRORS],
) -> Verdict
    ensures { result ≡ verdict_of (first_of (exchange_checks (kept (parts m n t support.now g.now)))) }
{
    check_exchange_by(m, n, t, support, g, false)
}
