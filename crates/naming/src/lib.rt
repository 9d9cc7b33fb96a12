// The byte by which a call names one of two recipients, A and B (request L6), and what it picks of their two slots.
#![tactic(auto)]

ghost use Rattle.std.specs.Prelude.{◌≡◌};
ghost use Rattle.naming.specs.Picks.{known, pick};

use key::kept::Key;

// The names.
pub const A: u8 = 1;

pub const B: u8 = 2;

// The byte is a name.
pub fn is_name(name: u8) -> bool
    ensures { result ≡ known name }
{
    name == A || name == B
}

// Of two parts, one of A's slot and one of B's, that of the name: the first for 1, else the second.
pub fn byte(name: u8, a: u8, b: u8) -> u8
    ensures { result ≡ pick name a b }
{
    if name == A {
        return a;
    }
    b
}

pub fn number(name: u8, a: u16, b: u16) -> u16
    ensures { result ≡ pick name a b }
{
    if name == A {
        return a;
    }
    b
}

pub fn places<'a>(
    name: u8,
    a: &'a [u16; Key::MOST_PLACES],
    b: &'a [u16; Key::MOST_PLACES],
) -> &'a [u16; Key::MOST_PLACES]
    ensures { result.now ≡ pick name a.now b.now }
{
    if name == A {
        return a;
    }
    b
}

pub fn coefficients<'a>(
    name: u8,
    a: &'a [u16; Key::MOST_ERRORS],
    b: &'a [u16; Key::MOST_ERRORS],
) -> &'a [u16; Key::MOST_ERRORS]
    ensures { result.now ≡ pick name a.now b.now }
{
    if name == A {
        return a;
    }
    b
}
