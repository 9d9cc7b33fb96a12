// Whether a square of a polynomial of degree 1 or more divides a monic polynomial: Euclid's algorithm on g and g'.
ghost use Rattle.std.specs.Prelude.{◌≡◌, ◌≤◌, length};
ghost use Rattle.bits.specs.Bits.{padded};
ghost use Rattle.poly.specs.Polynomials.{monic as monic_of};
ghost use Rattle.euclid.specs.Euclid.{square_test};

use super::common::{Divisor, common_divisor, load};
use super::derivative;

// g with its leading 1, and zeros behind it.
fn monic(g: &[u16]) -> [u16; Divisor::COEFFICIENTS]
    requires { length g.now ≤ 128 }
    ensures { result ≡ padded 129 (monic_of g.now) }
{
    let n = g.len();
    let mut a = load(g);
    a[n] = 1;
    a
}

// Whether a square divides the monic polynomial with the lower coefficients g; false where m is no width, g has over 128
// coefficients or one of them is no element.
pub fn has_square(m: u8, g: &[u16]) -> bool
    ensures { result ≡ square_test m g.now }
{
    if Divisor::COEFFICIENTS <= g.len() {
        return false;
    }
    let a = monic(g);
    let mut b = a;
    derivative(&mut b);
    let d = common_divisor(m, &a, &b);
    2 <= d.length
}
