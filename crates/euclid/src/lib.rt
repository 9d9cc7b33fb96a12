// The derivative of a polynomial over GF(2^m), a greatest common divisor of two, and whether a square divides one.
#![tactic(auto)]

mod common;
mod square;

ghost use Rattle.std.specs.Prelude.{◌≡◌, ◌<◌, length};
ghost use Rattle.euclid.specs.Euclid.{derivative_at, derivative as derivative_of};

pub use common::{Divisor, common_divisor};
pub use square::has_square;

// p becomes its derivative, with as many coefficients.
pub fn derivative(p: &mut [u16])
    ensures { p.new ≡ derivative_of p.old }
{
    let mut k = 0;
    while k < p.len() {
        p[k] = derivative_at(p, k);
        k += 1;
    }
}

// Coefficient k of the derivative of p.
fn derivative_at(p: &[u16], k: usize) -> u16
    requires { k < length p.now }
    ensures { result ≡ derivative_at p.now k }
{
    if k % 2 != 0 {
        return 0;
    }
    let next = k + 1;
    if next < p.len() { p[next] } else { 0 }
}
