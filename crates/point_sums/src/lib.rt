// Weighted sums of powers over points.
#![tactic(auto)]

mod elements;
mod points;

ghost use Rattle.std.specs.Prelude.{◌≡◌, true, ◌≤◌};
ghost use Rattle.field.specs.Field.{is_width};
ghost use Rattle.point_sums.specs.Weighted.{weighted_all};

use elements::over_elements;
use points::over_points;
pub use points::total;

// The products for n points and k powers are more than the sums over all elements take, about 16·2^m; those are 256 from the
// width 8 on.
fn dense(m: u8, k: usize, n: usize) -> bool
    requires { (is_width m ≡ true) × (k ≤ 256) }
    ensures { result ≡ true → 8 ≤ m }
{
    if m < 8 {
        return false;
    }
    let all: usize = 16 << m;
    all <= k * bits::smaller(n, 8192)
}

// The sum of w_i·a_i^s over the points a_i, as far as both lists go, for each s below k and below 256, and 0 past them; 0 only
// where m is no width.
pub fn weighted_sums(m: u8, k: usize, w: &[u16], points: &[u16]) -> [u16; 256]
    ensures { result ≡ weighted_all m k w.now points.now }
{
    if field::modulus(m) == 0 {
        return [0u16; 256];
    }
    let t = bits::smaller(k, 256);
    if dense(m, t, bits::smaller(w.len(), points.len())) {
        return over_elements(m, t, w, points);
    }
    over_points(m, t, w, points)
}
