// The sums over all elements, with the weights at the places of their points.
ghost use Rattle.std.specs.Prelude.{◌≡◌, true, ◌≤◌, take};
ghost use Rattle.bits.specs.Bits.{padded};
ghost use Rattle.field.specs.Field.{is_width};
ghost use Rattle.point_sums.specs.Weighted.{weighted_sums};
ghost use Rattle.point_sums.specs.Parts.{scattered};

// The weights, each added at the place of its point's m low digits, as far as both lists go.
#[inline(never)]
fn scatter(m: u8, w: &[u16], points: &[u16]) -> [u16; 8192]
    requires { is_width m ≡ true }
    ensures { result ≡ scattered m w.now points.now }
{
    let n = bits::smaller(w.len(), points.len());
    let mask: u16 = (1 << m) - 1;
    let mut d = [0u16; 8192];
    let mut i = 0;
    while i < n {
        let a = (points[i] & mask) as usize;
        d[a] ^= w[i];
        i += 1;
    }
    d
}

// The first k numbers, with zeros behind them.
fn first(k: usize, v: [u16; 256]) -> [u16; 256]
    requires { k ≤ 256 }
    ensures { result ≡ padded 256 (take k v) }
{
    let mut r = [0u16; 256];
    let mut i = 0;
    while i < k {
        r[i] = v[i];
        i += 1;
    }
    r
}

// The sums for the first k powers, with zeros behind them.
#[inline(never)]
pub fn over_elements(m: u8, k: usize, w: &[u16], points: &[u16]) -> [u16; 256]
    requires { (is_width m ≡ true) × (8 ≤ m) × (k ≤ 256) }
    ensures { result ≡ padded 256 (weighted_sums m k w.now points.now) }
{
    let d = scatter(m, w, points);
    first(k, power_sums::power_sums(m, d))
}
