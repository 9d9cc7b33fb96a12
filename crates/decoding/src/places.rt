// The places that a register gives.
ghost use Rattle.std.specs.Prelude.{◌≡◌, [], map, ◌≤◌, length};
ghost use Rattle.bits.specs.Bits.{padded, put_bits};
ghost use Rattle.poly.specs.Register.{register, register_number};
ghost use Rattle.key.specs.Keys.{key_of};
ghost use Rattle.decoder.specs.Decoding.{backward as backward_of, places};
ghost use Rattle.decoding.specs.Parts.{mark as mark_of, packed};

use register::Registered;

// The coefficients c_l, .., c_1, with zeros behind them.
fn backward(c: [u16; Registered::COEFFICIENTS], l: usize) -> [u16; Registered::LONGEST]
    requires { l ≤ 256 }
    ensures { result ≡ padded 256 (backward_of c l) }
{
    let mut q = [0u16; Registered::LONGEST];
    let mut i = 0;
    while i < l {
        let j = l - i;
        q[i] = c[j];
        i += 1;
    }
    q
}

// 1 for 0, and 0 for any other value.
fn mark(v: u16) -> u8
    ensures { result ≡ mark_of v }
{
    if v == 0 { 1 } else { 0 }
}

// A one for each value that is 0, from the first bit of out on.
fn mark_bits(out: &mut [u8], values: &[u16])
    ensures { out.new ≡ put_bits (map mark_of values.now) 0 out.old }
{
    let mut i = 0;
    while i < values.len() {
        bits::set_bit(out, i, mark(values[i]));
        i += 1;
    }
}

// The pattern with a one at each place whose value is 0. Eight at a time, so that the compiler knows the place of each in its byte.
fn marks(values: &[u16]) -> [u8; 1024]
    requires { length values.now ≤ 8192 }
    ensures { result ≡ packed (map mark_of values.now) }
{
    let whole = values.len() / 8;
    let mut pattern = [0u8; 1024];
    let mut q = 0;
    let mut at = 0;
    while q < whole {
        let end = at + 8;
        mark_bits(&mut pattern[q..], &values[at..end]);
        at = end;
        q += 1;
    }
    mark_bits(&mut pattern[q..], &values[at..]);
    pattern
}

// The pattern with a one at each place of the support that the register of the sums s gives.
pub fn located(m: u8, support: &[u16], s: &[u16]) -> [u8; 1024]
    requires { (length support.now ≤ 8192) × (register_number m s.now ≡ 0) }
    ensures { result ≡ packed (places (key_of m support.now []) (register m s.now)) }
{
    let r = Registered::of(m, s);
    let l = r.length;
    let c = r.c;
    let q = backward(c, l);
    let v = transform::values(m, &q[..l], support);
    let n = support.len();
    marks(&v[..n])
}
