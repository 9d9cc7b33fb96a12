// One step of the standard's control-bit routine (document 02, L7): the outer layers' bits and the halves of the middle.
#![tactic(auto)]

ghost use Rattle.std.specs.Prelude.{◌≡◌, ℕ, ◌+◌, ◌-◌, ◌*◌, ◌/◌, ◌%◌, ◌^◌, ◌<◌, ◌≤◌, min, length};
ghost use Rattle.network.specs.Network.{turn, val, seek, low, cyc, pairs, first};
ghost use Rattle.network.specs.Tables.{Each, Tab, at};
ghost use Rattle.control_passes.specs.Passes.{Level, Layer, Fits, Halved, Work, Outer};

// An element as a usize.
fn wide(x: u16) -> usize
    ensures { result ≡ x }
{
    x as usize
}

// The smaller of two elements.
fn lesser(a: u16, b: u16) -> u16
    ensures { result ≡ min a b }
{
    if a < b { a } else { b }
}

// x with its lowest bit turned if b is 1.
fn flip(x: usize, b: usize) -> usize
    requires { (x < 65536) × (b < 2) }
    ensures { result ≡ turn b x }
{
    2 * (x / 2) + (x + b) % 2
}

// The inverse: inv[pi[i]] = i.
fn put_inverse(pi: &[u16], inv: &mut [u16])
    requires each { Each (length pi.now) pi.now }
    requires pi_in_bounds { (length pi.now ≤ length inv.old) × (length pi.now ≤ 65536) }
    ensures { Tab (length pi.now) inv.new (seek (val pi.now) (length pi.now)) }
{
    let mut i = 0;
    while i < pi.len() {
        let v = wide(pi[i]);
        inv[v] = i as u16;
        i += 1;
    }
}

// One round of doubling: p after p, and the lesser of c[x] and c[p[x]].
fn double(n: usize, p: &[u16], c: &[u16], p2: &mut [u16], c2: &mut [u16])
    requires n_in_bounds { (n ≤ length p.now) × (n ≤ length c.now) × (n ≤ length p2.old) × (n ≤ length c2.old) }
    requires by_index { (x : ℕ) → x < n → at p.now x < n }
    ensures tab { Tab n p2.new (λ x. at p.now (at p.now x)) }
    ensures tab_2 { Tab n c2.new (λ x. min (at c.now x) (at c.now (at p.now x))) }
{
    let mut x = 0;
    while x < n {
        let y = wide(p[x]);
        p2[x] = p[y];
        c2[x] = lesser(c[x], c[y]);
        x += 1;
    }
}

// There and back: p[x] = pi[inv[x ^ 1] ^ 1]; and c[x] = x.
fn begin(pi: &[u16], inv: &[u16], p: &mut [u16], c: &mut [u16])
    requires pi_in_bounds { (length pi.now ≤ length inv.now) × (length pi.now ≤ length p.old) × (length pi.now ≤ length c.old) }
    requires pi_len_bound { (length pi.now ≤ 65536) × (length pi.now % 2 ≡ 0) }
    requires by_index { (x : ℕ) → x < length pi.now → at inv.now x < length pi.now }
    ensures tab { Tab (length pi.now) p.new (λ x. at pi.now (turn 1 (at inv.now (turn 1 x)))) }
    ensures tab_2 { Tab (length pi.now) c.new (λ x. x) }
{
    let mut x = 0;
    while x < pi.len() {
        let y = flip(x, 1);
        let z = flip(wide(inv[y]), 1);
        p[x] = pi[z];
        c[x] = x as u16;
        x += 1;
    }
}

// The first n numbers of src.
fn copy(n: usize, dst: &mut [u16], src: &[u16])
    requires { (n ≤ length dst.old) × (n ≤ length src.now) }
    ensures { Tab n dst.new (at src.now) }
{
    let mut x = 0;
    while x < n {
        dst[x] = src[x];
        x += 1;
    }
}

// The least of the first 2^k members of each cycle of p.
fn rounds(k: usize, n: usize, p: &mut [u16], c: &mut [u16], p2: &mut [u16], c2: &mut [u16])
    requires n_in_bounds { (n ≤ length p.old) × (n ≤ length c.old) × (n ≤ length p2.old) × (n ≤ length c2.old) }
    requires by_index { (x : ℕ) → x < n → at p.old x < n }
    requires tab { Tab n c.old (λ x. x) }
    ensures { Tab n c.new (low (at p.old) (2 ^ k)) }
{
    let mut i = 0;
    while i < k {
        double(n, p, c, p2, c2);
        copy(n, p, p2);
        copy(n, c, c2);
        i += 1;
    }
}

// The least member of the cycle of each x under pi's 'there and back'.
fn cycles(
    k: usize,
    pi: &[u16],
    inv: &mut [u16],
    p: &mut [u16],
    c: &mut [u16],
    p2: &mut [u16],
    c2: &mut [u16],
)
    requires level { Level k pi.now }
    requires work { Work (2 ^ k) inv.old p.old c.old p2.old c2.old }
    ensures { Tab (2 ^ k) c.new (cyc (2 ^ k) (val pi.now) (seek (val pi.now) (2 ^ k))) }
{
    put_inverse(pi, inv);
    begin(pi, inv, p, c);
    rounds(k, pi.len(), p, c, p2, c2);
}

// F after pi, in place, where F exchanges each pair 2j, 2j + 1 for which c[2j] is odd.
fn settle(pi: &mut [u16], c: &[u16])
    requires pi_in_bounds { (length pi.old ≤ length c.now) × (length pi.old ≤ 65536) }
    requires by_index { (x : ℕ) → x < length pi.old → at pi.old x < length pi.old }
    ensures { Tab (length pi.old) pi.new (λ x. pairs (λ j. at c.now (2 * j) % 2) (at pi.old x)) }
{
    let mut x = 0;
    while x < pi.len() {
        let y = wide(pi[x]);
        let f = wide(c[2 * (y / 2)]) % 2;
        pi[x] = flip(y, f) as u16;
        x += 1;
    }
}

// The even and the odd half of the middle, one after the other, from F after pi.
fn halves(h: usize, pi: &[u16], out: &mut [u16])
    requires { (length pi.now ≡ 2 * h) × (2 * h ≤ length out.old) × (2 * h ≤ 65536) }
    ensures tab { Tab h out.new (λ j. at pi.now (turn (at pi.now (2 * j) % 2) (2 * j)) / 2) }
    ensures by_index { (j : ℕ) → j < h → at out.new (h + j) ≡ at pi.now (turn (at pi.now (2 * j) % 2) (2 * j + 1)) / 2 }
{
    let mut j = 0;
    while j < h {
        let l = wide(pi[2 * j]) % 2;
        let a = flip(2 * j, l);
        out[j] = pi[a] / 2;
        let b = flip(2 * j + 1, l);
        out[h + j] = pi[b] / 2;
        j += 1;
    }
}

// Layer l of the bits, h switches: the lowest bits of s[0], s[2], .. Bit i stands at off + step * i.
pub fn put(s: &[u16], h: usize, b: &mut [u8], off: usize, step: usize, l: usize)
    requires h_in_bounds { 2 * h ≤ length s.now }
    requires by_index { (j : ℕ) → j < h → off + step * (l * h + j) < 8 * length b.old }
    requires step_nonzero { (0 < step) × (length b.old ≤ 4294967296) }
    ensures { Layer off step h l (λ j. at s.now (2 * j) % 2) b.old b.new }
{
    let mut j = 0;
    while j < h {
        let i = off + step * (l * h + j);
        bits::set_bit(b, i, (s[2 * j] % 2) as u8);
        j += 1;
    }
}

// One step: the outer layers' bits, and the halves of the middle for pi.
pub fn outer(
    k: usize,
    pi: &mut [u16],
    inv: &mut [u16],
    p: &mut [u16],
    c: &mut [u16],
    p2: &mut [u16],
    c2: &mut [u16],
    b: &mut [u8],
    off: usize,
    step: usize,
)
    requires level { Level k pi.old }
    requires work { Work (2 ^ k) inv.old p.old c.old p2.old c2.old }
    requires fits { Fits (k - 1) off step b.old }
    requires step_nonzero { (0 < step) × (length b.old ≤ 4294967296) }
    ensures outer { Outer k off step pi.old b.old b.new }
    ensures halved { Halved (2 ^ k) (2 ^ (k - 1)) pi.old pi.new }
{
    let n = pi.len();
    let h = n / 2;
    cycles(k, pi, inv, p, c, p2, c2);
    put(c, h, b, off, step, 0);
    settle(pi, c);
    put(pi, h, b, off, step, 2 * (k - 1));
    halves(h, pi, p);
    copy(n, pi, p);
}
