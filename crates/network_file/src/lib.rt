// Key files that store the support as a switching network (document 02, L7).
#![tactic(auto)]

ghost use Rattle.std.specs.Prelude.{◌≡◌, ◌++◌, map, length, take, drop, ◌+◌, ◌*◌, ◌^◌, ◌≤◌, ◌<◌};
ghost use Rattle.bits.specs.Bits.{padded};
ghost use Rattle.field.specs.Numbers.{first_of};
ghost use Rattle.field.specs.Verdicts.{verdict_of};
ghost use Rattle.key.specs.Kept.{sizes_of};
ghost use Rattle.network.specs.Network.{switches as switches_of};
ghost use Rattle.network_key.specs.Files.{reversed as reversed_of, support_of, four as four_of, parse_network, network_conditions};
ghost use Rattle.network_file.specs.Networks.{network_shape, Says};

use field::Verdict;
use key::checks::check;
use key::kept::Key;
use key::shape::{ShapeAnswer, Sizes, in_limits};
use key_file::{byte, pair};

// The bit count, (2m−1)·2^(m−1).
pub fn switches(m: usize) -> usize
    requires { (0 < m) × (m < 14) }
    ensures { result ≡ switches_of m }
{
    (2 * m - 1) << (m - 1)
}

// The m lowest binary digits of x, in reverse order: always 13 steps, so that the loop over places vectorises.
pub fn reversed(m: u8, x: u16) -> u16
    requires { m < 14 }
    ensures { result ≡ reversed_of m x }
{
    let mut r: u16 = 0;
    let mut y = x;
    let mut i: u8 = 0;
    while i < 13 {
        r = 2 * r + y % 2;
        y = y / 2;
        i += 1;
    }
    r >> (13 - m)
}

// The m lowest binary digits of each number, in reverse order.
pub fn reverse_each(m: u8, places: &mut [u16])
    requires { m < 14 }
    ensures { places.new ≡ map (reversed_of m) places.old }
{
    let mut i = 0;
    while i < places.len() {
        places[i] = reversed(m, places[i]);
        i += 1;
    }
}

// The support's elements as many as there are places, from the packed settings.
fn elements_of(m: u8, row: &[u8], places: &mut [u16])
    requires { (0 < m) × (m < 14) × (length places.old ≤ 8192) }
    ensures { places.new ≡ support_of m (length places.old) row.now }
{
    switching::send(m as usize - 1, row, places);
    reverse_each(m, places);
}

// The first n numbers of out become the support.
fn fill_support(out: &mut [u16], row: &[u8], m: u8, n: usize)
    requires { (n ≤ length out.old) × (n ≤ 8192) × (0 < m) × (m < 14) }
    ensures { out.new ≡ support_of m n row.now ++ drop n out.old }
{
    elements_of(m, row, &mut out[..n]);
}

// Four bytes at i, the low one first.
fn four(file: &[u8], i: usize) -> usize
    requires { i < 2 ^ 31 }
    ensures { result ≡ four_of file.now i }
{
    pair(file, i) as usize + 65536 * (pair(file, i + 2) as usize)
}

// The shape that the file says.
fn sizes(file: &[u8]) -> Sizes
    ensures { result ≡ sizes_of (parse_network file.now) }
{
    Sizes {
        m: byte(file, 0),
        n: pair(file, 1),
        t: pair(file, 3),
    }
}

// Whether length, bit count and shape are right: 1, 2, 36 or 3 on refusal.
fn header(file: &[u8]) -> Verdict
    ensures { result ≡ verdict_of (first_of (take 4 (network_conditions file.now))) }
{
    let s = sizes(file);
    let m = s.m;
    let n = s.n;
    let t = s.t;
    if field::modulus(m) == 0 {
        return Verdict::Refused(1);
    }
    let c = switches(m as usize);
    let said = four(file, 5 + 2 * (t as usize));
    let length = 9 + 2 * (t as usize) + bits::bytes_for(c);
    if file.len() != length {
        return Verdict::Refused(2);
    }
    if said != c {
        return Verdict::Refused(36);
    }
    if !in_limits(m, n, t) {
        return Verdict::Refused(3);
    }
    Verdict::Accepted
}

// The array of the support, with zeros past it, for a file whose header is right.
fn put_support(file: &[u8], s: Sizes, support: &mut [u16; Key::MOST_PLACES])
    requires { Says file.now s }
    ensures { support.new ≡ padded 8192 (parse_network file.now).support }
{
    *support = [0; Key::MOST_PLACES];
    let row = &file[9 + 2 * (s.t as usize)..];
    fill_support(&mut support[..], row, s.m, s.n as usize);
}

// The array of g likewise.
fn put_g(file: &[u8], s: Sizes, g: &mut [u16; Key::MOST_ERRORS])
    requires { Says file.now s }
    ensures { g.new ≡ padded 128 (parse_network file.now).g }
{
    key_file::write_g(file, 0, s.t, g);
}

// The array of an accepted file's support, with zeros past it.
pub fn write_support(file: &[u8], support: &mut [u16; Key::MOST_PLACES])
    ensures { first_of (network_conditions file.now) ≡ 0 → support.new ≡ padded 8192 (parse_network file.now).support }
{
    let x = header(file);
    let Verdict::Accepted = x else {
        return;
    };
    put_support(file, sizes(file), support);
}

// The array of g likewise.
pub fn write_g(file: &[u8], g: &mut [u16; Key::MOST_ERRORS])
    ensures { first_of (network_conditions file.now) ≡ 0 → g.new ≡ padded 128 (parse_network file.now).g }
{
    let x = header(file);
    let Verdict::Accepted = x else {
        return;
    };
    put_g(file, sizes(file), g);
}

// The shape of a network file's key, whose arrays are written where the file is accepted; 1, 2, 36, 3, 4, 5, 6 or 7 on refusal.
pub fn read_key<'a, 'b>(
    file: &[u8],
    support: &'a mut [u16; Key::MOST_PLACES],
    g: &'b mut [u16; Key::MOST_ERRORS],
) -> ShapeAnswer
    ensures answer { result ≡ network_shape file.now }
    ensures support { first_of (network_conditions file.now) ≡ 0 → support.new ≡ padded 8192 (parse_network file.now).support }
    ensures g { first_of (network_conditions file.now) ≡ 0 → g.new ≡ padded 128 (parse_network file.now).g }
{
    let x = header(file);
    let Verdict::Accepted = x else {
        return ShapeAnswer::Refused(field::number(x));
    };
    let z = sizes(file);
    put_support(file, z, support);
    put_g(file, z, g);
    let y = check(z.m, z.n, z.t, &*support, &*g);
    let Verdict::Accepted = y else {
        return ShapeAnswer::Refused(field::number(y));
    };
    ShapeAnswer::Sizes(z)
}

// The shape of a network file's key; 1, 2, 36, 3, 4, 5, 6 or 7 on refusal.
#[inline(never)]
pub fn shape(file: &[u8]) -> ShapeAnswer
    ensures { result ≡ network_shape file.now }
{
    let mut support = [0u16; Key::MOST_PLACES];
    let mut g = [0u16; Key::MOST_ERRORS];
    read_key(file, &mut support, &mut g)
}
