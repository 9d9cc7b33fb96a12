// Key files (document 01, 'Keys').
#![tactic(auto)]

ghost use Rattle.std.specs.Prelude.{◌≡◌, ◌++◌, length, take, drop, get_or, ◌+◌, ◌*◌, ◌^◌, ◌≤◌, ◌<◌};
ghost use Rattle.field.specs.Numbers.{first_of};
ghost use Rattle.field.specs.Verdicts.{verdict_of};
ghost use Rattle.key.specs.Keys.{pair as pair_of, elements, parse, file_conditions};
ghost use Rattle.key.specs.Kept.{sizes_of};
ghost use Rattle.key_file.specs.Files.{file_shape, stored};

use bits::smaller;
use field::Verdict;
use key::checks::check;
use key::kept::Key;
use key::shape::{ShapeAnswer, Sizes, in_limits};

// The byte at i, and 0 past the end.
pub fn byte(file: &[u8], i: usize) -> u8
    ensures { result ≡ get_or file.now i 0 }
{
    if i < file.len() { file[i] } else { 0 }
}

// Two bytes at i, the low one first.
pub fn pair(file: &[u8], i: usize) -> u16
    ensures { result ≡ pair_of file.now i }
{
    if file.len() <= i {
        return 0;
    }
    byte(file, i) as u16 + 256 * (byte(file, i + 1) as u16)
}

// The shape that the file says.
fn sizes(file: &[u8]) -> Sizes
    ensures { result ≡ sizes_of (parse file.now) }
{
    let n = pair(file, 1);
    Sizes {
        m: byte(file, 0),
        n,
        t: pair(file, 3 + 2 * (n as usize)),
    }
}

// Whether the shape and the length are right: 1, 2 or 3 on refusal.
fn header(file: &[u8]) -> Verdict
    ensures { result ≡ verdict_of (first_of (take 3 (file_conditions file.now))) }
{
    let s = sizes(file);
    let m = s.m;
    let n = s.n;
    let t = s.t;
    if field::modulus(m) == 0 {
        return Verdict::Refused(1);
    }
    if file.len() != 5 + 2 * (n as usize) + 2 * (t as usize) {
        return Verdict::Refused(2);
    }
    if !in_limits(m, n, t) {
        return Verdict::Refused(3);
    }
    Verdict::Accepted
}

// The first n numbers of out become the elements of two bytes from `at` on.
fn fill(out: &mut [u16], file: &[u8], at: usize, n: usize)
    requires { (n ≤ length out.old) × (at + 2 * n < 2 ^ 32) }
    ensures { out.new ≡ elements file.now at n ++ drop n out.old }
{
    let mut i = 0;
    while i < n {
        out[i] = pair(file, at + 2 * i);
        i += 1;
    }
}

// The array of n places: a file's elements from byte 3 on, as many as there is room for, and zeros past them.
pub fn write_support(file: &[u8], n: u16, support: &mut [u16; Key::MOST_PLACES])
    ensures { support.new ≡ stored 8192 file.now 3 n }
{
    *support = [0; Key::MOST_PLACES];
    let count = smaller(n as usize, Key::MOST_PLACES);
    fill(&mut support[..], file, 3, count);
}

// The array of g likewise, t elements behind the n places and t itself.
pub fn write_g(file: &[u8], n: u16, t: u16, g: &mut [u16; Key::MOST_ERRORS])
    ensures { g.new ≡ stored 128 file.now (5 + 2 * n) t }
{
    *g = [0; Key::MOST_ERRORS];
    let count = smaller(t as usize, Key::MOST_ERRORS);
    fill(&mut g[..], file, 5 + 2 * (n as usize), count);
}

// Whether the file is that of a key: 1, 2, 3, 4, 5, 6 or 7 on refusal.
fn check_file(file: &[u8]) -> Verdict
    ensures { result ≡ verdict_of (first_of (file_conditions file.now)) }
{
    let x = header(file);
    let Verdict::Accepted = x else {
        return x;
    };
    let mut support = [0u16; Key::MOST_PLACES];
    let mut g = [0u16; Key::MOST_ERRORS];
    let z = sizes(file);
    write_support(file, z.n, &mut support);
    write_g(file, z.n, z.t, &mut g);
    check(z.m, z.n, z.t, &support, &g)
}

// The shape of a file's key; 1, 2, 3, 4, 5, 6 or 7 on refusal.
pub fn shape(file: &[u8]) -> ShapeAnswer
    ensures { result ≡ file_shape file.now }
{
    let x = check_file(file);
    let Verdict::Accepted = x else {
        return ShapeAnswer::Refused(field::number(x));
    };
    ShapeAnswer::Sizes(sizes(file))
}
