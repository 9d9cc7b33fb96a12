// A permutation from its first values (document 02, L7).
#![tactic(auto)]

ghost use Rattle.std.specs.Prelude.{◌≡◌, ◌++◌, map, length, take, drop, replicate, ◌^◌, ◌≤◌, ◌<◌};
ghost use Rattle.key.specs.Keys.{parse};
ghost use Rattle.key.specs.declared.shape.ShapeAnswer.TheVariants as answers;
ghost use Rattle.key_file.specs.Files.{file_shape};
ghost use Rattle.network.specs.Network.{unused};
ghost use Rattle.network.specs.Tables.{Each};
ghost use Rattle.network_key.specs.Files.{reversed, permutation};
ghost use Rattle.completion.specs.Marks.{marked};

use bits::{bit_at, set_bit};
use key::shape::Sizes;
use key_file::write_support;
use network_file::reverse_each;

// Bit x is 1 for each number x of the list.
fn marks(s: &[u16]) -> [u8; 1024]
    ensures { result ≡ marked s.now (replicate 1024 0) }
{
    let mut row = [0u8; 1024];
    let mut i = 0;
    while i < s.len() {
        set_bit(&mut row, s[i] as usize, 1);
        i += 1;
    }
    row
}

// The first n values, different numbers below 2^m, are followed by the other numbers below 2^m, in rising order.
pub fn complete(m: usize, n: usize, values: &mut [u16; 8192])
    requires { (m < 14) × (n ≤ 2 ^ m) × Each (2 ^ m) (take n values.old ++ unused (take n values.old) (2 ^ m)) }
    ensures { take (2 ^ m) values.new ≡ take n values.old ++ unused (take n values.old) (2 ^ m) }
{
    let first = &values[..];
    let row = marks(&first[..n]);
    let top = 1usize << m;
    let mut at = n;
    let mut v: usize = 0;
    while at < top {
        values[at] = v as u16;
        at += 1 - bit_at(&row, v) as usize;
        v += 1;
    }
}

// The first n values with their m lowest digits in reverse order.
fn reverse_first(m: u8, n: usize, values: &mut [u16])
    requires { (m < 14) × (n ≤ length values.old) }
    ensures { values.new ≡ map (reversed m) (take n values.old) ++ drop n values.old }
{
    reverse_each(m, &mut values[..n]);
}

// The network's values for the support of a file's key of shape s, and the unused ones behind them.
pub fn write_permutation(file: &[u8], s: Sizes, values: &mut [u16; 8192])
    requires { file_shape file.now ≡ answers.Sizes s }
    ensures { take (2 ^ s.m) values.new ≡ permutation (parse file.now) }
{
    let m = s.m as usize;
    let n = s.n as usize;
    write_support(file, s.n, values);
    reverse_first(s.m, n, &mut values[..]);
    complete(m, n, values);
}
