// Network files, written (document 02, L7).
#![tactic(auto)]

ghost use Rattle.std.specs.Prelude.{◌≡◌, length, take, ◌+◌, ◌*◌, ◌^◌, ◌≤◌, ◌<◌};
ghost use mathlib.Core.List.{◌∷◌, ◌++◌, flat_map};
ghost use Rattle.std.proofs.lemmas.List.Edits.{sets};
ghost use Rattle.bits.specs.Bits.{bytes_for, pack};
ghost use Rattle.key.specs.Keys.{two_bytes};
ghost use Rattle.key.specs.declared.shape.ShapeAnswer.TheVariants as answers;
ghost use Rattle.key_file.specs.Files.{file_shape};
ghost use Rattle.network.specs.Network.{switches as switches_of, control_bits};
ghost use Rattle.network.specs.Tables.{Each};
ghost use Rattle.network_key.specs.Files.{four_bytes, to_network};

use bits::bytes_for;
use completion::write_permutation;
use control_bits::write_control_bits;
use key::kept::Key;
use key::shape::Sizes;
use key_file::write_g;
use key_write::{put_elements, put_pair};
use network_file::switches;

// A number in four bytes at `at`, low byte first.
fn put_four(out: &mut [u8], at: usize, x: usize)
    requires { (at + 4 ≤ length out.old) × (at < 2 ^ 31) × (x < 2 ^ 32) }
    ensures { out.new ≡ sets out.old at (four_bytes x) }
{
    put_pair(out, at, (x % 65536) as u16);
    put_pair(out, at + 2, (x / 65536) as u16);
}

// A network file up to its row, from the output's start.
fn put_head(out: &mut [u8], m: u8, n: u16, g: &[u16])
    requires { (9 + 2 * length g.now ≤ length out.old) × (length g.now < 65536) × (0 < m) × (m < 14) }
    ensures { out.new ≡ sets out.old 0 (m ∷ (two_bytes n ++ (two_bytes (length g.now) ++ (flat_map two_bytes g.now ++ four_bytes (switches_of m))))) }
{
    let t = g.len();
    out[0] = m;
    put_pair(out, 1, n);
    put_pair(out, 3, t as u16);
    put_elements(out, 5, g);
    put_four(out, 5 + 2 * t, switches(m as usize));
}

// The bytes of the row for 2^m values.
fn row_length(m: usize) -> usize
    requires { (0 < m) × (m < 14) }
    ensures { result ≡ bytes_for (switches_of m) }
{
    bytes_for(switches(m))
}

// The packed control bits of a permutation, from `at` on; the list of its values is overwritten.
fn put_row(out: &mut [u8], at: usize, m: usize, values: &mut [u16; 8192])
    requires le_m { (4 ≤ m) × (m < 14) }
    requires each { Each (2 ^ m) (take (2 ^ m) values.old) }
    requires m_in_bounds { at + bytes_for (switches_of m) ≤ length out.old }
    ensures { out.new ≡ sets out.old at (pack (control_bits m (take (2 ^ m) values.old))) }
{
    let end = at + row_length(m);
    write_control_bits(m, values, &mut out[at..end]);
}

// The length of a network file.
pub fn network_length(m: u8, t: u16) -> usize
    requires { (0 < m) × (m < 14) }
    ensures { result ≡ 9 + 2 * t + bytes_for (switches_of m) }
{
    9 + 2 * (t as usize) + row_length(m as usize)
}

// The network file of the key of a file whose shape is s, from the output's start.
#[inline(never)]
pub fn put_network(out: &mut [u8], file: &[u8], s: Sizes)
    requires { (file_shape file.now ≡ answers.Sizes s) × (9 + 2 * s.t + bytes_for (switches_of s.m) ≤ length out.old) }
    ensures { out.new ≡ sets out.old 0 (to_network file.now) }
{
    let t = s.t as usize;
    let mut g = [0u16; Key::MOST_ERRORS];
    write_g(file, s.n, s.t, &mut g);
    put_head(out, s.m, s.n, &g[..t]);
    let mut values = [0u16; Key::MOST_PLACES];
    write_permutation(file, s, &mut values);
    put_row(out, 9 + 2 * t, s.m as usize, &mut values);
}
