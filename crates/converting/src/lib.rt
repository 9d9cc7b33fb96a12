// Key files converted (document 02, L7).
#![tactic(auto)]

ghost use Rattle.std.specs.Prelude.{◌≡◌, length, ◌+◌, ◌*◌, ◌≤◌};
ghost use Rattle.std.proofs.lemmas.List.Edits.{sets};
ghost use Rattle.key.specs.Keys.{file_of};
ghost use Rattle.key.specs.Kept.{parts, kept};
ghost use Rattle.network_key.specs.Converting.{into_network, out_of_network, convert_output};
ghost use Rattle.converting.specs.Answers.{converted_of};

use key::kept::Key;
use key::shape::{ShapeAnswer, Sizes};
use network_writing::{network_length, put_network};

// The number of a refusal, 0 where the file is converted; and how many bytes are written.
#[repr(C)]
#[derive(Drop)]
pub struct Converted {
    pub refused: u8,
    pub length: usize,
}

// The file of a kept key, by its parts, from the output's start.
fn put<'a>(
    out: &mut [u8],
    s: Sizes,
    support: &'a [u16; Key::MOST_PLACES],
    g: &'a [u16; Key::MOST_ERRORS],
)
    requires { (5 + 2 * s.n + 2 * s.t ≤ length out.old) × (s.n ≤ 8192) × (s.t ≤ 128) }
    ensures { out.new ≡ sets out.old 0 (file_of (kept (parts s.m s.n s.t support.now g.now))) }
{
    let places = &support[..];
    let elements = &g[..];
    let n = s.n as usize;
    let t = s.t as usize;
    key_write::put_key(out, s.m, &places[..n], &elements[..t]);
}

// The first form of a network file, written from the output's start; nothing on refusal, with 1, 2, 36, 3, 4, 5, 6, 7 or 10.
pub fn from_network(file: &[u8], out: &mut [u8]) -> Converted
    ensures answer { result ≡ converted_of out_of_network file.now (length out.old) }
    ensures output { out.new ≡ convert_output out_of_network file.now out.old }
{
    let mut support = [0u16; Key::MOST_PLACES];
    let mut g = [0u16; Key::MOST_ERRORS];
    let a = network_file::read_key(file, &mut support, &mut g);
    let ShapeAnswer::Sizes(s) = a else {
        return Converted {
            refused: key::shape::number(a),
            length: 0,
        };
    };
    let length = 5 + 2 * (s.n as usize) + 2 * (s.t as usize);
    if out.len() < length {
        return Converted {
            refused: 10,
            length: 0,
        };
    }
    put(out, s, &support, &g);
    Converted { refused: 0, length }
}

// The network file of a key file, written from the output's start; nothing on refusal, with 1, 2, 3, 4, 5, 6, 7 or 10.
pub fn to_network(file: &[u8], out: &mut [u8]) -> Converted
    ensures answer { result ≡ converted_of into_network file.now (length out.old) }
    ensures output { out.new ≡ convert_output into_network file.now out.old }
{
    let a = key_file::shape(file);
    let ShapeAnswer::Sizes(s) = a else {
        return Converted {
            refused: key::shape::number(a),
            length: 0,
        };
    };
    let length = network_length(s.m, s.t);
    if out.len() < length {
        return Converted {
            refused: 10,
            length: 0,
        };
    }
    put_network(out, file, s);
    Converted { refused: 0, length }
}
