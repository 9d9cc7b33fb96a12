// Opens capsules (document 01, 'Bench keys'): reads key.bin of the working folder and publishes; then, if the key is accepted,
// reads capsules from standard input and writes a line for each, and the total.
#![tactic(auto)]

ghost use Rattle.std.specs.Prelude.{◌≡◌, length};
ghost use Rattle.std.specs.Io.{ReadsAtMost};

use opener::KeyAnswer;
use std::rt::Files;
use std::{fs, io};
use vectors::input::read_full;

// The bytes of key.bin and of standard input that are read at most.
const KEY: usize = 4096;

const INPUT: usize = 65536;

// The first bytes of key.bin; none where there is no such file.
fn read_key(rt: &impl Files, file: &mut [u8]) -> io::Result<usize>
    ensures bound { ReadsAtMost result file.new }
    ensures kept { length file.new ≡ length file.old }
{
    let Ok(mut key) = fs::open(rt, "key.bin") else {
        return Ok(0);
    };
    read_full(&mut key, file)
}

fn main(rt: HostRuntime) -> io::Result<()> {
    let mut file = [0u8; KEY];
    let f = read_key(&rt, &mut file)?;
    let ready = opener::prepare(&file[..f]);
    let mut out = opener::longest();
    let answer = ready.answer;
    let KeyAnswer::Accepted = answer else {
        let n = opener::key_text(answer, &mut out);
        return rt.write_all(&out[..n]);
    };
    let mut input = [0u8; INPUT];
    let i = read_full(&mut rt.reader(), &mut input)?;
    let n = opener::open_lines(ready.station, &input[..i], &mut out);
    rt.write_all(&out[..n])
}
