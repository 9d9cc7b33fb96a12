// Runs the cases of data/ through opener::report. Case NN is the key file NN.key, none where it is missing, the
// input NN.inp, of which the program reads 65,536 bytes, and the text NN.txt.
#![tactic(auto)]

ghost use Rattle.std.specs.Prelude.{◌≡◌, length};
ghost use Rattle.std.specs.Io.{ReadsAtMost};

use std::rt::Files;
use std::{fs, io};
use vectors::input::read_full;

// The last case; the cases have even numbers.
const LAST: u8 = 30;

// The bytes of a key file and of an input that are read at most.
const KEY: usize = 4096;

const INPUT: usize = 65536;

// The bytes of a case's file with this ending.
fn read(
    rt: &(impl Files + AllocGlobal),
    case: u8,
    ending: &str,
    bytes: &mut [u8],
) -> io::Result<usize>
    ensures bound { ReadsAtMost result bytes.new }
    ensures kept { length bytes.new ≡ length bytes.old }
{
    let name = format!(in rt.alloc(); "{case:02}.{ending}")?;
    let Ok(mut file) = fs::open(rt, name.as_str()) else {
        return Ok(0);
    };
    read_full(&mut file, bytes)
}

// The buffer starts with the text.
fn starts(buffer: &[u8], text: &[u8]) -> bool {
    if buffer.len() < text.len() {
        return false;
    }
    let mut i = 0;
    while i < text.len() {
        if buffer[i] != text[i] {
            return false;
        }
        i += 1;
    }
    true
}

// The report is the case's text.
fn agrees(rt: &(impl Files + AllocGlobal), case: u8) -> io::Result<bool> {
    let mut file = [0u8; KEY];
    let f = read(rt, case, "key", &mut file)?;
    let mut input = [0u8; INPUT];
    let i = read(rt, case, "inp", &mut input)?;
    let mut text = opener::longest();
    let t = read(rt, case, "txt", &mut text)?;
    let mut out = opener::longest();
    let n = opener::report(&file[..f], &input[..i], &mut out);
    Ok(n == t && starts(&out, &text[..t]))
}

// Says whether a case agrees, and gives 1 where it does not.
fn said(rt: &(impl Files + Print + AllocGlobal), case: u8) -> io::Result<u64> {
    print!(rt; "{case}")?;
    if agrees(rt, case)? {
        println!(rt; ": agrees")?;
        return Ok(0);
    }
    println!(rt; ": differs")?;
    Ok(1)
}

fn main(rt: HostRuntime) -> io::Result<()> {
    let mut differences: u64 = 0;
    let mut case: u8 = 0;
    while case <= LAST {
        differences += said(&rt, case)? % 2;
        case += 2;
    }
    println!(rt; "{differences} differences")
}
