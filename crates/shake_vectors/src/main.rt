// Runs data/shake.txt and data/more.txt through SHAKE256 and counts agreements and differences. A line is `INPUT LENGTH
// OUTPUT`, bytes in hexadecimal, `-` where there are none. more.txt has inputs and lengths about those of whole blocks, drawn
// at random, with the outputs of hashlib's shake_256.
#![tactic(auto)]

ghost use Rattle.io.specs.Counts.{IsPrefixLen};

use anyhow::Result;
use std::io;
use std::rt::Files;
use vectors::input::read_file;
use vectors::line::{FILLER, digit, end, letter, number_of, size, start};
use vectors::tally::{Tally, agreements, counted, differences};

// The bytes of a file, of an input and of an output at most.
const TEXT: usize = 200000;

const INPUT: usize = 8192;

const OUTPUT: usize = 1024;

// The files whose lines are counted.
const SHAKE: usize = 0;

const MORE: usize = 1;

// The bytes that the text says, two digits each, from the start of out, and their number.
fn unhex(out: &mut [u8], text: &[u8]) -> usize
    ensures { IsPrefixLen result out.new }
{
    let n = size(out, text.len() / 2);
    let mut i = 0;
    while i < n {
        out[i] = 16 * digit(text[2 * i]) + digit(text[2 * i + 1]);
        i += 1;
    }
    n
}

// Those of field k.
fn field(out: &mut [u8], line: &[u8], k: u8) -> usize
    ensures { IsPrefixLen result out.new }
{
    let at = start(line, k);
    let rest = &line[at..];
    let width = if letter(rest, 0) == b'-' {
        0
    } else {
        start(rest, 1)
    };
    let n = size(rest, width);
    unhex(out, &rest[..n])
}

fn same(a: &[u8; 1024], b: &[u8; 1024]) -> bool {
    let mut i = 0;
    while i < OUTPUT {
        if a[i] != b[i] {
            return false;
        }
        i += 1;
    }
    true
}

// SHAKE256 gives what the line says, and writes nothing past it.
fn agrees(line: &[u8]) -> bool {
    let mut input = [0u8; INPUT];
    let n = field(&mut input, line, 0);
    let mut wanted = [FILLER; OUTPUT];
    let d = field(&mut wanted, line, 2);
    if number_of(line, 1) as usize != d {
        return false;
    }
    let mut out = [FILLER; OUTPUT];
    let w = size(&out, d);
    shake::shake256(&input[..n], &mut out[..w]);
    same(&out, &wanted)
}

// The lines of a text, counted as of one kind.
fn tally_of(t: Tally, text: &[u8], kind: usize) -> Tally {
    let mut r = t;
    let mut i = 0;
    while i < text.len() {
        let rest = &text[i..];
        let e = end(rest);
        r = counted(r, kind, agrees(&rest[..e]));
        i += e + 1;
    }
    r
}

// Those of the file with that name.
fn file(rt: &impl Files, t: Tally, name: &str, kind: usize) -> Result<Tally> {
    let mut text = [0u8; TEXT];
    let n = read_file(rt, name, &mut text)?;
    Ok(tally_of(t, &text[..n], kind))
}

// Writes the kind's numbers behind its name.
fn print(rt: &impl Print, t: Tally, kind: usize, name: &str) -> io::Result<()> {
    let agree = agreements(t, kind);
    let differ = differences(t, kind);
    println!(rt; "{name}{agree} agreements, {differ} differences")
}

fn main(rt: HostRuntime) -> Result<()> {
    let r = file(&rt, vectors::tally::none(), "shake.txt", SHAKE)?;
    let t = file(&rt, r, "more.txt", MORE)?;
    print(&rt, t, SHAKE, "shake.txt: ")?;
    print(&rt, t, MORE, "more.txt: ")?;
    Ok(())
}
