// Runs data/keyfiles.txt and the five standard keys through load and counts agreements and differences.
// A line is `NUMBER FILE`: load's number, 0 where it accepts, and the file in hexadecimal, `-` where it is empty.
#![tactic(auto)]

ghost use Rattle.std.specs.Prelude.{◌+◌, ◌*◌, ◌≤◌, ◌<◌, length};

use anyhow::Result;
use key::shape::{ShapeAnswer, shape};
use station::Station;
use std::io;
use std::rt::Files;
use vectors::input::read_file;
use vectors::line::{digit, end};
use vectors::tally::{Tally, agreements, counted, differences};

// The bytes of keyfiles.txt at most, and those of a key file.
const TEXT: usize = 100000;

const FILE: usize = 20000;

// What is counted.
const LINE: usize = 0;

const STANDARD: usize = 1;

// The first n bytes of out become those that the line's digits from 2 on say.
fn unhex(out: &mut [u8], line: &[u8], n: usize)
    requires { (n ≤ length out.old) × (2 * n + 2 ≤ length line.now) × (n < 100000) }
{
    let mut i = 0;
    while i < n {
        out[i] = 16 * digit(line[2 * i + 2]) + digit(line[2 * i + 3]);
        i += 1;
    }
}

// Load's number for a recipient.
fn number(name: u8, file: &[u8]) -> u8 {
    let r = Station::fresh().load(name, file);
    r.refused
}

// Load gives the file's first n bytes that number, for both recipients.
fn gives(file: &[u8], n: usize, wanted: u8) -> bool {
    if file.len() < n {
        return false;
    }
    let part = &file[..n];
    number(Station::A, part) == wanted && number(Station::B, part) == wanted
}

// Load answers what the line says.
fn agrees(line: &[u8]) -> bool {
    let e = line.len();
    if e < 3 {
        return false;
    }
    if FILE < e {
        return false;
    }
    let n = (e - 2) / 2;
    let mut file = [0u8; FILE];
    unhex(&mut file, line, n);
    gives(&file, n, digit(line[0]))
}

fn tally_of(text: &[u8]) -> Tally {
    let mut r = vectors::tally::none();
    let mut i = 0;
    while i < text.len() {
        let rest = &text[i..];
        let e = end(rest);
        r = counted(r, LINE, agrees(&rest[..e]));
        i += e + 1;
    }
    r
}

// Load accepts the key and it has the shape at the position.
fn has_shape(file: &[u8], position: u8) -> bool {
    let r = Station::fresh().load(Station::A, file);
    let held = r.station;
    let k = held.a.key;
    match shape(position) {
        ShapeAnswer::Sizes(s) => r.refused == 0 && k.m == s.m && k.n == s.n && k.t == s.t,
        ShapeAnswer::Refused(x) => false,
    }
}

// The same of the file with that name.
fn standard(rt: &impl Files, name: &str, position: u8) -> Result<bool> {
    let mut file = [0u8; FILE];
    let n = read_file(rt, name, &mut file)?;
    Ok(has_shape(&file[..n], position))
}

// Writes the kind's numbers behind its name.
fn print(rt: &impl Print, t: Tally, kind: usize, name: &str) -> io::Result<()> {
    let agree = agreements(t, kind);
    let differ = differences(t, kind);
    println!(rt; "{name}{agree} agreements, {differ} differences")
}

fn main(rt: HostRuntime) -> Result<()> {
    let mut text = [0u8; TEXT];
    let n = read_file(&rt, "keyfiles.txt", &mut text)?;
    let mut r = tally_of(&text[..n]);
    r = counted(r, STANDARD, standard(&rt, "mceliece348864.key", 1)?);
    r = counted(r, STANDARD, standard(&rt, "mceliece460896.key", 2)?);
    r = counted(r, STANDARD, standard(&rt, "mceliece6688128.key", 3)?);
    r = counted(r, STANDARD, standard(&rt, "mceliece6960119.key", 4)?);
    r = counted(r, STANDARD, standard(&rt, "mceliece8192128.key", 5)?);
    print(&rt, r, LINE, "key files: ")?;
    print(&rt, r, STANDARD, "standard keys: ")?;
    Ok(())
}
