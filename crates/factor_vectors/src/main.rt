// Runs data/irreducible.txt through the test for a proper factor and counts agreements and differences.
// A line is `m t : g_0 .. g_(t-1) : 1` where g is irreducible, and has 0 for 1 where g has a proper factor.
#![tactic(auto)]

use anyhow::Result;
use std::io;
use vectors::input::read_file;
use vectors::line::{end, number_of};
use vectors::tally::{Tally, agreements, counted, differences};

// The bytes of irreducible.txt at most, and the coefficients of a line.
const TEXT: usize = 20000;

const MOST: usize = 128;

// What is counted, by what a line says.
const IRREDUCIBLE: usize = 0;

const FACTOR: usize = 1;

// The coefficients of a line, with 0 or the fields behind them past t.
fn coefficients(line: &[u8]) -> [u16; 128] {
    let mut g = [0u16; MOST];
    let mut i = 0;
    while i < MOST {
        g[i] = number_of(line, (i % 128) as u8 + 3);
        i += 1;
    }
    g
}

// Whether the line says that g, of degree t, has a proper factor.
fn says(line: &[u8], t: u16) -> bool {
    number_of(line, (t % 200) as u8 + 4) == 0
}

// The test of the first t coefficients answers so.
fn gives(m: u8, g: &[u16], t: usize, factor: bool) -> bool {
    if g.len() < t {
        return false;
    }
    if irreducible::has_factor(m, &g[..t]) {
        return factor;
    }
    !factor
}

// The tally with a line more.
fn told(r: Tally, line: &[u8]) -> Tally {
    let m = number_of(line, 0);
    let t = number_of(line, 1);
    let factor = says(line, t);
    let g = coefficients(line);
    let agrees = m < 256 && gives((m % 256) as u8, &g, t as usize, factor);
    if factor {
        return counted(r, FACTOR, agrees);
    }
    counted(r, IRREDUCIBLE, agrees)
}

fn tally_of(text: &[u8]) -> Tally {
    let mut r = vectors::tally::none();
    let mut i = 0;
    while i < text.len() {
        let rest = &text[i..];
        let e = end(rest);
        r = told(r, &rest[..e]);
        i += e + 1;
    }
    r
}

// Writes the kind's numbers behind its name.
fn print(rt: &impl Print, t: Tally, kind: usize, name: &str) -> io::Result<()> {
    let agree = agreements(t, kind);
    let differ = differences(t, kind);
    println!(rt; "{name}{agree} agreements, {differ} differences")
}

fn main(rt: HostRuntime) -> Result<()> {
    let mut text = [0u8; TEXT];
    let n = read_file(&rt, "irreducible.txt", &mut text)?;
    let r = tally_of(&text[..n]);
    print(&rt, r, IRREDUCIBLE, "irreducible: ")?;
    print(&rt, r, FACTOR, "with a proper factor: ")?;
    Ok(())
}
