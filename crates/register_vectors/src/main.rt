// Runs the vectors of data/registers.txt through the register's public call and counts agreements and differences.
// A line is `m N : s_0 .. : LENGTH : c_0 .. c_LENGTH` or `m N : s_0 .. : refused NUMBER`; `#` starts a comment.
#![tactic(auto)]

ghost use Rattle.std.specs.Prelude.{◌<◌};

use anyhow::Result;
use register::Registered;
use vectors::input::read_file;

// The bytes of the largest file, and the numbers of the longest line.
const BYTES: usize = 400000;

const NUMBERS: usize = 600;

// What has been read of a line: its numbers, how many, and whether the last is a refusal's.
#[derive(Drop)]
struct Line {
    numbers: [u16; 600],
    count: usize,
    refused: bool,
    inside: bool,
    comment: bool,
}

fn empty() -> Line {
    Line {
        numbers: [0; NUMBERS],
        count: 0,
        refused: false,
        inside: false,
        comment: false,
    }
}

// The digit d behind those of number i.
fn put(mut l: Line, i: usize, d: u8) -> Line {
    let at = i % NUMBERS;
    l.numbers[at] = (l.numbers[at] % 6000) * 10 + (d % 10) as u16;
    l.count = at + 1;
    l.inside = true;
    l
}

// One digit more: of the number that is being read, or the first of the next.
fn digit(l: Line, d: u8) -> Line {
    let n = l.count;
    if l.inside && 0 < n {
        return put(l, n - 1, d);
    }
    put(l, n, d)
}

// One byte more of the line.
fn advance(mut l: Line, b: u8) -> Line {
    if b == b'#' {
        l.comment = true;
    }
    if l.comment {
        return l;
    }
    if b'0' <= b && b <= b'9' {
        return digit(l, b - b'0');
    }
    l.inside = false;
    if b == b'r' {
        l.refused = true;
    }
    l
}

// The coefficients are the given ones, with 0 behind them.
fn same(c: [u16; 257], given: &[u16]) -> bool {
    let mut i = 0;
    while i < Registered::COEFFICIENTS {
        let x = if i < given.len() { given[i] } else { 0 };
        if c[i] != x {
            return false;
        }
        i += 1;
    }
    true
}

// A number as a usize.
fn wide(x: u16) -> usize
    ensures { result < 65536 }
{
    x as usize
}

// The register is what a line's numbers say: the width, the list's length, the list, and then the register's length or
// the refusal's number, and the coefficients.
fn told(s: &[u16], refused: bool) -> bool {
    if s.len() < 3 {
        return false;
    }
    let e = wide(s[1]) + 2;
    if s.len() <= e || 255 < s[0] {
        return false;
    }
    let r = Registered::of((s[0] % 256) as u8, &s[2..e]);
    let c = r.c;
    if !same(c, &s[e + 1..]) {
        return false;
    }
    let last = wide(s[e]);
    if refused {
        return r.refused as usize == last && r.length == 0 && s.len() == e + 1;
    }
    r.refused == 0 && r.length == last && s.len() - e == last + 2
}

// The same of the first count numbers.
fn told_first(s: &[u16], count: usize, refused: bool) -> bool {
    if s.len() < count {
        return false;
    }
    told(&s[..count], refused)
}

fn holds(l: Line) -> bool {
    let numbers = l.numbers;
    told_first(&numbers, l.count, l.refused)
}

// The lines so far, and the one that is being read.
#[derive(Drop)]
struct Tally {
    agree: u64,
    differ: u64,
    line: Line,
}

// One byte more. A newline ends a line, which counts unless it is empty.
fn step(r: Tally, b: u8) -> Tally {
    let line = r.line;
    if b != b'\n' {
        return Tally {
            agree: r.agree,
            differ: r.differ,
            line: advance(line, b),
        };
    }
    if line.count == 0 {
        return Tally {
            agree: r.agree,
            differ: r.differ,
            line: empty(),
        };
    }
    if holds(line) {
        return Tally {
            agree: r.agree % 1000000 + 1,
            differ: r.differ,
            line: empty(),
        };
    }
    Tally {
        agree: r.agree,
        differ: r.differ % 1000000 + 1,
        line: empty(),
    }
}

fn tally_of(text: &[u8]) -> Tally {
    let mut r = Tally {
        agree: 0,
        differ: 0,
        line: empty(),
    };
    let mut i = 0;
    while i < text.len() {
        r = step(r, text[i]);
        i += 1;
    }
    r
}

fn main(rt: HostRuntime) -> Result<()> {
    let mut text = [0u8; BYTES];
    let n = read_file(&rt, "registers.txt", &mut text)?;
    let r = tally_of(&text[..n]);
    println!(rt; "{} agreements", r.agree)?;
    println!(rt; "{} differences", r.differ)?;
    Ok(())
}
