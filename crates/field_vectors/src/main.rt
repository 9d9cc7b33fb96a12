// Runs the vectors of data/field.txt through the field's public calls and counts agreements and differences.
// A line is `mul m a b PRODUCT`, `inv m a INVERSE`, or the same with `refused NUMBER`; `#` starts a comment. Inverses of 0 are refused.
#![tactic(auto)]

use anyhow::Result;
use field::Answer;
use vectors::input::read_file;

// The bytes of field.txt at most.
const TEXT: usize = 65536;

// What has been read of a line: the call's first letter, the numbers, and whether the last is a refusal's.
#[derive(Drop)]
struct Line {
    call: u8,
    numbers: [u32; 8],
    count: usize,
    refused: bool,
    inside: bool,
    comment: bool,
}

fn empty() -> Line {
    Line {
        call: 0,
        numbers: [0; 8],
        count: 0,
        refused: false,
        inside: false,
        comment: false,
    }
}

// The digit d behind those of number i.
fn put(mut l: Line, i: usize, d: u32) -> Line {
    let at = i % 8;
    l.numbers[at] = (l.numbers[at] % 100000000) * 10 + d % 10;
    l.count = at;
    l.inside = true;
    l
}

// One digit more: of the number that is being read, or the first of the next.
fn digit(l: Line, d: u32) -> Line {
    let at = l.count;
    if l.inside {
        return put(l, at, d);
    }
    put(l, at % 8 + 1, d)
}

// One byte more of the line.
fn advance(mut l: Line, b: u8) -> Line {
    if b == b'#' {
        l.comment = true;
    }
    if l.comment {
        return l;
    }
    if b'0' <= b && b <= b'9' {
        return digit(l, (b - b'0') as u32);
    }
    l.inside = false;
    if l.call == 0 && b != b' ' {
        l.call = b;
    }
    if b == b'r' {
        l.refused = true;
    }
    l
}

// The answer is what the line says.
fn agrees(a: Answer, refused: bool, number: u32) -> bool {
    match a {
        Answer::Value(v) => !refused && v as u32 == number,
        Answer::Refused(n) => refused && n as u32 == number,
    }
}

fn holds(l: Line) -> bool {
    if 255 < l.numbers[1] {
        return false;
    }
    let m = (l.numbers[1] % 256) as u8;
    if l.call == b'm' {
        return l.count == 4
            && agrees(
                field_calls::multiply(m, l.numbers[2], l.numbers[3]),
                l.refused,
                l.numbers[4],
            );
    }
    l.call == b'i'
        && l.count == 3
        && agrees(
            field_calls::invert(m, l.numbers[2]),
            l.refused,
            l.numbers[3],
        )
}

// The lines so far, and the one that is being read.
#[derive(Drop)]
struct Tally {
    agree: u64,
    differ: u64,
    line: Line,
}

// One byte more. A newline ends a line, which counts unless it is empty.
fn step(r: Tally, b: u8) -> Tally {
    let line = r.line;
    if b != b'\n' {
        return Tally {
            agree: r.agree,
            differ: r.differ,
            line: advance(line, b),
        };
    }
    if line.call == 0 {
        return Tally {
            agree: r.agree,
            differ: r.differ,
            line: empty(),
        };
    }
    if holds(line) {
        return Tally {
            agree: r.agree % 1000000 + 1,
            differ: r.differ,
            line: empty(),
        };
    }
    Tally {
        agree: r.agree,
        differ: r.differ % 1000000 + 1,
        line: empty(),
    }
}

fn tally_of(text: &[u8]) -> Tally {
    let mut r = Tally {
        agree: 0,
        differ: 0,
        line: empty(),
    };
    let mut i = 0;
    while i < text.len() {
        r = step(r, text[i]);
        i += 1;
    }
    r
}

fn main(rt: HostRuntime) -> Result<()> {
    let mut text = [0u8; TEXT];
    let n = read_file(&rt, "field.txt", &mut text)?;
    let r = tally_of(&text[..n]);
    println!(rt; "{} agreements", r.agree)?;
    println!(rt; "{} differences", r.differ)?;
    Ok(())
}
