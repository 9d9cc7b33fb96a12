// Runs data/network.txt and the standard's five keys through the shape of network files and both conversions, and counts agreements
// and differences. A line is `old2new OLD NEW`, `new2old NEW ok OLD` or `new2old NEW refused NUMBER`, with bytes in hexadecimal.
#![tactic(auto)]

use anyhow::Result;
use converting::Converted;
use std::io;
use std::rt::Files;
use vectors::input;
use vectors::line::{FILLER, bytes_of, end, letter, refused, size};
use vectors::tally::{Tally, agreements, counted, differences};

// The bytes of network.txt at most, and those of a key file.
const TEXT: usize = 100000;

const FILE: usize = 20000;

// What is counted.
const OLD_TO_NEW: usize = 0;

const NEW_TO_OLD: usize = 1;

const REFUSED: usize = 2;

const STANDARD: usize = 3;

// The number of a file's shape, 0 where it is accepted.
fn shape_number(new: &[u8]) -> u8 {
    key::shape::number(network_file::shape(new))
}

// The buffer starts with the bytes.
fn starts(buffer: &[u8], bytes: &[u8]) -> bool {
    if buffer.len() < bytes.len() {
        return false;
    }
    let mut i = 0;
    while i < bytes.len() {
        if buffer[i] != bytes[i] {
            return false;
        }
        i += 1;
    }
    true
}

// The buffer is filler from n on.
fn filler(buffer: &[u8], n: usize) -> bool {
    let mut i = n;
    while i < buffer.len() {
        if buffer[i] != FILLER {
            return false;
        }
        i += 1;
    }
    true
}

// The conversion into the buffer's first bytes: to a network, or from one.
fn convert(to: bool, file: &[u8], out: &mut [u8], room: usize) -> Converted {
    let n = size(out, room);
    if to {
        return converting::to_network(file, &mut out[..n]);
    }
    converting::from_network(file, &mut out[..n])
}

// The file is refused with x where there is so much room, and nothing is written.
fn refuses(to: bool, file: &[u8], room: usize, x: u8) -> bool {
    let mut out = [FILLER; FILE];
    let c = convert(to, file, &mut out, room);
    c.refused == x && c.length == 0 && filler(&out, 0)
}

// The file gives the other where there is so much room, and bytes beyond keep their contents.
fn gives(to: bool, file: &[u8], room: usize, other: &[u8]) -> bool {
    let mut out = [FILLER; FILE];
    let c = convert(to, file, &mut out, room);
    c.refused == 0 && c.length == other.len() && starts(&out, other) && filler(&out, other.len())
}

// The file gives the other, with more room and with just enough; with one byte less it gives 10.
fn converts(to: bool, file: &[u8], other: &[u8]) -> bool {
    if other.len() == 0 {
        return false;
    }
    gives(to, file, FILE, other)
        && gives(to, file, other.len(), other)
        && refuses(to, file, other.len() - 1, 10)
}

// The network file is accepted and gives the old one.
fn reads(new: &[u8], old: &[u8]) -> bool {
    shape_number(new) == 0 && converts(false, new, old)
}

// The network file is refused with x, also where there is no room.
fn is_refused(new: &[u8], x: u8) -> bool {
    shape_number(new) == x && refuses(false, new, FILE, x) && refuses(false, new, 0, x)
}

// The files of a line's fields; where it is asked for, the old one gives the new one too.
fn fields_convert(line: &[u8], new: u8, old: u8, to: bool) -> bool {
    let n = bytes_of(line, new);
    let o = bytes_of(line, old);
    let a = n.bytes;
    let b = o.bytes;
    let i = size(&a, n.count);
    let j = size(&b, o.count);
    reads(&a[..i], &b[..j]) && (!to || converts(true, &b[..j], &a[..i]))
}

fn field_refused(line: &[u8], x: u16) -> bool {
    let n = bytes_of(line, 1);
    let a = n.bytes;
    let i = size(&a, n.count);
    is_refused(&a[..i], (x % 256) as u8)
}

// One line more. A line of old to new is run both ways.
fn with_line(r: Tally, line: &[u8]) -> Tally {
    if letter(line, 0) == b'o' {
        return counted(r, OLD_TO_NEW, fields_convert(line, 2, 1, true));
    }
    let x = refused(line, 2);
    if x == 0 {
        return counted(r, NEW_TO_OLD, fields_convert(line, 1, 3, false));
    }
    counted(r, REFUSED, field_refused(line, x))
}

fn tally_of(text: &[u8]) -> Tally {
    let mut r = vectors::tally::none();
    let mut i = 0;
    while i < text.len() {
        let rest = &text[i..];
        let e = end(rest);
        r = with_line(r, &rest[..e]);
        i += e + 1;
    }
    r
}

// A file's first `count` bytes.
#[derive(Drop)]
struct Contents {
    bytes: [u8; 20000],
    count: usize,
}

fn read_file(rt: &impl Files, name: &str) -> Result<Contents> {
    let mut file = [0u8; FILE];
    let n = input::read_file(rt, name, &mut file)?;
    Ok(Contents {
        bytes: file,
        count: n,
    })
}

// A standard key and its network file; where it is asked for, the key gives that file.
fn with_files(rt: &impl Files, r: Tally, old: &str, new: &str, to: bool) -> Result<Tally> {
    let o = read_file(rt, old)?;
    let n = read_file(rt, new)?;
    let a = o.bytes;
    let b = n.bytes;
    let i = size(&a, o.count);
    let j = size(&b, n.count);
    let agrees = reads(&b[..j], &a[..i]) && (!to || converts(true, &a[..i], &b[..j]));
    Ok(counted(r, STANDARD, agrees))
}

// The files that converting gives, and those with the standard's own control bits.
fn with_standard(rt: &impl Files, t: Tally) -> Result<Tally> {
    let mut r = with_files(rt, t, "348864.key", "348864.network", true)?;
    r = with_files(rt, r, "460896.key", "460896.network", true)?;
    r = with_files(rt, r, "6688128.key", "6688128.network", true)?;
    r = with_files(rt, r, "6960119.key", "6960119.network", true)?;
    r = with_files(rt, r, "8192128.key", "8192128.network", true)?;
    r = with_files(rt, r, "348864.key", "348864.standard", false)?;
    r = with_files(rt, r, "460896.key", "460896.standard", false)?;
    r = with_files(rt, r, "6688128.key", "6688128.standard", false)?;
    r = with_files(rt, r, "6960119.key", "6960119.standard", false)?;
    with_files(rt, r, "8192128.key", "8192128.standard", false)
}

// Writes the kind's numbers behind its name.
fn print(rt: &impl Print, t: Tally, kind: usize, name: &str) -> io::Result<()> {
    let agree = agreements(t, kind);
    let differ = differences(t, kind);
    println!(rt; "{name}{agree} agreements, {differ} differences")
}

fn main(rt: HostRuntime) -> Result<()> {
    let mut text = [0u8; TEXT];
    let n = input::read_file(&rt, "network.txt", &mut text)?;
    let r = with_standard(&rt, tally_of(&text[..n]))?;
    print(&rt, r, OLD_TO_NEW, "old to new: ")?;
    print(&rt, r, NEW_TO_OLD, "new to old: ")?;
    print(&rt, r, REFUSED, "refused: ")?;
    print(&rt, r, STANDARD, "standard keys: ")?;
    Ok(())
}
