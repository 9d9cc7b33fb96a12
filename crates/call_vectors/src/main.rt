// Replays lists of calls on the station and counts agreements and differences: those of data/calls.txt as calls that name A, while B
// is empty and while B holds a published key, and those of data/named.txt, which name A, B or neither.
// `list K` starts a list. A call is `load FILE`, `publish OUTLEN WORKLEN`, `open CAPSULE OUTLEN`, `read WORD OUTLEN` or `drop`, in
// named.txt behind its name in decimal and also `report CAPSULES OUTLEN` or `session CAPSULE SECRET`, then `->` and `ok`, `ok T`,
// `ok PATTERN ONES`, `ok RECORDS`, `ok KEY` or `refused NUMBER`. `end FILE PUBLISHED` says the file of A's key and 1 where it is
// published, `- 0` that there is none; in named.txt B's follow, else B is as at the list's start. Bytes are in hexadecimal, and `-`
// is none.
#![tactic(auto)]

use anyhow::Result;
use key::kept::Key;
use slot::Slot;
use station::{Reply, Station};
use std::io;
use std::rt::Files;
use vectors::input::read_file;
use vectors::line::{
    Bytes, FILLER, bytes_of, end, holds, letter, number_of, output, refused, size, start,
};
use vectors::tally::{Tally, agreements, counted, differences};
use vectors::values::counts_hold;

// The bytes of a file at most.
const TEXT: usize = 300000;

// What is counted: every call, the calls of each kind, the ends, and the lists.
const CALL: usize = 0;

const LOAD: usize = 1;

const PUBLISH: usize = 2;

const OPEN: usize = 3;

const READ: usize = 4;

const REPORT: usize = 5;

const SESSION: usize = 6;

const DROP: usize = 7;

const END: usize = 8;

const LIST: usize = 9;

// The bytes of a session key.
const KEY_BYTES: usize = 32;

// The station after a call, and whether the call did what its line says.
#[derive(Drop)]
struct Outcome {
    station: Station,
    agrees: bool,
}

// The reply is what the line says from field k on; `buffers` says whether the buffers are, too.
fn outcome_of(r: Reply, line: &[u8], k: u8, buffers: bool) -> Outcome {
    let station = r.station;
    Outcome {
        station,
        agrees: r.refused as u16 == refused(line, k)
            && r.ones == number_of(line, k % 100 + 2)
            && buffers,
    }
}

// The count that field k says.
fn count(line: &[u8], k: u8) -> usize {
    number_of(line, k) as usize
}

fn loads(station: Station, name: u8, line: &[u8]) -> Outcome {
    let b = bytes_of(line, 1);
    let file = b.bytes;
    let n = size(&file, b.count);
    outcome_of(station.load(name, &file[..n]), line, 3, true)
}

// The slot of a name.
fn slot_of(station: Station, name: u8) -> Slot {
    if name == Station::A {
        return station.a;
    }
    station.b
}

// The bytes of the workspace that are free: m·t·ceil(n/8), once the checks before 23 have passed. The lists' keys have t at most 3
// and n at most 16.
fn free_bytes(key: Key, number: u8) -> usize {
    if number != 0 && number != 23 {
        return 0;
    }
    let m = key.m as usize;
    let rows = if key.t == 1 {
        m
    } else if key.t == 2 {
        2 * m
    } else {
        3 * m
    };
    if key.n <= 8 { rows } else { 2 * (rows % 32) }
}

// The bytes of the workspace that are not free keep their filler.
fn publishes(station: Station, name: u8, line: &[u8]) -> Outcome {
    let slot = slot_of(station, name);
    let key = slot.key;
    let mut out = [FILLER; 64];
    let mut work = [FILLER; 64];
    let n = size(&out, count(line, 1));
    let w = size(&work, count(line, 2));
    let r = station.publish(name, &mut out[..n], &mut work[..w]);
    let free = Bytes {
        bytes: work,
        count: free_bytes(key, r.refused),
    };
    outcome_of(
        r,
        line,
        4,
        holds(&work, free) && holds(&out, output(line, 4)),
    )
}

fn opens(station: Station, name: u8, line: &[u8]) -> Outcome {
    let mut out = [FILLER; 64];
    let n = size(&out, count(line, 2));
    let b = bytes_of(line, 1);
    let capsule = b.bytes;
    let l = size(&capsule, b.count);
    let r = station.open(name, &capsule[..l], &mut out[..n]);
    outcome_of(r, line, 4, holds(&out, output(line, 4)))
}

fn reads(station: Station, name: u8, line: &[u8]) -> Outcome {
    let mut out = [FILLER; 64];
    let n = size(&out, count(line, 2));
    let b = bytes_of(line, 1);
    let word = b.bytes;
    let l = size(&word, b.count);
    let r = station.read(name, &word[..l], &mut out[..n]);
    outcome_of(r, line, 4, holds(&out, output(line, 4)))
}

// The records are the line's, and the counts are those of the line's records: zeros where it says a refusal.
fn reports(station: Station, name: u8, line: &[u8]) -> Outcome {
    let mut out = [FILLER; 64];
    let n = size(&out, count(line, 2));
    let b = bytes_of(line, 1);
    let capsules = b.bytes;
    let l = size(&capsules, b.count);
    let r = station.report(name, &capsules[..l], &mut out[..n]);
    let after = r.station;
    let counts = r.counts;
    let wanted = output(line, 4);
    let records = wanted.bytes;
    let w = size(&records, wanted.count);
    Outcome {
        station: after,
        agrees: r.refused as u16 == refused(line, 4)
            && holds(&out, wanted)
            && counts_hold(&counts, &records[..w]),
    }
}

// The key is the line's, and zeros where it says a refusal.
fn derives(station: Station, name: u8, line: &[u8]) -> Outcome {
    let c = bytes_of(line, 1);
    let capsule = c.bytes;
    let n = size(&capsule, c.count);
    let s = bytes_of(line, 2);
    let secret = s.bytes;
    let l = size(&secret, s.count);
    let r = station.session(name, &capsule[..n], &secret[..l]);
    let after = r.station;
    let key = r.key;
    let wanted = output(line, 4).bytes;
    let w = size(&wanted, KEY_BYTES);
    Outcome {
        station: after,
        agrees: r.refused as u16 == refused(line, 4) && check::same(&key, &wanted[..w]),
    }
}

fn same(a: &[u16], b: &[u16]) -> bool {
    if a.len() != b.len() {
        return false;
    }
    let mut i = 0;
    while i < a.len() {
        if a[i] != b[i] {
            return false;
        }
        i += 1;
    }
    true
}

fn same_key(a: Key, b: Key) -> bool {
    a.m == b.m && a.n == b.n && a.t == b.t && same(&a.support, &b.support) && same(&a.g, &b.g)
}

// The slot is what fields k and k + 1 of the list's last line say: as at the list's start where they say none.
fn ends(slot: Slot, first: Slot, line: &[u8], k: u8) -> bool {
    let key = slot.key;
    let b = bytes_of(line, k);
    if b.count == 0 {
        return slot.state == first.state && same_key(key, first.key);
    }
    let file = b.bytes;
    let n = size(&file, b.count);
    let r = Station::fresh().load(Station::A, &file[..n]);
    let loaded = r.station;
    let held = loaded.a.key;
    r.refused == 0
        && slot.state as u16 == number_of(line, k % 100 + 1) % 100 + 1
        && same_key(key, held)
}

// The station at each list's start, the station now, and what was counted.
#[derive(Clone, Copy)]
struct Replay {
    first: Station,
    station: Station,
    tally: Tally,
}

// From a station, with nothing counted.
fn from(station: Station) -> Replay {
    Replay {
        first: station,
        station,
        tally: vectors::tally::none(),
    }
}

// After a call.
fn called(mut s: Replay, kind: usize, o: Outcome) -> Replay {
    let station = o.station;
    let tally = s.tally;
    s.station = station;
    s.tally = counted(counted(tally, CALL, o.agrees), kind, o.agrees);
    s
}

// After the call of a line without its name.
fn call(s: Replay, name: u8, line: &[u8]) -> Replay {
    let station = s.station;
    match letter(line, 0) {
        b'l' => called(s, LOAD, loads(station, name, line)),
        b'p' => called(s, PUBLISH, publishes(station, name, line)),
        b'o' => called(s, OPEN, opens(station, name, line)),
        b's' => called(s, SESSION, derives(station, name, line)),
        b'r' => {
            if letter(line, 2) == b'p' {
                return called(s, REPORT, reports(station, name, line));
            }
            called(s, READ, reads(station, name, line))
        }
        _ => called(s, DROP, outcome_of(station.drop(name), line, 2, true)),
    }
}

// At a list's start.
fn listed(mut s: Replay) -> Replay {
    let first = s.first;
    let tally = s.tally;
    s.station = first;
    s.tally = counted(tally, LIST, true);
    s
}

// At a list's end.
fn ended(mut s: Replay, line: &[u8]) -> Replay {
    let first = s.first;
    let station = s.station;
    let tally = s.tally;
    let agrees = ends(station.a, first.a, line, 1) && ends(station.b, first.b, line, 3);
    s.tally = counted(tally, END, agrees);
    s
}

// After a line. A call without a name is A's.
fn step(s: Replay, line: &[u8]) -> Replay {
    if letter(line, 0) < b'a' {
        let k = start(line, 1);
        return call(s, (number_of(line, 0) % 256) as u8, &line[k..]);
    }
    if letter(line, 0) == b'e' {
        return ended(s, line);
    }
    if letter(line, 1) == b'i' {
        return listed(s);
    }
    call(s, Station::A, line)
}

// After the text.
fn run(begin: Replay, text: &[u8]) -> Replay {
    let mut s = begin;
    let mut i = 0;
    while i < text.len() {
        let rest = &text[i..];
        let e = end(rest);
        s = step(s, &rest[..e]);
        i += e + 1;
    }
    s
}

// From the station in which B holds K1 of document 01, published; both calls are counted.
fn beside_k1() -> Replay {
    let text = b"2 load 040600010009000d000f000e000b0001000000 -> ok\n2 publish 4 4 -> ok 03010200";
    let mut s = run(from(Station::fresh()), text);
    let station = s.station;
    s.first = station;
    s
}

// Writes the kind's numbers behind its name.
fn print(rt: &impl Print, t: Tally, kind: usize, name: &str) -> io::Result<()> {
    let agree = agreements(t, kind);
    let differ = differences(t, kind);
    println!(rt; "{name}{agree} agreements, {differ} differences")
}

// Writes what was counted behind a heading.
fn print_all(rt: &impl Print, t: Tally, heading: &str) -> io::Result<()> {
    let lists = agreements(t, LIST);
    print!(rt; "{heading}\nlists: {lists}")?;
    print(rt, t, CALL, ", calls: ")?;
    print(rt, t, LOAD, "load: ")?;
    print(rt, t, PUBLISH, "publish: ")?;
    print(rt, t, OPEN, "open: ")?;
    print(rt, t, READ, "read: ")?;
    print(rt, t, REPORT, "report: ")?;
    print(rt, t, SESSION, "session: ")?;
    print(rt, t, DROP, "drop: ")?;
    print(rt, t, END, "ends: ")
}

// Replays the lists of a file from a station on.
fn replay_file(rt: &(impl Files + Print), begin: Replay, file: &str, heading: &str) -> Result<()> {
    let mut text = [0u8; TEXT];
    let n = read_file(rt, file, &mut text)?;
    let s = run(begin, &text[..n]);
    print_all(rt, s.tally, heading)?;
    Ok(())
}

fn main(rt: HostRuntime) -> Result<()> {
    let fresh = from(Station::fresh());
    replay_file(&rt, fresh, "calls.txt", "A, B is empty")?;
    replay_file(&rt, beside_k1(), "calls.txt", "A, B holds a published key")?;
    replay_file(&rt, fresh, "named.txt", "A, B and other names")
}
