// Runs data/words.txt through load, publish, read, read_marked, open, session, report and lock, and counts agreements and
// differences. The keys are loaded for A and B by turns.
// A line is `key FILE`; `public T`, what publish writes and what is locked with, or `public -` for none; or a case of the key
// before it: `publish ok`, `read WORD ok PATTERN ONES`, `marked WORD MARKS ok DIFFERENCES D`, `open CAPSULE ok PATTERN` as if
// published, `lock PATTERN ok CAPSULE`, or one of the five with `refused NUMBER` from `ok` on; or `session CAPSULE SECRET KEY` as if
// published, or with `refused NUMBER` for KEY. Bytes are in hexadecimal, and `-` is none. A capsule of `open` that is one or a
// short tail is also reported on.
#![tactic(auto)]

ghost use Rattle.std.specs.Prelude.{◌≡◌, length};

use anyhow::Result;
use key::kept::Key;
use reading::Answer;
use station::{Reply, Station};
use std::io;
use vectors::input::read_file;
use vectors::line::{
    Bytes, FILLER, bytes_of, end, holds, letter, no_bytes, number_of, output, refused, size,
};
use vectors::tally::{Tally, agreements, differences};

// The bytes of words.txt at most.
const TEXT: usize = 820000;

// The kinds of lines that are counted.
const KEY: usize = 0;

const PUBLISH: usize = 1;

const READ: usize = 2;

const OPEN: usize = 3;

const LOCK: usize = 4;

const REPORT: usize = 5;

const SESSION: usize = 6;

const MARKED: usize = 7;

// The number of a key whose g has a proper factor, with which a report refuses as open does.
const FACTOR: u8 = 34;

// An answer as two numbers.
#[derive(Drop)]
struct Outcome {
    refused: u8,
    ones: u16,
}

fn outcome_of(a: Answer) -> Outcome {
    match a {
        Answer::Ones(w) => Outcome {
            refused: 0,
            ones: w,
        },
        Answer::Refused(x) => Outcome {
            refused: x,
            ones: 0,
        },
    }
}

// The key of a line, loaded for a recipient.
fn key_of(name: u8, line: &[u8]) -> Reply {
    let b = bytes_of(line, 1);
    let file = b.bytes;
    let n = size(&file, b.count);
    Station::fresh().load(name, &file[..n])
}

// Publish gives the number and the public key.
fn publishes(key: Key, public: Bytes, line: &[u8]) -> bool {
    let mut out = [FILLER; 64];
    let mut work = [0u8; 64];
    let x = field::number(publishing::publish(
        key.m,
        key.n,
        key.t,
        &key.support,
        &key.g,
        &mut out,
        &mut work,
    ));
    x as u16 == refused(line, 1) && holds(&out, public)
}

// Read gives the number, the pattern and its number of ones.
fn reads(key: Key, line: &[u8]) -> bool {
    let mut out = [FILLER; 64];
    let b = bytes_of(line, 1);
    let word = b.bytes;
    let n = size(&word, b.count);
    let r = outcome_of(reading::read(
        key.m,
        key.n,
        key.t,
        &key.support,
        &key.g,
        &word[..n],
        &mut out,
    ));
    r.refused as u16 == refused(line, 2)
        && r.ones == number_of(line, 4)
        && holds(&out, output(line, 2))
}

// Marked reading gives the number, the differences and how many of them are at unmarked places.
fn reads_marked(key: Key, line: &[u8]) -> bool {
    let mut out = [FILLER; 64];
    let b = bytes_of(line, 1);
    let word = b.bytes;
    let n = size(&word, b.count);
    let z = bytes_of(line, 2);
    let marks = z.bytes;
    let l = size(&marks, z.count);
    let r = outcome_of(marked_reading::read_marked(
        key.m,
        key.n,
        key.t,
        &key.support,
        &key.g,
        &word[..n],
        &marks[..l],
        &mut out,
    ));
    r.refused as u16 == refused(line, 3)
        && r.ones == number_of(line, 5)
        && holds(&out, output(line, 3))
}

// Open gives the number and the pattern, with t ones.
fn opens(key: Key, line: &[u8]) -> bool {
    let mut out = [FILLER; 64];
    let b = bytes_of(line, 1);
    let capsule = b.bytes;
    let n = size(&capsule, b.count);
    let r = outcome_of(reading::open(
        key.m,
        key.n,
        key.t,
        &key.support,
        &key.g,
        true,
        &capsule[..n],
        &mut out,
    ));
    let ones = if r.refused == 0 { key.t } else { 0 };
    r.refused as u16 == refused(line, 2) && r.ones == ones && holds(&out, output(line, 2))
}

// The session key is the line's, both for a capsule that opens and for one that does not; or the number is, and the key zeros.
fn derives(key: Key, line: &[u8]) -> bool {
    let c = bytes_of(line, 1);
    let capsule = c.bytes;
    let n = size(&capsule, c.count);
    let s = bytes_of(line, 2);
    let secret = s.bytes;
    let l = size(&secret, s.count);
    let w = bytes_of(line, 3);
    let wanted = w.bytes;
    let k = size(&wanted, w.count);
    let r = session_key::session(
        key.m,
        key.n,
        key.t,
        &key.support,
        &key.g,
        true,
        &capsule[..n],
        &secret[..l],
    );
    let own = r.key;
    let number = refused(line, 3);
    if number != 0 {
        let zeros = [0u8; 32];
        return r.refused as u16 == number && check::same(&own, &zeros);
    }
    r.refused == 0 && check::same(&own, &wanted[..k])
}

// A report on the capsule, or on a short tail, has open's number for its only record, and counts it; where the key is refused
// the report is, and has none.
fn reports(key: Key, line: &[u8]) -> bool {
    let mut records = [FILLER; 64];
    let b = bytes_of(line, 1);
    let capsule = b.bytes;
    let n = size(&capsule, b.count);
    let r = reporting::report(
        key.m,
        key.n,
        key.t,
        &key.support,
        &key.g,
        true,
        &capsule[..n],
        &mut records,
    );
    let number = (refused(line, 2) % 256) as u8;
    let counts = r.counts;
    if number == FACTOR {
        return r.refused == FACTOR && records[0] == FILLER && counts[number as usize] == 0;
    }
    r.refused == 0 && records[0] == number && records[1] == FILLER && counts[number as usize] == 1
}

// Lock gives the number and the capsule.
fn locks(key: Key, public: Bytes, line: &[u8]) -> bool {
    let mut out = [FILLER; 64];
    let b = bytes_of(line, 1);
    let pattern = b.bytes;
    let n = size(&pattern, b.count);
    let t = public.bytes;
    let l = size(&t, public.count);
    let x = field::number(locking::lock(key.m, key.n, key.t, &t[..l], &pattern[..n], &mut out));
    x as u16 == refused(line, 2) && holds(&out, output(line, 2))
}

// The key and its T, and the lines of each kind.
#[derive(Drop)]
struct State {
    key: Key,
    public: Bytes,
    tally: Tally,
}

fn counted(mut s: State, kind: usize, agrees: bool) -> State {
    let tally = s.tally;
    s.tally = vectors::tally::counted(tally, kind, agrees);
    s
}

// The state after a report on one capsule, or on a short tail.
fn reported(s: State, line: &[u8]) -> State {
    let key = s.key;
    let b = bytes_of(line, 1);
    if reporting::capsule_count(b.count, reading::capsule_bytes(key.m, key.t)) != 1 {
        return s;
    }
    counted(s, REPORT, reports(key, line))
}

// The state with a key; `accepted` says whether load took it.
fn with_key(mut s: State, key: Key, accepted: bool) -> State {
    s.key = key;
    counted(s, KEY, accepted)
}

// The state at a key's line: the keys are loaded for A and B by turns.
fn keyed(s: State, line: &[u8]) -> State {
    if agreements(s.tally, KEY) % 2 == 0 {
        let r = key_of(Station::A, line);
        let held = r.station;
        return with_key(s, held.a.key, r.refused == 0);
    }
    let r = key_of(Station::B, line);
    let held = r.station;
    with_key(s, held.b.key, r.refused == 0)
}

// The state after a line.
fn step(mut s: State, line: &[u8]) -> State {
    let key = s.key;
    let public = s.public;
    match letter(line, 0) {
        b'k' => keyed(s, line),
        b'r' => counted(s, READ, reads(key, line)),
        b'o' => reported(counted(s, OPEN, opens(key, line)), line),
        b'm' => counted(s, MARKED, reads_marked(key, line)),
        b's' => counted(s, SESSION, derives(key, line)),
        b'l' => counted(s, LOCK, locks(key, public, line)),
        _ => {
            if letter(line, 5) == b's' {
                return counted(s, PUBLISH, publishes(key, public, line));
            }
            s.public = bytes_of(line, 1);
            s
        }
    }
}

// The state after the text.
fn run(text: &[u8]) -> State {
    let mut s = State {
        key: key::kept::none(),
        public: no_bytes(),
        tally: vectors::tally::none(),
    };
    let mut i = 0;
    while i < text.len() {
        let rest = &text[i..];
        let e = end(rest);
        s = step(s, &rest[..e]);
        i += e + 1;
    }
    s
}

fn say(rt: &impl Print, name: &str, holds: bool) -> io::Result<()> {
    if holds {
        return println!(rt; "{name}: yes");
    }
    println!(rt; "{name}: no")
}

// Two facts of document 01, 'by running'.
fn by_running(rt: &impl Print) -> io::Result<()> {
    let k1 = key_of(Station::A, b"key 040600010009000d000f000e000b0001000000");
    let k2 = key_of(
        Station::B,
        b"key 04100000000100020003000400050006000700080009000a000b000c000d000e000f00020008000100",
    );
    let held = k1.station;
    let key = held.a.key;
    say(
        rt,
        "K1 lock 00 gives 12",
        locks(key, bytes_of(b"public 03010200", 1), b"lock 00 refused 12"),
    )?;
    let held = k2.station;
    let key = held.b.key;
    say(
        rt,
        "K2 read 03 00 gives 03 00, two ones",
        reads(key, b"read 0300 ok 0300 2"),
    )
}

// Writes the kind's numbers behind its name.
fn print(rt: &impl Print, t: Tally, kind: usize, name: &str) -> io::Result<()> {
    let agree = agreements(t, kind);
    let differ = differences(t, kind);
    println!(rt; "{name}{agree} agreements, {differ} differences")
}

// Zeros for the text. The contract gives the length alone: the prover cannot compute a list as long as this.
fn empty_text() -> [u8; 820000]
    ensures { 820000 ≡ length result }
{
    [0; TEXT]
}

fn main(rt: HostRuntime) -> Result<()> {
    let mut text = empty_text();
    let n = read_file(&rt, "words.txt", &mut text)?;
    let s = run(&text[..n]);
    let t = s.tally;
    print(&rt, t, KEY, "key: ")?;
    print(&rt, t, PUBLISH, "publish: ")?;
    print(&rt, t, READ, "read: ")?;
    print(&rt, t, MARKED, "marked: ")?;
    print(&rt, t, OPEN, "open: ")?;
    print(&rt, t, SESSION, "session: ")?;
    print(&rt, t, REPORT, "report: ")?;
    print(&rt, t, LOCK, "lock: ")?;
    by_running(&rt)?;
    Ok(())
}
