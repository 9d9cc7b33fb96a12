// Runs the published vector 0 of mceliece348864 through the station's calls and lock: the key is loaded, T is
// compared with the public key byte for byte, the capsule opened and read, the pattern locked, a changed capsule refused,
// and the session keys of both capsules compared.
#![tactic(auto)]

use anyhow::Result;
use station::{Reply, Station};
use std::io;
use std::rt::Files;
use vectors::input::read_file;

// The bytes of a public key, of the workspace, and of every other file at most.
const PUBLIC: usize = 261120;

const WORK: usize = 334848;

const FILE: usize = 20000;

// The first n bytes are the same.
fn same(a: &[u8], b: &[u8], n: usize) -> bool {
    if a.len() < n {
        return false;
    }
    if b.len() < n {
        return false;
    }
    let mut i = 0;
    while i < n {
        if a[i] != b[i] {
            return false;
        }
        i += 1;
    }
    true
}

fn print(rt: &impl Print, what: &str, right: bool) -> io::Result<()> {
    if right {
        println!(rt; "{what}: right")
    } else {
        println!(rt; "{what}: wrong")
    }
}

// Publish writes the public key.
fn publishes(rt: &(impl Files + Print), s: Station, name: &str) -> Result<Reply> {
    let mut public = [0u8; PUBLIC];
    let n = read_file(rt, name, &mut public)?;
    let mut out = [0u8; PUBLIC];
    let mut work = [0u8; WORK];
    let r = s.publish(Station::A, &mut out, &mut work);
    print(
        rt,
        "public key",
        r.refused == 0 && 0 < n && same(&out, &public, n),
    )?;
    Ok(r)
}

// Lock makes the capsule of the pattern under the public key.
fn locks(
    rt: &(impl Files + Print),
    m: u8,
    n: u16,
    t: u16,
    name: &str,
    pattern: &[u8],
    capsule: &[u8],
) -> Result<()> {
    let mut public = [0u8; PUBLIC];
    let k = read_file(rt, name, &mut public)?;
    let mut out = [0u8; 256];
    let x = field::number(locking::lock(m, n, t, &public[..k], pattern, &mut out));
    print(rt, "locked", x == 0 && same(&out, capsule, capsule.len()))?;
    Ok(())
}

// Open gives the pattern with t ones.
fn opens(rt: &impl Print, s: Station, t: u16, capsule: &[u8], pattern: &[u8]) -> io::Result<()> {
    let mut out = [0u8; 1024];
    let r = s.open(Station::A, capsule, &mut out);
    print(
        rt,
        "opened",
        r.refused == 0 && r.ones == t && same(&out, pattern, pattern.len()),
    )
}

// So does read, of the capsule filled up with zeros.
fn reads(rt: &impl Print, s: Station, t: u16, word: &[u8], pattern: &[u8]) -> io::Result<()> {
    let mut out = [0u8; 1024];
    let r = s.read(Station::A, word, &mut out);
    print(
        rt,
        "read",
        r.refused == 0 && r.ones == t && same(&out, pattern, pattern.len()),
    )
}

// A capsule with one bit changed is refused with 13.
fn refuses(rt: &(impl Files + Print), s: Station, name: &str) -> Result<()> {
    let mut capsule = [0u8; FILE];
    let n = read_file(rt, name, &mut capsule)?;
    let mut out = [0u8; 1024];
    let r = s.open(Station::A, &capsule[..n], &mut out);
    print(rt, "refused with 13", r.refused == 13)?;
    Ok(())
}

// The session key of a capsule, with the secret, is the one in the file.
fn derives(
    rt: &(impl Files + Print),
    s: Station,
    what: &str,
    capsule: &str,
    secret: &str,
    session: &str,
) -> Result<()> {
    let mut c = [0u8; FILE];
    let cn = read_file(rt, capsule, &mut c)?;
    let mut z = [0u8; FILE];
    let zn = read_file(rt, secret, &mut z)?;
    let mut key = [0u8; FILE];
    let n = read_file(rt, session, &mut key)?;
    let r = s.session(Station::A, &c[..cn], &z[..zn]);
    let own = r.key;
    print(rt, what, r.refused == 0 && n == 32 && same(&own, &key, 32))?;
    Ok(())
}

// The other calls of one shape; the station that holds its key, published.
fn shape(
    rt: &(impl Files + Print),
    key: &str,
    public: &str,
    capsule: &str,
    pattern: &str,
    reject: &str,
    m: u8,
    n: u16,
    t: u16,
) -> Result<Station> {
    let mut file = [0u8; FILE];
    let k = read_file(rt, key, &mut file)?;
    let fresh = Station::fresh();
    let loaded = fresh.load(Station::A, &file[..k]);
    print(rt, "key", loaded.refused == 0)?;
    let a = loaded.station;
    let r = publishes(rt, a, public)?;
    let s = r.station;
    let mut c = [0u8; FILE];
    let cn = read_file(rt, capsule, &mut c)?;
    let mut p = [0u8; FILE];
    let pn = read_file(rt, pattern, &mut p)?;
    opens(rt, s, t, &c[..cn], &p[..pn])?;
    let mut word = [0u8; 436];
    read_file(rt, capsule, &mut word)?;
    reads(rt, s, t, &word, &p[..pn])?;
    locks(rt, m, n, t, public, &p[..pn], &c[..cn])?;
    refuses(rt, s, reject)?;
    Ok(s)
}

fn main(rt: HostRuntime) -> Result<()> {
    println!(rt; "mceliece348864")?;
    let s = shape(
        &rt,
        "mceliece348864.key",
        "mceliece348864.public",
        "mceliece348864.capsule",
        "mceliece348864.pattern",
        "mceliece348864.capsule_reject",
        12,
        3488,
        64,
    )?;
    derives(
        &rt,
        s,
        "session key",
        "mceliece348864.capsule",
        "mceliece348864.secret",
        "mceliece348864.session",
    )?;
    derives(
        &rt,
        s,
        "session key of the secret",
        "mceliece348864.capsule_reject",
        "mceliece348864.secret",
        "mceliece348864.session_capsule_reject",
    )
}
