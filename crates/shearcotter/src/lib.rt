// The calls under C names; include/shearcotter.h declares them. What each call answers is what the crates below answer. Where a
// call leaves the station or its keys, the reply takes the caller's own: one copy less.
#![tactic(auto)]

ghost use Rattle.std.specs.Prelude.{◌≡◌, length, drop};
ghost use Rattle.keccak.specs.Shake.{shake256};
ghost use Rattle.field.specs.Answers.{add_of, multiply_of, invert_of};
ghost use Rattle.register.specs.Registered.{registered_of};
ghost use Rattle.key.specs.Answers.{shape_of};
ghost use Rattle.code.specs.Lock.{lock_number, lock_output};
ghost use Rattle.network_key.specs.Converting.{into_network, out_of_network, convert_output};
ghost use Rattle.converting.specs.Answers.{converted_of};
ghost use Rattle.ledger.specs.Loading.{key_file, network_file};
ghost use Rattle.ledger.specs.Publishing.{systematic, small};
ghost use Rattle.ledger.specs.Questions.{open_capsule, read_word, read_marked, report, derive_session_key};
ghost use Rattle.ledger.specs.Calls.{load, publish, ask, drop_key};
ghost use Rattle.recipients.specs.Names.{named};
ghost use Rattle.station.specs.Replies.{fresh_station, handed, reply_of, reported_of, derived_of};
ghost use Rattle.boundary.specs.Boundary.{as_element, as_shape};

use boundary::{Element, Shape, as_element, as_shape};
use converting::Converted;
use field::Verdict;
use station::{Derived, Reply, Reported, Station};

// The sum of two elements; 1 or 4 on refusal.
#[unsafe(no_mangle)]
pub extern "C" fn shearcotter_add(m: u8, a: u32, b: u32) -> Element
    ensures { result ≡ as_element (add_of m a b) }
{
    as_element(field_calls::add(m, a, b))
}

// The product of two elements; 1 or 4 on refusal.
#[unsafe(no_mangle)]
pub extern "C" fn shearcotter_multiply(m: u8, a: u32, b: u32) -> Element
    ensures { result ≡ as_element (multiply_of m a b) }
{
    as_element(field_calls::multiply(m, a, b))
}

// The inverse of an element; 1, 4 or 32 on refusal.
#[unsafe(no_mangle)]
pub extern "C" fn shearcotter_invert(m: u8, a: u32) -> Element
    ensures { result ≡ as_element (invert_of m a) }
{
    as_element(field_calls::invert(m, a))
}

// The standard's shape at position 1 to 5; 3 on refusal.
#[unsafe(no_mangle)]
pub extern "C" fn shearcotter_shape_at(position: u8) -> Shape
    ensures { result ≡ as_shape (shape_of position) }
{
    as_shape(key::shape::shape(position))
}

// The shortest register of a list; 1, 2 or 4 on refusal.
#[unsafe(no_mangle)]
pub extern "C" fn shearcotter_shortest_register(m: u8, list: &[u16]) -> register::Registered
    ensures { result ≡ registered_of m list.now }
{
    register::Registered::of(m, list)
}

// The capsule of a pattern is written from the output's start; 1, 3, 8, 9, 12 or 10 on refusal.
#[unsafe(no_mangle)]
pub extern "C" fn shearcotter_lock(
    m: u8,
    n: u16,
    t: u16,
    public: &[u8],
    pattern: &[u8],
    out: &mut [u8],
) -> u8
    ensures number { result ≡ lock_number m n t public.now pattern.now out.old }
    ensures output { out.new ≡ lock_output m n t public.now pattern.now out.old }
{
    let x = locking::lock(m, n, t, public, pattern, out);
    let Verdict::Accepted = x else {
        return field::number(x);
    };
    0
}

// The output is filled with SHAKE256 of the input.
#[unsafe(no_mangle)]
pub extern "C" fn shearcotter_shake256(input: &[u8], out: &mut [u8])
    ensures { out.new ≡ shake256 (length out.old) input.now }
{
    shake::shake256(input, out);
}

// The network file of a key file's key is written from the output's start; 1, 2, 3, 4, 5, 6, 7 or 10 on refusal.
#[unsafe(no_mangle)]
pub extern "C" fn shearcotter_to_network(file: &[u8], out: &mut [u8]) -> Converted
    ensures answer { result ≡ converted_of into_network file.now (length out.old) }
    ensures output { out.new ≡ convert_output into_network file.now out.old }
{
    converting::to_network(file, out)
}

// The key file of a network file's key is written from the output's start; 1, 2, 36, 3, 4, 6, 7 or 10 on refusal.
#[unsafe(no_mangle)]
pub extern "C" fn shearcotter_from_network(file: &[u8], out: &mut [u8]) -> Converted
    ensures answer { result ≡ converted_of out_of_network file.now (length out.old) }
    ensures output { out.new ≡ convert_output out_of_network file.now out.old }
{
    converting::from_network(file, out)
}

// The station with two empty slots.
#[unsafe(no_mangle)]
pub extern "C" fn shearcotter_fresh() -> Station
    ensures { result ≡ fresh_station }
{
    Station::fresh()
}

// The key of a key file is kept; 35, 22, 1, 2, 3, 4, 5, 6 or 7 on refusal.
#[unsafe(no_mangle)]
pub extern "C" fn shearcotter_load(own: Station, name: u8, file: &[u8]) -> Reply
    ensures { result ≡ reply_of (handed own (named name (load (key_file file.now)))) }
{
    own.load(name, file)
}

// The key of a network file is kept; 35, 22, 1, 2, 36, 3, 4, 6 or 7 on refusal.
#[unsafe(no_mangle)]
pub extern "C" fn shearcotter_load_network(own: Station, name: u8, file: &[u8]) -> Reply
    ensures { result ≡ reply_of (handed own (named name (load (network_file file.now)))) }
{
    own.load_network(name, file)
}

// T is written from the output's start, made in the first m·t × ceil(n/8) bytes of work; 35, 21, 25, 34, 10, 11 or 23 on refusal.
// All other bytes of work keep their contents, and these too under 35, 21, 25, 34, 10 and 11.
#[unsafe(no_mangle)]
pub extern "C" fn shearcotter_publish(
    own: Station,
    name: u8,
    out: &mut [u8],
    work: &mut [u8],
) -> Reply
    ensures reply { result ≡ reply_of (handed own (named name (publish (systematic out.old work.old)))) }
    ensures output { out.new ≡ (handed own (named name (publish (systematic out.old work.old)))).output }
    ensures workspace { let f = (handed own (named name (publish (systematic out.old work.old)))).free in
        drop f work.new ≡ drop f work.old }
{
    let published = own.publish(name, out, work);
    let next = published.station;
    let mut station = own;
    station.a.state = next.a.state;
    station.b.state = next.b.state;
    Reply {
        station,
        refused: published.refused,
        ones: published.ones,
    }
}

// T is written from the output's start, made in the first 2·m·t × ceil(m·t/8) bytes of work (request L9); 35, 21, 25, 34, 10, 11 or
// 23 on refusal. All other bytes of work keep their contents, and these too under 35, 21, 25, 34, 10 and 11.
#[unsafe(no_mangle)]
pub extern "C" fn shearcotter_publish_small(
    own: Station,
    name: u8,
    out: &mut [u8],
    work: &mut [u8],
) -> Reply
    ensures reply { result ≡ reply_of (handed own (named name (publish (small out.old work.old)))) }
    ensures output { out.new ≡ (handed own (named name (publish (small out.old work.old)))).output }
    ensures workspace { let f = (handed own (named name (publish (small out.old work.old)))).free in
        drop f work.new ≡ drop f work.old }
{
    let made = own.publish_small(name, out, work);
    let after = made.station;
    let mut station = own;
    station.a.state = after.a.state;
    station.b.state = after.b.state;
    Reply {
        station,
        refused: made.refused,
        ones: made.ones,
    }
}

// The pattern of a capsule is written from the output's start; 35, 21, 25, 34, 24, 8, 9, 10 or 13 on refusal.
#[unsafe(no_mangle)]
pub extern "C" fn shearcotter_open(own: Station, name: u8, capsule: &[u8], out: &mut [u8]) -> Reply
    ensures reply { result ≡ reply_of (handed own (named name (ask (open_capsule capsule.now out.old)))) }
    ensures output { out.new ≡ (handed own (named name (ask (open_capsule capsule.now out.old)))).output }
{
    let opened = own.open(name, capsule, out);
    Reply {
        station: own,
        refused: opened.refused,
        ones: opened.ones,
    }
}

// The pattern of a word is written from the output's start; 35, 21, 25, 8, 9, 10 or 14 on refusal.
#[unsafe(no_mangle)]
pub extern "C" fn shearcotter_read(own: Station, name: u8, word: &[u8], out: &mut [u8]) -> Reply
    ensures reply { result ≡ reply_of (handed own (named name (ask (read_word word.now out.old)))) }
    ensures output { out.new ≡ (handed own (named name (ask (read_word word.now out.old)))).output }
{
    let found = own.read(name, word, out);
    Reply {
        station: own,
        refused: found.refused,
        ones: found.ones,
    }
}

// The differences of a marked word are written from the output's start, and those at unmarked places are counted; 35, 21, 25, 8, 9,
// 37, 10 or 14 on refusal.
#[unsafe(no_mangle)]
pub extern "C" fn shearcotter_read_marked(
    own: Station,
    name: u8,
    word: &[u8],
    marks: &[u8],
    out: &mut [u8],
) -> Reply
    ensures reply { result ≡ reply_of (handed own (named name (ask (read_marked word.now marks.now out.old)))) }
    ensures output { out.new ≡ (handed own (named name (ask (read_marked word.now marks.now out.old)))).output }
{
    let corrected = own.read_marked(name, word, marks, out);
    Reply {
        station: own,
        refused: corrected.refused,
        ones: corrected.ones,
    }
}

// The record of each capsule is written from the record buffer's start, and the records are counted by their value; 35, 21, 25, 34,
// 24 or 31 on refusal.
#[unsafe(no_mangle)]
pub extern "C" fn shearcotter_report(
    own: Station,
    name: u8,
    capsules: &[u8],
    records: &mut [u8],
) -> Reported
    ensures reply { result ≡ reported_of (handed own (named name (ask (report capsules.now records.old)))) }
    ensures output { records.new ≡ (handed own (named name (ask (report capsules.now records.old)))).output }
{
    let reported = own.report(name, capsules, records);
    let counts = reported.counts;
    Reported {
        station: own,
        refused: reported.refused,
        counts,
    }
}

// The session key of a capsule, with the secret for one that open refuses with 13; 35, 21, 25, 34, 24, 8, 9 or 33 on refusal.
#[unsafe(no_mangle)]
pub extern "C" fn shearcotter_session(
    own: Station,
    name: u8,
    capsule: &[u8],
    secret: &[u8],
) -> Derived
    ensures { result ≡ derived_of (handed own (named name (ask (derive_session_key capsule.now secret.now)))) }
{
    let derived = own.session(name, capsule, secret);
    let key = derived.key;
    Derived {
        station: own,
        refused: derived.refused,
        key,
    }
}

// Afterwards the slot that is named is a fresh one; 35 or 21 on refusal.
#[unsafe(no_mangle)]
pub extern "C" fn shearcotter_drop(own: Station, name: u8) -> Reply
    ensures { result ≡ reply_of (handed own (named name drop_key)) }
{
    own.drop(name)
}
