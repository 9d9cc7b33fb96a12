// The text that the program prints, from a key file and capsules (document 01, 'Bench keys'; L1's last line); its calls name A. A
// function with a place `at` writes its part from there on, as far as the output reaches, and gives the place behind it.
#![tactic(auto)]

ghost use Rattle.std.specs.Prelude.{◌≡◌, true, [], ◌∷◌, ◌++◌, ◌+◌, ◌^◌, ◌≤◌, ◌<◌, length, take, drop, replicate};
ghost use Rattle.bits.specs.Bits.{bytes_for, unpack};
ghost use Rattle.code.specs.Publish.{capsule_bits};
ghost use Rattle.records.specs.Records.{capsules_of, occurrences};
ghost use Rattle.ledger.specs.Publishing.{systematic};
ghost use Rattle.ledger.specs.Calls.{publish};
ghost use Rattle.opener.specs.Report.{key_refused, newline, room, numbers};
ghost use Rattle.opener.specs.Report as Report;
ghost use Rattle.opener.specs.Prepared.{slot_a, reply_a, key_answer, prepared_whole, prepared, key_text, is_four, capsule_lines};
ghost use Rattle.opener.specs.Wrote.{Wrote, Printed};

use station::{Reply, Station};

// What became of the key: accepted by load and publish, refused by one of them with its number, or of width 12 or 13.
#[derive(Drop)]
pub enum KeyAnswer {
    Accepted,
    Refused(u8),
    TooLarge,
}

// The station after load and publish, and what became of the key.
#[derive(Drop)]
pub struct Ready {
    pub station: Station,
    pub answer: KeyAnswer,
}

// One byte.
fn put(b: u8, out: &mut [u8], at: usize) -> usize
    requires { at + 1 < 2 ^ 64 }
    ensures { Wrote (b ∷ []) out.old at result out.new }
{
    if out.len() <= at {
        return at + 1;
    }
    out[at] = b;
    at + 1
}

// The bytes of `text`.
fn write(text: &[u8], out: &mut [u8], at: usize) -> usize
    requires { at + length text.now < 2 ^ 64 }
    ensures { Wrote text.now out.old at result out.new }
{
    let mut i = 0;
    while i < text.len() {
        put(text[i], out, at + i);
        i += 1;
    }
    at + i
}

// n in decimal.
fn decimal(n: usize, out: &mut [u8], at: usize) -> usize
    requires { at + length (Report.decimal n) < 2 ^ 64 }
    ensures { Wrote (Report.decimal n) out.old at result out.new }
{
    if n < 10 {
        return put(48 + n as u8, out, at);
    }
    let next = decimal(n / 10, out, at);
    put(48 + (n % 10) as u8, out, next)
}

// A word and n in decimal.
fn word_number(word: &[u8], n: usize, out: &mut [u8], at: usize) -> usize
    requires { at + length (word.now ++ Report.decimal n) < 2 ^ 64 }
    ensures { Wrote (word.now ++ Report.decimal n) out.old at result out.new }
{
    let next = write(word, out, at);
    decimal(n, out, next)
}

// Place i behind a blank, where its bit is one.
fn place(bit: u8, i: usize, out: &mut [u8], at: usize) -> usize
    requires { at + length (Report.place bit i) < 2 ^ 64 }
    ensures { Wrote (Report.place bit i) out.old at result out.new }
{
    if bit == 0 {
        return at;
    }
    let next = put(b' ', out, at);
    decimal(i, out, next)
}

// The places of ones of a pattern of n bits, rising.
fn places(pattern: &[u8], n: usize, out: &mut [u8], at: usize) -> usize
    requires { at + length (Report.places 0 (unpack n pattern.now)) < 2 ^ 64 }
    ensures { Wrote (Report.places 0 (unpack n pattern.now)) out.old at result out.new }
{
    let mut next = at;
    let mut i = 0;
    while i < n {
        next = place(bits::bit_at(pattern, i), i, out, next);
        i += 1;
    }
    next
}

// ` open` and the pattern's places, or ` refused ` and the number.
fn answer(refused: u8, pattern: &[u8], n: usize, out: &mut [u8], at: usize) -> usize
    requires { at + length (Report.answer refused (unpack n pattern.now)) < 2 ^ 64 }
    ensures { Wrote (Report.answer refused (unpack n pattern.now)) out.old at result out.new }
{
    if refused != 0 {
        return word_number(b" refused ", refused as usize, out, at);
    }
    let next = write(b" open", out, at);
    places(pattern, n, out, next)
}

// The line of the capsule at position p.
fn line(station: Station, p: usize, capsule: &[u8], out: &mut [u8], at: usize) -> usize
    requires { at + length (Report.line (slot_a station) p capsule.now) < 2 ^ 64 }
    ensures { Wrote (Report.line (slot_a station) p capsule.now) out.old at result out.new }
{
    let key = station.a.key;
    let mut pattern = [0u8; 64];
    let reply = station.open(Station::A, capsule, &mut pattern);
    let next = decimal(p, out, at);
    let next = answer(reply.refused, &pattern, key.n as usize, out, next);
    put(b'\n', out, next)
}

// The line of the c bytes from i on, or of what is left of them.
fn line_at(
    station: Station,
    p: usize,
    input: &[u8],
    i: usize,
    c: usize,
    out: &mut [u8],
    at: usize,
) -> usize
    requires i_in_bounds { i ≤ length input.now }
    requires input_bound { at + length (Report.line (slot_a station) p (take c (drop i input.now))) < 2 ^ 64 }
    ensures { Wrote (Report.line (slot_a station) p (take c (drop i input.now))) out.old at result out.new }
{
    let e = i + bits::smaller(c, input.len() - i);
    line(station, p, &input[i..e], out, at)
}

// The bytes of a capsule.
fn capsule_bytes(station: Station) -> usize
    ensures { result ≡ bytes_for (capsule_bits (slot_a station).key) }
{
    let key = station.a.key;
    reading::capsule_bytes(key.m, key.t)
}

// The lines of the capsules.
fn lines(station: Station, input: &[u8], out: &mut [u8]) -> usize
    requires { (is_four (slot_a station).key ≡ true) × (length input.now ≤ 65536) }
    ensures { Wrote (Report.lines (slot_a station) 1 (capsules_of (slot_a station).key input.now)) out.old 0 result out.new }
{
    let c = capsule_bytes(station);
    let mut at = 0;
    let mut i = 0;
    let mut p = 1;
    while i < input.len() {
        at = line_at(station, p, input, i, c, out, at);
        i += c;
        p += 1;
    }
    at
}

// The number of capsules: a short tail is one of them.
fn capsule_count(station: Station, input: &[u8]) -> usize
    requires { (is_four (slot_a station).key ≡ true) × (length input.now ≤ 65536) }
    ensures { result ≡ length (capsules_of (slot_a station).key input.now) }
{
    reporting::capsule_count(input.len(), capsule_bytes(station))
}

// How many of the capsules are opened: the count of 0 among the records of a report.
fn opened_count(station: Station, input: &[u8]) -> usize
    requires { (is_four (slot_a station).key ≡ true) × (length input.now ≤ 65536) }
    ensures { result ≡ occurrences 0 (numbers (slot_a station) (capsules_of (slot_a station).key input.now)) }
{
    let mut records = [0u8; 65536];
    let reported = station.report(Station::A, input, &mut records);
    let counts = reported.counts;
    counts[0]
}

// `total`, the number of capsules, of those opened and of those refused.
fn total_line(total: usize, opened: usize, out: &mut [u8], at: usize) -> usize
    requires { (opened ≤ total) × (at + length (Report.total_line total opened) < 2 ^ 64) }
    ensures { Wrote (Report.total_line total opened) out.old at result out.new }
{
    let next = word_number(b"total ", total, out, at);
    let next = word_number(b" opened ", opened, out, next);
    let next = word_number(b" refused ", total - opened, out, next);
    put(b'\n', out, next)
}

// The lines of the capsules, and the total.
fn opened(station: Station, input: &[u8], out: &mut [u8]) -> usize
    requires { (is_four (slot_a station).key ≡ true) × (length input.now ≤ 65536) }
    ensures text { Wrote (Report.opened (slot_a station) input.now) out.old 0 result out.new }
    ensures fits { result ≤ 1114176 }
{
    let at = lines(station, input, out);
    let total = capsule_count(station, input);
    let opened = opened_count(station, input);
    total_line(total, opened, out, at)
}

// `key refused ` and the number.
fn key_refused(number: u8, out: &mut [u8]) -> usize
    ensures { Wrote ((key_refused ++ Report.decimal number) ++ newline) out.old 0 result out.new }
{
    let at = word_number(b"key refused ", number as usize, out, 0);
    put(b'\n', out, at)
}

// Publish with room for T and its workspace.
fn publish(station: Station) -> Reply
    ensures { result ≡ reply_a station (publish (systematic room room)) }
{
    let mut public = [0u8; 64];
    let mut work = [0u8; 64];
    station.publish(Station::A, &mut public, &mut work)
}

// The width is 12 or 13.
fn large(file: &[u8]) -> bool
    ensures { result ≡ Report.large file.now }
{
    if file.len() == 0 {
        return false;
    }
    let m = file[0];
    m == 12 || m == 13
}

// Accepted where the number is 0, else refused with it.
fn key_answer(number: u8) -> KeyAnswer
    ensures { result ≡ key_answer number }
{
    if number == 0 {
        return KeyAnswer::Accepted;
    }
    KeyAnswer::Refused(number)
}

// A whole key file, loaded and published.
fn prepare_whole(file: &[u8]) -> Ready
    ensures { result ≡ prepared_whole file.now }
{
    let station = Station::fresh();
    if large(file) {
        return Ready {
            station,
            answer: KeyAnswer::TooLarge,
        };
    }
    let loaded = station.load(Station::A, file);
    let station = loaded.station;
    let answer = key_answer(loaded.refused);
    let KeyAnswer::Accepted = answer else {
        return Ready { station, answer };
    };
    let published = publish(station);
    let station = published.station;
    let answer = key_answer(published.refused);
    Ready { station, answer }
}

// The first 4,096 bytes of a key file, loaded and published.
pub fn prepare(file: &[u8]) -> Ready
    ensures { result ≡ prepared file.now }
{
    let f = bits::smaller(4096, file.len());
    prepare_whole(&file[..f])
}

// The text of a key that is refused or too large; none of one that is accepted.
pub fn key_text(answer: KeyAnswer, out: &mut [u8]) -> usize
    ensures { Printed (key_text answer []) out.old result out.new }
{
    match answer {
        KeyAnswer::Accepted => 0,
        KeyAnswer::Refused(n) => key_refused(n, out),
        KeyAnswer::TooLarge => write(b"key too large\n", out, 0),
    }
}

// m is 4, and the key's shape is within its limits.
fn is_four(station: Station) -> bool
    ensures { result ≡ is_four (slot_a station).key }
{
    let key = station.a.key;
    if key.m != 4 {
        return false;
    }
    key::shape::in_limits(4, key.n, key.t)
}

// The lines of the capsules in the first 65,536 bytes of the input, and the total; nothing under a key of another shape.
pub fn open_lines(station: Station, input: &[u8], out: &mut [u8]) -> usize
    ensures { Printed (capsule_lines (slot_a station) input.now) out.old result out.new }
{
    if !is_four(station) {
        return 0;
    }
    let i = bits::smaller(65536, input.len());
    opened(station, &input[..i], out)
}

// The text that the program prints: that of the key, or the lines and the total.
pub fn report(file: &[u8], input: &[u8], out: &mut [u8]) -> usize
    ensures { Printed (Report.report file.now input.now) out.old result out.new }
{
    let ready = prepare(file);
    let answer = ready.answer;
    let KeyAnswer::Accepted = answer else {
        return key_text(answer, out);
    };
    open_lines(ready.station, input, out)
}

// Room for the longest text: zeros.
pub fn longest() -> [u8; 1114176]
    ensures zeros { result ≡ replicate 1114176 0 }
    ensures size { 1114176 ≡ length result }
{
    [0; 1114176]
}
