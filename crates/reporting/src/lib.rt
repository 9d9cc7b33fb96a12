// The import report on a kept key, lent by its parts (request L1).
#![tactic(auto)]

ghost use Rattle.std.specs.Prelude.{◌≡◌, not, ◌+◌, ◌-◌, ◌/◌, ◌≤◌, length, take, drop};
ghost use Rattle.bits.specs.Bits.{over};
ghost use Rattle.field.specs.Numbers.{first_of};
ghost use Rattle.field.specs.Verdicts.{verdict_of};
ghost use Rattle.key.specs.Keys.{key_number, unsound};
ghost use Rattle.key.specs.Kept.{kept, parts};
ghost use Rattle.records.specs.Records.{capsules_of, record_of, records_of, counts_of, report_conditions, report_output};
ghost use Rattle.reporting.specs.Answers.{report_answer};

use field::Verdict;
use key::kept::Key;
use reading::{capsule_bits, capsule_bytes, check_published, check_row, open_checked};

// The number of a refusal, or 0, and how often each byte value stands in the records; zeros on refusal.
#[derive(Drop)]
pub struct Counted {
    pub refused: u8,
    pub counts: [usize; 256],
}

// The number of capsules of c bytes in len bytes, a short tail included; 0 where c is 0.
pub fn capsule_count(len: usize, c: usize) -> usize
    ensures { result ≡ (len + (c - 1)) / c }
{
    if c == 0 {
        return 0;
    }
    if len % c == 0 {
        return len / c;
    }
    len / c + 1
}

// Whether a buffer of capsules can be reported in len bytes: 25, 34, 24 or 31 on refusal.
fn check_report<'a>(
    m: u8,
    n: u16,
    t: u16,
    support: &'a [u16; Key::MOST_PLACES],
    g: &'a [u16; Key::MOST_ERRORS],
    published: bool,
    capsules: &[u8],
    len: usize,
) -> Verdict
    ensures { result ≡ verdict_of (first_of (report_conditions (unsound (kept (parts m n t support.now g.now))) (not published) (kept (parts m n t support.now g.now)) capsules.now len)) }
{
    let x = check_published(m, n, t, support, g, published);
    let Verdict::Accepted = x else {
        return x;
    };
    if len < capsule_count(capsules.len(), capsule_bytes(m, t)) {
        return Verdict::Refused(31);
    }
    x
}

// The record of a capsule: 8, 9 or 13, and 0 where it is opened. No refusal comes from `open_checked` (`record_not_refused`).
fn record_found<'a>(
    m: u8,
    n: u16,
    t: u16,
    support: &'a [u16; Key::MOST_PLACES],
    g: &'a [u16; Key::MOST_ERRORS],
    capsule: &[u8],
) -> u8
    requires { key_number (kept (parts m n t support.now g.now)) ≡ 0 }
    ensures { result ≡ record_of (kept (parts m n t support.now g.now)) capsule.now }
{
    let number = field::number(check_row(capsule_bits(m, t), capsule));
    if number != 0 {
        return number;
    }
    let e = open_checked(m, n, t, support, g, capsule);
    let x = e.verdict;
    let Verdict::Accepted = x else {
        return field::number(x);
    };
    if !e.found {
        return 13;
    }
    0
}

// The record of the c bytes from i on, or of what is left of them.
fn record_at<'a>(
    m: u8,
    n: u16,
    t: u16,
    support: &'a [u16; Key::MOST_PLACES],
    g: &'a [u16; Key::MOST_ERRORS],
    capsules: &[u8],
    i: usize,
    c: usize,
) -> u8
    requires g_value { key_number (kept (parts m n t support.now g.now)) ≡ 0 }
    requires i_in_bounds { i ≤ length capsules.now }
    ensures { result ≡ record_of (kept (parts m n t support.now g.now)) (take c (drop i capsules.now)) }
{
    let e = i + bits::smaller(c, capsules.len() - i);
    record_found(m, n, t, support, g, &capsules[i..e])
}

// The records of the capsules from the buffer's start on, and how many they are.
fn write_records<'a>(
    m: u8,
    n: u16,
    t: u16,
    support: &'a [u16; Key::MOST_PLACES],
    g: &'a [u16; Key::MOST_ERRORS],
    capsules: &[u8],
    records: &mut [u8],
) -> usize
    requires g_value { key_number (kept (parts m n t support.now g.now)) ≡ 0 }
    requires capsules_in_bounds { length (capsules_of (kept (parts m n t support.now g.now)) capsules.now) ≤ length records.old }
    ensures number { result ≡ length (capsules_of (kept (parts m n t support.now g.now)) capsules.now) }
    ensures output { records.new ≡ over (records_of (kept (parts m n t support.now g.now)) capsules.now) records.old }
{
    let c = capsule_bytes(m, t);
    let count = capsule_count(capsules.len(), c);
    let mut i = 0;
    while i < count {
        records[i] = record_at(m, n, t, support, g, capsules, i * c, c);
        i += 1;
    }
    count
}

// How often each byte value stands in the records.
fn count(records: &[u8]) -> [usize; 256]
    ensures { result ≡ counts_of records.now }
{
    let mut counts = [0usize; 256];
    let mut p = 0;
    while p < records.len() {
        let v = bits::wide(records[p]);
        counts[v] += 1;
        p += 1;
    }
    counts
}

// The report of a buffer of capsules: a record for each from the record buffer's start on, and the counts of the byte values in
// them. Nothing is written on refusal, with 25, 34, 24 or 31.
pub fn report<'a>(
    m: u8,
    n: u16,
    t: u16,
    support: &'a [u16; Key::MOST_PLACES],
    g: &'a [u16; Key::MOST_ERRORS],
    published: bool,
    capsules: &[u8],
    records: &mut [u8],
) -> Counted
    ensures answer { result ≡ report_answer (not published) (kept (parts m n t support.now g.now)) capsules.now records.old }
    ensures output { records.new ≡ report_output (not published) (kept (parts m n t support.now g.now)) capsules.now records.old }
{
    let x = check_report(m, n, t, support, g, published, capsules, records.len());
    let Verdict::Accepted = x else {
        let counts = [0usize; 256];
        return Counted {
            refused: field::number(x),
            counts,
        };
    };
    let written = write_records(m, n, t, support, g, capsules, records);
    let counts = count(&records[..written]);
    Counted { refused: 0, counts }
}
