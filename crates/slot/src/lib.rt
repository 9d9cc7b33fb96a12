// A slot, which keeps one key (document 01, 'Station'). The station of request L6 has two. The slot's calls take its parts, the state
// and the key's sizes and arrays, so that nothing of it is copied.
#![tactic(auto)]

ghost use Rattle.std.specs.Prelude.{◌≡◌, not, drop};
ghost use Rattle.field.specs.Verdicts.{verdict_of};
ghost use Rattle.ledger.specs.Slot.{is_empty, is_unpublished};
ghost use Rattle.ledger.specs.Publishing.{systematic, small};
ghost use Rattle.ledger.specs.Questions.{open_capsule, read_word, read_marked, report, derive_session_key};
ghost use Rattle.ledger.specs.Calls.{load, publish, ask, drop_key};
ghost use Rattle.loading.specs.Forms.{loading_of};
ghost use Rattle.slot.specs.Replies.{state_of, answer_number, fresh_slot, handed};
ghost use Rattle.slot.specs.Parts.{slot_in, keyless, loaded_of, answered_of, counted_of, derived_of};

use field::Verdict;
use key::kept::Key;
use key::shape::ShapeAnswer;
use loading::Form;
use reading::Answer;
use reporting::Counted;
use session_key::SessionKey;

// The state and the key, the key of zeros where it is empty. State 0 is no key, 1 a key, any other a published key.
#[repr(C)]
#[derive(Clone, Copy)]
pub struct Slot {
    pub state: u8,
    pub key: Key,
}

// No key is held.
fn is_empty(state: u8) -> bool
    ensures { result ≡ is_empty (state_of state) }
{
    state == Slot::EMPTY
}

// The key is published.
fn is_published(state: u8) -> bool
    ensures { result ≡ not (is_unpublished (state_of state)) }
{
    Slot::LOADED < state
}

// The number of a refusal to open or read, and 0 where the pattern is written.
pub fn answer_number(answer: Answer) -> u8
    ensures { result ≡ answer_number answer }
{
    match answer {
        Answer::Ones(_) => 0,
        Answer::Refused(n) => n,
    }
}

impl Slot {
    // The states.
    pub const EMPTY: u8 = 0;

    pub const LOADED: u8 = 1;

    pub const PUBLISHED: u8 = 2;

    // The limit on t, 128.
    pub const MOST_ERRORS: usize = Key::MOST_ERRORS;

    // The limit on the register's list, 256.
    pub const LONGEST: usize = register::Registered::LONGEST;

    // The empty slot.
    pub fn fresh() -> Slot
        ensures { result ≡ fresh_slot }
    {
        Slot {
            state: Slot::EMPTY,
            key: key::kept::none(),
        }
    }
}

// The shape of the file's key, which the slot is to keep; 22, 1, 2, 3, 4, 5, 6 or 7 on refusal, and for a network file 36 behind 2.
// A load asks for nothing but the state.
pub fn load(state: u8, form: Form, file: &[u8]) -> ShapeAnswer
    ensures { result ≡ loaded_of (handed (keyless state) (load (loading_of form file.now))) }
{
    if !is_empty(state) {
        return ShapeAnswer::Refused(22);
    }
    loading::shape(form, file)
}

// T is written from the output's start, made in the first m·t × ceil(n/8) bytes of work; 21, 25, 34, 10, 11 or 23 on refusal.
// All other bytes of work keep their contents, and these too under 21, 25, 34, 10 and 11. The key stays.
pub fn publish<'a>(
    state: u8,
    m: u8,
    n: u16,
    t: u16,
    support: &'a [u16; Key::MOST_PLACES],
    g: &'a [u16; Key::MOST_ERRORS],
    out: &mut [u8],
    work: &mut [u8],
) -> Verdict
    ensures answer { result ≡ verdict_of (handed (slot_in state m n t support.now g.now) (publish (systematic out.old work.old))).reply.refused }
    ensures output { out.new ≡ (handed (slot_in state m n t support.now g.now) (publish (systematic out.old work.old))).output }
    ensures workspace { let f = (handed (slot_in state m n t support.now g.now) (publish (systematic out.old work.old))).free in
        drop f work.new ≡ drop f work.old }
{
    if is_empty(state) {
        return Verdict::Refused(21);
    }
    publishing::publish(m, n, t, support, g, out, work)
}

// T is written from the output's start, made in the first 2·m·t × ceil(m·t/8) bytes of work (request L9); 21, 25, 34, 10, 11 or 23
// on refusal. All other bytes of work keep their contents, and these too under 21, 25, 34, 10 and 11. The key stays.
pub fn publish_small<'a>(
    state: u8,
    m: u8,
    n: u16,
    t: u16,
    support: &'a [u16; Key::MOST_PLACES],
    g: &'a [u16; Key::MOST_ERRORS],
    out: &mut [u8],
    work: &mut [u8],
) -> Verdict
    ensures answer { result ≡ verdict_of (handed (slot_in state m n t support.now g.now) (publish (small out.old work.old))).reply.refused }
    ensures output { out.new ≡ (handed (slot_in state m n t support.now g.now) (publish (small out.old work.old))).output }
    ensures workspace { let f = (handed (slot_in state m n t support.now g.now) (publish (small out.old work.old))).free in
        drop f work.new ≡ drop f work.old }
{
    if is_empty(state) {
        return Verdict::Refused(21);
    }
    small_publishing::publish_small(m, n, t, support, g, out, work)
}

// The pattern of a capsule is written from the output's start; 21, 25, 34, 24, 8, 9, 10 or 13 on refusal.
pub fn open<'a>(
    state: u8,
    m: u8,
    n: u16,
    t: u16,
    support: &'a [u16; Key::MOST_PLACES],
    g: &'a [u16; Key::MOST_ERRORS],
    capsule: &[u8],
    out: &mut [u8],
) -> Answer
    ensures answer { result ≡ answered_of (handed (slot_in state m n t support.now g.now) (ask (open_capsule capsule.now out.old))) }
    ensures output { out.new ≡ (handed (slot_in state m n t support.now g.now) (ask (open_capsule capsule.now out.old))).output }
{
    if is_empty(state) {
        return Answer::Refused(21);
    }
    reading::open(m, n, t, support, g, is_published(state), capsule, out)
}

// The pattern of a word is written from the output's start; 21, 25, 8, 9, 10 or 14 on refusal.
pub fn read<'a>(
    state: u8,
    m: u8,
    n: u16,
    t: u16,
    support: &'a [u16; Key::MOST_PLACES],
    g: &'a [u16; Key::MOST_ERRORS],
    word: &[u8],
    out: &mut [u8],
) -> Answer
    ensures answer { result ≡ answered_of (handed (slot_in state m n t support.now g.now) (ask (read_word word.now out.old))) }
    ensures output { out.new ≡ (handed (slot_in state m n t support.now g.now) (ask (read_word word.now out.old))).output }
{
    if is_empty(state) {
        return Answer::Refused(21);
    }
    reading::read(m, n, t, support, g, word, out)
}

// The differences of a marked word are written from the output's start, and those at unmarked places are counted; 21, 25, 8, 9, 37,
// 10 or 14 on refusal.
pub fn read_marked<'a>(
    state: u8,
    m: u8,
    n: u16,
    t: u16,
    support: &'a [u16; Key::MOST_PLACES],
    g: &'a [u16; Key::MOST_ERRORS],
    word: &[u8],
    marks: &[u8],
    out: &mut [u8],
) -> Answer
    ensures answer { result ≡ answered_of (handed (slot_in state m n t support.now g.now) (ask (read_marked word.now marks.now out.old))) }
    ensures output { out.new ≡ (handed (slot_in state m n t support.now g.now) (ask (read_marked word.now marks.now out.old))).output }
{
    if is_empty(state) {
        return Answer::Refused(21);
    }
    marked_reading::read_marked(m, n, t, support, g, word, marks, out)
}

// The record of each capsule is written from the record buffer's start: 0 where it is opened, else its refusal's number, and
// the records are counted by their value; 21, 25, 34, 24 or 31 on refusal.
#[inline(never)]
pub fn report<'a>(
    state: u8,
    m: u8,
    n: u16,
    t: u16,
    support: &'a [u16; Key::MOST_PLACES],
    g: &'a [u16; Key::MOST_ERRORS],
    capsules: &[u8],
    records: &mut [u8],
) -> Counted
    ensures answer { result ≡ counted_of (handed (slot_in state m n t support.now g.now) (ask (report capsules.now records.old))) }
    ensures output { records.new ≡ (handed (slot_in state m n t support.now g.now) (ask (report capsules.now records.old))).output }
{
    if is_empty(state) {
        return Counted {
            refused: 21,
            counts: [0; 256],
        };
    }
    let published = is_published(state);
    reporting::report(m, n, t, support, g, published, capsules, records)
}

// The session key of a capsule, with the secret for one that open refuses with 13; 21, 25, 34, 24, 8, 9 or 33 on refusal.
pub fn session<'a>(
    state: u8,
    m: u8,
    n: u16,
    t: u16,
    support: &'a [u16; Key::MOST_PLACES],
    g: &'a [u16; Key::MOST_ERRORS],
    capsule: &[u8],
    secret: &[u8],
) -> SessionKey
    ensures { result ≡ derived_of (handed (slot_in state m n t support.now g.now) (ask (derive_session_key capsule.now secret.now))) }
{
    if is_empty(state) {
        return SessionKey {
            refused: 21,
            key: [0; 32],
        };
    }
    let marked = is_published(state);
    session_key::session(m, n, t, support, g, marked, capsule, secret)
}

// Whether the slot becomes a fresh one; 21 on refusal. A drop asks for nothing but the state.
pub fn drop(state: u8) -> Verdict
    ensures { result ≡ verdict_of (handed (keyless state) drop_key).reply.refused }
{
    if is_empty(state) {
        return Verdict::Refused(21);
    }
    Verdict::Accepted
}
