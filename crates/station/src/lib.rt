// The station: a slot for each of two recipients, A and B (request L6). Each call names one by a byte and is that slot's call; a
// byte other than 1 and 2 is refused with 35, before all else. The slot that is named is lent part by part, so that it is not copied.
#![tactic(auto)]

ghost use Rattle.std.specs.Prelude.{◌≡◌, drop, replicate};
ghost use Rattle.ledger.specs.Loading.{key_file, network_file};
ghost use Rattle.ledger.specs.Publishing.{systematic, small};
ghost use Rattle.ledger.specs.Questions.{open_capsule, read_word, read_marked, report, derive_session_key};
ghost use Rattle.ledger.specs.Calls.{load, publish, ask, drop_key};
ghost use Rattle.slot.specs.Replies.{fresh_slot};
ghost use Rattle.recipients.specs.Names.{named};
ghost use Rattle.station.specs.Replies.{put, fresh_station, handed, reply_of, reported_of, derived_of};
ghost use Rattle.station.specs.Chosen.{chosen, refusal, marked};

use field::Verdict;
use key::kept::Key;
use key::shape::ShapeAnswer;
use loading::{Form, write_g, write_support};
use naming::{byte, coefficients, is_name, number, places};
use reading::Answer;
use slot::{Slot, answer_number};

// The slots of A and B.
#[repr(C)]
#[derive(Clone, Copy)]
pub struct Station {
    pub a: Slot,
    pub b: Slot,
}

// What a call hands back: the new station, the number of the refusal, 0 for none, and the number of ones written, of a marked reading
// those at unmarked places.
#[repr(C)]
#[derive(Drop)]
pub struct Reply {
    pub station: Station,
    pub refused: u8,
    pub ones: u16,
}

// What a report hands back: the station, the number of the refusal, 0 for none, and how often each byte value is among the
// records; zeros on refusal.
#[repr(C)]
#[derive(Drop)]
pub struct Reported {
    pub station: Station,
    pub refused: u8,
    pub counts: [usize; 256],
}

// What a session key's call hands back: the station, the number of the refusal, 0 for none, and the key; zeros on refusal.
#[repr(C)]
#[derive(Drop)]
pub struct Derived {
    pub station: Station,
    pub refused: u8,
    pub key: [u8; 32],
}

// Zeros.
fn clear_places(places: &mut [u16; Key::MOST_PLACES])
    ensures { places.new ≡ replicate 8192 0 }
{
    *places = [0; Key::MOST_PLACES];
}

fn clear_coefficients(coefficients: &mut [u16; Key::MOST_ERRORS])
    ensures { coefficients.new ≡ replicate 128 0 }
{
    *coefficients = [0; Key::MOST_ERRORS];
}

impl Station {
    // The names.
    pub const A: u8 = naming::A;

    pub const B: u8 = naming::B;

    // The limit on t, 128.
    pub const MOST_ERRORS: usize = Slot::MOST_ERRORS;

    // The limit on the register's list, 256.
    pub const LONGEST: usize = Slot::LONGEST;

    // The station with two empty slots.
    pub fn fresh() -> Station
        ensures { result ≡ fresh_station }
    {
        let a = Slot::fresh();
        Station { a, b: a }
    }

    // A refusal changes nothing.
    fn refuse(self, number: u8) -> Reply
        ensures { result ≡ refusal self number }
    {
        Reply {
            station: self,
            refused: number,
            ones: 0,
        }
    }

    // The slot of the name becomes a fresh one.
    fn cleared(self, name: u8) -> Station
        ensures { result ≡ put (chosen name) fresh_slot self }
    {
        let mut station = self;
        if name == Station::A {
            station.a.state = Slot::EMPTY;
            station.a.key.m = 0;
            station.a.key.n = 0;
            station.a.key.t = 0;
            clear_places(&mut station.a.key.support);
            clear_coefficients(&mut station.a.key.g);
        } else {
            station.b.state = Slot::EMPTY;
            station.b.key.m = 0;
            station.b.key.n = 0;
            station.b.key.t = 0;
            clear_places(&mut station.b.key.support);
            clear_coefficients(&mut station.b.key.g);
        }
        station
    }

    // Accepted, with the slot of the name published.
    fn mark(self, name: u8) -> Reply
        ensures { result ≡ marked name self }
    {
        let mut station = self;
        if name == Station::A {
            station.a.state = Slot::PUBLISHED;
        } else {
            station.b.state = Slot::PUBLISHED;
        }
        Reply {
            station,
            refused: 0,
            ones: 0,
        }
    }

    // A refusal with 35 becomes the reply to the load of a key file, in place.
    fn put_load(reply: &mut Reply, name: u8, file: &[u8])
        requires { reply.old ≡ refusal reply.old.station 35 }
        ensures { reply.new ≡ reply_of (handed reply.old.station (named name (load (key_file file.now)))) }
    {
        if !is_name(name) {
            return;
        }
        let answer = slot::load(
            byte(name, reply.station.a.state, reply.station.b.state),
            Form::KeyFile,
            file,
        );
        let ShapeAnswer::Sizes(s) = answer else {
            reply.refused = key::shape::number(answer);
            return;
        };
        reply.refused = 0;
        if name == Station::A {
            reply.station.a.state = Slot::LOADED;
            reply.station.a.key.m = s.m;
            reply.station.a.key.n = s.n;
            reply.station.a.key.t = s.t;
            write_support(Form::KeyFile, file, s, &mut reply.station.a.key.support);
            write_g(Form::KeyFile, file, s, &mut reply.station.a.key.g);
        } else {
            reply.station.b.state = Slot::LOADED;
            reply.station.b.key.m = s.m;
            reply.station.b.key.n = s.n;
            reply.station.b.key.t = s.t;
            write_support(Form::KeyFile, file, s, &mut reply.station.b.key.support);
            write_g(Form::KeyFile, file, s, &mut reply.station.b.key.g);
        }
    }

    // A refusal with 35 becomes the reply to the load of a network file, in place.
    fn put_load_network(held: &mut Reply, name: u8, file: &[u8])
        requires { held.old ≡ refusal held.old.station 35 }
        ensures { held.new ≡ reply_of (handed held.old.station (named name (load (network_file file.now)))) }
    {
        if !is_name(name) {
            return;
        }
        let answer = slot::load(
            byte(name, held.station.a.state, held.station.b.state),
            Form::NetworkFile,
            file,
        );
        let ShapeAnswer::Sizes(s) = answer else {
            held.refused = key::shape::number(answer);
            return;
        };
        held.refused = 0;
        if name == Station::A {
            held.station.a.state = Slot::LOADED;
            held.station.a.key.m = s.m;
            held.station.a.key.n = s.n;
            held.station.a.key.t = s.t;
            write_support(Form::NetworkFile, file, s, &mut held.station.a.key.support);
            write_g(Form::NetworkFile, file, s, &mut held.station.a.key.g);
        } else {
            held.station.b.state = Slot::LOADED;
            held.station.b.key.m = s.m;
            held.station.b.key.n = s.n;
            held.station.b.key.t = s.t;
            write_support(Form::NetworkFile, file, s, &mut held.station.b.key.support);
            write_g(Form::NetworkFile, file, s, &mut held.station.b.key.g);
        }
    }

    // The key of a key file is kept; 35, 22, 1, 2, 3, 4, 5, 6 or 7 on refusal. It is written where it stays, so that it is not copied.
    pub fn load(self, name: u8, file: &[u8]) -> Reply
        ensures { result ≡ reply_of (handed self (named name (load (key_file file.now)))) }
    {
        let mut reply = self.refuse(35);
        Station::put_load(&mut reply, name, file);
        reply
    }

    // The key of a network file is kept likewise; 35, 22, 1, 2, 36, 3, 4, 6 or 7 on refusal.
    pub fn load_network(self, name: u8, file: &[u8]) -> Reply
        ensures { result ≡ reply_of (handed self (named name (load (network_file file.now)))) }
    {
        let mut held = self.refuse(35);
        Station::put_load_network(&mut held, name, file);
        held
    }

    // T is written from the output's start, made in the first m·t × ceil(n/8) bytes of work; 35, 21, 25, 34, 10, 11 or 23 on refusal.
    // All other bytes of work keep their contents, and these too under 35, 21, 25, 34, 10 and 11.
    pub fn publish(self, name: u8, out: &mut [u8], work: &mut [u8]) -> Reply
        ensures reply { result ≡ reply_of (handed self (named name (publish (systematic out.old work.old)))) }
        ensures output { out.new ≡ (handed self (named name (publish (systematic out.old work.old)))).output }
        ensures workspace { let f = (handed self (named name (publish (systematic out.old work.old)))).free in
            drop f work.new ≡ drop f work.old }
    {
        if !is_name(name) {
            return self.refuse(35);
        }
        let answer = slot::publish(
            byte(name, self.a.state, self.b.state),
            byte(name, self.a.key.m, self.b.key.m),
            number(name, self.a.key.n, self.b.key.n),
            number(name, self.a.key.t, self.b.key.t),
            places(name, &self.a.key.support, &self.b.key.support),
            coefficients(name, &self.a.key.g, &self.b.key.g),
            out,
            work,
        );
        let Verdict::Accepted = answer else {
            return self.refuse(field::number(answer));
        };
        self.mark(name)
    }

    // T is written from the output's start, made in the first 2·m·t × ceil(m·t/8) bytes of work (request L9); 35, 21, 25, 34, 10, 11 or
    // 23 on refusal. All other bytes of work keep their contents, and these too under 35, 21, 25, 34, 10 and 11.
    pub fn publish_small(self, name: u8, out: &mut [u8], work: &mut [u8]) -> Reply
        ensures reply { result ≡ reply_of (handed self (named name (publish (small out.old work.old)))) }
        ensures output { out.new ≡ (handed self (named name (publish (small out.old work.old)))).output }
        ensures workspace { let f = (handed self (named name (publish (small out.old work.old)))).free in
            drop f work.new ≡ drop f work.old }
    {
        if !is_name(name) {
            return self.refuse(35);
        }
        let answer = slot::publish_small(
            byte(name, self.a.state, self.b.state),
            byte(name, self.a.key.m, self.b.key.m),
            number(name, self.a.key.n, self.b.key.n),
            number(name, self.a.key.t, self.b.key.t),
            places(name, &self.a.key.support, &self.b.key.support),
            coefficients(name, &self.a.key.g, &self.b.key.g),
            out,
            work,
        );
        let Verdict::Accepted = answer else {
            return self.refuse(field::number(answer));
        };
        self.mark(name)
    }

    // The pattern of a capsule is written from the output's start; 35, 21, 25, 34, 24, 8, 9, 10 or 13 on refusal.
    pub fn open(self, name: u8, capsule: &[u8], out: &mut [u8]) -> Reply
        ensures reply { result ≡ reply_of (handed self (named name (ask (open_capsule capsule.now out.old)))) }
        ensures output { out.new ≡ (handed self (named name (ask (open_capsule capsule.now out.old)))).output }
    {
        if !is_name(name) {
            return self.refuse(35);
        }
        let answer = slot::open(
            byte(name, self.a.state, self.b.state),
            byte(name, self.a.key.m, self.b.key.m),
            number(name, self.a.key.n, self.b.key.n),
            number(name, self.a.key.t, self.b.key.t),
            places(name, &self.a.key.support, &self.b.key.support),
            coefficients(name, &self.a.key.g, &self.b.key.g),
            capsule,
            out,
        );
        let Answer::Ones(ones) = answer else {
            return self.refuse(answer_number(answer));
        };
        Reply {
            station: self,
            refused: 0,
            ones,
        }
    }

    // The pattern of a word is written from the output's start; 35, 21, 25, 8, 9, 10 or 14 on refusal.
    pub fn read(self, name: u8, word: &[u8], out: &mut [u8]) -> Reply
        ensures reply { result ≡ reply_of (handed self (named name (ask (read_word word.now out.old)))) }
        ensures output { out.new ≡ (handed self (named name (ask (read_word word.now out.old)))).output }
    {
        if !is_name(name) {
            return self.refuse(35);
        }
        let answer = slot::read(
            byte(name, self.a.state, self.b.state),
            byte(name, self.a.key.m, self.b.key.m),
            number(name, self.a.key.n, self.b.key.n),
            number(name, self.a.key.t, self.b.key.t),
            places(name, &self.a.key.support, &self.b.key.support),
            coefficients(name, &self.a.key.g, &self.b.key.g),
            word,
            out,
        );
        let Answer::Ones(ones) = answer else {
            return self.refuse(answer_number(answer));
        };
        Reply {
            station: self,
            refused: 0,
            ones,
        }
    }

    // The differences of a marked word are written from the output's start, and those at unmarked places are counted; 35, 21, 25, 8,
    // 9, 37, 10 or 14 on refusal.
    pub fn read_marked(self, name: u8, word: &[u8], marks: &[u8], out: &mut [u8]) -> Reply
        ensures reply { result ≡ reply_of (handed self (named name (ask (read_marked word.now marks.now out.old)))) }
        ensures output { out.new ≡ (handed self (named name (ask (read_marked word.now marks.now out.old)))).output }
    {
        if !is_name(name) {
            return self.refuse(35);
        }
        let answer = slot::read_marked(
            byte(name, self.a.state, self.b.state),
            byte(name, self.a.key.m, self.b.key.m),
            number(name, self.a.key.n, self.b.key.n),
            number(name, self.a.key.t, self.b.key.t),
            places(name, &self.a.key.support, &self.b.key.support),
            coefficients(name, &self.a.key.g, &self.b.key.g),
            word,
            marks,
            out,
        );
        let Answer::Ones(ones) = answer else {
            return self.refuse(answer_number(answer));
        };
        Reply {
            station: self,
            refused: 0,
            ones,
        }
    }

    // The record of each capsule is written from the record buffer's start: 0 where it is opened, else its refusal's number, and
    // the records are counted by their value; 35, 21, 25, 34, 24 or 31 on refusal.
    pub fn report(self, name: u8, capsules: &[u8], records: &mut [u8]) -> Reported
        ensures reply { result ≡ reported_of (handed self (named name (ask (report capsules.now records.old)))) }
        ensures output { records.new ≡ (handed self (named name (ask (report capsules.now records.old)))).output }
    {
        if !is_name(name) {
            return Reported {
                station: self,
                refused: 35,
                counts: [0; 256],
            };
        }
        let counted = slot::report(
            byte(name, self.a.state, self.b.state),
            byte(name, self.a.key.m, self.b.key.m),
            number(name, self.a.key.n, self.b.key.n),
            number(name, self.a.key.t, self.b.key.t),
            places(name, &self.a.key.support, &self.b.key.support),
            coefficients(name, &self.a.key.g, &self.b.key.g),
            capsules,
            records,
        );
        let counts = counted.counts;
        Reported {
            station: self,
            refused: counted.refused,
            counts,
        }
    }

    // The session key of a capsule, with the secret for one that open refuses with 13; 35, 21, 25, 34, 24, 8, 9 or 33 on refusal.
    pub fn session(self, name: u8, capsule: &[u8], secret: &[u8]) -> Derived
        ensures { result ≡ derived_of (handed self (named name (ask (derive_session_key capsule.now secret.now)))) }
    {
        if !is_name(name) {
            return Derived {
                station: self,
                refused: 35,
                key: [0; 32],
            };
        }
        let derived = slot::session(
            byte(name, self.a.state, self.b.state),
            byte(name, self.a.key.m, self.b.key.m),
            number(name, self.a.key.n, self.b.key.n),
            number(name, self.a.key.t, self.b.key.t),
            places(name, &self.a.key.support, &self.b.key.support),
            coefficients(name, &self.a.key.g, &self.b.key.g),
            capsule,
            secret,
        );
        let key = derived.key;
        Derived {
            station: self,
            refused: derived.refused,
            key,
        }
    }

    // Afterwards the slot that is named is a fresh one; 35 or 21 on refusal.
    pub fn drop(self, name: u8) -> Reply
        ensures { result ≡ reply_of (handed self (named name drop_key)) }
    {
        if !is_name(name) {
            return self.refuse(35);
        }
        let answer = slot::drop(byte(name, self.a.state, self.b.state));
        let Verdict::Accepted = answer else {
            return self.refuse(field::number(answer));
        };
        let station = self.cleared(name);
        Reply {
            station,
            refused: 0,
            ones: 0,
        }
    }
}
