// A greatest common divisor of two polynomials: Euclid's algorithm.
ghost use Rattle.std.specs.Prelude.{◌≡◌, true, map, ◌+◌, ◌*◌, ◌<◌, ◌≤◌, length};
ghost use Rattle.bits.specs.Bits.{every, padded};
ghost use Rattle.field.specs.Field.{is_width, is_element, mul};
ghost use Rattle.euclid.specs.Euclid.{
  size as size_of,
  started,
  added,
  step as step_of,
  steps as steps_of,
  accepted as accepted_of,
  common_divisor,
};

use field::Answer;

// A polynomial: the first length coefficients of c, of which the last is not 0; the others are 0.
#[derive(Drop)]
pub struct Divisor {
    pub length: usize,
    pub c: [u16; Divisor::COEFFICIENTS],
}

impl Divisor {
    // The most coefficients.
    pub const COEFFICIENTS: usize = 129;
}

// Two polynomials a and b, whose coefficients from da and from db on are 0.
#[derive(Drop)]
struct Pair {
    a: [u16; Divisor::COEFFICIENTS],
    b: [u16; Divisor::COEFFICIENTS],
    da: usize,
    db: usize,
}

// A greatest common divisor of a and b; length 0 where m is no width, or a or b has over 129 coefficients or one that is no
// element.
pub fn common_divisor(m: u8, a: &[u16], b: &[u16]) -> Divisor
    ensures { result ≡ common_divisor m a.now b.now }
{
    let none = Divisor {
        length: 0,
        c: [0u16; Divisor::COEFFICIENTS],
    };
    if !accepted(m, a) {
        return none;
    }
    if !accepted(m, b) {
        return none;
    }
    let p = steps(m, start(a, b));
    let c = p.a;
    Divisor { length: p.da, c }
}

// m is a width, and p has at most 129 coefficients, each an element.
fn accepted(m: u8, p: &[u16]) -> bool
    ensures { result ≡ accepted_of m p.now }
{
    if field::modulus(m) == 0 {
        return false;
    }
    if Divisor::COEFFICIENTS < p.len() {
        return false;
    }
    field::elements(m, p)
}

// The number of coefficients up to the last that is not 0.
fn size(p: &[u16]) -> usize
    ensures { result ≡ size_of p.now }
{
    let mut n = p.len();
    while 0 < n {
        if p[n - 1] != 0 {
            return n;
        }
        n -= 1;
    }
    0
}

// The coefficients of p, with zeros behind them.
pub(crate) fn load(p: &[u16]) -> [u16; Divisor::COEFFICIENTS]
    requires { length p.now ≤ 129 }
    ensures { result ≡ padded 129 p.now }
{
    let mut a = [0u16; Divisor::COEFFICIENTS];
    let mut i = 0;
    while i < p.len() {
        a[i] = p[i];
        i += 1;
    }
    a
}

// a and b before the first step.
fn start(a: &[u16], b: &[u16]) -> Pair
    requires { (length a.now ≤ 129) × (length b.now ≤ 129) }
    ensures { result ≡ started a.now b.now }
{
    Pair {
        a: load(a),
        b: load(b),
        da: size(a),
        db: size(b),
    }
}

// c·b.
fn multiple(m: u8, c: u16, b: [u16; Divisor::COEFFICIENTS]) -> [u16; Divisor::COEFFICIENTS]
    requires { is_width m ≡ true }
    ensures { result ≡ map (mul m c) b }
{
    let mut r = b;
    let s = [c; Divisor::COEFFICIENTS];
    field_places::horner_each(m, &mut r, &s, 0);
    r
}

// a + x^y·b, of which the coefficients from n on are a's.
fn add_shifted(
    y: usize,
    n: usize,
    a: [u16; Divisor::COEFFICIENTS],
    b: [u16; Divisor::COEFFICIENTS],
) -> [u16; Divisor::COEFFICIENTS]
    requires { (y ≤ n) × (n ≤ 129) }
    ensures { result ≡ added y n a b }
{
    let mut r = a;
    let mut k = y;
    while k < n {
        r[k] ^= b[k - y];
        k += 1;
    }
    r
}

// One step: b's top coefficient is 0 and is left out; or a has fewer coefficients than b, and they change places; or a loses
// its top coefficient.
fn step(m: u8, p: Pair) -> Pair
    requires { (is_width m ≡ true) × (0 < p.db) × (p.da ≤ 129) × (p.db ≤ 129) × (every (is_element m) p.b ≡ true) }
    ensures { result ≡ step_of m p }
{
    let a = p.a;
    let b = p.b;
    let da = p.da;
    let db = p.db;
    let top = b[db - 1];
    if top == 0 {
        return Pair {
            a,
            b,
            da,
            db: db - 1,
        };
    }
    if da < db {
        return Pair {
            a: b,
            b: a,
            da: db,
            db: da,
        };
    }
    let lead = a[da - 1];
    let i = field::inverse(m, top);
    // Not refused: an element other than 0.
    let Answer::Value(v) = i else {
        return p;
    };
    let c = field::times(m, lead, v);
    Pair {
        a: add_shifted(da - db, da, a, multiple(m, c, b)),
        b,
        da: da - 1,
        db,
    }
}

// Steps until b has no coefficient.
fn steps(m: u8, p: Pair) -> Pair
    requires { (is_width m ≡ true) × (p.da ≤ 129) × (p.db ≤ 129) × (every (is_element m) p.a ≡ true) × (every (is_element m) p.b ≡ true) }
    ensures { result ≡ steps_of m (p.da + 2 * p.db) p }
{
    let mut q = p;
    while 0 < q.db {
        q = step(m, q);
    }
    q
}
