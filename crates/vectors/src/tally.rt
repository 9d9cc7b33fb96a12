// Agreements and differences of cases of several kinds.
ghost use Rattle.std.specs.Prelude.{◌≡◌, ◌%◌, get_or};
ghost use Rattle.vectors.specs.Tallies.{no_cases, counted_of};

// The kinds at most.
const KINDS: usize = 16;

#[derive(Clone, Copy)]
pub struct Tally {
    pub agree: [u64; 16],
    pub differ: [u64; 16],
}

// No case yet.
pub fn none() -> Tally
    ensures { result ≡ no_cases }
{
    Tally {
        agree: [0; KINDS],
        differ: [0; KINDS],
    }
}

// One case more.
pub fn counted(mut t: Tally, kind: usize, agrees: bool) -> Tally
    ensures { result ≡ counted_of t kind agrees }
{
    let k = kind % KINDS;
    if agrees {
        t.agree[k] = t.agree[k] % 1000000 + 1;
        return t;
    }
    t.differ[k] = t.differ[k] % 1000000 + 1;
    t
}

// The agreements of a kind.
pub fn agreements(t: Tally, kind: usize) -> u64
    ensures { result ≡ get_or t.agree (kind % 16) 0 }
{
    let k = kind % KINDS;
    t.agree[k]
}

// The differences of a kind.
pub fn differences(t: Tally, kind: usize) -> u64
    ensures { result ≡ get_or t.differ (kind % 16) 0 }
{
    let k = kind % KINDS;
    t.differ[k]
}
