// How often byte values stand in some bytes.
ghost use Rattle.std.specs.Prelude.{◌≡◌};
ghost use Rattle.vectors.specs.Values.{occurrences_of, counts_hold};

// The byte values.
const VALUES: usize = 256;

// How often a value stands in the bytes.
fn occurrences(bytes: &[u8], value: u8) -> usize
    ensures { result ≡ occurrences_of value bytes.now }
{
    let mut k = 0;
    let mut i = 0;
    while i < bytes.len() {
        if bytes[i] == value {
            k += 1;
        }
        i += 1;
    }
    k
}

// The counts say for each value how often it stands in the bytes.
pub fn counts_hold(counts: &[usize; 256], bytes: &[u8]) -> bool
    ensures { result ≡ counts_hold counts.now bytes.now }
{
    let mut v = 0;
    while v < VALUES {
        if counts[v] != occurrences(bytes, v as u8) {
            return false;
        }
        v += 1;
    }
    true
}
