// The points of a word: the members of the support where it has a one.
ghost use Rattle.std.specs.Prelude.{◌≡◌, ◌≤◌, length, take};
ghost use Rattle.bits.specs.Bits.{unpack};
ghost use Rattle.decoder.specs.Decoding.{chosen as chosen_of};

// The first `count` numbers of `at`.
#[derive(Drop)]
pub struct Points {
    pub count: usize,
    pub at: [u16; 8192],
}

// The points of a word, whose bits past its last byte are 0.
#[inline(never)]
pub fn chosen(support: &[u16], word: &[u8]) -> Points
    requires { length support.now ≤ 8192 }
    ensures all { take result.count result.at ≡ chosen_of (unpack (length support.now) word.now) support.now }
    ensures number { result.count ≡ length (chosen_of (unpack (length support.now) word.now) support.now) }
{
    let mut at = [0u16; 8192];
    let mut count: usize = 0;
    let mut i = 0;
    while i < support.len() {
        at[count] = support[i];
        count += bits::wide(bits::bit_at(word, i));
        i += 1;
    }
    Points { count, at }
}
