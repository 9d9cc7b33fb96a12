// Lists added and copied place by place.
ghost use Rattle.std.specs.Prelude.{◌≡◌};
ghost use Rattle.bits.specs.Bits.{each_with, xor_row};

// s added to r at each place, as far as both go.
pub fn add_each(r: &mut [u16], s: &[u16])
    ensures { r.new ≡ xor_row r.old s.now }
{
    let n = bits::smaller(r.len(), s.len());
    let mut i = 0;
    while i < n {
        r[i] ^= s[i];
        i += 1;
    }
}

// s written over r at each place, as far as both go.
pub fn copy_each(r: &mut [u16], s: &[u16])
    ensures { r.new ≡ each_with (λ x y. y) r.old s.now }
{
    let n = bits::smaller(r.len(), s.len());
    let mut i = 0;
    while i < n {
        r[i] = s[i];
        i += 1;
    }
}
