// Powers of a number, and coefficients times them.
ghost use Rattle.std.specs.Prelude.{◌≡◌, min};
ghost use Rattle.bits.specs.Bits.{padded};
ghost use Rattle.levels.specs.Twist.{powers_of, twisted_by};

// b, b², .., n numbers of at most 512, with zeros behind them.
pub fn powers(m: u8, b: u16, n: usize) -> [u16; 512]
    ensures { result ≡ padded 512 (powers_of m b (min n 512)) }
{
    let e = bits::smaller(n, 512);
    let mut r = [0u16; 512];
    let mut s: u16 = 1;
    let mut i = 0;
    while i < e {
        s = field::times(m, s, b);
        r[i] = s;
        i += 1;
    }
    r
}

// c_i·p_i for each c_i behind the first; nothing where m is no width.
pub fn twist(m: u8, p: &[u16], c: &mut [u16])
    ensures { c.new ≡ twisted_by m p.now c.old }
{
    if c.len() == 0 {
        return;
    }
    field_places::horner_each(m, &mut c[1..], p, 0);
}
