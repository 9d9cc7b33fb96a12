// The key that is kept.
ghost use Rattle.std.specs.Prelude.{◌≡◌};
ghost use Rattle.key.specs.Kept.{no_key};

// The support's first n and g's first t numbers are the key's.
#[repr(C)]
#[derive(Clone, Copy)]
pub struct Key {
    pub m: u8,
    pub n: u16,
    pub t: u16,
    pub support: [u16; Key::MOST_PLACES],
    pub g: [u16; Key::MOST_ERRORS],
}

impl Key {
    // The limit on n.
    pub const MOST_PLACES: usize = 8192;

    // The limit on t.
    pub const MOST_ERRORS: usize = 128;
}

// The key of zeros.
pub fn none() -> Key
    ensures { result ≡ no_key }
{
    Key {
        m: 0,
        n: 0,
        t: 0,
        support: [0; Key::MOST_PLACES],
        g: [0; Key::MOST_ERRORS],
    }
}
