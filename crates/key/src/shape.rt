// Shapes (m, n, t), their limits and the standard's five.
ghost use Rattle.std.specs.Prelude.{◌≡◌};
ghost use Rattle.key.specs.Shapes.{in_limits};
ghost use Rattle.key.specs.Answers.{answer_number, shape_of};

use super::kept::Key;

#[derive(Clone, Copy)]
pub struct Sizes {
    pub m: u8,
    pub n: u16,
    pub t: u16,
}

// The shape, or the number of a refusal.
#[derive(Drop)]
pub enum ShapeAnswer {
    Sizes(Sizes),
    Refused(u8),
}

// The number of a refusal, and 0 for a shape.
pub fn number(answer: ShapeAnswer) -> u8
    ensures { result ≡ answer_number answer }
{
    match answer {
        ShapeAnswer::Sizes(_) => 0,
        ShapeAnswer::Refused(x) => x,
    }
}

// mceliece348864, 460896, 6688128, 6960119, 8192128.
const SHAPES: [Sizes; 5] = [
    Sizes {
        m: 12,
        n: 3488,
        t: 64,
    },
    Sizes {
        m: 13,
        n: 4608,
        t: 96,
    },
    Sizes {
        m: 13,
        n: 6688,
        t: 128,
    },
    Sizes {
        m: 13,
        n: 6960,
        t: 119,
    },
    Sizes {
        m: 13,
        n: 8192,
        t: 128,
    },
];

// The standard's shape at position 1 to 5.
pub fn shape(position: u8) -> ShapeAnswer
    ensures { result ≡ shape_of position }
{
    if position < 1 {
        return ShapeAnswer::Refused(3);
    }
    if 5 < position {
        return ShapeAnswer::Refused(3);
    }
    ShapeAnswer::Sizes(SHAPES[(position - 1) as usize])
}

// t from 1 to 128 and m·t < n ≤ 2^m.
pub fn in_limits(m: u8, n: u16, t: u16) -> bool
    ensures { result ≡ in_limits m n t }
{
    if t < 1 {
        return false;
    }
    if Key::MOST_ERRORS < t as usize {
        return false;
    }
    if (n as u32) <= (m as u32) * (t as u32) {
        return false;
    }
    if 16 <= m {
        return true;
    }
    let top: u32 = 1 << m;
    n as u32 <= top
}
