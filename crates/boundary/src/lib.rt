// The answers of the crates below as structs of C callers.
#![tactic(auto)]

ghost use Rattle.std.specs.Prelude.{◌≡◌};
ghost use Rattle.boundary.specs.Boundary.{as_element, as_shape};

use field::Answer;
use key::shape::ShapeAnswer;

// The element, or the number of a refusal with value 0.
#[repr(C)]
#[derive(Drop)]
pub struct Element {
    pub refused: u8,
    pub value: u16,
}

// The shape, or the number of a refusal with sizes 0.
#[repr(C)]
#[derive(Drop)]
pub struct Shape {
    pub refused: u8,
    pub m: u8,
    pub n: u16,
    pub t: u16,
}

// The number of a field answer's refusal, and 0 for an element.
fn element_number(answer: Answer) -> u8
    ensures { result ≡ (as_element answer).refused }
{
    match answer {
        Answer::Value(_) => 0,
        Answer::Refused(x) => x,
    }
}

// A field answer as a struct.
pub fn as_element(answer: Answer) -> Element
    ensures { result ≡ as_element answer }
{
    let Answer::Value(v) = answer else {
        return Element {
            refused: element_number(answer),
            value: 0,
        };
    };
    Element {
        refused: 0,
        value: v,
    }
}

// A shape's answer as a struct.
pub fn as_shape(answer: ShapeAnswer) -> Shape
    ensures { result ≡ as_shape answer }
{
    let ShapeAnswer::Sizes(s) = answer else {
        return Shape {
            refused: key::shape::number(answer),
            m: 0,
            n: 0,
            t: 0,
        };
    };
    Shape {
        refused: 0,
        m: s.m,
        n: s.n,
        t: s.t,
    }
}
