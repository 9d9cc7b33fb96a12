// The forms of load (documents 01, 'Keys', and 02, L7): the shape of what is loaded, and its arrays.
#![tactic(auto)]

ghost use Rattle.std.specs.Prelude.{◌≡◌};
ghost use Rattle.bits.specs.Bits.{padded};
ghost use Rattle.key.specs.declared.shape.ShapeAnswer.TheVariants as answers;
ghost use Rattle.ledger.specs.Loading.{loaded_key};
ghost use Rattle.loading.specs.Forms.{loading_of, loaded_shape};

use key::kept::Key;
use key::shape::{ShapeAnswer, Sizes};

// Document 01's key file, or request L7's, which stores the support as a switching network.
#[derive(Drop)]
pub enum Form {
    KeyFile,
    NetworkFile,
}

// The shape of the file's key; 1, 2, 3, 4, 5, 6 or 7 on refusal, and for a network file 36 behind 2.
pub fn shape(form: Form, file: &[u8]) -> ShapeAnswer
    ensures { result ≡ loaded_shape (loading_of form file.now) }
{
    match form {
        Form::KeyFile => key_file::shape(file),
        Form::NetworkFile => network_file::shape(file),
    }
}

// The support of a file that is accepted with the shape s, and zeros past it.
pub fn write_support(form: Form, file: &[u8], s: Sizes, support: &mut [u16; Key::MOST_PLACES])
    ensures { loaded_shape (loading_of form file.now) ≡ answers.Sizes s → support.new ≡ padded 8192 (loaded_key (loading_of form file.now)).support }
{
    match form {
        Form::KeyFile => key_file::write_support(file, s.n, support),
        Form::NetworkFile => network_file::write_support(file, support),
    }
}

// g likewise.
pub fn write_g(form: Form, file: &[u8], s: Sizes, g: &mut [u16; Key::MOST_ERRORS])
    ensures { loaded_shape (loading_of form file.now) ≡ answers.Sizes s → g.new ≡ padded 128 (loaded_key (loading_of form file.now)).g }
{
    match form {
        Form::KeyFile => key_file::write_g(file, s.n, s.t, g),
        Form::NetworkFile => network_file::write_g(file, g),
    }
}
