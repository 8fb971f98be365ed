// The forms of text. A form says which texts are well formed and what octets they stand for; how a text is measured and decoded follows from that.
ghost use Rattle.std.specs.Prelude.{◌≡◌, ℕ, Bool, List, length};
ghost use Rattle.octets.specs.Answers.{measured, decoded, decoded_into};

use crate::DecodeError;

pub trait Form {
    ghost valid: { List ℕ → Bool };

    ghost octets: { List ℕ → List ℕ };

    // How many octets a text stands for; none where it is malformed. It writes nothing.
    fn measure(text: &[u8]) -> Option<usize>
        ensures { result ≡ measured (valid text.now) (octets text.now) };

    // Decodes a text to the start of out. A text that is malformed, and one whose octets do not fit, leave out as it is.
    fn decode(text: &[u8], out: &mut [u8]) -> Result<usize, DecodeError>
        ensures { (result ≡ decoded (valid text.now) (octets text.now) (length out.old)) × (out.new ≡ decoded_into (valid text.now) (octets text.now) out.old) };
}
