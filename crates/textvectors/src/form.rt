// The two forms of text, so that a case is written once for both.
use base64text::Base64;
use octets::form::Form;
use xtext::Xtext;

// A form with the name that rows print, and with its writer.
pub(crate) trait Named: Form {
    fn name() -> &'static str;

    fn encode(bytes: &[u8], out: &mut [u8], at: usize) -> Option<usize>;
}

impl Named for Base64 {
    fn name() -> &'static str {
        "base64"
    }

    fn encode(bytes: &[u8], out: &mut [u8], at: usize) -> Option<usize> {
        base64text::encode(bytes, out, at)
    }
}

impl Named for Xtext {
    fn name() -> &'static str {
        "xtext"
    }

    fn encode(bytes: &[u8], out: &mut [u8], at: usize) -> Option<usize> {
        xtext::encode(bytes, out, at)
    }
}
