// What has a length in bytes.
ghost use Rattle.std.specs.Prelude.{◌≡◌, ℕ, ◌<◌, ◌^◌, length, string_bytes, encode_utf8};

use crate::TextSize;
use sealed::Sealed;

mod sealed {
    // Private, so that no other crate implements `TextLen`.
    pub trait Sealed {}
}

/// What has a length as text: `&str`, `&String` and `char`, and nothing else.
///
/// Its member `byte_length` is that length, in bytes of UTF-8.
pub trait TextLen: Copy + Sealed {
    ghost byte_length: { Self → ℕ };

    /// The length in bytes of UTF-8, which has to be at most `u32::MAX`.
    fn text_len(self) -> TextSize
        requires { byte_length self < 2 ^ 32 }
        ensures { result ≡ byte_length self };
}

impl Sealed for &str {}

impl TextLen for &str {
    ghost byte_length = { λ text. length text.now };

    #[inline]
    fn text_len(self) -> TextSize {
        TextSize::new(self.len() as u32)
    }
}

impl Sealed for &String {}

impl TextLen for &String {
    ghost byte_length = { λ text. length (string_bytes text.now) };

    #[inline]
    fn text_len(self) -> TextSize {
        self.as_str().text_len()
    }
}

impl Sealed for char {}

impl TextLen for char {
    ghost byte_length = { λ character. length (encode_utf8 character) };

    #[inline]
    fn text_len(self) -> TextSize {
        TextSize::new(self.len_utf8() as u32)
    }
}
