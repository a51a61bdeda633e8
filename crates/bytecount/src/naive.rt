//! The plain counts, a byte at a time.
ghost use Rattle.std.specs.Prelude.{◌≡◌, ◌<◌, ◌≤◌, ◌^◌, ◌==◌, count_by, length};
ghost use Rattle.std.specs.Str.{IsUtf8, chars};
ghost use Rattle.bytecount.specs.Counts.{char_count};

/// How many bytes of `haystack` equal `needle`; there must be fewer than 2^32.
pub fn naive_count_32(haystack: &[u8], needle: u8) -> usize
    requires { count_by (λ byte. byte == needle) haystack.now < 2 ^ 32 }
    ensures { result ≡ count_by (λ byte. byte == needle) haystack.now }
{
    let mut count = 0u32;
    for byte in haystack {
        count += (*byte == needle) as u32;
    }
    count as usize
}

/// How many bytes of `utf8_chars` equal `needle`.
pub fn naive_count(utf8_chars: &[u8], needle: u8) -> usize
    ensures { result ≡ count_by (λ byte. byte == needle) utf8_chars.now }
{
    let mut count = 0;
    for byte in utf8_chars {
        count += (*byte == needle) as usize;
    }
    count
}

/// How many bytes of `utf8_chars` begin a character.
pub fn naive_num_chars(utf8_chars: &[u8]) -> usize
    ensures count { result ≡ char_count utf8_chars.now }
    ensures bound { result ≤ length utf8_chars.now }
    ensures chars { IsUtf8 utf8_chars.now → result ≡ length (chars utf8_chars.now) }
{
    utf8_chars
        .iter()
        .filter(|byte| (**byte >> 6) != 0b10)
        .count()
}
