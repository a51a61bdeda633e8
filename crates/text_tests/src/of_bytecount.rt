// Counts by example, and the counts by words beside the plain ones.
ghost use Rattle.std.specs.Prelude.{◌≡◌, ◌==◌, count_by, length};
ghost use Rattle.std.specs.Str.{chars};

use bytecount::integer_simd::{chunk_count, chunk_num_chars};
use bytecount::{count, naive_count, naive_count_32, naive_num_chars, num_chars};
use std::alloc::Global;

/// How many characters a text has, and how many line feeds.
fn characters_and_line_feeds(text: &str) -> (usize, usize)
    ensures characters { result.0 ≡ length (chars text.now) }
    ensures line_feeds { result.1 ≡ count_by (λ byte. byte == 10) text.now }
{
    (num_chars(text.as_bytes()), count(text.as_bytes(), b'\n'))
}

// Whether every count of one byte gives that number; that by words where there are eight bytes or
// more.
fn counts(haystack: &[u8], needle: u8, want: usize) -> bool {
    count(haystack, needle) == want
        && naive_count(haystack, needle) == want
        && (haystack.len() < 8 || chunk_count(haystack, needle) == want)
}

// A text, and how many spaces it has.
const SPACES: [(&str, usize); 3] = [
    ("Hello, this is the bytecount crate!", 5),
    ("This is a Text with spaces", 5),
    ("This is yet another Text with spaces", 6),
];

// Whether 4,089 equal bytes are counted as that many.
fn counts_the_same(alloc: Global) -> bool {
    match vec![in alloc; b'a'; 4089] {
        Ok(same) => {
            same.len() == 4089
                && counts(&same[..2047], b'a', 2047)
                && counts(&same[..2047], b'b', 0)
                && counts(&same, b'a', 4089)
        }
        Err(_) => false,
    }
}

#[test]
fn a_byte_is_counted(rt: HostRuntime) {
    assert!(rt; counts_the_same(rt.alloc()));
    for row in &SPACES {
        assert!(rt; counts(row.0.as_bytes(), b' ', row.1), "{}", row.0);
    }
    assert!(rt; naive_count_32(SPACES[2].0.as_bytes(), b' ') == 6);
}

#[test]
fn each_length_of_rest_is_counted_once(rt: HostRuntime) {
    let pairs = b"abababababababababababababababababababab";
    for length in 0..=40 {
        assert!(rt; counts(&pairs[..length], b'b', length / 2), "{length}");
    }
}

// A text, and how many characters it has.
const CHARACTERS: [(&str, usize); 2] = [
    ("メカジキ", 4),
    ("Wenn ich ein Vöglein wär, flög ich zu Dir!", 42),
];

fn has_characters(row: &(&str, usize)) -> bool {
    num_chars(row.0.as_bytes()) == row.1 && naive_num_chars(row.0.as_bytes()) == row.1
}

// Whether the counts by words give the characters too.
fn words_count_characters() -> bool {
    chunk_num_chars(&[0x80; 9]) == 0
        && chunk_num_chars("größer als nötig".as_bytes()) == 16
        && characters_and_line_feeds("メカ\nジキ\n") == (6, 2)
}

#[test]
fn characters_are_counted(rt: HostRuntime) {
    for row in &CHARACTERS {
        assert!(rt; has_characters(row), "{}", row.0);
    }
    assert!(rt; words_count_characters());
}
