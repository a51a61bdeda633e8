// The parts of a line.
ghost use Rattle.std.specs.Prelude.{◌≡◌, ◌^◌, ◌<◌, IfSome, option_map};
ghost use Rattle.std.specs.Option.{option_copied};
ghost use Rattle.std.specs.List.{list_all};
ghost use Rattle.escapes.specs.Cuts.{behind as behind_front, cut_at, is_digit as is_digit_byte};
ghost use Rattle.escapes.specs.Cuts.{leads_well as leads_as_number};
ghost use Rattle.escapes.specs.Cuts.{looks_as_number as looks_numeral};
ghost use Rattle.escapes.specs.Cuts.{number_of as number_in, without_last as without_last_byte};

/// The text before the first delimiter, which is ASCII, and the text after it.
pub fn cut(text: &str, delimiter: char) -> Option<(&str, &str)>
    requires { delimiter < 128 }
    ensures { option_map (λ it. (it.0.now, it.1.now)) result ≡ cut_at delimiter text.now }
{
    text.split_once(delimiter)
}

/// The text after a prefix, if it begins with it.
pub fn behind<'a>(text: &'a str, front: &str) -> Option<&'a str>
    ensures { option_copied result ≡ behind_front front.now text.now }
{
    text.strip_prefix(front)
}

/// The text before an ASCII character at its end, if it ends with it.
pub fn without_last(text: &str, last: char) -> Option<&str>
    requires { last < 128 }
    ensures { option_copied result ≡ without_last_byte last text.now }
{
    text.strip_suffix(last)
}

/// The number that decimal digits without a leading zero say.
#[tactic(auto, using(crate::proofs::CutLemmas::no_number))]
pub fn number(text: &str) -> Option<usize>
    ensures value { result ≡ number_in text.now }
    ensures range { IfSome result (λ n. n < 2 ^ 64) }
{
    if looks_as_number(text.as_bytes()) {
        text.parse::<usize>().ok()
    } else {
        None
    }
}

/// Whether the bytes are digits without a leading zero.
fn looks_as_number(bytes: &[u8]) -> bool
    ensures { result ≡ looks_numeral bytes.now }
{
    are_digits(bytes) && leads_well(bytes)
}

/// Whether all bytes are digits.
fn are_digits(bytes: &[u8]) -> bool
    ensures { result ≡ list_all is_digit_byte bytes.now }
{
    bytes.iter().all(|byte| b'0' <= *byte && *byte <= b'9')
}

/// Whether there is a byte, and the first is a zero only if it is the only one.
fn leads_well(bytes: &[u8]) -> bool
    ensures { result ≡ leads_as_number bytes.now }
{
    match bytes {
        [] => false,
        [_] => true,
        [first, ..] => *first != b'0',
    }
}
