ghost use Rattle.std.specs.{Prelude.◌≡◌, Str.bytes_eq};
ghost use Rattle.input.specs.Texts.{number_of, is_digit, is_plain};

/// Whether a word is this text.
pub fn is(word: &[u8], text: &str) -> bool
    ensures { result ≡ bytes_eq word.now text.now }
{
    word == text.as_bytes()
}

/// The number that a text stands for in decimal digits without leading zeros, if it is below 2^64.
pub fn number(text: &[u8]) -> Option<usize>
    ensures { result ≡ number_of text.now }
{
    if !is_plain(text) {
        return None;
    }
    let mut value: usize = 0;
    for byte in text {
        if !is_digit(*byte) {
            return None;
        }
        value = value
            .checked_mul(10)?
            .checked_add(usize::from(*byte - b'0'))?;
    }
    Some(value)
}

/// Whether a byte is a decimal digit.
pub fn is_digit(byte: u8) -> bool
    ensures { result ≡ is_digit byte }
{
    b'0' <= byte && byte <= b'9'
}

fn is_plain(text: &[u8]) -> bool
    ensures { result ≡ is_plain text.now }
{
    match text {
        [] => false,
        [_] => true,
        [first, ..] => *first != b'0',
    }
}
