//! Lines, words, names and numbers of a script.
ghost use Rattle.std.specs.Prelude.{◌≡◌, ◌<◌, ◌∷◌, [], length, MatchOption, option_copied, position, ◌==◌};
ghost use Rattle.std.specs.Char.{is_ascii_digit};
ghost use Rattle.std.specs.List.{list_all};
ghost use Rattle.std.specs.Option.{option_map};
ghost use Rattle.channel_world_language.specs.Words.{lines_of, words_of, words_after, number_of, is_name_byte, is_name, is_plain_decimal, first_name, first_number};

/// The first place of a byte.
fn place_of(byte: u8, text: &[u8]) -> Option<usize>
    ensures { result ≡ position (λ b. b == byte) text.now }
{
    text.iter().position(|b| *b == byte)
}

/// The first line without its end, and the text after it; `None` if there is no text.
pub fn first_line(text: &[u8]) -> Option<(&[u8], &[u8])>
    ensures lines { MatchOption result (lines_of text.now ≡ []) (λ p. lines_of text.now ≡ p.0.now ∷ lines_of p.1.now) }
    ensures shorter { MatchOption result (length text.now ≡ 0) (λ p. length p.1.now < length text.now) }
{
    if text.is_empty() {
        return None;
    }
    match place_of(b'\n', text) {
        Some(i) => Some((&text[..i], &text[i + 1..])),
        None => Some((text, &text[text.len()..])),
    }
}

/// The first word, and the text after the space that ends it, if one does.
pub fn first_word(text: &[u8]) -> (&[u8], Option<&[u8]>)
    ensures { words_of text.now ≡ result.0.now ∷ words_after (option_copied result.1) }
{
    match place_of(b' ', text) {
        Some(i) => (&text[..i], Some(&text[i + 1..])),
        None => (text, None),
    }
}

fn are_name_bytes(bytes: &[u8]) -> bool
    ensures { result ≡ list_all is_name_byte bytes.now }
{
    bytes
        .iter()
        .all(|b| b.is_ascii_lowercase() || b.is_ascii_digit())
}

/// Whether a word is a name: 1 to 8 lower-case letters and digits, a letter first.
fn is_name(bytes: &[u8]) -> bool
    ensures { result ≡ is_name bytes.now }
{
    match bytes {
        [] => false,
        [first, rest @ ..] => first.is_ascii_lowercase() && are_name_bytes(rest) && rest.len() < 8,
    }
}

/// The name at the front of the rest of a line, and what comes after it; `None` if there is no name.
pub fn next_name(rest: Option<&[u8]>) -> Option<(&[u8], Option<&[u8]>)>
    ensures { option_map (λ p. (p.0.now, words_after (option_copied p.1))) result ≡ first_name (words_after (option_copied rest.entry)) }
{
    let (word, after) = first_word(rest?);
    is_name(word).then_some((word, after))
}

fn are_digits(bytes: &[u8]) -> bool
    ensures { result ≡ list_all is_ascii_digit bytes.now }
{
    bytes.iter().all(|b| b.is_ascii_digit())
}

fn is_plain_decimal(digits: &[u8]) -> bool
    ensures { result ≡ is_plain_decimal digits.now }
{
    match digits {
        [] => false,
        [first, rest @ ..] => are_digits(digits) && (*first != b'0' || rest.is_empty()),
    }
}

/// A decimal number below 2^64 without leading zeros.
pub fn number(digits: &[u8]) -> Option<u64>
    ensures { result ≡ number_of digits.now }
{
    if !is_plain_decimal(digits) {
        return None;
    }
    let mut value: u64 = 0;
    for digit in digits {
        let tenfold = value.checked_mul(10)?;
        value = tenfold.checked_add(u64::from(digit.saturating_sub(b'0')))?;
    }
    Some(value)
}

/// The number at the front of the rest of a line, and what comes after it; `None` if there is no number.
pub fn next_number(rest: Option<&[u8]>) -> Option<(u64, Option<&[u8]>)>
    ensures { option_map (λ p. (p.0, words_after (option_copied p.1))) result ≡ first_number (words_after (option_copied rest.entry)) }
{
    let (word, after) = first_word(rest?);
    Some((number(word)?, after))
}
