//! Bytes as they are spelled in words.
ghost use Rattle.std.specs.Prelude.{◌≡◌, ◌<◌, ◌≤◌, ◌/◌, ◌%◌, ◌==◌, ◌&&◌, ◌∷◌, IfSome, length, take};
ghost use Rattle.std.specs.Prelude.{option_map};
ghost use Rattle.peg_model.specs.Text.{hex_digit};
ghost use Rattle.peg_text.specs.Reading as reading;
ghost use Rattle.peg_text.specs.declared.spelling.Form.TheVariants as form;

/// How bytes are spelled: in the words of keys and values, or as pairs of digits.
#[derive(Clone, Copy, Debug, PartialEq, Eq)]
pub(crate) enum Form {
    Word,
    Hex,
}

fn hex_digit(letter: u8, n: u8) -> u8
    requires digit { n < 16 }
    requires letter { letter ≤ 97 }
    ensures { result ≡ hex_digit letter n }
{
    if n < 10 { b'0' + n } else { letter + (n - 10) }
}

/// How a byte is spelled that doesn't spell itself.
pub(crate) fn escaped(byte: u8) -> [u8; 3]
    ensures { result ≡ reading.escaped byte }
{
    [b'%', hex_digit(b'A', byte / 16), hex_digit(b'A', byte % 16)]
}

/// How a byte is spelled as a pair of digits.
pub(crate) fn pair(byte: u8) -> [u8; 2]
    ensures { result ≡ reading.lower_pair byte }
{
    [hex_digit(b'a', byte / 16), hex_digit(b'a', byte % 16)]
}

fn digit_value(digit: u8) -> u8
    ensures value { result ≡ reading.digit_value digit }
    ensures low { result < 16 }
{
    match digit {
        b'0'..=b'9' => digit - b'0',
        b'A'..=b'F' => digit - 55,
        b'a'..=b'f' => digit - 87,
        _ => 0,
    }
}

fn pair_value(high: u8, low: u8) -> u8
    ensures { result ≡ reading.pair_value high low }
{
    16 * digit_value(high) + digit_value(low)
}

/// Whether a byte spells itself.
pub(crate) fn is_plain(byte: u8) -> bool
    ensures { result ≡ reading.is_plain byte }
{
    byte >= 33 && byte <= 126 && byte != b'%'
}

// Whether a byte is spelled by these two digits, the letters of which begin with this one.
fn is_pair(letter: u8, byte: u8, high: u8, low: u8) -> bool
    requires { letter ≤ 97 }
    ensures { result ≡ (high == hex_digit letter (byte / 16)
        && low == hex_digit letter (byte % 16)) }
{
    high == hex_digit(letter, byte / 16) && low == hex_digit(letter, byte % 16)
}

// A byte that doesn't spell itself, behind its %.
#[tactic(auto, using(crate::proofs::Plain::next_escaped, crate::proofs::Plain::next_cut))]
fn next_escaped(text: &[u8]) -> Option<(u8, &[u8])>
    ensures { option_map (λ r. (r.0, r.1.now)) result ≡ reading.next_byte form.Word (37 ∷ text.now) }
{
    if text.len() < 2 {
        return None;
    }
    let (high, low) = (text[0], text[1]);
    let byte = pair_value(high, low);
    if is_plain(byte) {
        return None;
    }
    if is_pair(b'A', byte, high, low) {
        Some((byte, &text[2..]))
    } else {
        None
    }
}

#[tactic(auto, using(crate::proofs::Plain::next_unescaped))]
fn next_in_word(text: &[u8]) -> Option<(u8, &[u8])>
    ensures { option_map (λ r. (r.0, r.1.now)) result ≡ reading.next_byte form.Word text.now }
{
    let [byte, after @ ..] = text else {
        return None;
    };
    if *byte == b'%' {
        return next_escaped(after);
    }
    if is_plain(*byte) {
        Some((*byte, after))
    } else {
        None
    }
}

#[tactic(auto, using(crate::proofs::Plain::next_pair, crate::proofs::Plain::no_pair))]
fn next_pair(text: &[u8]) -> Option<(u8, &[u8])>
    ensures { option_map (λ r. (r.0, r.1.now)) result ≡ reading.next_byte form.Hex text.now }
{
    if text.len() < 2 {
        return None;
    }
    let (high, low) = (text[0], text[1]);
    let byte = pair_value(high, low);
    if is_pair(b'a', byte, high, low) {
        Some((byte, &text[2..]))
    } else {
        None
    }
}

// A byte counts where the text begins with its one spelling.
fn next_byte(form: Form, text: &[u8]) -> Option<(u8, &[u8])>
    ensures { option_map (λ r. (r.0, r.1.now)) result ≡ reading.next_byte form text.now }
{
    match form {
        Form::Word => next_in_word(text),
        Form::Hex => next_pair(text),
    }
}

/// Whether each byte of a word spells itself.
pub(crate) fn are_plain(word: &[u8]) -> bool
    ensures { result ≡ reading.are_plain word.now }
{
    for byte in word {
        if !is_plain(*byte) {
            return false;
        }
    }
    true
}

/// Puts the bytes that a word spells at the front of the room, where these are at most so many, and
/// says how many they are.
pub(crate) fn spelled(form: Form, most: usize, word: &[u8], room: &mut [u8]) -> Option<usize>
    requires { most ≤ length room.old }
    ensures bytes { option_map (λ count. take count room.new) result
        ≡ reading.spelled form most word.now }
    ensures few { IfSome result (λ count. count ≤ most) }
{
    let mut count = 0;
    let mut rest = word;
    while !rest.is_empty() {
        if count == most {
            return None;
        }
        let (byte, after) = next_byte(form, rest)?;
        room[count] = byte;
        count += 1;
        rest = after;
    }
    Some(count)
}
