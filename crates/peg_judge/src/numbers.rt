// Numbers in lines.
ghost use Rattle.std.specs.Prelude.{◌≡◌, ◌<◌, ◌^◌, ◌++◌, ℕ, Some, IfSome, decimal};
ghost use Rattle.peg_text.specs.Reading as reading;

// The number that a word is, where it is one below 2 ^ 64 and is spelled as it is printed.
fn number_of(word: &[u8]) -> Option<u64>
    ensures { result ≡ reading.number_of word.now }
{
    if word.is_empty() || word.len() > 1 && word[0] == b'0' {
        return None;
    }
    let mut number: u64 = 0;
    for byte in word {
        if !byte.is_ascii_digit() {
            return None;
        }
        number = number
            .checked_mul(10)?
            .checked_add(u64::from(*byte - b'0'))?;
    }
    Some(number)
}

// The number that stands behind these bytes, and ends the line.
pub(crate) fn number_behind(head: &[u8], line: &[u8]) -> Option<u64>
    ensures sound { IfSome result (λ n. line.now ≡ head.now ++ decimal n) }
    ensures complete { (n : ℕ) → n < 2 ^ 64 → line.now ≡ head.now ++ decimal n → result ≡ Some n }
{
    let Some(rest) = line.strip_prefix(head) else {
        return None;
    };
    number_of(rest)
}
