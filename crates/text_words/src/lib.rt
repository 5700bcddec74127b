//! The words of a text that is read line by line: where a byte ends a word, a front, and decimal numbers in their one spelling.
#![tactic(auto)]

ghost use Rattle.std.specs.Prelude.{◌≡◌, ℕ, ◌<◌, ◌^◌, ◌++◌, ◌∷◌, List, decimal, MatchOption, ◌==◌, position};
ghost use Rattle.text_words.specs.Words.{Lacks};

use itoa::Buffer;

/// The first index of a byte.
fn first_of(text: &[u8], byte: u8) -> Option<usize>
    ensures { result ≡ position (λ b. b == byte) text.now }
{
    text.iter().position(|b| *b == byte)
}

/// What stands before and behind the first place of a byte.
pub fn split_at_byte(text: &[u8], byte: u8) -> Option<(&[u8], &[u8])>
    ensures { MatchOption result (Lacks byte text.now) (λ p. (text.now ≡ p.0.now ++ byte ∷ p.1.now) × Lacks byte p.0.now) }
{
    let at = first_of(text, byte)?;
    Some((&text[..at], &text[at + 1..]))
}

/// What stands behind a front.
pub fn behind<'a>(text: &'a [u8], front: &[u8]) -> Option<&'a [u8]>
    ensures { MatchOption result ((rest : List ℕ) → text.now ≡ front.now ++ rest → ⊥) (λ rest. text.now ≡ front.now ++ rest.now) }
{
    text.strip_prefix(front)
}

/// The number that the digits write, where they are its decimal digits without a zero in front.
pub fn number_of(digits: &[u8]) -> Option<u64>
    ensures { MatchOption result ((n : ℕ) → n < 2 ^ 64 → digits.now ≡ decimal n → ⊥) (λ n. (digits.now ≡ decimal n) × (n < 2 ^ 64)) }
{
    let Ok(text) = str::from_utf8(digits) else {
        return None;
    };
    let Ok(number) = text.parse::<u64>() else {
        return None;
    };
    let mut buffer = Buffer::new();
    if buffer.format(number).as_bytes() == digits {
        Some(number)
    } else {
        None
    }
}

/// The number that the digits write, where it has 32 bits.
pub fn count_of(digits: &[u8]) -> Option<u32>
    ensures { MatchOption result ((n : ℕ) → n < 2 ^ 32 → digits.now ≡ decimal n → ⊥) (λ n. (digits.now ≡ decimal n) × (n < 2 ^ 32)) }
{
    let number = number_of(digits)?;
    u32::try_from(number).ok()
}
