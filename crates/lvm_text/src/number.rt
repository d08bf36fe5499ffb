//! Reads the integers of a text.
//! Leading zeros are allowed. An integer has at most 19 digits, so that it fits a `u64`, and must be below 2^63.
//! To allow a sign or a decimal point, change `scalar_of` in `specs/Grammar`.

ghost use Rattle.lvm_text.specs.Prelude.{length, IsTrue, digits_value, are_digits, number_of};
ghost use Rattle.std.specs.Prelude.{◌≡◌, ◌≤◌};

/// Whether a word consists of digits only.
pub(crate) fn are_digits(word: &[u8]) -> bool
    ensures { result ≡ are_digits word.now }
{
    word.iter().all(|byte| byte.is_ascii_digit())
}

/// The value of at most 19 digits; a value of so few digits fits a `u64`.
fn value_of(word: &[u8]) -> u64
    requires digits { IsTrue (are_digits word.now) }
    requires short { length word.now ≤ 19 }
    ensures { result ≡ digits_value 10 word.now }
{
    let mut value = 0u64;
    for byte in word {
        value = value * 10 + u64::from(*byte - b'0');
    }
    value
}

/// The integer that a word spells, if it has 1 to 19 digits and is below 2^63.
#[tactic(auto, unfolding(crate::specs::Grammar::number_of))]
pub(crate) fn number_of(word: &[u8]) -> Option<u64>
    ensures { result ≡ number_of word.now }
{
    if !are_digits(word) || word.len() > 19 {
        return None;
    }
    let value = value_of(word);
    if value < 1 << 63 { Some(value) } else { None }
}
