ghost use Rattle.std.specs.Prelude.{◌≡◌, ◌<◌, ◌≤◌, ◌^◌, IsTrue, IfSome, IfNone};
ghost use Rattle.std.specs.List.{list_all};
ghost use Rattle.vrp_lex.specs.Text.{is_digit, are_digits, digits_value, number_of};
ghost use Rattle.vrp_lex.specs.Amounts.{amount_of};

/// What a word is as a number.
#[derive(Clone, Copy, Debug, PartialEq, Eq)]
pub enum Amount {
    /// A number within 2^120 of 0.
    Value(i128),
    /// A number further from 0.
    Big,
    /// No number.
    Not,
}

/// Whether all bytes are digits.
fn all_digits(word: &[u8]) -> bool
    ensures { result ≡ list_all is_digit word.now }
{
    word.iter().all(|b| *b >= b'0' && *b <= b'9')
}

/// Whether there are bytes, and all are digits.
fn are_digits(word: &[u8]) -> bool
    ensures { result ≡ are_digits word.now }
{
    !word.is_empty() && all_digits(word)
}

/// The number that digits stand for, or none where it is above 2^120.
#[tactic(auto, using(crate::proofs::Digits::digits_grow))]
fn digits_value(digits: &[u8]) -> Option<u128>
    requires { IsTrue (are_digits digits.now) }
    ensures value { IfSome result (λ n. (n ≡ digits_value digits.now) × (n ≤ 2 ^ 120)) }
    ensures big { IfNone result (2 ^ 120 < digits_value digits.now) }
{
    let mut value: u128 = 0;
    for digit in digits {
        value = 10 * value + u128::from(*digit - b'0');
        if value > 1 << 120 {
            return None;
        }
    }
    Some(value)
}

/// The number that a word is, of any length. The time is linear in the word.
pub fn number(word: &[u8]) -> Amount
    ensures { result ≡ amount_of (number_of word.now) }
{
    let minus = !word.is_empty() && word[0] == b'-';
    let digits = if minus { &word[1..] } else { word };
    if !are_digits(digits) {
        return Amount::Not;
    }
    match digits_value(digits) {
        None => Amount::Big,
        Some(value) if minus => Amount::Value(-(value as i128)),
        Some(value) => Amount::Value(value as i128),
    }
}
