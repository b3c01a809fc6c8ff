// The numbers that tokens write.
ghost use Rattle.std.specs.Prelude.{◌≡◌, ◌≤◌, IfSome};
ghost use Rattle.lexer.specs.Numerals.{numeral_length, numeral_of, minus, number_of};

// A numeral has at most this many digits.
const MAX_DIGITS: usize = 5;

// Whether a numeral may have that many digits: one to five.
fn is_numeral_length(count: usize) -> bool
    ensures { result ≡ numeral_length count }
{
    (1..=MAX_DIGITS).contains(&count)
}

// The value of a numeral, which is one to five digits. That it is at most 99,999 is said here and of a header: see `Header`.
#[tactic(auto, unfolding(crate::specs::Numerals::numeral_of))]
pub(crate) fn numeral(digits: &[u8]) -> Option<u32>
    ensures value { result ≡ numeral_of digits.now }
    ensures small { IfSome result (λ v. v ≤ 99999) }
{
    if !is_numeral_length(digits.len()) {
        return None;
    }
    let mut value: u32 = 0;
    for byte in digits {
        value = value * 10 + (*byte as char).to_digit(10)?;
    }
    Some(value)
}

// The value of a minus and a numeral. No minus stands before 0.
fn negative(digits: &[u8]) -> Option<i32>
    ensures { result ≡ minus (numeral_of digits.now) }
{
    match numeral(digits)? {
        0 => None,
        value => Some(-(value as i32)),
    }
}

// The value of a number: a numeral, or a minus and a numeral that is not 0.
#[tactic(auto, unfolding(crate::specs::Numerals::number_of, crate::specs::Numerals::numeral_of))]
pub fn number(token: &[u8]) -> Option<i32>
    ensures { result ≡ number_of token.now }
{
    match token {
        [b'-', digits @ ..] => negative(digits),
        _ => Some(numeral(token)? as i32),
    }
}
