//! Decimal digits.

ghost use Rattle.std.specs.Prelude.{◌≡◌, ◌≤◌, ◌<◌, ◌^◌, length, true};
ghost use Rattle.std.specs.List.{list_all};
ghost use Rattle.hp_script.specs.Tokens.{is_digit, number_of};
ghost use Rattle.hp_script.specs.Grammar.{is_index};

/// A decimal digit.
pub fn is_digit(b: u8) -> bool
    ensures { result ≡ is_digit b }
{
    b >= 48 && b <= 57
}

/// Whether all are digits.
fn all_digits(bytes: &[u8]) -> bool
    ensures { result ≡ list_all is_digit bytes.now }
{
    bytes.iter().all(|b| is_digit(*b))
}

/// Whether the bytes are one to ten digits.
pub fn is_index(bytes: &[u8]) -> bool
    ensures { result ≡ is_index bytes.now }
{
    all_digits(bytes) && (1 <= bytes.len() && bytes.len() <= 10)
}

/// The number that digits spell.
pub fn number_of(digits: &[u8]) -> u64
    requires digits { list_all is_digit digits.now ≡ true }
    requires few { length digits.now ≤ 10 }
    ensures value { result ≡ number_of digits.now }
    ensures short { result < 10 ^ length digits.now }
{
    let mut n: u64 = 0;
    'digit: for b in digits {
        n = n * 10 + (*b - 48) as u64;
    }
    n
}
