ghost use Rattle.std.specs.Prelude.{◌≡◌, ◌≤◌, IfSome, IsTrue, length};
ghost use Rattle.std.specs.List.{list_all};
ghost use Rattle.sw_scan.specs.Classes.{is_digit};
ghost use Rattle.sw_scan.specs.Decimal.{number_of};
ghost use Rattle.sw_check_words.specs.Words.{actors_of};

use sw_scan::is_digit;

/// Whether each of the bytes is a digit.
fn are_digits(bytes: &[u8]) -> bool
    ensures { result ≡ list_all is_digit bytes.now }
{
    bytes.iter().all(|byte| is_digit(*byte))
}

/// The number that at most three digits spell.
fn number_of(digits: &[u8]) -> u32
    requires few { length digits.now ≤ 3 }
    requires digits { IsTrue (list_all is_digit digits.now) }
    ensures { result ≡ number_of digits.now }
{
    let mut number = 0;
    for digit in digits {
        number = number * 10 + u32::from(*digit - b'0');
    }
    number
}

/// The number of actors that the text spells, if it is one.
pub fn actors_of(text: &str) -> Option<u32>
    ensures value { result ≡ actors_of text.now }
    ensures few { IfSome result (λ actors. actors ≤ 200) }
{
    let digits = text.as_bytes();
    if digits.is_empty() || digits.len() > 3 || !are_digits(digits) {
        return None;
    }
    let number = number_of(digits);
    if 1 <= number && number <= 200 {
        Some(number)
    } else {
        None
    }
}
