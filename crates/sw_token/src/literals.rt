//! Integer literals.
ghost use Rattle.std.specs.Prelude.{◌≡◌};
ghost use Rattle.std.specs.Char.{digit_value};
ghost use Rattle.sw_token.specs.Literals.{after_zero, unsigned_of, negative, literal_of};

use sw_scan::is_digit;

/// The form of an integer literal.
#[derive(Clone, Copy)]
pub enum Literal {
    Decimal,
    /// A decimal literal with a `-`.
    Negative,
    Binary,
    Octal,
    Hexadecimal,
}

impl Literal {
    ghost use Rattle.std.specs.Prelude.{◌≡◌, ◌≤◌, ◌-◌, ◌^◌, min, length};
    ghost use Rattle.std.specs.List.{prefix_len};
    ghost use Rattle.sw_token.specs.Literals.{radix, head_of, most, is_digit_of, is_digit_or_line};
    ghost use Rattle.sw_token.specs.Literals.{with_digit, number_in};

    /// The base of the digits.
    fn radix(self) -> u8
        ensures { result ≡ radix self }
    {
        match self {
            Literal::Decimal | Literal::Negative => 10,
            Literal::Binary => 2,
            Literal::Octal => 8,
            Literal::Hexadecimal => 16,
        }
    }

    /// How many bytes stand before the digits.
    pub fn head_len(self) -> usize
        ensures { result ≡ length (head_of self) }
    {
        match self {
            Literal::Decimal => 0,
            Literal::Negative => 1,
            Literal::Binary | Literal::Octal | Literal::Hexadecimal => 2,
        }
    }

    /// The greatest number that the digits may spell.
    pub fn most(self) -> u64
        ensures { result ≡ most self }
    {
        match self {
            Literal::Negative => 9_223_372_036_854_775_808,
            Literal::Decimal | Literal::Binary | Literal::Octal | Literal::Hexadecimal => {
                9_223_372_036_854_775_807
            }
        }
    }

    /// Whether the byte is a digit in the literal's base.
    pub fn is_digit(self, byte: u8) -> bool
        ensures { result ≡ is_digit_of self byte }
    {
        digit_value(byte) < self.radix()
    }

    fn is_digit_or_line(self, byte: u8) -> bool
        ensures { result ≡ is_digit_or_line self byte }
    {
        self.is_digit(byte) || byte == b'_'
    }

    /// The number of digits and `_` that the bytes begin with.
    pub fn digits_len(self, bytes: &[u8]) -> usize
        ensures value { result ≡ prefix_len (is_digit_or_line self) bytes.now }
        ensures within { result ≤ length bytes.now }
    {
        bytes
            .iter()
            .take_while(|byte| self.is_digit_or_line(**byte))
            .count()
    }

    /// The number that digits and `_` spell, or the greatest of 64 bits if it is greater.
    pub fn number_in(self, digits: &[u8]) -> u64
        ensures { result ≡ min (number_in self digits.now) (2 ^ 64 - 1) }
    {
        let mut number: u64 = 0;
        for digit in digits {
            number = self.with_digit(number, *digit);
        }
        number
    }

    fn with_digit(self, number: u64, byte: u8) -> u64
        ensures { result ≡ min (with_digit self number byte) (2 ^ 64 - 1) }
    {
        if byte == b'_' {
            return number;
        }
        number
            .saturating_mul(u64::from(self.radix()))
            .saturating_add(u64::from(digit_value(byte)))
    }
}

/// The value of a digit in the bases up to 36, or 36 for another byte.
fn digit_value(byte: u8) -> u8
    ensures { result ≡ digit_value byte }
{
    match byte {
        b'0'..=b'9' => byte - b'0',
        b'A'..=b'Z' => byte - b'A' + 10,
        b'a'..=b'z' => byte - b'a' + 10,
        _ => 36,
    }
}

/// The form of the literal that the bytes begin with. A `-` belongs to it only where white space or
/// an opening mark stands before it, as `is_white` says.
#[tactic(auto, unfolding(crate::specs::Literals::literal_of))]
pub fn literal_of(is_white: bool, bytes: &[u8]) -> Option<Literal>
    ensures { result ≡ literal_of is_white bytes.now }
{
    let byte = bytes.first().copied()?;
    if byte != b'-' {
        return unsigned_of(bytes);
    }
    if is_white {
        negative(unsigned_of(&bytes[1..]))
    } else {
        None
    }
}

#[tactic(auto, unfolding(crate::specs::Literals::unsigned_of))]
fn unsigned_of(bytes: &[u8]) -> Option<Literal>
    ensures { result ≡ unsigned_of bytes.now }
{
    let byte = bytes.first().copied()?;
    if !is_digit(byte) {
        return None;
    }
    if byte == b'0' {
        Some(after_zero(&bytes[1..]))
    } else {
        Some(Literal::Decimal)
    }
}

/// The form that a letter after a `0` announces.
fn after_zero(bytes: &[u8]) -> Literal
    ensures { result ≡ after_zero bytes.now }
{
    match bytes.first() {
        Some(b'x') => Literal::Hexadecimal,
        Some(b'o') => Literal::Octal,
        Some(b'b') => Literal::Binary,
        Some(_) | None => Literal::Decimal,
    }
}

/// A sign belongs to a decimal literal alone.
fn negative(unsigned: Option<Literal>) -> Option<Literal>
    ensures { result ≡ negative unsigned }
{
    match unsigned {
        Some(Literal::Decimal) => Some(Literal::Negative),
        Some(Literal::Negative | Literal::Binary | Literal::Octal | Literal::Hexadecimal) | None =>
            { None }
    }
}
