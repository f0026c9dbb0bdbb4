//! One number of those that may stand at a place.
ghost use Rattle.std.specs.Prelude.{◌≡◌, length, Contains, IfOk, IfErr, IfSome};
ghost use Rattle.sw_dictation.specs.Numbers.{spelled, common_len, BeginsWith, IsOffered};
ghost use Rattle.sw_dictation.specs.Numbers.{IsSaid, IsNone};

use itoa::write_digits;

/// How many bytes two texts have in common at their beginnings.
fn common(bytes: &[u8], text: &[u8]) -> usize
    ensures { result ≡ common_len bytes.now text.now }
{
    let least = bytes.len().min(text.len());
    for i in 0..least {
        if bytes[i] != text[i] {
            return i;
        }
    }
    least
}

/// Whether bytes begin with a number and the byte that closes it: the length of both, or how much
/// of them the bytes begin with.
fn meet(bytes: &[u8], number: u64, closer: u8) -> Result<usize, usize>
    ensures ok { IfOk result (λ len. (len ≡ length (spelled number closer))
        × BeginsWith number closer bytes.now) }
    ensures common { IfErr result (λ at. at ≡ common_len bytes.now (spelled number closer)) }
    ensures none { IfErr result (λ at. ¬ (BeginsWith number closer bytes.now)) }
{
    let mut buffer = [closer; 21];
    let start = write_digits(number, &mut buffer, 20);
    let text = &buffer[start..];
    let met = common(bytes, text);
    if met == text.len() {
        return Ok(met);
    }
    Err(met)
}

/// The number of a list that bytes begin with, closed by this byte, and the length of both; or the
/// most that the bytes have in common with one. Each number is tried.
fn tried(bytes: &[u8], numbers: &[u64], closer: u8) -> Result<(u64, usize), usize>
    ensures ok { IfOk result (λ said.
        IsSaid (λ n c. (c ≡ closer) × Contains numbers.now n) bytes.now said.0 said.1) }
    ensures err { IfErr result (IsNone (λ n c. (c ≡ closer) × Contains numbers.now n) bytes.now) }
{
    let mut most: usize = 0;
    for number in numbers {
        match meet(bytes, *number, closer) {
            Ok(len) => return Ok((*number, len)),
            Err(met) => most = most.max(met),
        }
    }
    Err(most)
}

/// The number that bytes begin with, the byte that closes it, and the length of both. None where
/// they begin with no number as it is written, where it has more than 19 digits, or where the bytes
/// end with it. It looks once at each byte.
pub fn spoken(bytes: &[u8]) -> Option<(u64, u8, usize)>
    ensures { IfSome result (λ said. BeginsWith said.0 said.1 bytes.now
        × (said.2 ≡ length (spelled said.0 said.1))) }
{
    let first = *bytes.first()?;
    if first < b'0' || b'9' < first {
        return None;
    }
    let mut number = (first - b'0') as u64;
    for i in 1..bytes.len() {
        let byte = bytes[i];
        if byte < b'0' || b'9' < byte {
            return Some((number, byte, i + 1));
        }
        if number == 0 || number >= 1_000_000_000_000_000_000 {
            return None;
        }
        number = number * 10 + (byte - b'0') as u64;
    }
    None
}

/// The number that bytes begin with, if it is in a rising list and the byte closes it. It is quick,
/// but it may overlook one.
fn guessed(bytes: &[u8], numbers: &[u64], closer: u8) -> Option<(u64, usize)>
    ensures { IfSome result (λ said.
        IsSaid (λ n c. (c ≡ closer) × Contains numbers.now n) bytes.now said.0 said.1) }
{
    let (number, found, len) = spoken(bytes)?;
    let index = numbers.binary_search(&number).ok()?;
    if found != closer {
        return None;
    }
    Some((numbers[index], len))
}

/// The number that bytes begin with, and the length of it and its closer: one of the first list,
/// which a line feed closes, or one of the second list, which a blank closes. Where there is none,
/// the most that the bytes have in common with one. It is quick where the lists rise.
pub fn number(bytes: &[u8], ending: &[u64], going: &[u64]) -> Result<(u64, usize), usize>
    ensures ok { IfOk result (λ said.
        IsSaid (IsOffered ending.now going.now) bytes.now said.0 said.1) }
    ensures err { IfErr result (IsNone (IsOffered ending.now going.now) bytes.now) }
{
    if let Some(said) = guessed(bytes, going, b' ') {
        return Ok(said);
    }
    if let Some(said) = guessed(bytes, ending, b'\n') {
        return Ok(said);
    }
    let first = match tried(bytes, ending, b'\n') {
        Ok(said) => return Ok(said),
        Err(at) => at,
    };
    match tried(bytes, going, b' ') {
        Ok(said) => Ok(said),
        Err(at) => Err(first.max(at)),
    }
}
