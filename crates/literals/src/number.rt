//! Numbers in decimal, without a leading zero.

ghost use Rattle.std.specs.Prelude.{◌≡◌, ◌++◌, ◌+◌, ◌-◌, ◌*◌, ◌^◌, ◌<◌, ◌≤◌, length, take, drop, cond, nat_lt, Some, None, OnOk, OnErr, decimal};
ghost use Rattle.std.specs.Fmt.{signed_decimal};
ghost use Rattle.std.specs.Char.{is_ascii_digit};
ghost use Rattle.literals.specs.Reads.{found_number};
ghost use Rattle.literals.specs.Number.{number_after, is_canonical, digits_len, number_of, u64_at, where_u64};

use itoa::Buffer;
use rel_base::NoMemory;

/// How many digits stand at the start of the bytes.
pub fn digits_len(bytes: &[u8]) -> usize
    ensures value { result ≡ digits_len bytes.now }
    ensures bound { result ≤ length bytes.now }
{
    for (at, byte) in bytes.iter().enumerate() {
        if !byte.is_ascii_digit() {
            return at;
        }
    }
    bytes.len()
}

/// The number that digits write, if it is below 2^64.
pub fn number_of(digits: &[u8]) -> Option<u64>
    ensures { result ≡ cond (nat_lt (number_after 0 digits.now) (2 ^ 64)) (Some (number_after 0 digits.now)) None }
{
    let mut number: u64 = 0;
    for digit in digits {
        number = one_more(number, *digit)?;
    }
    Some(number)
}

/// The number with one more digit at its end, if it is below 2^64.
fn one_more(number: u64, digit: u8) -> Option<u64>
    ensures { result ≡ cond (nat_lt (number * 10 + (digit - 48)) (2 ^ 64)) (Some (number * 10 + (digit - 48))) None }
{
    number
        .checked_mul(10)?
        .checked_add(u64::from(digit.saturating_sub(b'0')))
}

/// Whether the digits are those of a number in its one spelling: there is one, and a first zero stands alone.
pub fn is_canonical(digits: &[u8]) -> bool
    ensures { result ≡ is_canonical digits.now }
{
    match digits {
        [] => false,
        [_] => true,
        [first, ..] => *first != b'0',
    }
}

/// Reads the number below 2^64 at the start of the bytes, and answers what follows its last digit too.
pub fn read_number(bytes: &[u8]) -> Option<(u64, &[u8])>
    ensures { found_number result ≡ u64_at bytes.now }
{
    let (digits, rest) = bytes.split_at(digits_len(bytes));
    if !is_canonical(digits) {
        return None;
    }
    let number = number_of(digits)?;
    Some((number, rest))
}

/// Writes a number at the end, in decimal.
pub fn push_number(out: &mut Vec<u8>, number: u64) -> Result<(), NoMemory>
    ensures ok { OnOk result (out.new.items ≡ out.old.items ++ decimal number) }
    ensures err { OnErr result (out.new.items ≡ out.old.items) }
{
    let mut buffer = Buffer::new();
    out.extend_from_slice(buffer.format(number).as_bytes())?;
    Ok(())
}

/// Writes a number at the end, in decimal, with `-` before a negative one.
pub fn push_int(out: &mut Vec<u8>, number: i64) -> Result<(), NoMemory>
    ensures ok { OnOk result (out.new.items ≡ out.old.items ++ signed_decimal number) }
    ensures err { OnErr result (out.new.items ≡ out.old.items) }
{
    let mut buffer = Buffer::new();
    out.extend_from_slice(buffer.format(number).as_bytes())?;
    Ok(())
}
