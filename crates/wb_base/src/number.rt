ghost use Rattle.std.specs.Prelude.{◌≡◌, ◌+◌, ◌^◌, ◌<◌, ◌≤◌, decimal, length, IfSome, SomeIff};
ghost use Rattle.std.specs.Str.Parse.{digits_value, AllDigits};
ghost use Rattle.wb_base.specs.Streams.{HasCause, Puts};
ghost use Rattle.wb_base.specs.Numbers.{digits_in_front, is_canonical, number_at, number_within, sign_text, signed_text};

use crate::stream::{Failed, Sink, give_all};
use itoa::Buffer;

// The longest run of digits in front.
fn digits_in_front(bytes: &[u8]) -> &[u8]
    ensures { result.now ≡ digits_in_front bytes.now }
{
    for (i, byte) in bytes.iter().enumerate() {
        if !byte.is_ascii_digit() {
            return &bytes[..i];
        }
    }
    bytes
}

/// Whether a run of digits is the text of a number: it has one, and no leading zero before others.
pub fn is_canonical(digits: &[u8]) -> bool
    ensures { result ≡ is_canonical digits.now }
{
    match digits {
        [] => false,
        [_] => true,
        [first, ..] => *first != b'0',
    }
}

// The number that some digits write, where it fits.
fn value_of(digits: &[u8]) -> Option<u64>
    requires { AllDigits 10 digits.now }
    ensures { SomeIff result (digits_value 10 digits.now < 2 ^ 64) (digits_value 10 digits.now) }
{
    let mut value: u64 = 0;
    for byte in digits {
        let digit = u64::from(byte.saturating_sub(b'0'));
        if value > (u64::MAX - digit) / 10 {
            return None;
        }
        value = 10 * value + digit;
    }
    Some(value)
}

/// The number that the bytes begin with, and how many digits it has: the longest run of digits there.
///
/// `None` where there is no digit, a leading zero before more digits, or a number past `u64`.
pub fn read_number(bytes: &[u8]) -> Option<(u64, usize)>
    ensures { result ≡ number_at bytes.now }
{
    let digits = digits_in_front(bytes);
    if !is_canonical(digits) {
        return None;
    }
    Some((value_of(digits)?, digits.len()))
}

/// The number that a whole text is, if it is within these bounds.
pub fn read_within(text: &[u8], low: u32, high: u32) -> Option<u32>
    ensures number { result ≡ number_within low high text.now }
    ensures low { IfSome result (λ n. low ≤ n) }
    ensures high { IfSome result (λ n. n ≤ high) }
{
    let (value, digits) = read_number(text)?;
    if digits == text.len() && value >= u64::from(low) && value <= u64::from(high) {
        Some(value as u32)
    } else {
        None
    }
}

/// Gives the decimal text of a number.
pub fn put_number<K: Sink>(sink: &mut K, value: u64) -> Result<(), Failed>
    ensures took { Puts (K.taken sink.old) (K.taken sink.new) result (decimal value) }
    ensures cause { HasCause (K.faults sink.old) (K.faults sink.new) result }
    ensures waits { K.waiting sink.new ≤ K.waiting sink.old + length (decimal value) }
{
    let mut buffer = Buffer::new();
    give_all(sink, buffer.format(value).as_bytes())
}

// Gives the minus sign of a negative number.
fn put_sign<K: Sink>(sink: &mut K, negative: bool) -> Result<(), Failed>
    ensures took { Puts (K.taken sink.old) (K.taken sink.new) result (sign_text negative) }
    ensures cause { HasCause (K.faults sink.old) (K.faults sink.new) result }
    ensures waits { K.waiting sink.new ≤ K.waiting sink.old + length (sign_text negative) }
{
    if negative {
        return give_all(sink, b"-");
    }
    Ok(())
}

/// Gives the decimal text of a number, behind a minus sign where it is negative.
pub fn put_signed<K: Sink>(sink: &mut K, negative: bool, value: u64) -> Result<(), Failed>
    ensures took { Puts (K.taken sink.old) (K.taken sink.new) result (signed_text negative value) }
    ensures cause { HasCause (K.faults sink.old) (K.faults sink.new) result }
    ensures waits { K.waiting sink.new ≤ K.waiting sink.old + length (signed_text negative value) }
{
    put_sign(sink, negative)?;
    put_number(sink, value)
}
