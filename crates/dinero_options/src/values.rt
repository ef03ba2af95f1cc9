//! Reads the value of an option: a size, a count or a letter.

ghost use Rattle.std.specs.Prelude.{◌≡◌, ◌<◌, ◌^◌, IfSome};
ghost use Rattle.std.specs.Char.{is_ascii_digit};
ghost use Rattle.std.specs.List.{list_all};
ghost use Rattle.dinero_options.specs.Values.{choice_value, count_value, replacement_value};
ghost use Rattle.dinero_options.specs.Values.{size_value, unit_value};

use cache_core::Repl;

/// Reads a count: 1 to 12 decimal digits.
pub fn read_count(text: &str) -> Option<u64>
    ensures value { result ≡ count_value text.now }
    ensures bound { IfSome result (λ n. n < 10 ^ 12) }
{
    count_of(text.as_bytes())
}

/// Reads a number of bytes: 1 to 12 decimal digits, then nothing, `k` or `K` (times 1,024), or `m`
/// or `M` (times 1,048,576).
pub fn read_size(text: &str) -> Option<u64>
    ensures { result ≡ size_value text.now }
{
    let bytes = text.as_bytes();
    let (last, front) = bytes.split_last()?;
    match unit(*last) {
        Some(unit) => {
            let count = count_of(front)?;
            Some(count * unit)
        }
        None => count_of(bytes),
    }
}

/// The factor of the unit after the digits.
fn unit(byte: u8) -> Option<u64>
    ensures { result ≡ unit_value byte }
{
    match byte {
        b'k' | b'K' => Some(1024),
        b'm' | b'M' => Some(1_048_576),
        _ => None,
    }
}

/// Whether each of the bytes is a decimal digit.
fn are_digits(bytes: &[u8]) -> bool
    ensures { result ≡ list_all is_ascii_digit bytes.now }
{
    bytes.iter().all(|b| b.is_ascii_digit())
}

/// The value of 1 to 12 decimal digits.
fn count_of(digits: &[u8]) -> Option<u64>
    ensures value { result ≡ count_value digits.now }
    ensures bound { IfSome result (λ n. n < 10 ^ 12) }
{
    if digits.is_empty() || digits.len() > 12 || !are_digits(digits) {
        return None;
    }
    let mut value = 0u64;
    for digit in digits {
        value = value * 10 + u64::from(*digit - b'0');
    }
    Some(value)
}

/// Reads `l` for LRU or `f` for FIFO.
pub(crate) fn read_replacement(text: &str) -> Option<Repl>
    ensures { result ≡ replacement_value text.now }
{
    match text {
        "l" => Some(Repl::Lru),
        "f" => Some(Repl::Fifo),
        _ => None,
    }
}

/// Reads `a` (always) as true, or `n` (never) as false.
pub(crate) fn read_choice(text: &str) -> Option<bool>
    ensures { result ≡ choice_value text.now }
{
    match text {
        "a" => Some(true),
        "n" => Some(false),
        _ => None,
    }
}
