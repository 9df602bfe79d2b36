ghost use Rattle.std.specs.Prelude.{◌≡◌, ◌≤◌, length};
ghost use Rattle.std.specs.Str.{all_ascii_digits};
ghost use Rattle.notation.specs.Numerals.{digits_after, kept, number_in, integer_in, register_in};

use words::REGISTERS;

// The number that up to nineteen digits write, as many as 64 bits always hold; none where a byte is no digit.
fn digits(word: &[u8]) -> Option<u64>
    requires { length word.now ≤ 19 }
    ensures { result ≡ kept (all_ascii_digits word.now) (digits_after 0 word.now) }
{
    let mut number = 0;
    for byte in word {
        number = number * 10 + u64::from(char::from(*byte).to_digit(10)?);
    }
    Some(number)
}

// The number that a word of one to ten digits writes, if it is below 2 ^ 32.
pub fn number(word: &[u8]) -> Option<u32>
    ensures { result ≡ number_in word.now }
{
    if word.is_empty() || word.len() > 10 {
        return None;
    }
    u32::try_from(digits(word)?).ok()
}

// The same, after a minus sign if there is one. A match, since `map_or_else` would put the word without a sign first.
pub fn integer(word: &[u8]) -> Option<i64>
    ensures { result ≡ integer_in word.now }
{
    match word.strip_prefix(b"-") {
        Some(digits) => number(digits).map(|magnitude| -i64::from(magnitude)),
        None => number(word).map(i64::from),
    }
}

// The number of a register: `r` and a number up to 15.
pub fn register(word: &[u8]) -> Option<u32>
    ensures { result ≡ register_in word.now }
{
    number(word.strip_prefix(b"r")?).filter(|number| *number < REGISTERS as u32)
}
