ghost use Rattle.std.specs.Prelude.{◌≡◌, ◌/◌, ◌%◌, ◌^◌, Some};
ghost use Rattle.words.specs.Meaning.{meaning};
ghost use Rattle.groups.specs.Packing.{packed, unpacked, capability_in, plain};
ghost use Rattle.groups.specs.Answers.{word_given, capability_given, Decodes};

use words::{Capability, Word};

// The word as a number: its group, the first byte most significant. A function and no From, since neither type is this crate's own.
pub fn encode(word: &Word) -> u64
    ensures value { result ≡ packed (meaning word.now) }
    ensures back { unpacked result ≡ Some (meaning word.now) }
{
    match word {
        Word::Int(integer) => u64::from(integer.cast_unsigned()),
        Word::Cap(held) => {
            (1 << 63)
                + (u64::from(u32::from(held.permission())) << 59)
                + (u64::from(u32::from(held.locality())) << 57)
                + (u64::from(held.base()) << 40)
                + (u64::from(held.end()) << 23)
                + (u64::from(held.cursor()) << 6)
        }
    }
}

// The fields of a number that has the marks of a capability.
fn decode_capability(number: u64) -> Option<Capability>
    ensures { capability_given result ≡ capability_in number }
{
    Capability::from_numbers(
        ((number >> 59) % 16) as u32,
        ((number >> 57) % 4) as u32,
        ((number >> 40) % 0x20000) as u32,
        ((number >> 23) % 0x20000) as u32,
        ((number >> 6) % 0x20000) as u32,
    )
    .ok()
}

// The word that a number packs, if it packs one. No TryFrom, as for `encode`; and to pack none is no error.
pub fn decode(number: u64) -> Option<Word>
    ensures value { word_given result ≡ unpacked number }
    ensures exactly { Decodes number result }
{
    if let Ok(bits) = u32::try_from(number) {
        Some(Word::Int(bits.cast_signed()))
    } else if number >> 63 == 1 && number % 64 == 0 {
        let held = decode_capability(number)?;
        Some(Word::Cap(held))
    } else {
        None
    }
}

// The word that a plain number means, in a table or a hand: one that packs no word means integer 0.
pub fn plain_word(number: u64) -> Word
    ensures { meaning result ≡ plain number }
{
    decode(number).unwrap_or(Word::Int(0))
}
