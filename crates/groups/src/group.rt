ghost use Rattle.std.specs.Prelude.{◌≡◌, length, Some};
ghost use Rattle.words.specs.Meaning.{meaning};
ghost use Rattle.groups.specs.Packing.{packed};
ghost use Rattle.groups.specs.Groups.{group, group_word, number_at};
ghost use Rattle.groups.specs.Answers.{unpacking, unpacking_of, Unpacks};

use super::number::{decode, encode};
use words::{Refusal, Word};

// The eight bytes of a word, most significant first. No From here either, since neither type is this crate's own.
pub fn pack(word: &Word) -> [u8; 8]
    ensures bytes { result ≡ group (packed (meaning word.now)) }
    ensures back { group_word result ≡ Some (meaning word.now) }
{
    encode(word).to_be_bytes()
}

// The word in a group; refused for anything but eight bytes that pack one. No TryFrom, as for `pack`.
pub fn unpack(bytes: &[u8]) -> Result<Word, Refusal>
    ensures value { unpacking result ≡ unpacking_of bytes.now }
    ensures exactly { Unpacks bytes.now result }
{
    let group = <[u8; 8]>::try_from(bytes).map_err(|_| Refusal::MalformedGroup)?;
    decode(u64::from_be_bytes(group)).ok_or(Refusal::MalformedGroup)
}
