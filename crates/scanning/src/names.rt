ghost use Rattle.std.specs.Prelude.{◌≡◌};
ghost use Rattle.notation.specs.Labels.{name_byte, name_bytes, name_shaped, register_like, reserved, is_name};

use notation::{LocalityNames, Mnemonics, PermissionNames, place_of};

fn is_name_byte(byte: u8) -> bool
    ensures { result ≡ name_byte byte }
{
    byte.is_ascii_alphanumeric() || byte == b'_'
}

// Whether every byte is a letter, a digit or an underscore.
fn has_name_bytes(word: &[u8]) -> bool
    ensures { result ≡ name_bytes word.now }
{
    word.iter().all(|byte| is_name_byte(*byte))
}

// Whether a word begins as a name does and goes on as one.
fn is_name_shaped(word: &[u8]) -> bool
    ensures { result ≡ name_shaped word.now }
{
    word.first().is_some_and(|first| !first.is_ascii_digit()) && has_name_bytes(word)
}

// Whether a word begins as the name of a register does.
fn is_register_like(word: &[u8]) -> bool
    ensures { result ≡ register_like word.now }
{
    matches!(word, [b'r', b'0'..=b'9', ..])
}

// Whether a word means something else than a label.
fn is_reserved(word: &[u8]) -> bool
    ensures { result ≡ reserved word.now }
{
    place_of::<Mnemonics>(word).is_some()
        || place_of::<PermissionNames>(word).is_some()
        || place_of::<LocalityNames>(word).is_some()
        || is_register_like(word)
        || b"budget".as_slice() == word
        || b"at".as_slice() == word
}

// Whether a label may have this name.
pub fn is_name(word: &[u8]) -> bool
    ensures { result ≡ is_name word.now }
{
    is_name_shaped(word) && !is_reserved(word)
}
