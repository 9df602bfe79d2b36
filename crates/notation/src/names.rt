ghost use Rattle.std.specs.Prelude.{◌≡◌, ℕ, List, ◌∷◌, length, map};
ghost use Rattle.notation.specs.Names.{instruction_names, permission_names, locality_names, named, place_of};

// A table of names, which writing and reading share.
pub trait Names {
    // the names, in their order
    ghost names: { List (List ℕ) };

    fn table() -> &'static [&'static str]
        ensures { map (λ name. name.now) result.now ≡ names };

    fn count() -> usize
        ensures { result ≡ length names }
    {
        Self::table().len()
    }

    // The name at a place; empty where there is none.
    fn name(place: usize) -> &'static str
        ensures { result.now ≡ named names place }
    {
        Self::table().get(place).copied().unwrap_or("")
    }
}

// The names of the instructions, from opcode 1 on.
pub struct Mnemonics;

impl Names for Mnemonics {
    ghost names = { instruction_names };

    fn table() -> &'static [&'static str] {
        &[
            "fail", "halt", "jmp", "jnz", "move", "load", "store", "plus", "minus", "lt", "lea",
            "restrict", "subseg", "isptr", "getp", "getl", "getb", "gete", "geta", "quot",
        ]
    }
}

// The names of the permissions, by their codes.
pub struct PermissionNames;

impl Names for PermissionNames {
    ghost names = { permission_names };

    fn table() -> &'static [&'static str] {
        &["O", "RO", "RW", "RWL", "RX", "E", "RWX", "RWLX"]
    }
}

// The names of the localities, by their codes.
pub struct LocalityNames;

impl Names for LocalityNames {
    ghost names = { locality_names };

    fn table() -> &'static [&'static str] {
        &["Global", "Local"]
    }
}

// The first place in a table that has a name.
pub fn place_of<N: Names>(word: &[u8]) -> Option<usize>
    ensures { result ≡ place_of N.names word.now }
{
    N::table().iter().position(|name| name.as_bytes() == word)
}
