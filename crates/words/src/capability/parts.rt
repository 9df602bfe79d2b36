ghost use Rattle.std.specs.Prelude.{◌≡◌, ◌≤◌};
ghost use Rattle.words.specs.Meaning.{cap_of};

use super::Capability;
use crate::locality::Locality;
use crate::permission::Permission;

// The addresses are plain numbers, each with its bound: callers compute with them, and would have to take a type of addresses apart at every use.
impl Capability {
    pub fn permission(&self) -> Permission
        ensures { result ≡ (cap_of self.now).permission }
    {
        self.permission
    }

    pub fn locality(&self) -> Locality
        ensures { result ≡ (cap_of self.now).locality }
    {
        self.locality
    }

    pub fn base(&self) -> u32
        ensures value { result ≡ (cap_of self.now).base }
        ensures small { result ≤ 65536 }
    {
        self.base
    }

    pub fn end(&self) -> u32
        ensures value { result ≡ (cap_of self.now).end }
        ensures small { result ≤ 65536 }
    {
        self.end
    }

    pub fn cursor(&self) -> u32
        ensures value { result ≡ (cap_of self.now).cursor }
        ensures small { result ≤ 65536 }
    {
        self.cursor
    }
}
