ghost use Rattle.std.specs.Prelude.{◌≡◌, cond, nat_le};
ghost use Rattle.words.specs.Word.{covers, with_rights};
ghost use Rattle.words.specs.Orders.{below_capability};
ghost use Rattle.words.specs.Meaning.{cap_of};
ghost use Rattle.words.specs.Parts.{rights_of, bounds_of, authority_of};
ghost use Rattle.words.specs.Making.{making, made_from, made_with, moved_to, bounded_by};

use super::Capability;
use crate::bounds::Bounds;
use crate::locality::Locality;
use crate::order::Order;
use crate::pair::{Authority, Pair, Rights};
use crate::permission::Permission;
use crate::refusal::Refusal;

// The largest base, end and cursor.
const TOP: u32 = 65536;

// A number that may be a base, an end or a cursor; refused above the largest.
fn address(number: u32) -> Result<u32, Refusal>
    ensures { result ≡ cond (nat_le number 65536) (Ok number) (Err Refusal.OutOfRange) }
{
    if number > TOP {
        return Err(Refusal::OutOfRange);
    }
    Ok(number)
}

impl Capability {
    // A capability from plain numbers. A code that is not listed is refused before a number above 65,536.
    pub fn from_numbers(
        permission: u32,
        locality: u32,
        base: u32,
        end: u32,
        cursor: u32,
    ) -> Result<Capability, Refusal>
        ensures { making result ≡ made_from permission locality base end cursor }
    {
        let permission = Permission::try_from(permission)?;
        let locality = Locality::try_from(locality)?;
        Capability::new(permission, locality, base, end, cursor)
    }

    // From its parts. They come one by one, as the rules list them: with a pair for the rights and another for the bounds a caller would write more.
    pub fn new(
        permission: Permission,
        locality: Locality,
        base: u32,
        end: u32,
        cursor: u32,
    ) -> Result<Capability, Refusal>
        ensures { making result ≡ made_with permission locality base end cursor }
    {
        Ok(Capability {
            permission,
            locality,
            base: address(base)?,
            end: address(end)?,
            cursor: address(cursor)?,
        })
    }

    pub fn covers(&self, address: u32) -> bool
        ensures { result ≡ covers (cap_of self.now) address }
    {
        (self.base..self.end).contains(&address)
    }

    // The same with another cursor; refused where that is above 65,536.
    pub fn with_cursor(mut self, cursor: u32) -> Result<Capability, Refusal>
        ensures { making result ≡ moved_to (cap_of self) cursor }
    {
        self.cursor = address(cursor)?;
        Ok(self)
    }

    // The same with other bounds; refused where one of them is above 65,536.
    pub fn with_bounds(mut self, bounds: Bounds) -> Result<Capability, Refusal>
        ensures { making result ≡ bounded_by (cap_of self) bounds.base bounds.end }
    {
        self.base = address(bounds.base)?;
        self.end = address(bounds.end)?;
        Ok(self)
    }

    pub fn with_rights(mut self, rights: Rights) -> Capability
        ensures { cap_of result ≡ with_rights (cap_of self) rights.first rights.second }
    {
        self.permission = rights.first;
        self.locality = rights.second;
        self
    }

    pub fn bounds(&self) -> Bounds
        ensures { result ≡ bounds_of (cap_of self.now) }
    {
        Bounds {
            base: self.base,
            end: self.end,
        }
    }

    pub fn rights(&self) -> Rights
        ensures { result ≡ rights_of (cap_of self.now) }
    {
        Pair {
            first: self.permission,
            second: self.locality,
        }
    }

    // All that it gives its holder, the cursor aside.
    pub fn authority(&self) -> Authority
        ensures { result ≡ authority_of (cap_of self.now) }
    {
        Pair {
            first: self.rights(),
            second: self.bounds(),
        }
    }

    // Whether it gives its holder no more than another does, the cursors aside.
    pub fn is_below(&self, other: &Capability) -> bool
        ensures { result ≡ below_capability (cap_of self.now) (cap_of other.now) }
    {
        self.authority().below(&other.authority())
    }
}
