ghost use Rattle.std.specs.Prelude.{◌≡◌, Bool, true};
ghost use Rattle.words.specs.Permissions.{permission_code, permission_at, reads, writes, executes, stores_local, is_enter, enter};
ghost use Rattle.words.specs.Orders.{below_permission, PermissionBelow, Exactly};
ghost use Rattle.std.specs.Option.{ok_or};
ghost use Rattle.words.specs.declared.refusal.Refusal.TheVariants.{UnknownCode};
ghost use Rattle.std.proofs.Common.{rules};

use super::order::Order;
use super::refusal::Refusal;

// What a capability allows. The letters stand for reading, writing, storing Local capabilities and executing. O allows nothing, and E (enter) allows
// nothing until it is jumped to.
#[derive(Clone, Copy, Debug, PartialEq, Eq)]
pub enum Permission {
    O,
    RO,
    RW,
    RWL,
    RX,
    E,
    RWX,
    RWLX,
}

impl Permission {
    pub fn reads(self) -> bool
        ensures { result ≡ reads self }
    {
        !matches!(self, Permission::O | Permission::E)
    }

    pub fn writes(self) -> bool
        ensures { result ≡ writes self }
    {
        matches!(
            self,
            Permission::RW | Permission::RWL | Permission::RWX | Permission::RWLX
        )
    }

    pub fn executes(self) -> bool
        ensures { result ≡ executes self }
    {
        matches!(self, Permission::RX | Permission::RWX | Permission::RWLX)
    }

    // Whether Local capabilities may be stored through it too.
    pub fn stores_local(self) -> bool
        ensures { result ≡ stores_local self }
    {
        matches!(self, Permission::RWL | Permission::RWLX)
    }

    pub fn is_enter(self) -> bool
        ensures { result ≡ is_enter self }
    {
        matches!(self, Permission::E)
    }

    // What a jump makes of it: E becomes RX, any other stays.
    pub fn entered(self) -> Permission
        ensures { result ≡ enter self }
    {
        match self {
            Permission::E => Permission::RX,
            other => other,
        }
    }

    // Whether it is below another, in the words of the rule.
    pub fn is_below(self, other: Permission) -> bool
        ensures { Exactly result (PermissionBelow self other) }
    {
        self.below(&other)
    }
}

// The code of a permission.
impl From<Permission> for u32 {
    ghost from_gives = { λ permission code. code ≡ permission_code permission };

    fn from(permission: Permission) -> u32 {
        permission as u32
    }
}

// The permission that has a code; refused where none has it. One such match for permissions and one for localities: a function generic over both would be
// given each variant with its code all the same.
impl TryFrom<u32> for Permission {
    type Error = Refusal;

    ghost try_from_gives = { λ code r. r ≡ ok_or (permission_at code) UnknownCode };

    fn try_from(code: u32) -> Result<Permission, Refusal> {
        match code {
            0 => Ok(Permission::O),
            1 => Ok(Permission::RO),
            2 => Ok(Permission::RW),
            3 => Ok(Permission::RWL),
            4 => Ok(Permission::RX),
            5 => Ok(Permission::E),
            6 => Ok(Permission::RWX),
            7 => Ok(Permission::RWLX),
            _ => Err(Refusal::UnknownCode),
        }
    }
}

impl Order for Permission {
    ghost under = { below_permission };

    ghost reflexive = { Prim.search rules };

    ghost antisymmetric = { Prim.search rules };

    ghost transitive = { Prim.search rules };

    fn below(&self, other: &Permission) -> bool {
        match *self {
            Permission::O => true,
            Permission::E => other.is_enter() || other.executes(),
            Permission::RO => other.reads(),
            Permission::RW => other.writes(),
            Permission::RWL => other.stores_local(),
            Permission::RX => other.executes(),
            Permission::RWX => other.writes() && other.executes(),
            Permission::RWLX => other.stores_local() && other.executes(),
        }
    }
}
