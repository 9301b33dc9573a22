//! Why a declaration file has no records, and the line that tells it.

ghost use Rattle.std.specs.Prelude.{◌≡◌, ◌≢◌, ◌++◌, IfOk, IsTrue, chars, nat_lt, string_bytes};
ghost use Rattle.std.specs.List.{list_all};
ghost use Rattle.rp_decl.specs.Faults.{IsFaultHeld, fault_line, line_of};

use rp_base::{Memory, Name, Names, Text};
use std::alloc::{AllocFailed, Global};

/// Why a declaration file has no records. Where several faults have one cause, the least in byte order
/// is told; the causes are asked in this order.
#[derive(Drop)]
pub enum DeclFault {
    /// The bytes are no TOML document.
    NotToml,
    /// `version` is missing or is neither the integer 1 nor 2.
    Version,
    /// An unknown key, a value of the wrong kind, a missing `class` of an object, or a bad name or id:
    /// its path, the keys from the root joined by dots. An element of an array has the array's path.
    Shape(Text),
    /// A permission that is named and not declared.
    Permission(Text),
    /// A class that is named and not declared, or one that is like itself, over other classes or none.
    Class(Name),
    /// A group that is named and not declared.
    Group(Text),
    /// A role that is named and not declared.
    Role(Text),
    /// A growth was refused.
    Memory,
}

impl From<Memory> for DeclFault {
    ghost use Rattle.std.specs.Prelude.{◌≡◌};
    ghost use Rattle.rp_decl.specs.declared.fault.DeclFault.TheVariants.{Memory};

    ghost from_gives = { λ _ e. e ≡ Memory };

    fn from(_: Memory) -> Self {
        DeclFault::Memory
    }
}

impl<T: Drop> From<AllocFailed<T>> for DeclFault {
    ghost use Rattle.std.specs.Prelude.{◌≡◌};
    ghost use Rattle.rp_decl.specs.declared.fault.DeclFault.TheVariants.{Memory};

    ghost from_gives = { λ _ e. e ≡ Memory };

    fn from(_: AllocFailed<T>) -> Self {
        DeclFault::Memory
    }
}

/// The line that tells a fault: `declarations: CAUSE` and a line end, where CAUSE is `not TOML`,
/// `version`, `shape PATH`, `permission ID`, `class NAME`, `group ID` or `role ID`.
///
/// # Errors
/// `Memory` where a growth was refused.
pub fn fault_line(alloc: Global, fault: &DeclFault, names: &Names) -> Result<String, Memory>
    requires held { IsFaultHeld names.now fault.now }
    requires told { fault.now ≢ DeclFault.Memory }
    ensures { IfOk result (λ line. chars (string_bytes line) ≡ fault_line names.now fault.now) }
{
    match fault {
        DeclFault::NotToml => line(alloc, "not TOML", ""),
        DeclFault::Version => line(alloc, "version", ""),
        DeclFault::Shape(path) => line(alloc, "shape ", path.as_str()),
        DeclFault::Permission(id) => line(alloc, "permission ", id.as_str()),
        DeclFault::Class(name) => line(alloc, "class ", names.text(*name)),
        DeclFault::Group(id) => line(alloc, "group ", id.as_str()),
        DeclFault::Role(id) => line(alloc, "role ", id.as_str()),
        DeclFault::Memory => Err(Memory),
    }
}

/// The line of a cause, of which the words are ASCII.
fn line(alloc: Global, words: &str, which: &str) -> Result<String, Memory>
    requires { IsTrue (list_all (λ byte. nat_lt byte 128) words.now) }
    ensures { IfOk result (λ line. chars (string_bytes line) ≡ line_of (words.now ++ chars which.now)) }
{
    Ok(format!(in alloc; "declarations: {words}{which}\n")?)
}
