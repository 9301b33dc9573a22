//! The bytes of a declaration file to its records, or to the first refusal.

ghost use Rattle.std.specs.Prelude.{◌≡◌, ℕ, List, [], IfOk, IfErr, OnOk, Ok, Result};
ghost use Rattle.toml.specs.View.{table_view};
ghost use Rattle.rp_base.specs.Names.{with_words};
ghost use Rattle.rp_decl.specs.Apart.{AreNamesApart};
ghost use Rattle.rp_decl.specs.Consistency.{IsConsistent, class_faults, class_names, group_faults, group_ids};
ghost use Rattle.rp_decl.specs.Consistency.{permission_faults, role_faults, role_ids};
ghost use Rattle.rp_decl.specs.Declares.{Declares, KeepsVersion1, Refusal, class, consistent, group, permission};
ghost use Rattle.rp_decl.specs.Declares.{refuse, role, shape};
ghost use Rattle.rp_decl.specs.DeclaredWords.{declared_words};
ghost use Rattle.rp_decl.specs.Document.{records_of};
ghost use Rattle.rp_decl.specs.Faults.{HasFault, IsFaultHeld, Tells};
ghost use Rattle.rp_decl.specs.InOrder.{AreInOrder};
ghost use Rattle.rp_decl.specs.Places.{GrowsTo, IsHeldBy};
ghost use Rattle.rp_decl.specs.Reading.{FromNowOn};
ghost use Rattle.rp_decl.specs.Records.{Declarations};
ghost use Rattle.rp_decl.specs.Shape.{faults_of};
ghost use Rattle.rp_decl.specs.View.{declarations_view};

use crate::consistency::{class_fault, group_fault, permission_fault, role_fault};
use crate::decl::Decl;
use crate::document::{read_document, version_of};
use crate::fault::DeclFault;
use crate::known_ids::Known;
use crate::reading::name_of;
use crate::shapes::shape_fault;
use crate::text_set::Sorted;
use rp_base::Names;
use std::alloc::Global;
use toml::Table;

/// The records of a declaration file. The names in it are added to `names`, which keep theirs, in the order of
/// `declared_words`.
///
/// # Errors
/// The first refusal, in the order of `DeclFault`, and `Memory` where a growth was refused. After a
/// refusal further names may be held.
pub fn declarations(alloc: Global, bytes: &[u8], names: &mut Names) -> Result<Decl, DeclFault>
    ensures ok { IfOk result (λ d. Declares bytes.now (declarations_view names.new d)) }
    ensures held { IfOk result (IsHeldBy names.new) }
    ensures ordered { IfOk result (λ d. AreInOrder (declarations_view names.new d)) }
    ensures consistent { IfOk result (λ d. IsConsistent (declarations_view names.new d)) }
    ensures apart { IfOk result (λ d. AreNamesApart (declarations_view names.new d)) }
    ensures fault { IfErr result (HasFault bytes.now names.new) }
    ensures fault_held { IfErr result (IsFaultHeld names.new) }
    ensures version_1 { KeepsVersion1 bytes.now }
    ensures names { GrowsTo names.old names.new }
    ensures words { IfOk result (λ d. names.new
        ≡ with_words names.old (declared_words (declarations_view names.new d))) }
{
    let document = read_document(alloc, bytes)?;
    match version_of(&document) {
        Some(version) => declared(alloc, names, version, &document),
        None => Err(DeclFault::Version),
    }
}

/// What a document of a version declares.
fn declared(
    alloc: Global,
    names: &mut Names,
    version: usize,
    document: &Table,
) -> Result<Decl, DeclFault>
    ensures ok { IfOk result (λ d. refuse shape (faults_of version (table_view document.now))
        (consistent (records_of (table_view document.now))) ≡ Ok (declarations_view names.new d)) }
    ensures held { IfOk result (IsHeldBy names.new) }
    ensures ordered { IfOk result (λ d. AreInOrder (declarations_view names.new d)) }
    ensures words { IfOk result (λ d. names.new
        ≡ with_words names.old (declared_words (declarations_view names.new d))) }
    ensures fault { IfErr result (λ fault. Tells names.new fault
        (refuse shape (faults_of version (table_view document.now))
        (consistent (records_of (table_view document.now))))) }
    ensures fault_held { IfErr result (IsFaultHeld names.new) }
    ensures grown { GrowsTo names.old names.new }
{
    check_shape(alloc, version, document)?;
    let known = Known::new(alloc, document)?;
    check_permissions(alloc, document, &known.permissions)?;
    check_classes(alloc, names, version, document)?;
    check_groups(alloc, document, &known.groups)?;
    check_roles(alloc, document, &known.roles)?;
    Ok(Decl::read(alloc, names, known, document)?)
}

fn check_shape(alloc: Global, version: usize, document: &Table) -> Result<(), DeclFault>
    ensures ok { OnOk result (faults_of version (table_view document.now) ≡ []) }
    ensures fault { IfErr result (λ fault. (names : List (List ℕ)) (next : Result Declarations Refusal)
        → Tells names fault (refuse shape (faults_of version (table_view document.now)) next)) }
    ensures fault_held { IfErr result (λ fault. (names : List (List ℕ)) → IsFaultHeld names fault) }
{
    match shape_fault(alloc, version, document)? {
        Some(path) => Err(DeclFault::Shape(path)),
        None => Ok(()),
    }
}

fn check_permissions(alloc: Global, document: &Table, permissions: &Sorted) -> Result<(), DeclFault>
    requires { permissions.now ≡ (records_of (table_view document.now)).permissions }
    ensures ok { OnOk result (permission_faults (records_of (table_view document.now)) ≡ []) }
    ensures fault { IfErr result (λ fault. (names : List (List ℕ)) (next : Result Declarations Refusal)
        → Tells names fault (refuse permission (permission_faults (records_of (table_view document.now))) next)) }
    ensures fault_held { IfErr result (λ fault. (names : List (List ℕ)) → IsFaultHeld names fault) }
{
    match permission_fault(alloc, document, permissions)? {
        Some(id) => Err(DeclFault::Permission(id)),
        None => Ok(()),
    }
}

fn check_classes(
    alloc: Global,
    names: &mut Names,
    version: usize,
    document: &Table,
) -> Result<(), DeclFault>
    requires { faults_of version (table_view document.now) ≡ [] }
    ensures ok { OnOk result (class_faults (records_of (table_view document.now)) ≡ []) }
    ensures same { OnOk result (names.new ≡ names.old) }
    ensures fault { IfErr result (λ fault. (next : Result Declarations Refusal)
        → Tells names.new fault (refuse class (class_faults (records_of (table_view document.now))) next)) }
    ensures fault_held { IfErr result (IsFaultHeld names.new) }
    ensures grown { GrowsTo names.old names.new }
{
    let classes = Sorted::keys_at(alloc, document, "class")?;
    match class_fault(alloc, document, &classes)? {
        Some(name) => Err(DeclFault::Class(name_of(names, name.as_str())?)),
        None => Ok(()),
    }
}

fn check_groups(alloc: Global, document: &Table, groups: &Sorted) -> Result<(), DeclFault>
    requires { groups.now ≡ group_ids (records_of (table_view document.now)) }
    ensures ok { OnOk result (group_faults (records_of (table_view document.now)) ≡ []) }
    ensures fault { IfErr result (λ fault. (names : List (List ℕ)) (next : Result Declarations Refusal)
        → Tells names fault (refuse group (group_faults (records_of (table_view document.now))) next)) }
    ensures fault_held { IfErr result (λ fault. (names : List (List ℕ)) → IsFaultHeld names fault) }
{
    match group_fault(alloc, document, groups)? {
        Some(id) => Err(DeclFault::Group(id)),
        None => Ok(()),
    }
}

fn check_roles(alloc: Global, document: &Table, roles: &Sorted) -> Result<(), DeclFault>
    requires { roles.now ≡ role_ids (records_of (table_view document.now)) }
    ensures ok { OnOk result (role_faults (records_of (table_view document.now)) ≡ []) }
    ensures fault { IfErr result (λ fault. (names : List (List ℕ)) (next : Result Declarations Refusal)
        → Tells names fault (refuse role (role_faults (records_of (table_view document.now))) next)) }
    ensures fault_held { IfErr result (λ fault. (names : List (List ℕ)) → IsFaultHeld names fault) }
{
    match role_fault(alloc, document, roles)? {
        Some(id) => Err(DeclFault::Role(id)),
        None => Ok(()),
    }
}
