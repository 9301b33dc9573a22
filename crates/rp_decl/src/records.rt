//! The records of declarations: classes, roles, groups, principals and objects.

use rp_base::{Name, Text};

/// A permission, by its place among those of the declarations.
#[derive(Clone, Copy, Debug, PartialEq, Eq, PartialOrd, Ord, Hash)]
pub struct Perm(pub usize);

/// The value of a field of a declared object.
#[derive(Drop)]
pub enum Field {
    Int(i64),
    Text(Text),
    Truth(bool),
    /// A trusted list.
    List(Vec<Field>),
    /// A trusted dict, with its keys in byte order, each once.
    Table(Vec<(Text, Field)>),
}

/// A class: the class whose rows it has where it has none of its own, and for each name the permission
/// that reading it needs, and the one that setting it needs, in byte order of the names, each once.
#[derive(Drop)]
pub struct ClassDecl {
    pub name: Name,
    pub like: Option<Name>,
    pub get: Vec<(Name, Perm)>,
    pub set: Vec<(Name, Perm)>,
}

/// A role, with its permissions as written.
#[derive(Drop)]
pub struct RoleDecl {
    pub id: Text,
    pub permissions: Vec<Perm>,
}

/// A group, with its roles by their places, and the permissions that it is granted and denied, as
/// written.
#[derive(Drop)]
pub struct GroupDecl {
    pub id: Text,
    pub roles: Vec<usize>,
    pub allow: Vec<Perm>,
    pub deny: Vec<Perm>,
}

/// A principal, with its groups and roles by their places, and the permissions that it is granted and
/// denied, as written.
#[derive(Drop)]
pub struct PrincipalDecl {
    pub id: Text,
    pub groups: Vec<usize>,
    pub roles: Vec<usize>,
    pub allow: Vec<Perm>,
    pub deny: Vec<Perm>,
}

/// An object of a declared class, with its fields in byte order of their names, each once.
#[derive(Drop)]
pub struct ObjectDecl {
    pub name: Name,
    pub class: Name,
    pub fields: Vec<(Name, Field)>,
}
