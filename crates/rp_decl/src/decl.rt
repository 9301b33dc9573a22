//! The records of a declaration file, whole.

use crate::classes::Classes;
use crate::consistency::text_member;
use crate::known_ids::Known;
use crate::name_table::NameTable;
use crate::reading::{names_at, records_at};
use crate::records::{ClassDecl, GroupDecl, ObjectDecl, PrincipalDecl, RoleDecl};
use rp_base::{Memory, Name, Names, Text};
use std::alloc::Global;
use std::marker::Model;
use toml::Table;

/// What a declaration file says. Permissions, classes, roles, groups, principals and objects stand in
/// byte order of their ids and names, each once. Each place of a permission, role or group in it is
/// that of a declared one.
pub struct Decl {
    permissions: Vec<Text>,
    expose: NameTable,
    module_text: Text,
    classes: Classes,
    roles: Vec<RoleDecl>,
    groups: Vec<GroupDecl>,
    principals: Vec<PrincipalDecl>,
    objects: Vec<ObjectDecl>,
}

// By hand, so that crates that drop one do not prove again how its parts are dropped.
impl Drop for Decl {
    fn drop(self) {
        let Decl {
            permissions: _,
            expose: _,
            module_text: _,
            classes: _,
            roles: _,
            groups: _,
            principals: _,
            objects: _,
        } = self;
    }
}

impl Model for Decl {
    ghost use Rattle.std.specs.Coded.{codes};
    ghost use Rattle.rp_decl.specs.contracts.records.Field as field;
    ghost use Rattle.rp_decl.specs.Places.{IsClosed};
    ghost use Rattle.rp_decl.specs.View.{Placed};

    ghost Value = { Placed };

    ghost coded = { Prim.hlevel (codes, field.the_row.coded) };

    ghost view = { λ d. record {
      permissions = d.permissions.items;
      expose = d.expose;
      module_text = d.module_text;
      classes = d.classes;
      roles = d.roles.items;
      groups = d.groups.items;
      principals = d.principals.items;
      objects = d.objects.items;
    } };

    ghost invariant = { λ d. IsClosed (record {
      permissions = d.permissions.items;
      expose = d.expose;
      module_text = d.module_text;
      classes = d.classes;
      roles = d.roles.items;
      groups = d.groups.items;
      principals = d.principals.items;
      objects = d.objects.items;
    }) };
}

impl Decl {
    ghost use Rattle.std.specs.Prelude.{◌≡◌, All, IfOk, length, nat_eq, position};
    ghost use Rattle.rp_base.specs.Names.{with_words};
    ghost use Rattle.toml.specs.View.{table_view};
    ghost use Rattle.rp_decl.specs.DeclaredWords.{declared_words};
    ghost use Rattle.rp_decl.specs.Document.{records_of};
    ghost use Rattle.rp_decl.specs.InOrder.{AreInOrder};
    ghost use Rattle.rp_decl.specs.Reading.{IsAllKnown, IsKnownBy};
    ghost use Rattle.rp_decl.specs.View.{declarations_view};
    ghost use Rattle.rp_decl.specs.Places.{GrowsTo, IsHeldBy, IsClassWithin, IsRoleWithin, IsGroupWithin};
    ghost use Rattle.rp_decl.specs.Places.{IsPrincipalWithin};

    /// What a document declares, where all that it names is known.
    pub(crate) fn read(
        alloc: Global,
        names: &mut Names,
        known: Known,
        document: &Table,
    ) -> Result<Decl, Memory>
        requires known_by { IsKnownBy known (records_of (table_view document.now)) }
        requires all_known { IsAllKnown known (records_of (table_view document.now)) }
        ensures declared { IfOk result (λ d. declarations_view names.new d ≡ records_of (table_view document.now)) }
        ensures held { IfOk result (IsHeldBy names.new) }
        ensures ordered { IfOk result (λ d. AreInOrder (records_of (table_view document.now))) }
        ensures words { IfOk result (λ d. names.new
            ≡ with_words names.old (declared_words (declarations_view names.new d))) }
        ensures grown { GrowsTo names.old names.new }
    {
        let expose = names_at(alloc, names, document, "expose")?;
        let exposed = NameTable::new(alloc, expose, names.len())?;
        let module_text = Text::new(alloc, text_member(document, "module"))?;
        let listed = records_at(alloc, names, &known, document, "class")?;
        let classes = Classes::new(alloc, listed, names.len())?;
        let roles = records_at(alloc, names, &known, document, "role")?;
        let groups = records_at(alloc, names, &known, document, "group")?;
        let principals = records_at(alloc, names, &known, document, "principal")?;
        let objects = records_at(alloc, names, &known, document, "object")?;
        let permissions = known.into_permissions();
        Ok(Decl {
            permissions,
            expose: exposed,
            module_text,
            classes,
            roles,
            groups,
            principals,
            objects,
        })
    }

    /// The ids of the permissions, `zope.Public` among them.
    pub fn permissions(&self) -> &[Text]
        ensures { result.now ≡ self.now.permissions }
    {
        self.permissions.as_slice()
    }

    /// The names that scripts may use, as written.
    pub fn expose(&self) -> &[Name]
        ensures { result.now ≡ self.now.expose }
    {
        self.expose.names()
    }

    /// The first place of a name among those that scripts may use, by one look-up.
    pub fn exposed_place(&self, name: Name) -> Option<usize>
        ensures { result ≡ position (λ other. nat_eq name.0 other.0) self.now.expose }
    {
        self.expose.place(name)
    }

    /// The text of the trusted module, empty where there is none.
    pub fn module(&self) -> &Text
        ensures { result.now ≡ self.now.module_text }
    {
        &self.module_text
    }

    pub fn classes(&self) -> &[ClassDecl]
        ensures value { result.now ≡ self.now.classes }
        ensures within { All (IsClassWithin (length self.now.permissions)) result.now }
    {
        self.classes.list()
    }

    /// The place of the class of a name, by one look-up.
    pub fn class_place(&self, name: Name) -> Option<usize>
        ensures { result ≡ position (λ class. nat_eq name.0 class.name.0) self.now.classes }
    {
        self.classes.place(name)
    }

    /// The roles, none for version 1.
    pub fn roles(&self) -> &[RoleDecl]
        ensures value { result.now ≡ self.now.roles }
        ensures within { All (IsRoleWithin (length self.now.permissions)) result.now }
    {
        self.roles.as_slice()
    }

    pub fn groups(&self) -> &[GroupDecl]
        ensures value { result.now ≡ self.now.groups }
        ensures within { All (IsGroupWithin (length self.now.permissions) (length self.now.roles)) result.now }
    {
        self.groups.as_slice()
    }

    pub fn principals(&self) -> &[PrincipalDecl]
        ensures value { result.now ≡ self.now.principals }
        ensures within { All (IsPrincipalWithin (length self.now.permissions) (length self.now.roles)
            (length self.now.groups)) result.now }
    {
        self.principals.as_slice()
    }

    pub fn objects(&self) -> &[ObjectDecl]
        ensures { result.now ≡ self.now.objects }
    {
        self.objects.as_slice()
    }
}
