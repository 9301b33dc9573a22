//! The members of tables as records: of classes, roles, groups, principals and objects.

ghost use Rattle.std.specs.Prelude.{◌≡◌, [], ◌∷◌, IfOk, IfSome, OnOk, codes};
ghost use Rattle.std.specs.Option.{option_map_or};
ghost use Rattle.toml.specs.View.{table_view, view};
ghost use Rattle.rp_base.specs.Names.{with_words};
ghost use Rattle.rp_decl.specs.Document.{members_of, text_at};
ghost use Rattle.rp_decl.specs.Places.{GrowsTo};
ghost use Rattle.rp_decl.specs.Reading.{FromNowOn, IsName, ShowsLike};

use crate::consistency::class_of_object;
use crate::document::member;
use crate::field::field_of;
use crate::known_ids::Known;
use crate::reading::{Record, name_of, place_of, places_of, records_of};
use crate::records::{ClassDecl, Field, GroupDecl, ObjectDecl, Perm, PrincipalDecl, RoleDecl};
use crate::text_set::str_of;
use rp_base::{Memory, Name, Names, Text};
use std::alloc::Global;
use toml::{Table, Value};

/// A name, and the permission that it needs.
impl Record for (Name, Perm) {
    ghost use Rattle.rp_decl.specs.Document.{row_of};
    ghost use Rattle.rp_decl.specs.Reading.{IsKnownRow, ShowsRow};
    ghost use Rattle.rp_decl.specs.Records.{RowText};

    ghost Said = { RowText };

    ghost said = { row_of };

    ghost is_known = { IsKnownRow };

    ghost shows = { ShowsRow };

    ghost words = { λ row. row.0 ∷ [] };

    fn read(
        _alloc: Global,
        names: &mut Names,
        known: &Known,
        key: &str,
        value: &Value,
    ) -> Result<Self, Memory> {
        let place = place_of(&known.permissions, str_of(value));
        let name = name_of(names, key)?;
        Ok((name, Perm(place)))
    }
}

/// A name, and the value of the field.
impl Record for (Name, Field) {
    ghost use Rattle.std.specs.Prelude.{ℕ, List};
    ghost use Rattle.rp_decl.specs.Document.{named_field};
    ghost use Rattle.rp_decl.specs.Reading.{IsKnownField, ShowsField};
    ghost use Rattle.rp_decl.specs.Records.{Field as FieldSaid};

    ghost Said = { List ℕ × FieldSaid };

    ghost said = { named_field };

    ghost is_known = { λ known. IsKnownField };

    ghost shows = { λ names known. ShowsField names };

    ghost words = { λ field. field.0 ∷ [] };

    fn read(
        alloc: Global,
        names: &mut Names,
        _known: &Known,
        key: &str,
        value: &Value,
    ) -> Result<Self, Memory> {
        let field = field_of(alloc, value)?;
        let name = name_of(names, key)?;
        Ok((name, field))
    }
}

impl Record for ClassDecl {
    ghost use Rattle.rp_decl.specs.Document.{class_of};
    ghost use Rattle.rp_decl.specs.Reading.{IsKnownClass, ShowsClass};
    ghost use Rattle.rp_decl.specs.Records.{Class};
    ghost use Rattle.rp_decl.specs.DeclaredWords.{class_words};

    ghost Said = { Class };

    ghost said = { class_of };

    ghost is_known = { IsKnownClass };

    ghost shows = { ShowsClass };

    ghost words = { class_words };

    fn read(
        alloc: Global,
        names: &mut Names,
        known: &Known,
        key: &str,
        value: &Value,
    ) -> Result<Self, Memory> {
        let get = records_of(alloc, names, known, value, "get")?;
        let set = records_of(alloc, names, known, value, "set")?;
        let like = like_of(names, value)?;
        let name = name_of(names, key)?;
        Ok(ClassDecl {
            name,
            like,
            get,
            set,
        })
    }
}

/// The class that a class is like.
fn like_of(names: &mut Names, class: &Value) -> Result<Option<Name>, Memory>
    requires { IfSome (text_at (codes "like") (members_of (view class.now))) IsName }
    ensures like { IfOk result (λ like. FromNowOn names.new
        (λ names. ShowsLike names like (text_at (codes "like") (members_of (view class.now))))) }
    ensures interned { OnOk result (names.new ≡ with_words names.old
        (option_map_or (λ name. name ∷ []) (text_at (codes "like") (members_of (view class.now))) [])) }
    ensures grown { GrowsTo names.old names.new }
{
    match class {
        Value::Table(table) => like_at(names, table),
        _ => Ok(None),
    }
}

fn like_at(names: &mut Names, class: &Table) -> Result<Option<Name>, Memory>
    requires { IfSome (text_at (codes "like") (table_view class.now)) IsName }
    ensures like { IfOk result (λ like. FromNowOn names.new
        (λ names. ShowsLike names like (text_at (codes "like") (table_view class.now)))) }
    ensures interned { OnOk result (names.new ≡ with_words names.old
        (option_map_or (λ name. name ∷ []) (text_at (codes "like") (table_view class.now)) [])) }
    ensures grown { GrowsTo names.old names.new }
{
    match member(class, "like") {
        Some(value) => {
            let name = name_of(names, str_of(value))?;
            Ok(Some(name))
        }
        None => Ok(None),
    }
}

impl Record for RoleDecl {
    ghost use Rattle.rp_decl.specs.Document.{role_of};
    ghost use Rattle.rp_decl.specs.Reading.{IsKnownRole, ShowsRole};
    ghost use Rattle.rp_decl.specs.Records.{Role};

    ghost Said = { Role };

    ghost said = { role_of };

    ghost is_known = { IsKnownRole };

    ghost shows = { λ names. ShowsRole };

    ghost words = { λ r. [] };

    fn read(
        alloc: Global,
        _names: &mut Names,
        known: &Known,
        key: &str,
        value: &Value,
    ) -> Result<Self, Memory> {
        let permissions = places_of(alloc, &known.permissions, value, "permissions")?;
        let id = Text::new(alloc, key)?;
        Ok(RoleDecl { id, permissions })
    }
}

impl Record for GroupDecl {
    ghost use Rattle.rp_decl.specs.Document.{group_of};
    ghost use Rattle.rp_decl.specs.Reading.{IsKnownGroup, ShowsGroup};
    ghost use Rattle.rp_decl.specs.Records.{Group};

    ghost Said = { Group };

    ghost said = { group_of };

    ghost is_known = { IsKnownGroup };

    ghost shows = { λ names. ShowsGroup };

    ghost words = { λ g. [] };

    fn read(
        alloc: Global,
        _names: &mut Names,
        known: &Known,
        key: &str,
        value: &Value,
    ) -> Result<Self, Memory> {
        let roles = places_of(alloc, &known.roles, value, "roles")?;
        let allow = places_of(alloc, &known.permissions, value, "allow")?;
        let deny = places_of(alloc, &known.permissions, value, "deny")?;
        let id = Text::new(alloc, key)?;
        Ok(GroupDecl {
            id,
            roles,
            allow,
            deny,
        })
    }
}

impl Record for PrincipalDecl {
    ghost use Rattle.rp_decl.specs.Document.{principal_of};
    ghost use Rattle.rp_decl.specs.Reading.{IsKnownPrincipal, ShowsPrincipal};
    ghost use Rattle.rp_decl.specs.Records.{Principal};

    ghost Said = { Principal };

    ghost said = { principal_of };

    ghost is_known = { IsKnownPrincipal };

    ghost shows = { λ names. ShowsPrincipal };

    ghost words = { λ p. [] };

    fn read(
        alloc: Global,
        _names: &mut Names,
        known: &Known,
        key: &str,
        value: &Value,
    ) -> Result<Self, Memory> {
        let groups = places_of(alloc, &known.groups, value, "groups")?;
        let roles = places_of(alloc, &known.roles, value, "roles")?;
        let allow = places_of(alloc, &known.permissions, value, "allow")?;
        let deny = places_of(alloc, &known.permissions, value, "deny")?;
        let id = Text::new(alloc, key)?;
        Ok(PrincipalDecl {
            id,
            groups,
            roles,
            allow,
            deny,
        })
    }
}

impl Record for ObjectDecl {
    ghost use Rattle.rp_decl.specs.Document.{object_of};
    ghost use Rattle.rp_decl.specs.Reading.{IsKnownObject, ShowsObject};
    ghost use Rattle.rp_decl.specs.Records.{Object};
    ghost use Rattle.rp_decl.specs.DeclaredWords.{object_words};

    ghost Said = { Object };

    ghost said = { object_of };

    ghost is_known = { λ known. IsKnownObject };

    ghost shows = { λ names known. ShowsObject names };

    ghost words = { object_words };

    fn read(
        alloc: Global,
        names: &mut Names,
        known: &Known,
        key: &str,
        value: &Value,
    ) -> Result<Self, Memory> {
        let fields = records_of(alloc, names, known, value, "fields")?;
        let class = name_of(names, class_of_object(value))?;
        let name = name_of(names, key)?;
        Ok(ObjectDecl {
            name,
            class,
            fields,
        })
    }
}
