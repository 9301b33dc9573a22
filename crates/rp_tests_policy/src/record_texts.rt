//! What a declaration file gives, as text.

use crate::declaration_answers::read;
use rp_base::{Memory, Name, Names, Text};
use rp_decl::{ClassDecl, Decl, DeclFault, Field, GroupDecl, ObjectDecl, Perm, PrincipalDecl};
use rp_tests_cases::seed;
use std::alloc::{AllocError, Global};

fn word(names: &Names, name: Name) -> &str {
    if name.0 < names.len() {
        names.text(name)
    } else {
        "?"
    }
}

fn text_at(texts: &[Text], place: usize) -> &str {
    match texts.get(place) {
        Some(text) => text.as_str(),
        None => "?",
    }
}

fn put_perms(
    shown: &mut String,
    decl: &Decl,
    label: &str,
    perms: &[Perm],
) -> Result<(), AllocError> {
    shown.push_str(label)?;
    for perm in perms {
        let id = text_at(decl.permissions(), perm.0);
        write!(shown, " {id}")?;
    }
    shown.push_str("\n")
}

fn put_rows(
    shown: &mut String,
    decl: &Decl,
    names: &Names,
    label: &str,
    rows: &[(Name, Perm)],
) -> Result<(), AllocError> {
    shown.push_str(label)?;
    for (name, perm) in rows {
        let name = word(names, *name);
        let id = text_at(decl.permissions(), perm.0);
        write!(shown, " {name}={id}")?;
    }
    shown.push_str("\n")
}

fn put_like(shown: &mut String, names: &Names, like: Option<Name>) -> Result<(), AllocError> {
    match like {
        Some(like) => {
            let name = word(names, like);
            writeln!(shown, " like {name}")
        }
        None => shown.push_str("\n"),
    }
}

fn put_class(
    shown: &mut String,
    decl: &Decl,
    names: &Names,
    class: &ClassDecl,
) -> Result<(), AllocError> {
    let name = word(names, class.name);
    write!(shown, "class {name}")?;
    put_like(shown, names, class.like)?;
    put_rows(shown, decl, names, "get", &class.get)?;
    put_rows(shown, decl, names, "set", &class.set)
}

fn put_group(shown: &mut String, decl: &Decl, group: &GroupDecl) -> Result<(), AllocError> {
    let id = group.id.as_str();
    let roles = group.roles.len();
    writeln!(shown, "group {id} of {roles} roles")?;
    put_perms(shown, decl, "allow", &group.allow)?;
    put_perms(shown, decl, "deny", &group.deny)
}

fn put_places(shown: &mut String, label: &str, places: &[usize]) -> Result<(), AllocError> {
    for place in places {
        write!(shown, " {label} {place}")?;
    }
    Ok(())
}

fn put_principal(
    shown: &mut String,
    decl: &Decl,
    principal: &PrincipalDecl,
) -> Result<(), AllocError> {
    let id = principal.id.as_str();
    write!(shown, "principal {id}")?;
    put_places(shown, "group", &principal.groups)?;
    put_places(shown, "role", &principal.roles)?;
    shown.push_str("\n")?;
    put_perms(shown, decl, "allow", &principal.allow)?;
    put_perms(shown, decl, "deny", &principal.deny)
}

fn put_value(shown: &mut String, value: &Field) -> Result<(), AllocError> {
    match value {
        Field::Int(number) => write!(shown, "{number}"),
        Field::Truth(truth) => write!(shown, "{truth}"),
        Field::Text(text) => {
            let text = text.as_str();
            write!(shown, "'{text}'")
        }
        Field::List(items) => {
            let count = items.len();
            write!(shown, "list of {count}")
        }
        Field::Table(entries) => {
            let count = entries.len();
            write!(shown, "table of {count}")
        }
    }
}

fn put_object(shown: &mut String, names: &Names, object: &ObjectDecl) -> Result<(), AllocError> {
    let name = word(names, object.name);
    let class = word(names, object.class);
    write!(shown, "object {name} of {class}:")?;
    for (name, value) in &object.fields {
        let name = word(names, *name);
        write!(shown, " {name}=")?;
        put_value(shown, value)?;
    }
    shown.push_str("\n")
}

/// The permissions, what is exposed and the module.
fn put_front(shown: &mut String, decl: &Decl, names: &Names) -> Result<(), AllocError> {
    shown.push_str("permissions")?;
    for id in decl.permissions() {
        let id = id.as_str();
        write!(shown, " {id}")?;
    }
    shown.push_str("\nexpose")?;
    for name in decl.expose() {
        let name = word(names, *name);
        write!(shown, " {name}")?;
    }
    let module = decl.module().as_str();
    writeln!(shown, "\nmodule {module}")
}

fn put_classes(shown: &mut String, decl: &Decl, names: &Names) -> Result<(), AllocError> {
    for class in decl.classes() {
        put_class(shown, decl, names, class)?;
    }
    Ok(())
}

fn put_roles(shown: &mut String, decl: &Decl) -> Result<(), AllocError> {
    for role in decl.roles() {
        put_perms(shown, decl, role.id.as_str(), &role.permissions)?;
    }
    Ok(())
}

fn put_groups(shown: &mut String, decl: &Decl) -> Result<(), AllocError> {
    for group in decl.groups() {
        put_group(shown, decl, group)?;
    }
    Ok(())
}

fn put_principals(shown: &mut String, decl: &Decl) -> Result<(), AllocError> {
    for principal in decl.principals() {
        put_principal(shown, decl, principal)?;
    }
    Ok(())
}

fn put_objects(shown: &mut String, decl: &Decl, names: &Names) -> Result<(), AllocError> {
    for object in decl.objects() {
        put_object(shown, names, object)?;
    }
    Ok(())
}

/// What a declaration file says.
fn show(alloc: Global, decl: &Decl, names: &Names) -> Result<String, AllocError> {
    let mut shown = String::new(alloc);
    put_front(&mut shown, decl, names)?;
    put_classes(&mut shown, decl, names)?;
    put_roles(&mut shown, decl)?;
    put_groups(&mut shown, decl)?;
    put_principals(&mut shown, decl)?;
    put_objects(&mut shown, decl, names)?;
    Ok(shown)
}

/// What the bytes declare, or `refused`.
pub fn shown(alloc: Global, bytes: &[u8]) -> Result<String, Memory> {
    let mut names = Names::new(alloc, seed())?;
    shown_over(alloc, bytes, &mut names)
}

/// The same, with the names that the bytes are read into.
fn shown_over(alloc: Global, bytes: &[u8], names: &mut Names) -> Result<String, Memory> {
    match read(alloc, bytes, names) {
        Ok(decl) => Ok(show(alloc, &decl, names)?),
        Err(DeclFault::Memory) => Err(Memory),
        Err(_) => Ok(String::from_str(alloc, "refused")?),
    }
}
