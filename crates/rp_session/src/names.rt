//! The names of the declared classes and objects.

ghost use Rattle.std.specs.Prelude.{◌≡◌, IfOk, map};
ghost use Rattle.rp_world.specs.Globals.{placed_names};

use rp_base::{Memory, Name};
use rp_decl::{ClassDecl, Decl, ObjectDecl};
use std::alloc::Global;

/// The names of the declared classes, and then of the declared objects, with which the global names of a module begin.
///
/// # Errors
/// `Memory` where a growth was refused.
pub fn declared_names(alloc: Global, decl: &Decl) -> Result<Vec<Name>, Memory>
    ensures { IfOk result (λ names. names.items ≡ placed_names decl.now) }
{
    let mut names = class_names(alloc, decl.classes())?;
    let objects = object_names(alloc, decl.objects())?;
    names.extend_from_slice(objects.as_slice())?;
    Ok(names)
}

fn class_names(alloc: Global, classes: &[ClassDecl]) -> Result<Vec<Name>, Memory>
    ensures { IfOk result (λ names. names.items ≡ map (λ c. c.name) classes.now) }
{
    Ok(classes.iter().map(|class| class.name).collect(alloc)?)
}

#[tactic(auto, using(std::proofs::lemmas::List::map_more))]
fn object_names(alloc: Global, objects: &[ObjectDecl]) -> Result<Vec<Name>, Memory>
    ensures { IfOk result (λ names. names.items ≡ map (λ o. o.name) objects.now) }
{
    let mut names = Vec::new(alloc);
    for object in objects {
        names.push(object.name)?;
    }
    Ok(names)
}
