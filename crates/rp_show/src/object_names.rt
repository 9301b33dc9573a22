//! The names of objects that are no containers.
ghost use Rattle.std.specs.Prelude.{◌≡◌, ◌++◌, ℕ, [], chars};
ghost use Rattle.std.specs.Option.{option_map_or};
ghost use Rattle.rp_store.specs.Heap.{content_at};
ghost use Rattle.rp_store.specs.Object.{content_of};
ghost use Rattle.rp_show.specs.Show.{callee_word, class_word, function_name, function_word, printed};
ghost use Rattle.rp_show.specs.ShowView.{KeepsRoom, named_text, word_in};
ghost use Rattle.rp_show.specs.Prints.{Prints};

use crate::brackets::{closing, opening};
use crate::printer::Printer;
use rp_base::{Name, Names, Oid, OpEnd, word_of};
use rp_store::{Callee, Object, Store};

/// Prints an object that is no container, by its name.
///
/// # Errors
/// As `print`.
pub(crate) fn print_named(
    store: &Store,
    names: &Names,
    printer: &mut Printer,
    object: &Object,
) -> Result<(), OpEnd>
    ensures plain { (steps : ℕ) → Prints result printer.new printer.old store.now.heap steps steps
        (printed (named_text names.now store.now.heap (content_of object.now))) }
    ensures counters { KeepsRoom printer.old.purse printer.new.purse }
{
    printer.print(opening(object))?;
    printer.print(word_in(store, names, object))?;
    printer.print(closing(object))
}

/// The name that is shown of an object, nothing where it has none.
fn word_in<'a>(store: &Store, names: &'a Names, object: &Object) -> &'a str
    ensures { chars result.now ≡ word_in names.now store.now.heap (content_of object.now) }
{
    match object {
        Object::Instance { class, .. } => class_word_at(store, names, *class),
        Object::Class { name, .. } => word_of(names, *name),
        Object::Function { name, .. } => function_name(names, *name),
        Object::Method { callee, .. } => callee_word(store, names, callee),
        Object::List(_) => "",
        Object::Tuple(_) => "",
        Object::Dict(_) => "",
        Object::Scope { .. } => "",
    }
}

fn function_name<'a>(names: &'a Names, name: Option<Name>) -> &'a str
    ensures { chars result.now ≡ function_name names.now name }
{
    match name {
        Some(name) => word_of(names, name),
        None => "<lambda>",
    }
}

fn class_word_at<'a>(store: &Store, names: &'a Names, at: Oid) -> &'a str
    ensures { chars result.now ≡ option_map_or (class_word names.now) (content_at store.now.heap at) [] }
{
    match store.get(at) {
        Some(object) => class_word(names, object),
        None => "",
    }
}

fn class_word<'a>(names: &'a Names, object: &Object) -> &'a str
    ensures { chars result.now ≡ class_word names.now (content_of object.now) }
{
    match object {
        Object::Class { name, .. } => word_of(names, *name),
        _ => "",
    }
}

/// The name of what a bound method calls.
fn callee_word<'a>(store: &Store, names: &'a Names, callee: &Callee) -> &'a str
    ensures { chars result.now ≡ callee_word names.now store.now.heap callee.now }
{
    match callee {
        Callee::Function(at) => function_word_at(store, names, *at),
        Callee::Native(native) => native.as_str(),
    }
}

fn function_word_at<'a>(store: &Store, names: &'a Names, at: Oid) -> &'a str
    ensures { chars result.now ≡ option_map_or (function_word names.now) (content_at store.now.heap at) [] }
{
    match store.get(at) {
        Some(object) => function_word(names, object),
        None => "",
    }
}

fn function_word<'a>(names: &'a Names, object: &Object) -> &'a str
    ensures { chars result.now ≡ function_word names.now (content_of object.now) }
{
    match object {
        Object::Function { name, .. } => function_name(names, *name),
        _ => "",
    }
}
