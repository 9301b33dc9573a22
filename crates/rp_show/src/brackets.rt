//! What stands around the elements of a container, or around the name of another object.
ghost use Rattle.std.specs.Prelude.{◌≡◌};
ghost use Rattle.rp_store.specs.Object.{content_of};
ghost use Rattle.rp_show.specs.Show.{cut_text, tuple_end};
ghost use Rattle.rp_show.specs.ShowView.{closing, is_container, opening};

use rp_base::Value;
use rp_store::Object;

/// Whether an object is a container.
pub(crate) fn is_container(object: &Object) -> bool
    ensures { result ≡ is_container (content_of object.now) }
{
    match object {
        Object::List(_) => true,
        Object::Tuple(_) => true,
        Object::Dict(_) => true,
        Object::Instance { .. } => false,
        Object::Class { .. } => false,
        Object::Function { .. } => false,
        Object::Method { .. } => false,
        Object::Scope { .. } => false,
    }
}

/// What stands before the elements, or before the name.
pub(crate) fn opening(object: &Object) -> &'static str
    ensures { result.now ≡ opening (content_of object.now) }
{
    match object {
        Object::List(_) => "[",
        Object::Tuple(_) => "(",
        Object::Dict(_) => "{",
        Object::Instance { .. } => "<",
        Object::Class { .. } => "<class '",
        Object::Function { .. } => "<function ",
        Object::Method { .. } => "<method ",
        Object::Scope { .. } => "",
    }
}

/// What stands behind them.
pub(crate) fn closing(object: &Object) -> &'static str
    ensures { result.now ≡ closing (content_of object.now) }
{
    match object {
        Object::List(_) => "]",
        Object::Tuple(elements) => tuple_end(elements.as_slice()),
        Object::Dict(_) => "}",
        Object::Instance { .. } => " object>",
        Object::Class { .. } => "'>",
        Object::Function { .. } => ">",
        Object::Method { .. } => ">",
        Object::Scope { .. } => "",
    }
}

fn tuple_end(elements: &[Value]) -> &'static str
    ensures { result.now ≡ tuple_end elements.now }
{
    if elements.len() == 1 { ",)" } else { ")" }
}

/// A container within itself.
pub(crate) fn cut_text(object: &Object) -> &'static str
    ensures { result.now ≡ cut_text (content_of object.now) }
{
    match object {
        Object::List(_) => "[...]",
        Object::Tuple(_) => "(...)",
        Object::Dict(_) => "{...}",
        Object::Instance { .. } => "",
        Object::Class { .. } => "",
        Object::Function { .. } => "",
        Object::Method { .. } => "",
        Object::Scope { .. } => "",
    }
}
