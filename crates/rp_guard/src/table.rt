//! The guards of forms that have one or another, or none, after what their parts are.

ghost use Rattle.std.specs.Prelude.{◌≡◌, Some, map};
ghost use Rattle.rp_tree.specs.ExpressionViews as views;
ghost use Rattle.rp_tree.specs.Maps.{call_site, inplace_site, walk_site};
ghost use Rattle.rp_tree.specs.Marks.{guard_at};

use rp_tree::{Arg, Guard, Place, Target};

/// The guard of going over an iterable whose elements are assigned to the target.
pub fn walk_guard(target: &Target) -> Guard
    ensures { Some result ≡ guard_at (walk_site (views.view_target target.now)) }
{
    match target {
        Target::Place(_) => Guard::GetIter,
        Target::Group(_) => Guard::IterUnpack,
    }
}

/// The guard of a call with the arguments: none where no argument stands behind `*` or `**`.
pub fn call_guard(args: &[Arg]) -> Option<Guard>
    ensures { result ≡ guard_at (call_site (views.args_of (map views.view_arg args.now))) }
{
    'arguments: for arg in args {
        match arg {
            Arg::Plain(_) => {}
            Arg::Key(_, _) => {}
            Arg::Star(_) => return Some(Guard::Apply),
            Arg::Stars(_) => return Some(Guard::Apply),
        }
    }
    None
}

/// The guard of an augmented assignment to the place: none where it is no name.
pub fn inplace_guard(place: &Place) -> Option<Guard>
    ensures { result ≡ guard_at (inplace_site (views.view_place place.now)) }
{
    match place {
        Place::Name(_) => Some(Guard::Inplace),
        Place::Attr(_, _, _) => None,
        Place::Item(_, _, _) => None,
    }
}
