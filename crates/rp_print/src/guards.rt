//! What guards put around a text: their names, and how a value is dealt out over a list of targets.

ghost use Rattle.std.specs.Prelude.{◌≡◌, decimal, map, IsTrue, OnOk};
ghost use Rattle.std.specs.Char.{is_ascii};
ghost use Rattle.std.specs.List.{list_all};
ghost use Rattle.rp_tree.specs.ExpressionViews as views;
ghost use Rattle.rp_print.specs.Expressions as printing;
ghost use Rattle.rp_print.specs.PageSteps.{written};
ghost use Rattle.rp_print.specs.WritingSteps as step;

use crate::page::Page;
use crate::shapes::{holds_group, spec_end};
use rp_base::Memory;
use rp_tree::{Target, Trailer};

/// The guards of trailers and their opening parentheses, of what trails last first.
pub(crate) fn write_openings(page: &mut Page, trailers: &[Trailer]) -> Result<(), Memory>
    ensures { OnOk result (page.new
        ≡ step.put_openings (views.trailers_of (map views.view_trailer trailers.now)) page.old) }
{
    let mut left = trailers.len();
    'trailers: while left > 0 {
        left -= 1;
        write_opening(page, &trailers[left])?;
    }
    Ok(())
}

#[tactic(auto, using(rp_tree::proofs::ExpressionEquations::variants))]
fn write_opening(page: &mut Page, trailer: &Trailer) -> Result<(), Memory>
    ensures { OnOk result (page.new ≡ step.put_opening (views.view_trailer trailer.now) page.old) }
{
    match trailer {
        Trailer::Attr(_, None) => Ok(()),
        Trailer::Attr(_, Some(_)) => open_call(page, "_getattr_"),
        Trailer::Item(_, None) => Ok(()),
        Trailer::Item(_, Some(_)) => open_call(page, "_getitem_"),
        Trailer::Slice(_, None) => Ok(()),
        Trailer::Slice(_, Some(_)) => open_call(page, "_getitem_"),
        Trailer::Call(_, None) => Ok(()),
        Trailer::Call(_, Some(_)) => open_call(page, "_apply_"),
    }
}

/// The name of a function and the parenthesis behind it.
pub(crate) fn open_call(page: &mut Page, function: &str) -> Result<(), Memory>
    requires { IsTrue (list_all is_ascii function.now) }
    ensures { OnOk result (page.new ≡ step.opened function.now page.old) }
{
    page.mark(function)?;
    page.mark("(")
}

/// What stands behind a value that is handed to a guard with the list of targets over which it is dealt out.
pub(crate) fn write_dealing(page: &mut Page, targets: &[Target]) -> Result<(), Memory>
    ensures { OnOk result (page.new
        ≡ step.put_dealing (views.targets_of (map views.view_target targets.now)) page.old) }
{
    page.mark(", ")?;
    write_spec(page, targets)?;
    page.mark(", ")?;
    page.mark("_getiter_")?;
    page.mark(")")
}

/// How a value is dealt out over a list of targets.
#[cycle(spec)]
fn write_spec(page: &mut Page, targets: &[Target]) -> Result<(), Memory>
    ensures { OnOk result (page.new ≡ step.put_spec (views.targets_of (map views.view_target targets.now)) page.old) }
{
    page.mark("(")?;
    write_count(page, targets)?;
    'targets: for (index, target) in targets.iter().enumerate() {
        write_inner_spec(page, index, target)?;
    }
    page.mark(spec_end(holds_group(targets)))
}

/// The same of one among the targets, behind a comma, where it is a list itself.
#[cycle(spec)]
#[tactic(auto, using(rp_tree::proofs::ExpressionEquations::variants))]
fn write_inner_spec(page: &mut Page, index: usize, target: &Target) -> Result<(), Memory>
    ensures { OnOk result (page.new ≡ step.put_inner_spec index (views.view_target target.now) page.old) }
{
    match target {
        Target::Place(_) => Ok(()),
        Target::Group(targets) => {
            page.mark(", ")?;
            page.mark("(")?;
            page.count(index)?;
            page.mark(", ")?;
            write_spec(page, targets)?;
            page.mark(")")
        }
    }
}

/// The number of targets.
#[tactic(auto, using(crate::proofs::Counts::targets_counted))]
fn write_count(page: &mut Page, targets: &[Target]) -> Result<(), Memory>
    ensures { OnOk result (page.new
        ≡ written page.old (decimal (printing.targets_count (views.targets_of (map views.view_target targets.now))))) }
{
    page.count(targets.len())
}
