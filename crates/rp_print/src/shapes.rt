//! What the form of a text depends on: which expressions stand alone, and how lists begin and end.

ghost use Rattle.std.specs.Prelude.{◌≡◌, ◌||◌, map, IsTrue};
ghost use Rattle.std.specs.Char.{is_ascii};
ghost use Rattle.std.specs.List.{list_all};
ghost use Rattle.rp_tree.specs.ExpressionViews as views;
ghost use Rattle.rp_print.specs.Expressions as printing;
ghost use Rattle.rp_print.specs.PageSteps.{spec_end};
ghost use Rattle.rp_print.specs.Texts.{tuple_end};
ghost use Rattle.rp_print.specs.WritingSteps as step;

use rp_tree::{Expr, ExprForm, Params, Target, Trailer};

/// Whether a form needs no parentheses as an operand.
#[tactic(auto, using(rp_tree::proofs::ExpressionEquations::variants))]
pub(crate) fn stands_alone(form: &ExprForm) -> bool
    ensures { result ≡ printing.stands_alone (views.view_form form.now) }
{
    match form {
        ExprForm::Name(_) | ExprForm::Int(_) | ExprForm::Text(_) | ExprForm::Const(_) => true,
        ExprForm::Tuple(_) | ExprForm::List(_) | ExprForm::Dict(_) => true,
        ExprForm::ListOf(_, _, _) | ExprForm::DictOf(_, _, _, _) => true,
        ExprForm::Lambda(_, _, _) | ExprForm::Cond { .. } => false,
        ExprForm::Or(_) | ExprForm::And(_) | ExprForm::Not(_) => false,
        ExprForm::Compare(_, _) | ExprForm::Chain(_, _) => false,
        ExprForm::Unary(_, _) | ExprForm::Power(_, _) => false,
        ExprForm::Primary(_, _) => true,
    }
}

/// Whether a form needs none before a dot or a bracket.
#[tactic(auto, using(rp_tree::proofs::ExpressionEquations::variants))]
fn stands_before_trailer(form: &ExprForm) -> bool
    ensures { result ≡ printing.stands_before_trailer (views.view_form form.now) }
{
    match form {
        ExprForm::Name(_) | ExprForm::Text(_) | ExprForm::Const(_) => true,
        ExprForm::Tuple(_) | ExprForm::List(_) | ExprForm::Dict(_) => true,
        ExprForm::ListOf(_, _, _) | ExprForm::DictOf(_, _, _, _) => true,
        ExprForm::Lambda(_, _, _) | ExprForm::Cond { .. } => false,
        ExprForm::Or(_) | ExprForm::And(_) | ExprForm::Not(_) => false,
        ExprForm::Compare(_, _) | ExprForm::Chain(_, _) => false,
        ExprForm::Unary(_, _) | ExprForm::Power(_, _) => false,
        ExprForm::Int(_) | ExprForm::Primary(_, _) => false,
    }
}

/// Whether a form needs none as what a trailer belongs to.
pub(crate) fn stands_as_base(guarded: bool, form: &ExprForm) -> bool
    ensures { result ≡ (guarded || printing.stands_before_trailer (views.view_form form.now)) }
{
    guarded || stands_before_trailer(form)
}

/// Whether what trails an atom first is a call of a guard.
pub(crate) fn begins_guarded(trailers: &[Trailer]) -> bool
    ensures { result ≡ printing.begins_guarded (views.trailers_of (map views.view_trailer trailers.now)) }
{
    match trailers {
        [first, ..] => is_guarded(first),
        [] => false,
    }
}

#[tactic(auto, using(rp_tree::proofs::ExpressionEquations::variants))]
fn is_guarded(trailer: &Trailer) -> bool
    ensures { result ≡ printing.is_guarded (views.view_trailer trailer.now) }
{
    match trailer {
        Trailer::Attr(_, None) => false,
        Trailer::Attr(_, Some(_)) => true,
        Trailer::Item(_, None) => false,
        Trailer::Item(_, Some(_)) => true,
        Trailer::Slice(_, None) => false,
        Trailer::Slice(_, Some(_)) => true,
        Trailer::Call(_, None) => false,
        Trailer::Call(_, Some(_)) => true,
    }
}

/// Whether a list stands among the targets.
pub(crate) fn holds_group(targets: &[Target]) -> bool
    ensures { result ≡ step.holds_group (views.targets_of (map views.view_target targets.now)) }
{
    'targets: for target in targets {
        if is_group(target) {
            return true;
        }
    }
    false
}

#[tactic(auto, using(rp_tree::proofs::ExpressionEquations::variants))]
fn is_group(target: &Target) -> bool
    ensures { result ≡ step.is_group (views.view_target target.now) }
{
    match target {
        Target::Place(_) => false,
        Target::Group(_) => true,
    }
}

/// Whether there is no parameter.
#[tactic(auto, using(rp_tree::proofs::ExpressionEquations::params_out, crate::proofs::Counts::no_plain))]
pub(crate) fn holds_none(params: &Params) -> bool
    ensures { result ≡ step.has_no_params (views.view_params params.now) }
{
    params.plain.is_empty() && params.list.is_none() && params.dict.is_none()
}

/// Whether there is no parameter without a star.
#[tactic(auto, using(rp_tree::proofs::ExpressionEquations::params_out, crate::proofs::Counts::no_plain))]
pub(crate) fn holds_no_plain(params: &Params) -> bool
    ensures { result ≡ step.no_plain_of (views.view_params params.now) }
{
    params.plain.is_empty()
}

/// Whether there is neither such a parameter nor one with one star.
#[tactic(auto, using(rp_tree::proofs::ExpressionEquations::params_out, crate::proofs::Counts::no_plain))]
pub(crate) fn holds_no_list(params: &Params) -> bool
    ensures { result ≡ step.has_no_list (views.view_params params.now) }
{
    params.plain.is_empty() && params.list.is_none()
}

/// The end of a tuple of these expressions.
#[tactic(auto, using(crate::proofs::Counts::exprs_counted))]
pub(crate) fn exprs_end(exprs: &[Expr]) -> &'static str
    ensures text { result.now ≡ tuple_end (step.exprs_count (views.exprs_of (map views.view_expr exprs.now))) }
    ensures ascii { IsTrue (list_all is_ascii result.now) }
{
    tuple_end(exprs.len())
}

/// The end of a list of these targets.
#[tactic(auto, using(crate::proofs::Counts::targets_counted))]
pub(crate) fn targets_end(targets: &[Target]) -> &'static str
    ensures text { result.now
        ≡ tuple_end (printing.targets_count (views.targets_of (map views.view_target targets.now))) }
    ensures ascii { IsTrue (list_all is_ascii result.now) }
{
    tuple_end(targets.len())
}

#[tactic(auto, unfolding(crate::specs::Texts::tuple_end))]
fn tuple_end(count: usize) -> &'static str
    ensures text { result.now ≡ tuple_end count }
    ensures ascii { IsTrue (list_all is_ascii result.now) }
{
    if count == 1 { ",)" } else { ")" }
}

/// The end of how a value is dealt out, where a list stands among the targets or not.
#[tactic(auto, unfolding(crate::specs::PageSteps::spec_end))]
pub(crate) fn spec_end(nested: bool) -> &'static str
    ensures text { result.now ≡ spec_end nested }
    ensures ascii { IsTrue (list_all is_ascii result.now) }
{
    if nested { ")" } else { ",)" }
}
