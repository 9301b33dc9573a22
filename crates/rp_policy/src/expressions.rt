//! The walk over expressions and their parts.

ghost use Rattle.std.specs.Prelude.{◌≡◌, OnOk, map, option_map};
ghost use Rattle.rp_policy.specs.CollectionSteps as steps;
ghost use Rattle.rp_policy.specs.Spots as tree_spots;
ghost use Rattle.rp_tree.specs.ExpressionViews as views;

use crate::collector::Collector;
use crate::spot::Spot;
use rp_base::{BinOp, Line, Memory};
use rp_tree::{
    Arg, Clause, Expr, ExprForm, Named, Params, Place, Slice, Target, Test, Trailer, Walk,
};

impl<'a> Collector<'a> {
    #[cycle(expr)]
    pub(crate) fn expr(&mut self, expr: &Expr) -> Result<(), Memory>
        ensures { OnOk result (self.new ≡ steps.with_expr (views.view_expr expr.now) self.old) }
    {
        self.form(expr.line, &expr.form)
    }

    #[cycle(expr)]
    #[tactic(auto, using(rp_tree::proofs::ExpressionEquations::variants))]
    fn form(&mut self, line: Line, form: &ExprForm) -> Result<(), Memory>
        ensures { OnOk result (self.new ≡ steps.with_form line (views.view_form form.now) self.old) }
    {
        match form {
            ExprForm::Name(name) => self.see(Spot::Reads(Named { name: *name, line })),
            ExprForm::Int(_) | ExprForm::Text(_) | ExprForm::Const(_) => Ok(()),
            ExprForm::Tuple(exprs) => self.exprs(exprs),
            ExprForm::List(exprs) => self.exprs(exprs),
            ExprForm::Dict(pairs) => self.pairs(pairs),
            ExprForm::ListOf(_, element, clauses) => {
                self.expr(element)?;
                self.clauses(clauses)
            }
            ExprForm::DictOf(_, key, value, clauses) => {
                self.expr(key)?;
                self.expr(value)?;
                self.clauses(clauses)
            }
            ExprForm::Lambda(_, params, body) => {
                self.params(params)?;
                self.expr(body)
            }
            ExprForm::Cond { test, yes, no } => {
                self.expr(yes)?;
                self.expr(test)?;
                self.expr(no)
            }
            ExprForm::Or(exprs) => self.exprs(exprs),
            ExprForm::And(exprs) => self.exprs(exprs),
            ExprForm::Not(operand) => self.expr(operand),
            ExprForm::Compare(first, tests) => {
                self.expr(first)?;
                self.tests(tests)
            }
            ExprForm::Chain(first, operands) => {
                self.expr(first)?;
                self.operands(operands)
            }
            ExprForm::Unary(_, operand) => self.expr(operand),
            ExprForm::Power(base, exponent) => {
                self.expr(base)?;
                self.expr(exponent)
            }
            ExprForm::Primary(atom, trailers) => {
                self.atom(atom, called_name(atom, trailers))?;
                self.trailers(trailers)
            }
        }
    }

    /// The atom of a primary, and the name that is called, where one is.
    #[cycle(expr)]
    fn atom(&mut self, atom: &Expr, called: Option<Named>) -> Result<(), Memory>
        ensures { OnOk result (self.new
            ≡ steps.with_atom called (steps.with_expr (views.view_expr atom.now) self.old) self.old) }
    {
        match called {
            Some(name) => self.see(Spot::Calls(name)),
            None => self.expr(atom),
        }
    }

    #[cycle(expr)]
    fn exprs(&mut self, exprs: &[Expr]) -> Result<(), Memory>
        ensures { OnOk result (self.new ≡ steps.with_exprs (views.exprs_of (map views.view_expr exprs.now)) self.old) }
    {
        'exprs: for expr in exprs {
            self.expr(expr)?;
        }
        Ok(())
    }

    #[cycle(expr)]
    fn maybe(&mut self, expr: &Option<Expr>) -> Result<(), Memory>
        ensures { OnOk result (self.new
            ≡ steps.with_maybe (views.maybe_of (option_map views.view_expr expr.now)) self.old) }
    {
        match expr {
            None => Ok(()),
            Some(expr) => self.expr(expr),
        }
    }

    #[cycle(expr)]
    fn pairs(&mut self, pairs: &[(Expr, Expr)]) -> Result<(), Memory>
        ensures { OnOk result (self.new ≡ steps.with_pairs (views.pairs_of (map views.view_pair pairs.now)) self.old) }
    {
        'pairs: for pair in pairs {
            self.expr(&pair.0)?;
            self.expr(&pair.1)?;
        }
        Ok(())
    }

    #[cycle(expr)]
    fn tests(&mut self, tests: &[(Test, Expr)]) -> Result<(), Memory>
        ensures { OnOk result (self.new ≡ steps.with_tests (views.tests_of (map views.view_test tests.now)) self.old) }
    {
        'tests: for test in tests {
            self.expr(&test.1)?;
        }
        Ok(())
    }

    #[cycle(expr)]
    fn operands(&mut self, operands: &[(BinOp, Expr)]) -> Result<(), Memory>
        ensures { OnOk result (self.new ≡ steps.with_ops (views.ops_of (map views.view_op operands.now)) self.old) }
    {
        'operands: for operand in operands {
            self.expr(&operand.1)?;
        }
        Ok(())
    }

    #[cycle(expr)]
    fn clauses(&mut self, clauses: &[Clause]) -> Result<(), Memory>
        ensures { OnOk result (self.new
            ≡ steps.with_clauses (views.clauses_of (map views.view_clause clauses.now)) self.old) }
    {
        'clauses: for clause in clauses {
            self.clause(clause)?;
        }
        Ok(())
    }

    #[cycle(expr)]
    fn clause(&mut self, clause: &Clause) -> Result<(), Memory>
        ensures { OnOk result (self.new ≡ steps.with_clause (views.view_clause clause.now) self.old) }
    {
        self.walk(&clause.walk)?;
        self.exprs(&clause.tests)
    }

    #[cycle(expr)]
    pub(crate) fn walk(&mut self, walk: &Walk) -> Result<(), Memory>
        ensures { OnOk result (self.new ≡ steps.with_walk (views.view_walk walk.now) self.old) }
    {
        self.target(&walk.target)?;
        self.expr(&walk.of)
    }

    #[cycle(expr)]
    pub(crate) fn target(&mut self, target: &Target) -> Result<(), Memory>
        ensures { OnOk result (self.new ≡ steps.with_target (views.view_target target.now) self.old) }
    {
        match target {
            Target::Place(place) => self.place(place),
            Target::Group(targets) => self.targets(targets),
        }
    }

    #[cycle(expr)]
    fn targets(&mut self, targets: &[Target]) -> Result<(), Memory>
        ensures { OnOk result (self.new
            ≡ steps.with_targets (views.targets_of (map views.view_target targets.now)) self.old) }
    {
        'targets: for target in targets {
            self.target(target)?;
        }
        Ok(())
    }

    #[cycle(expr)]
    pub(crate) fn place(&mut self, place: &Place) -> Result<(), Memory>
        ensures { OnOk result (self.new ≡ steps.with_place (views.view_place place.now) self.old) }
    {
        match place {
            Place::Name(named) => self.see(Spot::Binds(*named)),
            Place::Attr(object, named, _) => {
                self.expr(object)?;
                self.see(Spot::Attribute(*named))
            }
            Place::Item(container, key, _) => {
                self.expr(container)?;
                self.expr(key)
            }
        }
    }

    #[cycle(expr)]
    pub(crate) fn params(&mut self, params: &Params) -> Result<(), Memory>
        ensures { OnOk result (self.new ≡ steps.with_params (views.view_params params.now) self.old) }
    {
        self.plain(&params.plain)?;
        self.bind_option(params.list)?;
        self.bind_option(params.dict)
    }

    #[cycle(expr)]
    fn plain(&mut self, plain: &[(Named, Option<Expr>)]) -> Result<(), Memory>
        ensures { OnOk result (self.new ≡ steps.with_plain (views.plain_of (map views.view_plain plain.now)) self.old) }
    {
        'plain: for param in plain {
            self.see(Spot::Binds(param.0))?;
            if let Some(default) = &param.1 {
                self.expr(default)?;
            }
        }
        Ok(())
    }

    #[cycle(expr)]
    fn trailer(&mut self, trailer: &Trailer) -> Result<(), Memory>
        ensures { OnOk result (self.new ≡ steps.with_trailer (views.view_trailer trailer.now) self.old) }
    {
        match trailer {
            Trailer::Attr(named, _) => self.see(Spot::Attribute(*named)),
            Trailer::Item(key, _) => self.expr(key),
            Trailer::Slice(slice, _) => self.slice(slice),
            Trailer::Call(args, _) => self.args(args),
        }
    }

    #[cycle(expr)]
    fn slice(&mut self, slice: &Slice) -> Result<(), Memory>
        ensures { let parts = views.view_slice slice.now in
            OnOk result (self.new
            ≡ steps.with_maybe parts.2 (steps.with_maybe parts.1 (steps.with_maybe parts.0 self.old))) }
    {
        self.maybe(&slice.from)?;
        self.maybe(&slice.to)?;
        self.maybe(&slice.step)
    }

    #[cycle(expr)]
    fn trailers(&mut self, trailers: &[Trailer]) -> Result<(), Memory>
        ensures { OnOk result (self.new
            ≡ steps.with_trailers (views.trailers_of (map views.view_trailer trailers.now)) self.old) }
    {
        'trailers: for trailer in trailers {
            self.trailer(trailer)?;
        }
        Ok(())
    }

    #[cycle(expr)]
    fn arg(&mut self, arg: &Arg) -> Result<(), Memory>
        ensures { OnOk result (self.new ≡ steps.with_arg (views.view_arg arg.now) self.old) }
    {
        match arg {
            Arg::Plain(expr) | Arg::Star(expr) | Arg::Key(_, expr) | Arg::Stars(expr) => {
                self.expr(expr)
            }
        }
    }

    #[cycle(expr)]
    fn args(&mut self, args: &[Arg]) -> Result<(), Memory>
        ensures { OnOk result (self.new ≡ steps.with_args (views.args_of (map views.view_arg args.now)) self.old) }
    {
        'arguments: for arg in args {
            self.arg(arg)?;
        }
        Ok(())
    }
}

/// The name that is called directly: an atom that is a name, where a call is the first to trail it.
fn called_name(atom: &Expr, trailers: &[Trailer]) -> Option<Named>
    ensures { result
        ≡ tree_spots.called_name (views.view_expr atom.now) (views.trailers_of (map views.view_trailer trailers.now)) }
{
    if begins_with_call(trailers) {
        name_of(atom)
    } else {
        None
    }
}

fn name_of(expr: &Expr) -> Option<Named>
    ensures { result ≡ tree_spots.name_of (views.view_expr expr.now) }
{
    form_name(expr.line, &expr.form)
}

#[tactic(auto, using(rp_tree::proofs::ExpressionEquations::variants))]
fn form_name(line: Line, form: &ExprForm) -> Option<Named>
    ensures { result ≡ tree_spots.form_name line (views.view_form form.now) }
{
    match form {
        ExprForm::Name(name) => Some(Named { name: *name, line }),
        _ => None,
    }
}

fn begins_with_call(trailers: &[Trailer]) -> bool
    ensures { result ≡ tree_spots.begins_with_call (views.trailers_of (map views.view_trailer trailers.now)) }
{
    match trailers {
        [first, ..] => is_call(first),
        [] => false,
    }
}

#[tactic(auto, using(rp_tree::proofs::ExpressionEquations::variants))]
fn is_call(trailer: &Trailer) -> bool
    ensures { result ≡ tree_spots.is_call (views.view_trailer trailer.now) }
{
    match trailer {
        Trailer::Call(_, _) => true,
        _ => false,
    }
}
