//! The guard fields of a tree, in the order of the fields of its types: those of a form's parts stand before its own.

use rp_tree::{
    Arg, Branch, Clause, Except, Expr, ExprForm, Guard, Params, Place, Stmt, StmtForm, Target,
    Trailer, Walk,
};
use std::alloc::AllocError;

fn word(guard: Guard) -> &'static str {
    match guard {
        Guard::GetAttr => "GetAttr",
        Guard::GetItem => "GetItem",
        Guard::Write => "Write",
        Guard::GetIter => "GetIter",
        Guard::Unpack => "Unpack",
        Guard::IterUnpack => "IterUnpack",
        Guard::Apply => "Apply",
        Guard::Inplace => "Inplace",
    }
}

/// A field, `-` where it is empty, with a blank between it and what stands before.
fn add_guard(out: &mut String, guard: Option<Guard>) -> Result<(), AllocError> {
    if !out.is_empty() {
        out.push(' ')?;
    }
    match guard {
        None => out.push('-'),
        Some(guard) => out.push_str(word(guard)),
    }
}

/// The fields of a block.
#[cycle(shown_guards)]
pub fn show_guards(out: &mut String, stmts: &[Stmt]) -> Result<(), AllocError> {
    for stmt in stmts {
        add_compound(out, &stmt.form)?;
    }
    Ok(())
}

#[cycle(shown_guards)]
fn add_compound(out: &mut String, form: &StmtForm) -> Result<(), AllocError> {
    match form {
        StmtForm::If(branches, other) => {
            add_branches(out, branches)?;
            if let Some(other) = other {
                show_guards(out, other)?;
            }
            Ok(())
        }
        StmtForm::While(test, body) => {
            add_expr(out, test)?;
            show_guards(out, body)
        }
        StmtForm::For(walk, body) => {
            add_walk(out, walk)?;
            show_guards(out, body)
        }
        StmtForm::Try {
            body,
            handlers,
            other,
            last,
        } => {
            show_guards(out, body)?;
            add_handlers(out, handlers)?;
            if let Some(other) = other {
                show_guards(out, other)?;
            }
            if let Some(last) = last {
                show_guards(out, last)?;
            }
            Ok(())
        }
        StmtForm::Def(_, _, params, body) => {
            add_params(out, params)?;
            show_guards(out, body)
        }
        StmtForm::Class(_, body) => show_guards(out, body),
        form => add_simple(out, form),
    }
}

#[cycle(shown_guards)]
fn add_branches(out: &mut String, branches: &[Branch]) -> Result<(), AllocError> {
    for branch in branches {
        add_expr(out, &branch.test)?;
        show_guards(out, &branch.body)?;
    }
    Ok(())
}

#[cycle(shown_guards)]
fn add_handlers(out: &mut String, handlers: &[Except]) -> Result<(), AllocError> {
    for handler in handlers {
        add_maybe(out, &handler.kind)?;
        show_guards(out, &handler.body)?;
    }
    Ok(())
}

fn add_simple(out: &mut String, form: &StmtForm) -> Result<(), AllocError> {
    match form {
        StmtForm::Expr(expr) => add_expr(out, expr),
        StmtForm::Assign(places, value) => {
            add_places(out, places)?;
            add_expr(out, value)
        }
        StmtForm::Unpack(target, value, guard) => {
            add_target(out, target)?;
            add_expr(out, value)?;
            add_guard(out, *guard)
        }
        StmtForm::Aug {
            place,
            value,
            guard,
            ..
        } => {
            add_place(out, place)?;
            add_expr(out, value)?;
            add_guard(out, *guard)
        }
        StmtForm::Del(places) => add_places(out, places),
        StmtForm::Return(value) => add_maybe(out, value),
        StmtForm::Raise(value) => add_maybe(out, value),
        StmtForm::Assert(test, message) => {
            add_expr(out, test)?;
            add_maybe(out, message)
        }
        _ => Ok(()),
    }
}

fn add_places(out: &mut String, places: &[Place]) -> Result<(), AllocError> {
    for place in places {
        add_place(out, place)?;
    }
    Ok(())
}

#[cycle(shown_guards_of_parts)]
fn add_place(out: &mut String, place: &Place) -> Result<(), AllocError> {
    match place {
        Place::Name(_) => Ok(()),
        Place::Attr(object, _, guard) => {
            add_expr(out, object)?;
            add_guard(out, *guard)
        }
        Place::Item(container, key, guard) => {
            add_expr(out, container)?;
            add_expr(out, key)?;
            add_guard(out, *guard)
        }
    }
}

#[cycle(shown_guards_of_parts)]
fn add_target(out: &mut String, target: &Target) -> Result<(), AllocError> {
    match target {
        Target::Place(place) => add_place(out, place),
        Target::Group(targets) => {
            for target in targets {
                add_target(out, target)?;
            }
            Ok(())
        }
    }
}

#[cycle(shown_guards_of_parts)]
fn add_walk(out: &mut String, walk: &Walk) -> Result<(), AllocError> {
    add_target(out, &walk.target)?;
    add_expr(out, &walk.of)?;
    add_guard(out, walk.guard)
}

#[cycle(shown_guards_of_parts)]
fn add_params(out: &mut String, params: &Params) -> Result<(), AllocError> {
    for plain in &params.plain {
        if let Some(default) = &plain.1 {
            add_expr(out, default)?;
        }
    }
    Ok(())
}

#[cycle(shown_guards_of_parts)]
fn add_maybe(out: &mut String, expr: &Option<Expr>) -> Result<(), AllocError> {
    match expr {
        None => Ok(()),
        Some(expr) => add_expr(out, expr),
    }
}

#[cycle(shown_guards_of_parts)]
fn add_exprs(out: &mut String, exprs: &[Expr]) -> Result<(), AllocError> {
    for expr in exprs {
        add_expr(out, expr)?;
    }
    Ok(())
}

#[cycle(shown_guards_of_parts)]
fn add_expr(out: &mut String, expr: &Expr) -> Result<(), AllocError> {
    match &*expr.form {
        ExprForm::Tuple(exprs) => add_exprs(out, exprs),
        ExprForm::List(exprs) => add_exprs(out, exprs),
        ExprForm::Or(exprs) => add_exprs(out, exprs),
        ExprForm::And(exprs) => add_exprs(out, exprs),
        ExprForm::Not(operand) => add_expr(out, operand),
        ExprForm::Unary(_, operand) => add_expr(out, operand),
        ExprForm::Power(base, exponent) => {
            add_expr(out, base)?;
            add_expr(out, exponent)
        }
        ExprForm::Cond { test, yes, no } => {
            add_expr(out, test)?;
            add_expr(out, yes)?;
            add_expr(out, no)
        }
        form => add_list(out, form),
    }
}

/// The fields of a form that has a list of parts.
#[cycle(shown_guards_of_parts)]
fn add_list(out: &mut String, form: &ExprForm) -> Result<(), AllocError> {
    match form {
        ExprForm::Dict(pairs) => {
            for pair in pairs {
                add_expr(out, &pair.0)?;
                add_expr(out, &pair.1)?;
            }
            Ok(())
        }
        ExprForm::Compare(first, tests) => {
            add_expr(out, first)?;
            for test in tests {
                add_expr(out, &test.1)?;
            }
            Ok(())
        }
        ExprForm::Chain(first, operations) => {
            add_expr(out, first)?;
            for operation in operations {
                add_expr(out, &operation.1)?;
            }
            Ok(())
        }
        form => add_scope(out, form),
    }
}

/// The fields of a form with names of its own, or with trailers.
#[cycle(shown_guards_of_parts)]
fn add_scope(out: &mut String, form: &ExprForm) -> Result<(), AllocError> {
    match form {
        ExprForm::ListOf(_, element, clauses) => {
            add_expr(out, element)?;
            add_clauses(out, clauses)
        }
        ExprForm::DictOf(_, key, value, clauses) => {
            add_expr(out, key)?;
            add_expr(out, value)?;
            add_clauses(out, clauses)
        }
        ExprForm::Lambda(_, params, body) => {
            add_params(out, params)?;
            add_expr(out, body)
        }
        ExprForm::Primary(atom, trailers) => {
            add_expr(out, atom)?;
            for trailer in trailers {
                add_trailer(out, trailer)?;
            }
            Ok(())
        }
        _ => Ok(()),
    }
}

#[cycle(shown_guards_of_parts)]
fn add_clauses(out: &mut String, clauses: &[Clause]) -> Result<(), AllocError> {
    for clause in clauses {
        add_walk(out, &clause.walk)?;
        add_exprs(out, &clause.tests)?;
    }
    Ok(())
}

#[cycle(shown_guards_of_parts)]
fn add_trailer(out: &mut String, trailer: &Trailer) -> Result<(), AllocError> {
    match trailer {
        Trailer::Attr(_, guard) => add_guard(out, *guard),
        Trailer::Item(key, guard) => {
            add_expr(out, key)?;
            add_guard(out, *guard)
        }
        Trailer::Slice(slice, guard) => {
            add_maybe(out, &slice.from)?;
            add_maybe(out, &slice.to)?;
            add_maybe(out, &slice.step)?;
            add_guard(out, *guard)
        }
        Trailer::Call(args, guard) => {
            for arg in args {
                add_arg(out, arg)?;
            }
            add_guard(out, *guard)
        }
    }
}

#[cycle(shown_guards_of_parts)]
fn add_arg(out: &mut String, arg: &Arg) -> Result<(), AllocError> {
    match arg {
        Arg::Plain(value) => add_expr(out, value),
        Arg::Star(value) => add_expr(out, value),
        Arg::Key(_, value) => add_expr(out, value),
        Arg::Stars(value) => add_expr(out, value),
    }
}
