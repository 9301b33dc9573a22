//! Expressions in prefix form: a node in parentheses, its kind and then its parts.

use rp_base::{BinOp, CmpOp, Name, Names, UnOp};
use rp_tree::{Arg, Clause, Const, Expr, ExprForm, Params, Place, Target, Test, Trailer};
use std::alloc::AllocError;

/// A word.
pub fn show_name(out: &mut String, names: &Names, name: Name) -> Result<(), AllocError> {
    if name.0 < names.len() {
        out.push_str(names.text(name))?;
    }
    Ok(())
}

fn sign(op: BinOp) -> &'static str {
    match op {
        BinOp::Add => "+",
        BinOp::Sub => "-",
        BinOp::Mul => "*",
        BinOp::FloorDiv => "//",
        BinOp::Mod => "%",
        BinOp::Pow => "**",
        BinOp::BitAnd => "&",
        BinOp::BitOr => "|",
        BinOp::BitXor => "^",
        BinOp::LShift => "<<",
        BinOp::RShift => ">>",
    }
}

fn prefix(op: UnOp) -> &'static str {
    match op {
        UnOp::Neg => "-",
        UnOp::Pos => "+",
        UnOp::Invert => "~",
    }
}

fn comparison(test: Test) -> &'static str {
    match test {
        Test::Order(CmpOp::Lt) => "<",
        Test::Order(CmpOp::Le) => "<=",
        Test::Order(CmpOp::Gt) => ">",
        Test::Order(CmpOp::Ge) => ">=",
        Test::Order(CmpOp::Eq) => "==",
        Test::Order(CmpOp::Ne) => "!=",
        Test::Within => "in",
        Test::NotWithin => "not in",
        Test::Is => "is",
        Test::IsNot => "is not",
    }
}

fn constant(value: Const) -> &'static str {
    match value {
        Const::Nil => "None",
        Const::Truth(true) => "True",
        Const::Truth(false) => "False",
    }
}

/// An expression.
#[cycle(shown)]
pub fn show_expr(out: &mut String, names: &Names, expr: &Expr) -> Result<(), AllocError> {
    match &*expr.form {
        ExprForm::Name(name) => show_name(out, names, *name),
        ExprForm::Int(value) => show_int(out, *value),
        ExprForm::Text(text) => {
            out.push('\'')?;
            out.push_str(text.as_str())?;
            out.push('\'')
        }
        ExprForm::Const(value) => out.push_str(constant(*value)),
        form => {
            out.push('(')?;
            show_form(out, names, form)?;
            out.push(')')
        }
    }
}

fn show_int(out: &mut String, value: i64) -> Result<(), AllocError> {
    let spelled = format!(in *out.allocator(); "{value}")?;
    out.push_str(spelled.as_str())
}

#[cycle(shown)]
fn show_form(out: &mut String, names: &Names, form: &ExprForm) -> Result<(), AllocError> {
    match form {
        ExprForm::Tuple(exprs) => show_exprs(out, names, "tuple", exprs),
        ExprForm::List(exprs) => show_exprs(out, names, "list", exprs),
        ExprForm::Or(exprs) => show_exprs(out, names, "or", exprs),
        ExprForm::And(exprs) => show_exprs(out, names, "and", exprs),
        ExprForm::Not(operand) => {
            out.push_str("not ")?;
            show_expr(out, names, operand)
        }
        ExprForm::Unary(op, operand) => {
            out.push_str(prefix(*op))?;
            out.push(' ')?;
            show_expr(out, names, operand)
        }
        ExprForm::Power(base, exponent) => {
            out.push_str("** ")?;
            show_expr(out, names, base)?;
            out.push(' ')?;
            show_expr(out, names, exponent)
        }
        form => show_other(out, names, form),
    }
}

#[cycle(shown)]
fn show_other(out: &mut String, names: &Names, form: &ExprForm) -> Result<(), AllocError> {
    match form {
        ExprForm::Dict(pairs) => show_pairs(out, names, pairs),
        ExprForm::ListOf(_, element, clauses) => {
            out.push_str("list of ")?;
            show_expr(out, names, element)?;
            show_clauses(out, names, clauses)
        }
        ExprForm::DictOf(_, key, value, clauses) => {
            out.push_str("dict of ")?;
            show_expr(out, names, key)?;
            out.push(' ')?;
            show_expr(out, names, value)?;
            show_clauses(out, names, clauses)
        }
        ExprForm::Lambda(_, params, body) => {
            out.push_str("lambda ")?;
            show_params(out, names, params)?;
            out.push(' ')?;
            show_expr(out, names, body)
        }
        ExprForm::Cond { test, yes, no } => {
            out.push_str("if ")?;
            show_expr(out, names, test)?;
            out.push(' ')?;
            show_expr(out, names, yes)?;
            out.push(' ')?;
            show_expr(out, names, no)
        }
        form => show_joined(out, names, form),
    }
}

#[cycle(shown)]
fn show_joined(out: &mut String, names: &Names, form: &ExprForm) -> Result<(), AllocError> {
    match form {
        ExprForm::Compare(first, tests) => {
            show_expr(out, names, first)?;
            show_tests(out, names, tests)
        }
        ExprForm::Chain(first, operations) => {
            show_expr(out, names, first)?;
            show_operations(out, names, operations)
        }
        ExprForm::Primary(atom, trailers) => {
            show_expr(out, names, atom)?;
            show_trailers(out, names, trailers)
        }
        _ => Ok(()),
    }
}

#[cycle(shown)]
fn show_exprs(
    out: &mut String,
    names: &Names,
    kind: &str,
    exprs: &[Expr],
) -> Result<(), AllocError> {
    out.push_str(kind)?;
    for expr in exprs {
        out.push(' ')?;
        show_expr(out, names, expr)?;
    }
    Ok(())
}

#[cycle(shown)]
fn show_pairs(out: &mut String, names: &Names, pairs: &[(Expr, Expr)]) -> Result<(), AllocError> {
    out.push_str("dict")?;
    for pair in pairs {
        out.push(' ')?;
        show_expr(out, names, &pair.0)?;
        out.push(':')?;
        show_expr(out, names, &pair.1)?;
    }
    Ok(())
}

#[cycle(shown)]
fn show_clauses(out: &mut String, names: &Names, clauses: &[Clause]) -> Result<(), AllocError> {
    for clause in clauses {
        out.push_str(" for ")?;
        show_target(out, names, &clause.walk.target)?;
        out.push_str(" in ")?;
        show_expr(out, names, &clause.walk.of)?;
        for test in &clause.tests {
            out.push_str(" if ")?;
            show_expr(out, names, test)?;
        }
    }
    Ok(())
}

/// Parameters, and a colon.
#[cycle(shown)]
pub fn show_params(out: &mut String, names: &Names, params: &Params) -> Result<(), AllocError> {
    for plain in &params.plain {
        show_name(out, names, plain.0.name)?;
        if let Some(default) = &plain.1 {
            out.push('=')?;
            show_expr(out, names, default)?;
        }
        out.push(' ')?;
    }
    if let Some(list) = params.list {
        out.push('*')?;
        show_name(out, names, list.name)?;
        out.push(' ')?;
    }
    if let Some(dict) = params.dict {
        out.push_str("**")?;
        show_name(out, names, dict.name)?;
        out.push(' ')?;
    }
    out.push(':')
}

#[cycle(shown)]
fn show_tests(out: &mut String, names: &Names, tests: &[(Test, Expr)]) -> Result<(), AllocError> {
    for test in tests {
        out.push(' ')?;
        out.push_str(comparison(test.0))?;
        out.push(' ')?;
        show_expr(out, names, &test.1)?;
    }
    Ok(())
}

#[cycle(shown)]
fn show_operations(
    out: &mut String,
    names: &Names,
    operations: &[(BinOp, Expr)],
) -> Result<(), AllocError> {
    for operation in operations {
        out.push(' ')?;
        out.push_str(sign(operation.0))?;
        out.push(' ')?;
        show_expr(out, names, &operation.1)?;
    }
    Ok(())
}

#[cycle(shown)]
fn show_trailers(out: &mut String, names: &Names, trailers: &[Trailer]) -> Result<(), AllocError> {
    for trailer in trailers {
        out.push(' ')?;
        show_trailer(out, names, trailer)?;
    }
    Ok(())
}

#[cycle(shown)]
fn show_trailer(out: &mut String, names: &Names, trailer: &Trailer) -> Result<(), AllocError> {
    match trailer {
        Trailer::Attr(name, _) => {
            out.push('.')?;
            show_name(out, names, name.name)
        }
        Trailer::Item(item, _) => {
            out.push('[')?;
            show_expr(out, names, item)?;
            out.push(']')
        }
        Trailer::Slice(slice, _) => {
            out.push('[')?;
            show_maybe(out, names, &slice.from)?;
            out.push(':')?;
            show_maybe(out, names, &slice.to)?;
            out.push(':')?;
            show_maybe(out, names, &slice.step)?;
            out.push(']')
        }
        Trailer::Call(args, _) => {
            out.push_str("call")?;
            for arg in args {
                out.push(' ')?;
                show_arg(out, names, arg)?;
            }
            Ok(())
        }
    }
}

#[cycle(shown)]
fn show_maybe(out: &mut String, names: &Names, expr: &Option<Expr>) -> Result<(), AllocError> {
    match expr {
        None => Ok(()),
        Some(expr) => show_expr(out, names, expr),
    }
}

#[cycle(shown)]
fn show_arg(out: &mut String, names: &Names, arg: &Arg) -> Result<(), AllocError> {
    match arg {
        Arg::Plain(value) => show_expr(out, names, value),
        Arg::Star(value) => {
            out.push('*')?;
            show_expr(out, names, value)
        }
        Arg::Key(name, value) => {
            show_name(out, names, *name)?;
            out.push('=')?;
            show_expr(out, names, value)
        }
        Arg::Stars(value) => {
            out.push_str("**")?;
            show_expr(out, names, value)
        }
    }
}

/// A target.
#[cycle(shown)]
pub fn show_target(out: &mut String, names: &Names, target: &Target) -> Result<(), AllocError> {
    match target {
        Target::Place(place) => show_place(out, names, place),
        Target::Group(targets) => {
            out.push_str("(group")?;
            for target in targets {
                out.push(' ')?;
                show_target(out, names, target)?;
            }
            out.push(')')
        }
    }
}

/// A place.
#[cycle(shown)]
pub fn show_place(out: &mut String, names: &Names, place: &Place) -> Result<(), AllocError> {
    match place {
        Place::Name(name) => show_name(out, names, name.name),
        Place::Attr(of, name, _) => {
            show_expr(out, names, of)?;
            out.push('.')?;
            show_name(out, names, name.name)
        }
        Place::Item(of, item, _) => {
            show_expr(out, names, of)?;
            out.push('[')?;
            show_expr(out, names, item)?;
            out.push(']')
        }
    }
}
