//! Statements in prefix form: a statement in parentheses, its line, its kind and then its parts.

use crate::expression_texts::{show_expr, show_name, show_params, show_place, show_target};
use rp_base::{Name, Names};
use rp_tree::{Except, Expr, Place, Stmt, StmtForm, Target};
use std::alloc::AllocError;

/// An expression behind a blank.
fn add_expr(out: &mut String, names: &Names, expr: &Expr) -> Result<(), AllocError> {
    out.push(' ')?;
    show_expr(out, names, expr)
}

fn add_maybe(out: &mut String, names: &Names, expr: &Option<Expr>) -> Result<(), AllocError> {
    match expr {
        None => Ok(()),
        Some(expr) => add_expr(out, names, expr),
    }
}

fn add_place(out: &mut String, names: &Names, place: &Place) -> Result<(), AllocError> {
    out.push(' ')?;
    show_place(out, names, place)
}

fn add_places(out: &mut String, names: &Names, places: &[Place]) -> Result<(), AllocError> {
    for place in places {
        add_place(out, names, place)?;
    }
    Ok(())
}

fn add_name(out: &mut String, names: &Names, name: Name) -> Result<(), AllocError> {
    out.push(' ')?;
    show_name(out, names, name)
}

fn add_target(out: &mut String, names: &Names, target: &Target) -> Result<(), AllocError> {
    out.push(' ')?;
    show_target(out, names, target)
}

/// The statements of a block.
#[cycle(shown_stmts)]
pub fn show_stmts(out: &mut String, names: &Names, stmts: &[Stmt]) -> Result<(), AllocError> {
    for stmt in stmts {
        let line = stmt.line.0;
        let front = format!(in *out.allocator(); "({line} ")?;
        out.push_str(front.as_str())?;
        show_form(out, names, &stmt.form)?;
        out.push(')')?;
    }
    Ok(())
}

fn show_simple(out: &mut String, names: &Names, form: &StmtForm) -> Result<(), AllocError> {
    match form {
        StmtForm::Pass => out.push_str("pass"),
        StmtForm::Break => out.push_str("break"),
        StmtForm::Continue => out.push_str("continue"),
        StmtForm::Return(value) => {
            out.push_str("return")?;
            add_maybe(out, names, value)
        }
        StmtForm::Raise(value) => {
            out.push_str("raise")?;
            add_maybe(out, names, value)
        }
        StmtForm::Assert(test, message) => {
            out.push_str("assert")?;
            add_expr(out, names, test)?;
            add_maybe(out, names, message)
        }
        StmtForm::Global(globals) => {
            out.push_str("global")?;
            for global in globals {
                add_name(out, names, global.name)?;
            }
            Ok(())
        }
        form => show_stores(out, names, form),
    }
}

fn show_stores(out: &mut String, names: &Names, form: &StmtForm) -> Result<(), AllocError> {
    match form {
        StmtForm::Expr(expr) => {
            out.push_str("expr")?;
            add_expr(out, names, expr)
        }
        StmtForm::Assign(places, value) => {
            out.push('=')?;
            add_places(out, names, places)?;
            add_expr(out, names, value)
        }
        StmtForm::Unpack(group, value, _) => {
            out.push_str("unpack")?;
            add_target(out, names, group)?;
            add_expr(out, names, value)
        }
        StmtForm::Aug {
            place,
            at,
            value,
            ..
        } => {
            let line = at.0;
            let front = format!(in *out.allocator(); "aug {line}")?;
            out.push_str(front.as_str())?;
            add_place(out, names, place)?;
            add_expr(out, names, value)
        }
        StmtForm::Del(places) => {
            out.push_str("del")?;
            add_places(out, names, places)
        }
        _ => Ok(()),
    }
}

#[cycle(shown_stmts)]
fn show_form(out: &mut String, names: &Names, form: &StmtForm) -> Result<(), AllocError> {
    match form {
        StmtForm::If(branches, other) => {
            out.push_str("if")?;
            for branch in branches {
                add_expr(out, names, &branch.test)?;
                show_block(out, names, " ", &branch.body)?;
            }
            if let Some(other) = other {
                show_block(out, names, " else ", other)?;
            }
            Ok(())
        }
        StmtForm::While(test, body) => {
            out.push_str("while")?;
            add_expr(out, names, test)?;
            show_block(out, names, " ", body)
        }
        StmtForm::For(walk, body) => {
            out.push_str("for")?;
            add_target(out, names, &walk.target)?;
            add_expr(out, names, &walk.of)?;
            show_block(out, names, " ", body)
        }
        StmtForm::Try {
            body,
            handlers,
            other,
            last,
        } => {
            show_block(out, names, "try ", body)?;
            for handler in handlers {
                show_handler(out, names, handler)?;
            }
            if let Some(other) = other {
                show_block(out, names, " else ", other)?;
            }
            if let Some(last) = last {
                show_block(out, names, " finally ", last)?;
            }
            Ok(())
        }
        StmtForm::Def(_, name, params, body) => {
            out.push_str("def")?;
            add_name(out, names, name.name)?;
            out.push(' ')?;
            show_params(out, names, params)?;
            show_block(out, names, " ", body)
        }
        StmtForm::Class(name, body) => {
            out.push_str("class")?;
            add_name(out, names, name.name)?;
            show_block(out, names, " ", body)
        }
        form => show_simple(out, names, form),
    }
}

#[cycle(shown_stmts)]
fn show_handler(out: &mut String, names: &Names, handler: &Except) -> Result<(), AllocError> {
    out.push_str(" except")?;
    add_maybe(out, names, &handler.kind)?;
    if let Some(name) = handler.name {
        out.push_str(" as")?;
        add_name(out, names, name.name)?;
    }
    show_block(out, names, " ", &handler.body)
}

#[cycle(shown_stmts)]
fn show_block(
    out: &mut String,
    names: &Names,
    front: &str,
    stmts: &[Stmt],
) -> Result<(), AllocError> {
    out.push_str(front)?;
    out.push('{')?;
    show_stmts(out, names, stmts)?;
    out.push('}')
}
