//! What the public calls answer, as texts.

ghost use Rattle.std.specs.Prelude.{IfOk};
ghost use Rattle.rp_tree.specs.Marks.{HasNoGuards};
ghost use Rattle.rp_tree.specs.StatementViews.{view_tree};

use crate::expression_texts::{show_expr, show_name, show_params, show_place, show_target};
use crate::guard_texts::show_guards;
use crate::statement_texts::show_stmts;
use rp_base::{Memory, Names, Seed};
use rp_expr::{Read, expr, expr_list, params, place_of, target};
use rp_guard::{guarded, transform};
use rp_heights::height;
use rp_parse::{ParseFault, parse};
use rp_program::read_text;
use rp_script::{Refusal, read_script, refusal_text};
use rp_token::{Token, TokenFault, TokenKind, tokens};
use rp_tree::{Expr, Params, Target, Tree};
use std::alloc::{AllocError, Global};
use std::test::Fail;

/// What is asked about a text.
#[derive(Clone, Copy)]
pub enum Question {
    /// Its tokens in a row, or the first fault.
    Tokens,
    /// How many tokens it has, or the first fault.
    Count,
    /// The text that it, a literal, stands for.
    Literal,
    /// The expression that it is, in prefix form; `-` where it is none.
    Expression,
    /// Whether it is an expression.
    IsExpression,
    /// The expression list that it is.
    List,
    /// The target that it is.
    Target,
    /// The parameters that it is.
    Parameters,
    /// The place that it is.
    Place,
    /// The line of the expression that it is.
    Line,
    /// The statements that it is, in prefix form, or the line of its fault.
    Statements,
    /// The line at which the grammar refuses it, with its last line ended; 0 where it is a script.
    Refusal,
    /// The height of its tree.
    Height,
    /// The guards of the tree that runs, in order; `-` where a form that may have one has none.
    Guards,
    /// Whether nothing in its tree stands without its guard, before the transformer and after it.
    IsGuarded,
    /// Why it is refused as a script; nothing where it is not.
    ScriptRefusal,
}

/// How deep expressions are read within expressions: enough for 450 open brackets and a tree of height 200.
const DEPTH: usize = 650;

/// What is answered.
pub fn answer(alloc: Global, question: Question, text: &str) -> Result<String, Fail> {
    match question {
        Question::Tokens => row(alloc, text),
        Question::Count => count(alloc, text),
        Question::Literal => literal(alloc, text),
        Question::Expression => expression(alloc, text),
        Question::IsExpression => is_expression(alloc, text),
        Question::List => list(alloc, text),
        Question::Target => shown_target(alloc, text),
        Question::Parameters => parameters(alloc, text),
        Question::Place => place(alloc, text),
        Question::Line => line(alloc, text),
        Question::Statements => statements(alloc, text),
        Question::Refusal => refused_at(alloc, text),
        Question::Height => tree_height(alloc, text),
        Question::Guards => guards(alloc, text),
        Question::IsGuarded => is_guarded(alloc, text),
        Question::ScriptRefusal => script_refusal(alloc, text.as_bytes()),
    }
}

/// No words but those of operations.
pub fn new_names(alloc: Global) -> Result<Names, Memory> {
    Names::new(alloc, Seed::from_bytes([7; 16]))
}

/// A text of its own with these characters.
fn spelled(alloc: Global, text: &str) -> Result<String, Fail> {
    Ok(String::from_str(alloc, text)?)
}

/// The tokens of a text, or its first fault. It has no contract, so the proofs of the tests stay short.
fn read(alloc: Global, text: &str, names: &mut Names) -> Result<Vec<Token>, TokenFault> {
    tokens(alloc, text, names)
}

/// The tokens in a row: a name as it is held, a number behind `#`, a literal in quotes, what shows the lines and
/// blocks as a word of capitals, and the others by the text between their places.
fn row(alloc: Global, text: &str) -> Result<String, Fail> {
    let mut names = new_names(alloc)?;
    let found = match read(alloc, text, &mut names) {
        Ok(found) => found,
        Err(fault) => return fault_name(alloc, fault),
    };
    let mut out = String::new(alloc);
    for token in &found {
        if !out.is_empty() {
            out.push(' ')?;
        }
        show_token(&mut out, text, &names, token)?;
    }
    Ok(out)
}

fn show_token(
    out: &mut String,
    text: &str,
    names: &Names,
    token: &Token,
) -> Result<(), AllocError> {
    match &token.kind {
        TokenKind::Name(name) => show_name(out, names, *name),
        TokenKind::Int(number) => write!(out, "#{number}"),
        TokenKind::Text(value) => {
            let value = value.as_str();
            write!(out, "'{value}'")
        }
        TokenKind::Newline => out.push_str("NL"),
        TokenKind::Indent => out.push_str("IN"),
        TokenKind::Dedent => out.push_str("DE"),
        TokenKind::End => out.push_str("END"),
        _ => out.push_str(text.get(token.from..token.to).unwrap_or("?")),
    }
}

/// The first fault of a text, and its line.
fn fault_name(alloc: Global, fault: TokenFault) -> Result<String, Fail> {
    let (word, line) = match fault {
        TokenFault::Tab(line) => ("Tab", line.0),
        TokenFault::Dedent(line) => ("Dedent", line.0),
        TokenFault::BadChar(line) => ("BadChar", line.0),
        TokenFault::Unclosed(line) => ("Unclosed", line.0),
        TokenFault::BadNumber(line) => ("BadNumber", line.0),
        TokenFault::BadEscape(line) => ("BadEscape", line.0),
        TokenFault::Deep(line) => ("Deep", line.0),
        TokenFault::Memory => ("Memory", 0),
    };
    Ok(format!(in alloc; "{word} {line}")?)
}

fn count(alloc: Global, text: &str) -> Result<String, Fail> {
    let mut names = new_names(alloc)?;
    match read(alloc, text, &mut names) {
        Ok(found) => {
            let count = found.len();
            Ok(format!(in alloc; "{count}")?)
        }
        Err(fault) => fault_name(alloc, fault),
    }
}

fn literal(alloc: Global, text: &str) -> Result<String, Fail> {
    let mut names = new_names(alloc)?;
    let found = read(alloc, text, &mut names)?;
    match found.as_slice() {
        [token, _, _] => literal_of(alloc, token),
        _ => spelled(alloc, "other tokens"),
    }
}

fn literal_of(alloc: Global, token: &Token) -> Result<String, Fail> {
    match &token.kind {
        TokenKind::Text(value) => spelled(alloc, value.as_str()),
        _ => spelled(alloc, "another token"),
    }
}

/// Whether a line and the text end.
fn is_end(tokens: &[Token]) -> bool {
    match tokens {
        [line, end] => {
            matches!(line.kind, TokenKind::Newline) && matches!(end.kind, TokenKind::End)
        }
        _ => false,
    }
}

/// What was read from the front of tokens, none where more than the end of the text stands behind it.
fn whole<T: Drop>(read: Read<'_, T>) -> Option<T> {
    match read {
        Ok((found, rest)) if is_end(rest) => Some(found),
        _ => None,
    }
}

fn expr_text(alloc: Global, names: &Names, expr: Option<Expr>) -> Result<String, Fail> {
    let mut out = String::new(alloc);
    match expr {
        Some(expr) => show_expr(&mut out, names, &expr)?,
        None => out.push('-')?,
    }
    Ok(out)
}

fn target_text(alloc: Global, names: &Names, target: Option<Target>) -> Result<String, Fail> {
    let mut out = String::new(alloc);
    match target {
        Some(target) => show_target(&mut out, names, &target)?,
        None => out.push('-')?,
    }
    Ok(out)
}

fn params_text(alloc: Global, names: &Names, params: Option<Params>) -> Result<String, Fail> {
    let mut out = String::new(alloc);
    match params {
        Some(params) => show_params(&mut out, names, &params)?,
        None => out.push('-')?,
    }
    Ok(out)
}

fn expression(alloc: Global, text: &str) -> Result<String, Fail> {
    let mut names = new_names(alloc)?;
    match read(alloc, text, &mut names) {
        Ok(found) => expr_text(alloc, &names, whole(expr(alloc, found.as_slice(), DEPTH))),
        Err(_) => spelled(alloc, "-"),
    }
}

fn is_expression(alloc: Global, text: &str) -> Result<String, Fail> {
    let mut names = new_names(alloc)?;
    let found = read(alloc, text, &mut names)?;
    match whole(expr(alloc, found.as_slice(), DEPTH)) {
        Some(_) => spelled(alloc, "yes"),
        None => spelled(alloc, "no"),
    }
}

fn list(alloc: Global, text: &str) -> Result<String, Fail> {
    let mut names = new_names(alloc)?;
    let found = read(alloc, text, &mut names)?;
    expr_text(
        alloc,
        &names,
        whole(expr_list(alloc, found.as_slice(), DEPTH)),
    )
}

fn shown_target(alloc: Global, text: &str) -> Result<String, Fail> {
    let mut names = new_names(alloc)?;
    let found = read(alloc, text, &mut names)?;
    target_text(alloc, &names, whole(target(alloc, found.as_slice(), DEPTH)))
}

fn parameters(alloc: Global, text: &str) -> Result<String, Fail> {
    let mut names = new_names(alloc)?;
    let found = read(alloc, text, &mut names)?;
    params_text(alloc, &names, whole(params(alloc, found.as_slice(), DEPTH)))
}

fn place(alloc: Global, text: &str) -> Result<String, Fail> {
    let mut names = new_names(alloc)?;
    let mut out = String::new(alloc);
    let found = read(alloc, text, &mut names)?;
    let (expr, _) = expr(alloc, found.as_slice(), DEPTH)?;
    match place_of(alloc, expr) {
        Ok(place) => show_place(&mut out, &names, &place)?,
        Err(_) => out.push('-')?,
    }
    Ok(out)
}

fn line(alloc: Global, text: &str) -> Result<String, Fail> {
    let mut names = new_names(alloc)?;
    let found = read(alloc, text, &mut names)?;
    let (expr, _) = expr(alloc, found.as_slice(), DEPTH)?;
    let line = expr.line.0;
    Ok(format!(in alloc; "{line}")?)
}

/// What parsing a text gives, none where it has no tokens.
fn parsed(alloc: Global, names: &mut Names, text: &str) -> Option<Result<Tree, ParseFault>> {
    let Ok(found) = tokens(alloc, text, names) else {
        return None;
    };
    Some(parse(alloc, found))
}

fn statements(alloc: Global, text: &str) -> Result<String, Fail> {
    let mut names = new_names(alloc)?;
    match parsed(alloc, &mut names, text) {
        Some(Ok(tree)) => {
            let mut out = String::new(alloc);
            show_stmts(&mut out, &names, &tree.body)?;
            Ok(out)
        }
        Some(Err(ParseFault::Syntax(line))) => {
            let line = line.0;
            Ok(format!(in alloc; "{line}")?)
        }
        Some(Err(ParseFault::Memory)) => spelled(alloc, "no memory"),
        None => spelled(alloc, "no tokens"),
    }
}

fn refused_at(alloc: Global, text: &str) -> Result<String, Fail> {
    let mut names = new_names(alloc)?;
    let script = format!(in alloc; "{text}\n")?;
    match parsed(alloc, &mut names, script.as_str()) {
        Some(Ok(_)) => spelled(alloc, "0"),
        Some(Err(ParseFault::Syntax(line))) => {
            let line = line.0;
            Ok(format!(in alloc; "{line}")?)
        }
        Some(Err(ParseFault::Memory)) => spelled(alloc, "no memory"),
        None => spelled(alloc, "no tokens"),
    }
}

fn tree_height(alloc: Global, text: &str) -> Result<String, Fail> {
    let mut names = new_names(alloc)?;
    match parsed(alloc, &mut names, text) {
        Some(Ok(tree)) => {
            let height = height(&tree);
            Ok(format!(in alloc; "{height}")?)
        }
        _ => spelled(alloc, "no tree"),
    }
}

/// The tree of a script, before it is transformed.
fn source(alloc: Global, text: &str) -> Result<Tree, Fail>
    ensures { IfOk result (λ tree. HasNoGuards (view_tree tree)) }
{
    let mut names = new_names(alloc)?;
    Ok(read_text(alloc, text, &mut names)?)
}

fn guards(alloc: Global, text: &str) -> Result<String, Fail> {
    let tree = transform(source(alloc, text)?)?;
    let mut out = String::new(alloc);
    show_guards(&mut out, &tree.body)?;
    Ok(out)
}

fn is_guarded(alloc: Global, text: &str) -> Result<String, Fail> {
    let tree = source(alloc, text)?;
    let before = yes_or_no(guarded(&tree));
    let after = yes_or_no(guarded(&transform(tree)?));
    Ok(format!(in alloc; "{before} {after}")?)
}

fn yes_or_no(holds: bool) -> &'static str {
    if holds { "yes" } else { "no" }
}

/// The tree of a script. It has no contract, so the proofs of the tests stay short.
pub fn read_bytes(alloc: Global, bytes: &[u8], names: &mut Names) -> Result<Tree, Refusal> {
    read_script(alloc, bytes, names)
}

/// Why bytes are refused as a script; nothing where they are not.
pub fn script_refusal(alloc: Global, bytes: &[u8]) -> Result<String, Fail> {
    let mut names = new_names(alloc)?;
    match read_bytes(alloc, bytes, &mut names) {
        Ok(_) => Ok(String::new(alloc)),
        Err(refusal) => why(alloc, &refusal, &names),
    }
}

/// The lines of a refusal.
pub fn why(alloc: Global, refusal: &Refusal, names: &Names) -> Result<String, Fail> {
    let told = refusal_text(alloc, "", refusal, names)?;
    Ok(String::from_str(alloc, told.as_str().trim())?)
}
