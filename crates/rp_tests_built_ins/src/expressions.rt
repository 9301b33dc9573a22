//! The values of statements, by Python's rules: literals, displays, names, calls of functions and of methods.

// `lent(x)` is a plain reference as the other side lends it, what is written in `theirs(x)` belongs to that side,
// `thing()` is an instance, and `lowest` the least number.

use crate::calls::{call, outermost};
use crate::displays::{dict, in_parentheses, only, thing};
use crate::words::native_of;
use crate::world::{OURS, Reader, THEIRS, World};
use rp_base::{Kind, Name, NativeId, Rock, Value, word_of};
use rp_ops::lent;
use rp_store::Object;
use rp_tests_parts::{Fault, exception, kind_of};
use rp_token::{Token, TokenKind};
use std::alloc::Global;

/// What is open while its parts are read.
#[derive(Drop)]
enum Form {
    Parentheses,
    List,
    Dict,
    Lent,
    Theirs,
    Thing(Name),
    Exception(Kind),
    Function(NativeId),
    Method(Value, NativeId),
}

#[derive(Drop)]
struct Open {
    form: Form,
    values: Vec<Value>,
    has_comma: bool,
}

impl Open {
    fn new(alloc: Global, form: Form) -> Open {
        Open {
            form,
            values: Vec::new(alloc),
            has_comma: false,
        }
    }
}

/// Runs a statement, an expression or `name = expression`, and answers its value.
pub(crate) fn run(world: &mut World, tokens: &[Token]) -> Result<Value, Fault> {
    let mut reader = Reader::new(tokens);
    if let Some(name) = assigned(tokens) {
        reader.take();
        reader.take();
        world.is_limited = false;
        let value = read(world, &mut reader)?;
        world.bind(name, value)?;
        return Ok(Value::Rock(Rock::Nil));
    }
    world.is_limited = true;
    let value = read(world, &mut reader)?;
    if !reader.is_at_end() {
        return Err(Fault::Unread);
    }
    Ok(value)
}

/// The name that a statement assigns to.
fn assigned(tokens: &[Token]) -> Option<Name> {
    match (kind_at(tokens, 0), kind_at(tokens, 1)) {
        (Some(TokenKind::Name(name)), Some(TokenKind::Equal)) => Some(*name),
        _ => None,
    }
}

fn kind_at(tokens: &[Token], place: usize) -> Option<&TokenKind> {
    let token = tokens.get(place)?;
    Some(&token.kind)
}

/// The value at the front, which is taken.
fn read(world: &mut World, reader: &mut Reader<'_>) -> Result<Value, Fault> {
    let mut open = Vec::new(world.alloc);
    for _ in 0..1_000 {
        let Some(kind) = reader.take() else {
            return Err(Fault::Unread);
        };
        if let Some(value) = ended(world, reader, &mut open, kind)? {
            if let Some(whole) = complete(world, reader, &mut open, value)? {
                return Ok(whole);
            }
        }
    }
    Err(Fault::Unread)
}

/// The value that ends with this token; None where it ends none.
fn ended(
    world: &mut World,
    reader: &mut Reader<'_>,
    open: &mut Vec<Open>,
    kind: &TokenKind,
) -> Result<Option<Value>, Fault> {
    let rock = match kind {
        TokenKind::None => Rock::Nil,
        TokenKind::True => Rock::Truth(true),
        TokenKind::False => Rock::Truth(false),
        TokenKind::Int(number) => Rock::Int(*number),
        TokenKind::Minus => Rock::Int(negative(reader.take())?),
        TokenKind::Text(text) => Rock::Text(text.copy()?),
        TokenKind::Name(name) => return named(world, reader, open, *name),
        TokenKind::RightParen | TokenKind::RightBracket | TokenKind::RightBrace => {
            return close_last(world, reader, open);
        }
        mark => return take_mark(world.alloc, open, mark),
    };
    Ok(Some(Value::Rock(rock)))
}

fn negative(kind: Option<&TokenKind>) -> Result<i64, Fault> {
    match kind {
        Some(TokenKind::Int(number)) => Ok(0i64.saturating_sub(*number)),
        _ => Err(Fault::Unread),
    }
}

fn take_mark(
    alloc: Global,
    open: &mut Vec<Open>,
    mark: &TokenKind,
) -> Result<Option<Value>, Fault> {
    let form = match mark {
        TokenKind::LeftParen => Form::Parentheses,
        TokenKind::LeftBracket => Form::List,
        TokenKind::LeftBrace => Form::Dict,
        TokenKind::Colon => return Ok(None),
        TokenKind::Comma => {
            if let Some(last) = open.last_mut() {
                last.has_comma = true;
            }
            return Ok(None);
        }
        _ => return Err(Fault::Unread),
    };
    open.push(Open::new(alloc, form))?;
    Ok(None)
}

/// The value of a name; where a call follows, it is opened.
fn named(
    world: &mut World,
    reader: &mut Reader<'_>,
    open: &mut Vec<Open>,
    name: Name,
) -> Result<Option<Value>, Fault> {
    if let Some(value) = world.value_of(name)? {
        return Ok(Some(value));
    }
    if !reader.take_paren() {
        let rock = rock_of(word_of(&world.names, name))?;
        return Ok(Some(Value::Rock(rock)));
    }
    let form = form_of(name, word_of(&world.names, name))?;
    if let Form::Theirs = form {
        world.owner = THEIRS;
    }
    open.push(Open::new(world.alloc, form))?;
    Ok(None)
}

fn rock_of(word: &str) -> Result<Rock, Fault> {
    if word == "lowest" {
        return Ok(Rock::Int(i64::MIN));
    }
    if let Some(kind) = kind_of(word) {
        return Ok(Rock::Kind(kind));
    }
    match native_of(word) {
        Some(id) => Ok(Rock::Native(id)),
        None => Err(Fault::Unread),
    }
}

fn form_of(name: Name, word: &str) -> Result<Form, Fault> {
    match word {
        "lent" => return Ok(Form::Lent),
        "theirs" => return Ok(Form::Theirs),
        "thing" => return Ok(Form::Thing(name)),
        _ => (),
    }
    if let Some(kind) = kind_of(word) {
        return Ok(Form::Exception(kind));
    }
    match native_of(word) {
        Some(id) => Ok(Form::Function(id)),
        None => Err(Fault::Unread),
    }
}

/// Takes in a value: opens the method behind it, or puts it into what is open. It is the whole where nothing is.
fn complete(
    world: &mut World,
    reader: &mut Reader<'_>,
    open: &mut Vec<Open>,
    value: Value,
) -> Result<Option<Value>, Fault> {
    if reader.has_dot() {
        let form = Form::Method(value, method_ahead(world, reader)?);
        open.push(Open::new(world.alloc, form))?;
        return Ok(None);
    }
    match open.last_mut() {
        Some(last) => {
            last.values.push(value)?;
            Ok(None)
        }
        None => Ok(Some(value)),
    }
}

/// The method whose call is opened, behind a dot.
fn method_ahead(world: &World, reader: &mut Reader<'_>) -> Result<NativeId, Fault> {
    reader.take();
    let Some(TokenKind::Name(name)) = reader.take() else {
        return Err(Fault::Unread);
    };
    if !reader.take_paren() {
        return Err(Fault::Unread);
    }
    native_of(word_of(&world.names, *name)).ok_or(Fault::Unread)
}

fn close_last(
    world: &mut World,
    reader: &mut Reader<'_>,
    open: &mut Vec<Open>,
) -> Result<Option<Value>, Fault> {
    let Some(last) = open.pop() else {
        return Err(Fault::Unread);
    };
    let is_outermost = open.is_empty() && !reader.has_dot();
    Ok(Some(close(world, last, is_outermost)?))
}

fn close(world: &mut World, last: Open, is_outermost: bool) -> Result<Value, Fault> {
    let Open {
        form,
        values,
        has_comma,
    } = last;
    match form {
        Form::Parentheses => in_parentheses(world, values, has_comma),
        Form::List => world.add(Object::List(values)),
        Form::Dict => dict(world, values),
        Form::Lent => Ok(lent(only(values)?)),
        Form::Theirs => {
            world.owner = OURS;
            only(values)
        }
        Form::Thing(name) => thing(world, name),
        Form::Exception(kind) => exception(world.alloc, kind, &values),
        Form::Function(id) => called(world, None, id, &values, is_outermost),
        Form::Method(receiver, id) => called(world, Some(&receiver), id, &values, is_outermost),
    }
}

fn called(
    world: &mut World,
    receiver: Option<&Value>,
    id: NativeId,
    args: &[Value],
    is_outermost: bool,
) -> Result<Value, Fault> {
    if is_outermost {
        return outermost(world, receiver, id, args);
    }
    call(world, receiver, id, args)
}
