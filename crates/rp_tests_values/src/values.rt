//! Values as cases write them.

// They are `1 'a' None [1] (1,) {1: 2} ~[1] KeyError KeyError('a') len`, `class C {f: g}`, `C {x: 1}`, `def f(1)`,
// `lambda()`, `bound(1, f)` and names that the case has bound.

use crate::tokens::Token;
use crate::words::native_of;
use crate::world::{Reader, World, seed};
use rp_base::{Kind, Name, Oid, Rock, Text, Value};
use rp_dict::Dict;
use rp_ops::lent;
use rp_store::{Callee, Object};
use rp_tests_parts::{Fault, entries_of, exception, is_class, kind_of};
use std::alloc::Global;

/// What is open while its parts are read.
#[derive(Drop)]
enum Form {
    /// The next value is lent.
    Lent,
    List,
    Tuple,
    Dict,
    Exception(Kind),
    Instance(Oid),
    Class { name: Name, declared: bool },
    Function(Option<Name>),
    Bound,
}

#[derive(Drop)]
struct Open {
    form: Form,
    values: Vec<Value>,
    names: Vec<Name>,
}

impl Open {
    fn new(alloc: Global, form: Form) -> Open {
        Open {
            form,
            values: Vec::new(alloc),
            names: Vec::new(alloc),
        }
    }

    /// Whether a name comes next.
    fn wants_name(&self) -> bool {
        match self.form {
            Form::Instance(_) | Form::Class { .. } => self.names.len() == self.values.len(),
            _ => false,
        }
    }
}

/// The value at the front, which is taken.
pub(crate) fn read(world: &mut World, reader: &mut Reader<'_>) -> Result<Value, Fault> {
    let mut open = Vec::new(world.alloc);
    for _ in 0..1_000 {
        let Some(token) = reader.take() else {
            return Err(Fault::Unread);
        };
        let whole = match token {
            Token::Word(word) => take_word(world, reader, &mut open, word.as_str())?,
            Token::Text(text) => complete(&mut open, text_value(world.alloc, text.as_str())?)?,
            Token::Mark(mark) => take_mark(world, &mut open, mark.as_str())?,
        };
        if let Some(value) = whole {
            return Ok(value);
        }
    }
    Err(Fault::Unread)
}

fn text_value(alloc: Global, text: &str) -> Result<Value, Fault> {
    Ok(Value::Rock(Rock::Text(Text::new(alloc, text)?)))
}

/// Takes in a value; it is the whole where nothing is open.
fn complete(open: &mut Vec<Open>, value: Value) -> Result<Option<Value>, Fault> {
    let mut value = value;
    if is_lent(open) {
        open.pop();
        value = lent(value);
    }
    match open.last_mut() {
        Some(top) => {
            top.values.push(value)?;
            Ok(None)
        }
        None => Ok(Some(value)),
    }
}

fn is_lent(open: &[Open]) -> bool {
    match open.last() {
        Some(top) => matches!(top.form, Form::Lent),
        None => false,
    }
}

fn take_mark(world: &mut World, open: &mut Vec<Open>, mark: &str) -> Result<Option<Value>, Fault> {
    let form = match mark {
        "~" => Form::Lent,
        "[" => Form::List,
        "(" => Form::Tuple,
        "{" => Form::Dict,
        "]" | ")" | "}" => return close_last(world, open),
        "," | ":" => return Ok(None),
        _ => return Err(Fault::Unread),
    };
    open.push(Open::new(world.alloc, form))?;
    Ok(None)
}

fn close_last(world: &mut World, open: &mut Vec<Open>) -> Result<Option<Value>, Fault> {
    match open.pop() {
        Some(last) => {
            let value = close(world, last)?;
            complete(open, value)
        }
        None => Err(Fault::Unread),
    }
}

fn take_word(
    world: &mut World,
    reader: &mut Reader<'_>,
    open: &mut Vec<Open>,
    word: &str,
) -> Result<Option<Value>, Fault> {
    if let Some(top) = open.last_mut() {
        if top.wants_name() {
            top.names.push(world.name(word)?)?;
            return Ok(None);
        }
    }
    if let Some(form) = opened(world, reader, word)? {
        open.push(Open::new(world.alloc, form))?;
        return Ok(None);
    }
    let value = alone(world, word)?;
    complete(open, value)
}

/// What a word opens, with the words and the bracket behind it.
fn opened(world: &mut World, reader: &mut Reader<'_>, word: &str) -> Result<Option<Form>, Fault> {
    let form = match word {
        "class" => class_form(world, reader, false)?,
        "declared" => class_form(world, reader, true)?,
        "def" => Form::Function(Some(world.name(reader.word()?)?)),
        "lambda" => Form::Function(None),
        "bound" => Form::Bound,
        _ => return called(world, reader, word),
    };
    reader.take();
    Ok(Some(form))
}

fn class_form(world: &mut World, reader: &mut Reader<'_>, declared: bool) -> Result<Form, Fault> {
    let name = world.name(reader.word()?)?;
    Ok(Form::Class { name, declared })
}

/// What the name of a kind or of a class opens where a bracket follows.
fn called(world: &mut World, reader: &mut Reader<'_>, word: &str) -> Result<Option<Form>, Fault> {
    if reader.has_mark(0, "(") {
        if let Some(kind) = kind_of(word) {
            reader.take();
            return Ok(Some(Form::Exception(kind)));
        }
    }
    if reader.has_mark(0, "{") {
        if let Some(Value::Ref(class)) = world.value_of(word)? {
            reader.take();
            return Ok(Some(Form::Instance(class)));
        }
    }
    Ok(None)
}

/// The value of a word alone; another word is a text.
fn alone(world: &World, word: &str) -> Result<Value, Fault> {
    if let Some(value) = world.value_of(word)? {
        return Ok(value);
    }
    match rock_of(word) {
        Some(rock) => Ok(Value::Rock(rock)),
        None => text_value(world.alloc, word),
    }
}

fn rock_of(word: &str) -> Option<Rock> {
    match word {
        "None" => return Some(Rock::Nil),
        "True" => return Some(Rock::Truth(true)),
        "False" => return Some(Rock::Truth(false)),
        _ => (),
    }
    if let Ok(number) = word.parse::<i64>() {
        return Some(Rock::Int(number));
    }
    if let Some(kind) = kind_of(word) {
        return Some(Rock::Kind(kind));
    }
    Some(Rock::Native(native_of(word)?))
}

/// The value of what was open.
fn close(world: &mut World, open: Open) -> Result<Value, Fault> {
    let Open {
        form,
        values,
        names,
    } = open;
    match form {
        Form::Lent => Err(Fault::Unread),
        Form::List => world.add(Object::List(values)),
        Form::Tuple => world.add(Object::Tuple(values)),
        Form::Dict => {
            let entries = entries_of(world.alloc, seed(), values)?;
            world.add(Object::Dict(entries))
        }
        Form::Exception(kind) => exception(world.alloc, kind, &values),
        Form::Instance(class) => add_instance(world, class, names, values),
        Form::Class { name, declared } => add_class(world, name, declared, names, values),
        Form::Function(name) => add_function(world, name, values),
        Form::Bound => add_method(world, values),
    }
}

fn add_instance(
    world: &mut World,
    class: Oid,
    names: Vec<Name>,
    values: Vec<Value>,
) -> Result<Value, Fault> {
    if !is_class(&world.store, class) {
        return Err(Fault::Unsound);
    }
    let mut fields = Dict::new(world.alloc, seed());
    for (name, value) in names.iter().zip(values.iter()) {
        fields.set(*name, value.copy()?)?;
    }
    world.add(Object::Instance { class, fields })
}

fn add_class(
    world: &mut World,
    name: Name,
    declared: bool,
    names: Vec<Name>,
    values: Vec<Value>,
) -> Result<Value, Fault> {
    let mut methods = Dict::new(world.alloc, seed());
    for (name, value) in names.iter().zip(values.iter()) {
        if let Value::Ref(function) = value {
            methods.set(*name, *function)?;
        }
    }
    world.add(Object::Class {
        name,
        declared,
        methods,
    })
}

fn add_function(
    world: &mut World,
    name: Option<Name>,
    defaults: Vec<Value>,
) -> Result<Value, Fault> {
    let scope = world.scope()?;
    world.add(Object::Function {
        name,
        unit: world.side,
        block: 0,
        scope,
        defaults,
    })
}

/// A method of the first value that calls the second.
fn add_method(world: &mut World, values: Vec<Value>) -> Result<Value, Fault> {
    let callee = match values.get(1) {
        Some(Value::Rock(Rock::Native(id))) => Callee::Native(*id),
        Some(Value::Ref(function)) => Callee::Function(*function),
        _ => return Err(Fault::Unread),
    };
    match values.first() {
        Some(receiver) => world.add(Object::Method {
            receiver: receiver.copy()?,
            callee,
        }),
        None => Err(Fault::Unread),
    }
}
