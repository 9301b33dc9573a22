//! Writes values, in the notation in which cases give them.

use crate::world::World;
use rp_base::{Memory, Name, Oid, Rock, Value};
use rp_dict::Dict;
use rp_store::{Callee, Key, Object};

/// What is still to be written.
#[derive(Clone, Copy)]
enum Piece<'a> {
    Word(&'a str),
    Rock(&'a Rock),
    Value(&'a Value),
    Object(Oid),
    Name(Name),
}

impl World {
    /// Writes what a value holds. An object within it that the case has named is written by that name.
    pub(crate) fn write(&self, told: &mut String, value: &Value) -> Result<(), Memory> {
        let mut pieces = Vec::new(self.alloc);
        match value {
            Value::Rock(rock) => write_rock(told, rock)?,
            Value::Ref(at) => self.unfold(&mut pieces, *at)?,
            Value::Prox(at) => {
                told.push_str("~")?;
                self.unfold(&mut pieces, *at)?;
            }
        }
        for _ in 0..10_000 {
            let Some(piece) = pieces.pop() else {
                return Ok(());
            };
            self.write_piece(told, &mut pieces, piece)?;
        }
        Ok(())
    }

    fn write_piece<'a>(
        &'a self,
        told: &mut String,
        pieces: &mut Vec<Piece<'a>>,
        piece: Piece<'a>,
    ) -> Result<(), Memory> {
        match piece {
            Piece::Word(word) => told.push_str(word)?,
            Piece::Rock(rock) => write_rock(told, rock)?,
            Piece::Value(Value::Rock(rock)) => write_rock(told, rock)?,
            Piece::Value(Value::Ref(at)) => self.write_object(told, pieces, *at)?,
            Piece::Value(Value::Prox(at)) => {
                told.push_str("~")?;
                self.write_object(told, pieces, *at)?;
            }
            Piece::Object(at) => self.write_object(told, pieces, at)?,
            Piece::Name(name) => told.push_str(self.text_of(name))?,
        }
        Ok(())
    }

    fn text_of(&self, name: Name) -> &str {
        if name.0 < self.names.len() {
            return self.names.text(name);
        }
        "?"
    }

    fn write_object<'a>(
        &'a self,
        told: &mut String,
        pieces: &mut Vec<Piece<'a>>,
        at: Oid,
    ) -> Result<(), Memory> {
        match self.word_of(at) {
            Some(word) => {
                told.push_str(word)?;
                Ok(())
            }
            None => self.unfold(pieces, at),
        }
    }

    /// Puts what an object holds before what is still to be written.
    fn unfold<'a>(&'a self, pieces: &mut Vec<Piece<'a>>, at: Oid) -> Result<(), Memory> {
        let Some(object) = self.store.get(at) else {
            pieces.push(Piece::Word("?"))?;
            return Ok(());
        };
        match object {
            Object::List(values) => unfold_values(pieces, "[", values, "]"),
            Object::Tuple(values) => unfold_values(pieces, "(", values, ")"),
            Object::Dict(entries) => unfold_entries(pieces, entries),
            Object::Instance { class, fields } => unfold_fields(pieces, *class, fields),
            Object::Class { name, methods, .. } => unfold_methods(pieces, *name, methods),
            Object::Function { name, defaults, .. } => unfold_function(pieces, *name, defaults),
            Object::Method { receiver, callee } => unfold_bound(pieces, receiver, callee),
            Object::Scope { .. } => {
                pieces.push(Piece::Word("scope"))?;
                Ok(())
            }
        }
    }
}

fn unfold_values<'a>(
    pieces: &mut Vec<Piece<'a>>,
    front: &'a str,
    values: &'a [Value],
    end: &'a str,
) -> Result<(), Memory> {
    pieces.push(Piece::Word(end))?;
    let mut is_last = true;
    for value in values.iter().rev() {
        if !is_last {
            pieces.push(Piece::Word(", "))?;
        }
        is_last = false;
        pieces.push(Piece::Value(value))?;
    }
    pieces.push(Piece::Word(front))?;
    Ok(())
}

fn unfold_entries<'a>(
    pieces: &mut Vec<Piece<'a>>,
    entries: &'a Dict<Key, (Rock, Value)>,
) -> Result<(), Memory> {
    pieces.push(Piece::Word("}"))?;
    let count = entries.len();
    for i in 0..count {
        let place = count - 1 - i;
        if let Some((_, (key, value))) = entries.at(place) {
            pieces.push(Piece::Value(value))?;
            pieces.push(Piece::Word(": "))?;
            pieces.push(Piece::Rock(key))?;
        }
        pieces.push(Piece::Word(if place == 0 { "{" } else { ", " }))?;
    }
    if count == 0 {
        pieces.push(Piece::Word("{"))?;
    }
    Ok(())
}

fn unfold_fields<'a>(
    pieces: &mut Vec<Piece<'a>>,
    class: Oid,
    fields: &'a Dict<Name, Value>,
) -> Result<(), Memory> {
    pieces.push(Piece::Word("}"))?;
    let count = fields.len();
    for i in 0..count {
        let place = count - 1 - i;
        if let Some((name, value)) = fields.at(place) {
            pieces.push(Piece::Value(value))?;
            pieces.push(Piece::Word(": "))?;
            pieces.push(Piece::Name(*name))?;
        }
        pieces.push(Piece::Word(if place == 0 { " {" } else { ", " }))?;
    }
    if count == 0 {
        pieces.push(Piece::Word(" {"))?;
    }
    pieces.push(Piece::Object(class))?;
    Ok(())
}

fn unfold_methods<'a>(
    pieces: &mut Vec<Piece<'a>>,
    name: Name,
    methods: &'a Dict<Name, Oid>,
) -> Result<(), Memory> {
    pieces.push(Piece::Word("}"))?;
    let count = methods.len();
    for i in 0..count {
        let place = count - 1 - i;
        if let Some((name, function)) = methods.at(place) {
            pieces.push(Piece::Object(*function))?;
            pieces.push(Piece::Word(": "))?;
            pieces.push(Piece::Name(*name))?;
        }
        pieces.push(Piece::Word(if place == 0 { " {" } else { ", " }))?;
    }
    if count == 0 {
        pieces.push(Piece::Word(" {"))?;
    }
    pieces.push(Piece::Name(name))?;
    pieces.push(Piece::Word("class "))?;
    Ok(())
}

fn unfold_function<'a>(
    pieces: &mut Vec<Piece<'a>>,
    name: Option<Name>,
    defaults: &'a [Value],
) -> Result<(), Memory> {
    unfold_values(pieces, "(", defaults, ")")?;
    match name {
        Some(name) => {
            pieces.push(Piece::Name(name))?;
            pieces.push(Piece::Word("def "))?;
        }
        None => pieces.push(Piece::Word("lambda"))?,
    }
    Ok(())
}

fn unfold_bound<'a>(
    pieces: &mut Vec<Piece<'a>>,
    receiver: &'a Value,
    callee: &'a Callee,
) -> Result<(), Memory> {
    pieces.push(Piece::Word(")"))?;
    match callee {
        Callee::Function(function) => pieces.push(Piece::Object(*function))?,
        Callee::Native(id) => pieces.push(Piece::Word(id.as_str()))?,
    }
    pieces.push(Piece::Word(", "))?;
    pieces.push(Piece::Value(receiver))?;
    pieces.push(Piece::Word("bound("))?;
    Ok(())
}

fn write_rock(told: &mut String, rock: &Rock) -> Result<(), Memory> {
    match rock {
        Rock::Nil => told.push_str("None")?,
        Rock::Truth(true) => told.push_str("True")?,
        Rock::Truth(false) => told.push_str("False")?,
        Rock::Int(number) => write!(told, "{number}")?,
        Rock::Text(text) => write_text(told, text.as_str())?,
        Rock::Exc(kind, text) => {
            told.push_str(kind.as_str())?;
            told.push_str("(")?;
            write_text(told, text.as_str())?;
            told.push_str(")")?;
        }
        Rock::Kind(kind) => told.push_str(kind.as_str())?,
        Rock::Native(native) => told.push_str(native.as_str())?,
    }
    Ok(())
}

fn write_text(told: &mut String, text: &str) -> Result<(), Memory> {
    told.push_str("'")?;
    for letter in text.chars() {
        if letter == '\'' || letter == '\\' {
            told.push('\\')?;
        }
        told.push(letter)?;
    }
    told.push_str("'")?;
    Ok(())
}
