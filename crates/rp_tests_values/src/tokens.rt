//! The tokens of a case.

use rp_base::Memory;
use std::alloc::Global;

/// A part of a case.
#[derive(Drop)]
pub(crate) enum Token {
    /// A word, or a number.
    Word(String),
    /// The characters of a text between quotes.
    Text(String),
    /// A bracket, a separator, or an operator.
    Mark(String),
}

/// What is being read.
#[derive(Clone, Copy, PartialEq, Eq)]
enum Place {
    Between,
    Word,
    Mark,
    Text,
    /// Behind a backslash.
    Escape,
}

#[derive(Drop)]
struct Splitter {
    alloc: Global,
    tokens: Vec<Token>,
    part: String,
    place: Place,
}

/// The tokens of a case.
pub(crate) fn tokens(alloc: Global, case: &str) -> Result<Vec<Token>, Memory> {
    let mut splitter = Splitter {
        alloc,
        tokens: Vec::new(alloc),
        part: String::new(alloc),
        place: Place::Between,
    };
    for letter in case.chars() {
        splitter.take(letter)?;
    }
    splitter.end_part()?;
    Ok(splitter.tokens)
}

impl Splitter {
    fn take(&mut self, letter: char) -> Result<(), Memory> {
        match self.place {
            Place::Text => self.take_in_text(letter),
            Place::Escape => self.take_escaped(letter),
            Place::Between | Place::Word | Place::Mark => self.take_outside(letter),
        }
    }

    fn take_in_text(&mut self, letter: char) -> Result<(), Memory> {
        match letter {
            '\'' => self.end_part(),
            '\\' => {
                self.place = Place::Escape;
                Ok(())
            }
            _ => self.add(letter, Place::Text),
        }
    }

    fn take_escaped(&mut self, letter: char) -> Result<(), Memory> {
        let meant = match letter {
            'n' => '\n',
            'r' => '\r',
            't' => '\t',
            '0' => '\0',
            other => other,
        };
        self.add(meant, Place::Text)
    }

    fn take_outside(&mut self, letter: char) -> Result<(), Memory> {
        if is_of_word(letter) {
            return self.take_in_word(letter);
        }
        if is_alone(letter) {
            self.end_part()?;
            self.add(letter, Place::Mark)?;
            return self.end_part();
        }
        match letter {
            ' ' | '\n' => self.end_part(),
            '\'' => {
                self.end_part()?;
                self.place = Place::Text;
                Ok(())
            }
            _ => self.take_in_mark(letter),
        }
    }

    /// A minus sign next to a digit is a part of the number.
    fn take_in_word(&mut self, letter: char) -> Result<(), Memory> {
        if self.place == Place::Mark && !(self.part.as_str() == "-" && letter.is_ascii_digit()) {
            self.end_part()?;
        }
        self.add(letter, Place::Word)
    }

    fn take_in_mark(&mut self, letter: char) -> Result<(), Memory> {
        if self.place == Place::Word {
            self.end_part()?;
        }
        self.add(letter, Place::Mark)
    }

    fn add(&mut self, letter: char, place: Place) -> Result<(), Memory> {
        self.part.push(letter)?;
        self.place = place;
        Ok(())
    }

    fn end_part(&mut self) -> Result<(), Memory> {
        let part = std::mem::replace(&mut self.part, String::new(self.alloc));
        match self.place {
            Place::Between => (),
            Place::Word => self.tokens.push(Token::Word(part))?,
            Place::Mark => self.tokens.push(Token::Mark(part))?,
            Place::Text | Place::Escape => self.tokens.push(Token::Text(part))?,
        }
        self.place = Place::Between;
        Ok(())
    }
}

fn is_of_word(letter: char) -> bool {
    letter.is_ascii_alphanumeric() || letter == '_'
}

/// Whether a character is a mark of its own.
fn is_alone(letter: char) -> bool {
    matches!(
        letter,
        '[' | ']' | '(' | ')' | '{' | '}' | ',' | ':' | ';' | '~'
    )
}
