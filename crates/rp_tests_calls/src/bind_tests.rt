//! Arguments bound to parameters.

ghost use Rattle.std.specs.Prelude.{IfOk};
ghost use Rattle.rp_store.specs.Kept.{IsScopeOf};

use rp_base::{Line, Memory, Names, Oid, OpEnd, Rock, Side, Text, Value, identifier};
use rp_calls::bind;
use rp_dict::Dict;
use rp_store::{Key, Object, Store};
use rp_tests_cases::{Question, all_answer, number, part, seed};
use rp_tests_parts::{Fault, are_named_sound, are_sound, is_function, tell_fault};
use rp_tree::{Const, Expr, ExprForm, Named, Params};
use std::alloc::Global;
use std::test::Fail;

/// The parameters of a function, and the arguments of a call (`-` where there are none); then the values of the
/// parameters, `none` where there is no parameter, or the exception. They are those of CPython, where a name that is
/// given twice comes by two `**` arguments.
const CASES: &str = r#"- => - => none
- => 1 => TypeError arguments
- => a=1 => TypeError arguments
a => - => TypeError arguments
a => 1 => 1
a => 1 2 => TypeError arguments
a => a=1 => 1
a => 1 a=2 => TypeError arguments
a => b=1 => TypeError arguments
a => a=1 a=2 => TypeError arguments
a => a=1 b=2 => TypeError arguments
a b c => 1 2 3 => 1 2 3
a b c => 1 2 => TypeError arguments
a b c => 1 2 c=3 => 1 2 3
a b c => c=1 b=2 a=3 => 3 2 1
a b c => 1 a=2 c=3 => TypeError arguments
a b c => 1 2 3 4 => TypeError arguments
a b c => 1 2 3 c=4 => TypeError arguments
a b c => a=1 c=3 => TypeError arguments
a b c => 1 b=2 c=3 d=4 => TypeError arguments
a b c => 1 b=2 b=3 c=4 => TypeError arguments
a b=7 => - => TypeError arguments
a b=7 => 1 => 1 7
a b=7 => 1 2 => 1 2
a b=7 => b=2 => TypeError arguments
a b=7 => a=1 => 1 7
a b=7 => a=1 b=2 => 1 2
a b=7 => b=1 a=2 => 2 1
a b=7 => 1 b=2 => 1 2
a b=7 => 1 2 b=3 => TypeError arguments
a b=7 => 1 2 3 => TypeError arguments
a b=7 => 1 c=2 => TypeError arguments
a=7 b=8 c=9 => - => 7 8 9
a=7 b=8 c=9 => 1 => 1 8 9
a=7 b=8 c=9 => b=2 => 7 2 9
a=7 b=8 c=9 => c=1 a=3 => 3 8 1
a=7 b=8 c=9 => 1 2 3 => 1 2 3
a=7 b=8 c=9 => 1 2 3 4 => TypeError arguments
a=7 b=8 c=9 => 1 c=2 a=3 => TypeError arguments
*r => - => ()
*r => 1 => (1,)
*r => 1 2 3 => (1,2,3,)
*r => a=1 => TypeError arguments
*r => r=1 => TypeError arguments
a *r => - => TypeError arguments
a *r => 1 => 1 ()
a *r => 1 2 3 => 1 (2,3,)
a *r => a=1 => 1 ()
a *r => 1 a=2 => TypeError arguments
a *r => 1 2 a=3 => TypeError arguments
**k => - => {}
**k => a=1 => {a:1,}
**k => b=1 a=2 => {b:1,a:2,}
**k => 1 => TypeError arguments
**k => a=1 a=2 => TypeError arguments
**k => k=1 => {k:1,}
a **k => 1 => 1 {}
a **k => a=1 => 1 {}
a **k => 1 b=2 => 1 {b:2,}
a **k => b=2 a=1 => 1 {b:2,}
a **k => 1 a=2 => TypeError arguments
a **k => b=1 => TypeError arguments
a **k => d=1 a=2 c=3 b=4 => 2 {d:1,c:3,b:4,}
a **k => 1 b=2 b=3 => TypeError arguments
a **k => a=1 a=2 => TypeError arguments
a b=7 *r **k => - => TypeError arguments
a b=7 *r **k => 1 => 1 7 () {}
a b=7 *r **k => 1 2 3 4 => 1 2 (3,4,) {}
a b=7 *r **k => 1 c=2 => 1 7 () {c:2,}
a b=7 *r **k => 1 2 3 d=4 c=5 => 1 2 (3,) {d:4,c:5,}
a b=7 *r **k => b=1 => TypeError arguments
a b=7 *r **k => b=1 a=2 r=3 => 2 1 () {r:3,}
a b=7 *r **k => 1 2 3 b=4 => TypeError arguments
a b=7 *r **k => 1 r=2 k=3 => 1 7 () {r:2,k:3,}
a b=7 *r **k => 1 2 3 c=4 c=5 => TypeError arguments
a b c d e f g h i => i=9 c=3 a=1 h=8 e=5 b=2 g=7 d=4 f=6 => 1 2 3 4 5 6 7 8 9
a b c d e f g h i => a=1 b=2 c=3 d=4 e=5 f=6 g=7 h=8 i=9 e=1 => TypeError arguments
a b c d e f g h i=6 => x=9 a=1 b=2 c=3 d=4 e=5 f=6 g=7 h=8 => TypeError arguments
a b c d e f g h i=6 **k => x=9 a=1 b=2 c=3 d=4 e=5 f=6 g=7 h=8 => 1 2 3 4 5 6 7 8 6 {x:9,}
a b c d e f g h i => 1 a=1 b=2 c=3 d=4 e=5 f=6 g=7 h=8 i=9 => TypeError arguments
a b c d e f g h i=6 **k => x=9 a=1 b=2 c=3 d=4 e=5 f=6 g=7 h=8 x=2 => TypeError arguments"#;

/// The limit of cells before the same, and behind it what is left: the cells used, and the objects.
const CELLS: &str = r#"0 => a b=7 => 1 => 1 7; 0 2
1 => a *r **k => 1 2 b=3 => stop; 0 2
2 => a *r **k => 1 2 b=3 => stop; 2 3
3 => a *r **k => 1 2 b=3 => stop; 2 3
4 => a *r **k => 1 2 b=3 => 1 (2,) {b:3,}; 4 4
1 => *r **k => - => stop; 1 3
2 => *r **k => - => () {}; 2 4
9 => a *r **k => 1 2 a=3 => TypeError arguments; 0 2"#;

const DIGITS: [(&str, i64); 9] = [
    ("1", 1),
    ("2", 2),
    ("3", 3),
    ("4", 4),
    ("5", 5),
    ("6", 6),
    ("7", 7),
    ("8", 8),
    ("9", 9),
];

/// The side whose function is called.
const SIDE: Side = Side(1);

fn digit_of(word: &str) -> i64 {
    for (digit, number) in DIGITS {
        if digit == word {
            return number;
        }
    }
    0
}

fn value(word: &str) -> Value {
    Value::Rock(Rock::Int(digit_of(word)))
}

fn named(alloc: Global, names: &mut Names, word: &str) -> Result<Named, Fault> {
    let Some(form) = identifier(alloc, word)? else {
        return Err(Fault::Unread);
    };
    let name = names.intern(form.as_str())?;
    Ok(Named {
        name,
        line: Line(1),
    })
}

fn none_expression(alloc: Global) -> Result<Expr, Memory> {
    let form = Box::new(alloc, ExprForm::Const(Const::Nil)).map_err(|_| Memory)?;
    Ok(Expr {
        line: Line(1),
        form,
    })
}

/// The parameters that the words name.
fn parameters(alloc: Global, names: &mut Names, words: &str) -> Result<Params, Fault> {
    let mut plain = Vec::new(alloc);
    let mut list = None;
    let mut dict = None;
    for word in words.split(' ') {
        if word == "-" {
            continue;
        }
        if let Some(name) = word.strip_prefix("**") {
            dict = Some(named(alloc, names, name)?);
        } else if let Some(name) = word.strip_prefix("*") {
            list = Some(named(alloc, names, name)?);
        } else if let Some((name, _)) = word.split_once('=') {
            let default = none_expression(alloc)?;
            plain.push((named(alloc, names, name)?, Some(default)))?;
        } else {
            plain.push((named(alloc, names, word)?, None))?;
        }
    }
    Ok(Params { plain, list, dict })
}

/// The values of the words `NAME=VALUE`, in order.
fn values_by_name(alloc: Global, words: &str) -> Result<Vec<(Text, Value)>, Memory> {
    let mut values = Vec::new(alloc);
    for word in words.split(' ') {
        if let Some((name, digit)) = word.split_once('=') {
            values.push((Text::new(alloc, name)?, value(digit)))?;
        }
    }
    Ok(values)
}

/// The second parts.
fn second(alloc: Global, pairs: Vec<(Text, Value)>) -> Result<Vec<Value>, Memory> {
    let mut values = Vec::new(alloc);
    for (_, value) in pairs {
        values.push(value)?;
    }
    Ok(values)
}

/// The values of the other words.
fn positional(alloc: Global, words: &str) -> Result<Vec<Value>, Memory> {
    let mut values = Vec::new(alloc);
    for word in words.split(' ') {
        if word != "-" && !word.contains('=') {
            values.push(value(word))?;
        }
    }
    Ok(values)
}

fn number_of(value: &Value) -> i64 {
    match value {
        Value::Rock(Rock::Int(number)) => *number,
        _ => 0,
    }
}

fn show_object(text: &mut String, object: &Object) -> Result<(), Memory> {
    match object {
        Object::Tuple(elements) => {
            text.push('(')?;
            for element in elements {
                let number = number_of(element);
                write!(text, "{number},")?;
            }
            text.push(')')?;
        }
        Object::Dict(entries) => show_entries(text, entries)?,
        _ => text.push('?')?,
    }
    Ok(())
}

fn show_entries(text: &mut String, entries: &Dict<Key, (Rock, Value)>) -> Result<(), Memory> {
    text.push('{')?;
    for i in 0..entries.len() {
        if let Some((Key::Text(name), (_, value))) = entries.at(i) {
            let name = name.as_str();
            let number = number_of(value);
            write!(text, "{name}:{number},")?;
        }
    }
    text.push('}')?;
    Ok(())
}

fn show_slot(text: &mut String, store: &Store, slot: &Option<Value>) -> Result<(), Memory> {
    match slot {
        Some(Value::Rock(Rock::Int(number))) => write!(text, "{number}")?,
        Some(Value::Ref(at)) => {
            if let Some(object) = store.get(*at) {
                show_object(text, object)?;
            }
        }
        _ => text.push('?')?,
    }
    Ok(())
}

fn show(
    alloc: Global,
    store: &Store,
    end: Result<Vec<Option<Value>>, OpEnd>,
) -> Result<String, Memory> {
    let mut text = String::new(alloc);
    match end {
        Ok(slots) => {
            for slot in &slots {
                if !text.is_empty() {
                    text.push(' ')?;
                }
                show_slot(&mut text, store, slot)?;
            }
        }
        Err(OpEnd::Raised(raised)) => {
            text.push_str(raised.kind.as_str())?;
            text.push(' ')?;
            text.push_str(raised.text.as_str())?;
        }
        Err(OpEnd::Memory) => return Err(Memory),
        Err(_) => text.push_str("stop")?,
    }
    if text.is_empty() {
        text.push_str("none")?;
    }
    Ok(text)
}

/// A function with these defaults, in a scope of its own.
fn function(alloc: Global, store: &mut Store, defaults: Vec<Value>) -> Result<Oid, Fault> {
    let scope = scope(alloc, store)?;
    if !are_sound(store, &defaults) {
        return Err(Fault::Unsound);
    }
    let at = store.add(
        SIDE,
        Object::Function {
            name: None,
            unit: SIDE,
            block: 0,
            scope,
            defaults,
        },
    )?;
    Ok(at)
}

/// An empty scope.
fn scope(alloc: Global, store: &mut Store) -> Result<Oid, Memory>
    ensures { IfOk result (λ at. IsScopeOf store.new.heap (record { 0 = 1 }) at) }
{
    store.add(
        SIDE,
        Object::Scope {
            block: None,
            parent: None,
            slots: Vec::new(alloc),
        },
    )
}

/// What a call answers.
fn called(alloc: Global, store: &mut Store, params: &str, args: &str) -> Result<String, Fault> {
    let mut names = Names::new(alloc, seed())?;
    let defaults = second(alloc, values_by_name(alloc, params)?)?;
    let params = parameters(alloc, &mut names, params)?;
    let function = function(alloc, store, defaults)?;
    let positional = positional(alloc, args)?;
    let named = values_by_name(alloc, args)?;
    if !is_function(store, function)
        || !are_sound(store, &positional)
        || !are_named_sound(store, &named)
    {
        return Err(Fault::Unsound);
    }
    let end = bind(
        alloc,
        store,
        &names,
        SIDE,
        &params,
        function,
        &positional,
        &named,
    );
    Ok(show(alloc, store, end)?)
}

/// What a call answers, or why the case has no answer.
fn told(alloc: Global, store: &mut Store, params: &str, args: &str) -> Result<String, Memory> {
    match called(alloc, store, params, args) {
        Ok(told) => Ok(told),
        Err(fault) => {
            let mut told = String::new(alloc);
            tell_fault(&mut told, &fault)?;
            Ok(told)
        }
    }
}

/// What a call with the arguments in the second part answers, where the first part is the parameters.
struct Bound;

impl Question for Bound {
    fn answer(&self, alloc: Global, parts: &[String]) -> Result<String, Fail> {
        let mut store = Store::new(alloc, 99, seed());
        Ok(told(alloc, &mut store, part(parts, 0), part(parts, 1))?)
    }
}

/// The same behind the limit of cells, and what it leaves: the cells used, and the objects.
struct BoundWithin;

impl Question for BoundWithin {
    fn answer(&self, alloc: Global, parts: &[String]) -> Result<String, Fail> {
        let mut store = Store::new(alloc, number(parts, 0) as u64, seed());
        let told = told(alloc, &mut store, part(parts, 1), part(parts, 2))?;
        let used = store.used();
        let objects = store.len();
        Ok(format!(in alloc; "{told}; {used} {objects}")?)
    }
}

#[test]
fn arguments_are_bound_as_in_python(rt: HostRuntime) -> Result<(), Fail> {
    all_answer(rt.alloc(), &Bound, CASES)
}

#[test]
fn tuple_and_dict_cost_cells(rt: HostRuntime) -> Result<(), Fail> {
    all_answer(rt.alloc(), &BoundWithin, CELLS)
}
