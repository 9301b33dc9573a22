//! What is decided on the arguments of each function and method, at each count of arguments from 0 to 3.

use crate::words::native_of;
use rp_base::{Memory, NativeId};
use rp_native::{Need, needs};
use std::alloc::Global;
use std::test::Fail;

const NEEDS: &str = r#"
    What is decided on each argument.
    By our own rules, or with what they cost.
    len => 1: len - - - ‖ bool => 1: bool - - - ‖ str => 1: str - - -
    print => 1: str - - -, 2: str str - -, 3: str str str - ‖ min => 1: iter - - - ‖ max => 1: iter - - -
    dict => 1: items - - - ‖ update => 1: items - - - ‖ zip => 1: iter - - -, 2: iter iter - -, 3: iter iter iter -
    sum => 1: iter - - - ‖ sorted => 1: iter - - - ‖ list => 1: iter - - - ‖ tuple => 1: iter - - -
    enumerate => 1: iter - - - ‖ extend => 1: iter - - - ‖ join => 1: iter - - - ‖ int => nothing ‖ abs => nothing
    range => nothing ‖ getattr => nothing ‖ setattr => nothing ‖ removeSecurityProxy => nothing ‖ append => nothing
    insert => nothing ‖ pop => nothing ‖ remove => nothing ‖ index => nothing ‖ count => nothing ‖ reverse => nothing
    get => nothing ‖ keys => nothing ‖ values => nothing ‖ items => nothing ‖ setdefault => nothing ‖ copy => nothing
    split => nothing ‖ strip => nothing ‖ startswith => nothing ‖ endswith => nothing ‖ find => nothing
    replace => nothing ‖ isdigit => nothing
"#;

fn word_of_need(need: Option<Need>) -> &'static str {
    if need == Some(Need::Iter) {
        return " iter";
    }
    if need == Some(Need::Items) {
        return " items";
    }
    if need == Some(Need::Len) {
        return " len";
    }
    if need == Some(Need::Str) {
        return " str";
    }
    if need == Some(Need::Bool) {
        return " bool";
    }
    " -"
}

/// The needs of the arguments 0 to 3 at a count of arguments; nothing where there is none.
fn row(alloc: Global, id: NativeId, count: usize) -> Result<String, Memory> {
    let mut row = String::new(alloc);
    let mut has_need = false;
    for i in 0..4usize {
        let need = needs(id, i, count);
        has_need = has_need || need.is_some();
        row.push_str(word_of_need(need))?;
    }
    if !has_need {
        row = String::new(alloc);
    }
    Ok(row)
}

fn rows(alloc: Global, id: NativeId) -> Result<String, Memory> {
    let mut told = String::new(alloc);
    for count in 0..4usize {
        let row = row(alloc, id, count)?;
        if !row.is_empty() {
            told.push_str(if told.is_empty() { "" } else { ", " })?;
            write!(told, "{count}:")?;
            told.push_str(row.as_str())?;
        }
    }
    if told.is_empty() {
        told.push_str("nothing")?;
    }
    Ok(told)
}

/// What is told of the function or the method of this name.
fn told_of(alloc: Global, word: &str) -> Result<String, Memory> {
    match native_of(word) {
        Some(id) => rows(alloc, id),
        None => Ok(String::from_str(alloc, "no function and no method")?),
    }
}

#[test]
fn arguments_are_decided(rt: HostRuntime) -> Result<(), Fail> {
    let mut count = 0usize;
    for case in NEEDS.split(['\n', '‖']) {
        if let Some((word, wanted)) = case.trim().split_once(" => ") {
            assert_eq!(rt; told_of(rt.alloc(), word)?.as_str(), wanted, "at {word}");
            count = count.saturating_add(1);
        }
    }
    assert_eq!(rt; count, 42);
    Ok(())
}
