//! Compiled scripts and trusted modules, as texts.

use crate::answers::{new_names, why};
use crate::expression_texts::show_name;
use crate::scope_texts::show_blocks;
use rp_base::{Name, Names, identifier};
use rp_compile::{Compiled, Trusted, compile_script, compile_trusted};
use rp_scope::Layouts;
use rp_script::Refusal;
use std::alloc::{AllocError, Global};
use std::test::Fail;

/// The places of the names that are asked, through the scopes of a compiled script, or why it is refused.
pub fn script_places(alloc: Global, text: &str, asked: &str) -> Result<String, Fail> {
    let mut names = new_names(alloc)?;
    match script_of(alloc, text, &mut names) {
        Ok(script) => {
            let mut out = String::new(alloc);
            show_blocks(&mut out, script.layouts(), &names, asked)?;
            Ok(out)
        }
        Err(refusal) => why(alloc, &refusal, &names),
    }
}

/// The compiled script of a text. It has no contract, so the proofs of the tests stay short.
fn script_of(alloc: Global, text: &str, names: &mut Names) -> Result<Compiled, Refusal> {
    compile_script(alloc, text.as_bytes(), names)
}

/// The local names of a trusted module, which first binds `Box` and `box`, and the places of the names that are asked,
/// with `; ` between; or why it is refused.
pub fn module_places(alloc: Global, text: &str, asked: &str) -> Result<String, Fail> {
    let mut names = new_names(alloc)?;
    let first = held(alloc, &mut names, "Box")?;
    let second = held(alloc, &mut names, "box")?;
    match module_of(alloc, text, first, second, &mut names) {
        Ok(module) => {
            let (_, places) = asked.split_once("; ").unwrap_or(("", asked));
            let mut out = String::new(alloc);
            show_locals(&mut out, module.layouts(), &names)?;
            out.push_str("; ")?;
            show_blocks(&mut out, module.layouts(), &names, places)?;
            Ok(out)
        }
        Err(refusal) => why(alloc, &refusal, &names),
    }
}

/// The trusted module of a text that first binds two names.
fn module_of(
    alloc: Global,
    text: &str,
    first: Name,
    second: Name,
    names: &mut Names,
) -> Result<Trusted, Refusal> {
    compile_trusted(alloc, text, &[first, second], names)
}

/// The name of a word, the first of all where it is no identifier.
fn held(alloc: Global, names: &mut Names, word: &str) -> Result<Name, Fail> {
    match identifier(alloc, word)? {
        Some(form) => Ok(names.intern(form.as_str())?),
        None => Ok(Name(0)),
    }
}

/// The local names of the program, with blanks between.
fn show_locals(out: &mut String, layouts: &Layouts, names: &Names) -> Result<(), AllocError> {
    if layouts.len() == 0 {
        return out.push_str("no block");
    }
    let mut between = "";
    for name in layouts.locals(0) {
        out.push_str(between)?;
        show_name(out, names, *name)?;
        between = " ";
    }
    Ok(())
}
