//! Scripts and modules, as they are compiled.

ghost use Rattle.std.specs.Prelude.{◌≡◌, IfOk};
ghost use Rattle.rp_decl.specs.Places.{GrowsTo};
ghost use Rattle.rp_scope.specs.Scopes.{scopes};
ghost use Rattle.rp_session.specs.Programs.{IsResolved};
ghost use Rattle.rp_tree.specs.StatementViews.{view_tree};
ghost use Rattle.rp_world.specs.Globals.{placed_names};

use rp_base::Names;
use rp_compile::{Trusted, compile_script, compile_trusted};
use rp_decl::Decl;
use rp_scope::Layouts;
use rp_script::Refusal;
use rp_session::declared_names;
use rp_tree::Tree;
use std::alloc::Global;

/// What the text of a script is read as.
#[derive(Clone, Copy)]
pub enum Code {
    /// A script, which the policy of names judges.
    Script,
    /// Code like that of a trusted module, which no policy judges.
    Trusted,
}

/// A script as it runs: its tree, and the table of its scopes.
#[derive(Drop)]
pub struct Script {
    pub tree: Tree,
    pub table: Layouts,
}

/// What the module of declarations and a script are compiled to.
#[derive(Drop)]
pub struct Sources {
    pub module: Trusted,
    pub script: Script,
}

/// The module of declarations and a script, compiled.
///
/// # Errors
/// As `compile_script` and `compile_trusted`, for the module first.
pub fn sources_of(
    alloc: Global,
    decl: &Decl,
    code: Code,
    script: &str,
    names: &mut Names,
) -> Result<Sources, Refusal>
    ensures grown { GrowsTo names.old names.new }
    ensures table { IfOk result (λ sources. sources.module.layouts
        ≡ scopes (placed_names decl.now) (view_tree sources.module.tree)) }
    ensures resolved { IfOk result (λ sources. IsResolved sources.script.tree sources.script.table) }
{
    let first = declared_names(alloc, decl)?;
    let text = decl.module();
    let module = compile_trusted(alloc, text.as_str(), first.as_slice(), names)?;
    let script = script_of(alloc, code, script, names)?;
    Ok(Sources { module, script })
}

/// The script of a text that is read so.
fn script_of(alloc: Global, code: Code, text: &str, names: &mut Names) -> Result<Script, Refusal>
    ensures grown { GrowsTo names.old names.new }
    ensures resolved { IfOk result (λ script. IsResolved script.tree script.table) }
{
    match code {
        Code::Script => judged(alloc, text, names),
        Code::Trusted => unjudged(alloc, text, names),
    }
}

/// The script of a text, with its guards.
fn judged(alloc: Global, text: &str, names: &mut Names) -> Result<Script, Refusal>
    ensures grown { GrowsTo names.old names.new }
    ensures resolved { IfOk result (λ script. IsResolved script.tree script.table) }
{
    let compiled = compile_script(alloc, text.as_bytes(), names)?;
    let parts = compiled.into_parts();
    let (tree, table) = parts;
    Ok(Script { tree, table })
}

/// The code of a text, without guards.
fn unjudged(alloc: Global, text: &str, names: &mut Names) -> Result<Script, Refusal>
    ensures grown { GrowsTo names.old names.new }
    ensures resolved { IfOk result (λ script. IsResolved script.tree script.table) }
{
    let compiled = compile_trusted(alloc, text, &[], names)?;
    let parts = compiled.into_parts();
    let (tree, table) = parts;
    Ok(Script { tree, table })
}
