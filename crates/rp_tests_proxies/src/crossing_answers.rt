//! What comes of operations on values in a world.

ghost use Rattle.std.specs.Prelude.{ℕ, IfOk, IfSome, List};
ghost use Rattle.std.specs.Bool.{OnTrue};
ghost use Rattle.rp_base.specs.Names.{first_words};
ghost use Rattle.rp_decl.specs.Consistency.{IsConsistent};
ghost use Rattle.rp_decl.specs.InOrder.{AreInOrder};
ghost use Rattle.rp_decl.specs.Places.{GrowsTo, IsHeld as IsNameHeld, IsHeldBy};
ghost use Rattle.rp_decl.specs.View.{declarations_view};
ghost use Rattle.rp_interact.specs.Answers.{AnswersAs};
ghost use Rattle.rp_store.specs.Heap.{IsHeld, Owned};
ghost use Rattle.rp_proxy.specs.Faithful.{IsFaithful};
ghost use Rattle.rp_proxy.specs.Held.{IsValueHeld};

use rp_base::{Memory, Meter, Name, Names, Oid, Op, OpEnd, Printed, Rock, Text, Value};
use rp_decl::{Decl, declarations};
use rp_interact::Interaction;
use rp_proxy::{Running, World, cross};
use rp_tests_cases::{Question, after_word, first_word, number, part, seed};
use rp_world::{Begun, begin};
use std::alloc::Global;
use std::test::Fail;

const DECLARATIONS: &str = "version = 1
permissions = [\"zope.View\", \"zope.Manage\"]
[class.Folder]
get = { title = \"zope.View\", size = \"zope.Public\" }
set = { title = \"zope.Manage\" }
[principal.bob]
allow = [\"zope.View\"]
[principal.eve]
[object.root]
class = \"Folder\"
";

/// Session 2 of a principal, where it is declared.
fn running_of(alloc: Global, decl: &Decl, who: &str) -> Result<Option<Running>, Memory>
    ensures { IfOk result (λ o. IfSome o (λ r. (names : List (List ℕ)) →
        AreInOrder (declarations_view names decl.now) → AnswersAs names decl.now r.interaction)) }
{
    let ids = vec![in alloc; Text::new(alloc, who)?]?;
    match Interaction::new(alloc, decl, ids.as_slice()) {
        Ok(interaction) => Ok(Some(Running {
            session: 2,
            interaction,
            meter: Meter { left: 9 },
            printed: Printed::new(alloc),
        })),
        Err(_) => Ok(None),
    }
}

/// The world of declarations that were read into the names, before their module, in which a session runs and so many
/// cells may be used.
fn world_with(
    alloc: Global,
    decl: Decl,
    names: Names,
    running: Running,
    limit: u64,
) -> Result<World, Memory>
    requires first { GrowsTo first_words names }
    requires held { IsHeldBy names decl }
    requires consistent { IsConsistent (declarations_view names decl) }
    requires ordered { AreInOrder (declarations_view names decl) }
    requires grants { (later : List (List ℕ)) → AreInOrder (declarations_view later decl)
        → AnswersAs later decl running.interaction }
    ensures { IfOk result IsFaithful }
{
    let begun = begin(alloc, decl, names, 0)?;
    let Begun { mut world, .. } = begun;
    world.running = running;
    world.store.restart(limit);
    Ok(world)
}

/// A world of session 2, of one principal, with so many cells.
fn world_of(alloc: Global, who: &str, limit: u64) -> Result<Option<World>, Memory>
    ensures { IfOk result (λ o. IfSome o IsFaithful) }
{
    let mut names = Names::new(alloc, seed())?;
    let Ok(decl) = declarations(alloc, DECLARATIONS.as_bytes(), &mut names) else {
        return Ok(None);
    };
    let Some(running) = running_of(alloc, &decl, who)? else {
        return Ok(None);
    };
    Ok(Some(world_with(alloc, decl, names, running, limit)?))
}

fn is_held(world: &World, at: Oid) -> bool
    ensures { OnTrue result (IsHeld world.now.store.heap at) }
{
    at.0 < world.store.len()
}

/// The name of a word.
fn name_of(names: &Names, word: &str) -> Option<Name>
    ensures { IfSome result (IsNameHeld names.now) }
{
    for place in 0..names.len() {
        if names.text(Name(place)) == word {
            return Some(Name(place));
        }
    }
    None
}

/// How an operation ends; `well` where it does.
fn end_text(alloc: Global, well: &str, end: Option<OpEnd>) -> Result<String, Fail> {
    Ok(match end {
        None => String::from_str(alloc, well)?,
        Some(OpEnd::Raised(raised)) => {
            let kind = raised.kind.as_str();
            let text = raised.text.as_str();
            format!(in alloc; "{kind}: {text}")?
        }
        Some(OpEnd::StopSteps) => String::from_str(alloc, "no step")?,
        Some(OpEnd::StopCells) => String::from_str(alloc, "no cell")?,
        Some(OpEnd::Memory) => String::from_str(alloc, "no memory")?,
    })
}

/// The operation of a word on a name.
fn op_of(kind: &str, name: Name) -> Op {
    if kind == "get" {
        Op::Get(name)
    } else {
        Op::Set(name)
    }
}

/// A proxy of an object, a plain reference to it, or a rock.
fn value_of(value: &str, at: Oid) -> Value
    ensures { (heap : List Owned) → IsHeld heap at → IsValueHeld heap result }
{
    match value {
        "proxy" => Value::Prox(at),
        "plain" => Value::Ref(at),
        _ => Value::Rock(Rock::Nil),
    }
}

/// An operation, after which it may be done again.
fn asked(alloc: Global, world: &mut World, value: &Value, op: Op) -> Result<(), OpEnd>
    requires faithful { IsFaithful world.old }
    requires held { IsValueHeld world.old.store.heap value.now }
    ensures faithful { IsFaithful world.new }
    ensures held { IsValueHeld world.new.store.heap value.now }
{
    cross(alloc, world, value, op)
}

/// The ends of an operation that is done so many times.
fn ends_of(
    alloc: Global,
    world: &mut World,
    value: &Value,
    op: Op,
    times: u32,
) -> Result<String, Fail>
    requires faithful { IsFaithful world.old }
    requires held { IsValueHeld world.old.store.heap value.now }
{
    let mut told = String::new(alloc);
    for _ in 0..times {
        let end = asked(alloc, world, value, op);
        let end = end_text(alloc, "goes on", end.err())?;
        write!(told, "{end}; ")?;
    }
    Ok(told)
}

/// What comes of an operation in a world, made so many times.
fn crossed_in(
    alloc: Global,
    world: &mut World,
    value: &str,
    kind: &str,
    word: &str,
    times: u32,
) -> Result<String, Fail>
    requires { IsFaithful world.old }
{
    // A word that is none of the program's stands for a name that is none.
    let name = name_of(&world.names, word).unwrap_or(Name(world.names.len()));
    // The declared object stands behind the scope of the exposed names and its class.
    let at = Oid(2);
    if !is_held(world, at) {
        return Ok(String::from_str(alloc, "no object")?);
    }
    ends_of(alloc, world, &value_of(value, at), op_of(kind, name), times)
}

/// The entries, the cells used and the answers that are kept.
fn counts_of(alloc: Global, world: &World) -> Result<String, Fail> {
    let entries = world.trail.len();
    let used = world.store.used();
    let kept = world.running.interaction.kept();
    Ok(format!(in alloc; "{entries} entries, {used} used, {kept} kept")?)
}

/// What comes of the operation on a declared folder that is the fourth part, as `proxy get title`, done by the
/// principal of the first, with as many cells as the second says, as often as the third: the ends, the entries, the
/// cells used and the answers that are kept.
pub struct Crossed;

impl Question for Crossed {
    fn answer(&self, alloc: Global, parts: &[String]) -> Result<String, Fail> {
        let limit = number(parts, 1) as u64;
        crossed_by(
            alloc,
            part(parts, 0),
            limit,
            number(parts, 2),
            part(parts, 3),
        )
    }
}

fn crossed_by(
    alloc: Global,
    who: &str,
    limit: u64,
    times: u32,
    what: &str,
) -> Result<String, Fail> {
    let (value, rest) = (first_word(what), after_word(what));
    let (kind, word) = (first_word(rest), after_word(rest));
    let Some(mut world) = world_of(alloc, who, limit)? else {
        return Ok(String::from_str(alloc, "no world")?);
    };
    let ends = crossed_in(alloc, &mut world, value, kind, word, times)?;
    let counts = counts_of(alloc, &world)?;
    Ok(format!(in alloc; "{ends}{counts}")?)
}
