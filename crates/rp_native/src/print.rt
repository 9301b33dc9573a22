//! The line that `print` makes.
#![tactic(auto, using(rp_store::proofs::CallerLemmas::goes_on))]

ghost use Rattle.std.specs.Prelude.{◌≡◌, ◌≤◌, ℕ, [], chars, codes};
ghost use Rattle.rp_ops.specs.Outcome.{Meets, state_of};
ghost use Rattle.rp_show.specs.Show.{followed, printed, show};
ghost use Rattle.rp_show.specs.ShowView.{Writes, added};
ghost use Rattle.rp_native.specs.Print.{argument, further, print_line};
ghost use Rattle.rp_store.specs.Counters.{KeepsCounters};

use rp_base::{Meter, Names, OpEnd, Printed, Rock, Text, Value};
use rp_ops::charge;
use rp_show::show;
use rp_store::Store;
use std::alloc::Global;

/// The line that `print` writes (Python Standard Library, Built-in Functions): the shown texts of its arguments, joined
/// by a space, with a newline. Each character of the line costs its bytes, in order, and each element within a
/// container a step before its text.
///
/// # Errors
/// - As `show`, of an argument.
/// - `StopCells` at the first character that does not fit; what was charged before stays charged.
/// - `Memory` where a growth was refused.
///
/// The objects are as before.
pub fn print_line(
    alloc: Global,
    store: &mut Store,
    meter: &mut Meter,
    names: &Names,
    args: &[Value],
) -> Result<Text, OpEnd>
    ensures plain { Meets result (state_of store.new meter.new.left)
        (print_line names.now args.now (state_of store.old meter.old.left)) }
    ensures same { store.new.heap ≡ store.old.heap }
    ensures fewer { meter.new.left ≤ meter.old.left }
    ensures counters { KeepsCounters store.old store.new }
{
    let mut line = Printed::new(alloc);
    print_arguments(alloc, store, meter, names, args, &mut line)?;
    Ok(Text::new(alloc, line.as_str())?)
}

fn print_arguments(
    alloc: Global,
    store: &mut Store,
    meter: &mut Meter,
    names: &Names,
    args: &[Value],
    line: &mut Printed,
) -> Result<(), OpEnd>
    requires empty { line.old ≡ [] }
    ensures plain { Writes result line.new (state_of store.new meter.new.left)
        (print_line names.now args.now (state_of store.old meter.old.left)) }
    ensures same { store.new.heap ≡ store.old.heap }
    ensures fewer { meter.new.left ≤ meter.old.left }
    ensures counters { KeepsCounters store.old store.new }
{
    let Some((first, rest)) = args.split_first() else {
        return print_text(store, "\n", line);
    };
    print_argument(alloc, store, meter, names, first, line)?;
    print_further(alloc, store, meter, names, rest, line)
}

/// Further arguments, each behind a space, and the newline.
fn print_further(
    alloc: Global,
    store: &mut Store,
    meter: &mut Meter,
    names: &Names,
    args: &[Value],
    line: &mut Printed,
) -> Result<(), OpEnd>
    ensures plain { Writes result line.new (state_of store.new meter.new.left)
        (added line.old (further names.now args.now (state_of store.old meter.old.left))) }
    ensures same { store.new.heap ≡ store.old.heap }
    ensures fewer { meter.new.left ≤ meter.old.left }
    ensures counters { KeepsCounters store.old store.new }
{
    for value in args {
        print_behind(alloc, store, meter, names, value, line)?;
    }
    print_text(store, "\n", line)
}

/// An argument behind a space.
fn print_behind(
    alloc: Global,
    store: &mut Store,
    meter: &mut Meter,
    names: &Names,
    value: &Value,
    line: &mut Printed,
) -> Result<(), OpEnd>
    ensures plain { Writes result line.new (state_of store.new meter.new.left)
        (added line.old (followed (printed (codes " ") (state_of store.old meter.old.left))
        (argument names.now value.now))) }
    ensures same { store.new.heap ≡ store.old.heap }
    ensures fewer { meter.new.left ≤ meter.old.left }
    ensures counters { KeepsCounters store.old store.new }
{
    print_text(store, " ", line)?;
    print_argument(alloc, store, meter, names, value, line)
}

fn print_argument(
    alloc: Global,
    store: &mut Store,
    meter: &mut Meter,
    names: &Names,
    value: &Value,
    line: &mut Printed,
) -> Result<(), OpEnd>
    ensures plain { Writes result line.new (state_of store.new meter.new.left)
        (added line.old (argument names.now value.now (state_of store.old meter.old.left))) }
    ensures same { store.new.heap ≡ store.old.heap }
    ensures fewer { meter.new.left ≤ meter.old.left }
    ensures counters { KeepsCounters store.old store.new }
{
    match value {
        Value::Rock(rock) => match rock {
            Rock::Text(text) => print_text(store, text.as_str(), line),
            Rock::Nil
            | Rock::Truth(_)
            | Rock::Int(_)
            | Rock::Exc(_, _)
            | Rock::Kind(_)
            | Rock::Native(_) => print_shown(alloc, store, meter, names, value, line),
        },
        Value::Ref(_) | Value::Prox(_) => print_shown(alloc, store, meter, names, value, line),
    }
}

/// An argument whose shown text is charged as it is shown.
fn print_shown(
    alloc: Global,
    store: &mut Store,
    meter: &mut Meter,
    names: &Names,
    value: &Value,
    line: &mut Printed,
) -> Result<(), OpEnd>
    ensures plain { Writes result line.new (state_of store.new meter.new.left)
        (added line.old (show names.now value.now (state_of store.old meter.old.left))) }
    ensures same { store.new.heap ≡ store.old.heap }
    ensures fewer { meter.new.left ≤ meter.old.left }
    ensures counters { KeepsCounters store.old store.new }
{
    let text = show(alloc, store, meter, names, value)?;
    line.add(text.as_str())?;
    Ok(())
}

/// Charges a text, character by character, and puts it behind the line.
///
/// # Errors
/// `StopCells` at the first character that does not fit, and `Memory` where a growth was refused.
fn print_text(store: &mut Store, text: &str, line: &mut Printed) -> Result<(), OpEnd>
    ensures plain { (steps : ℕ) → Writes result line.new (state_of store.new steps)
        (added line.old (printed (chars text.now) (state_of store.old steps))) }
    ensures same { store.new.heap ≡ store.old.heap }
    ensures counters { KeepsCounters store.old store.new }
{
    charge_text(store, text)?;
    line.add(text)?;
    Ok(())
}

fn charge_text(store: &mut Store, text: &str) -> Result<(), OpEnd>
    ensures plain { (steps : ℕ) → Writes result (chars text.now) (state_of store.new steps)
        (printed (chars text.now) (state_of store.old steps)) }
    ensures same { store.new.heap ≡ store.old.heap }
    ensures counters { KeepsCounters store.old store.new }
{
    for letter in text.chars() {
        charge(store, letter.len_utf8() as u64)?;
    }
    Ok(())
}
