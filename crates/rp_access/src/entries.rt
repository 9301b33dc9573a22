//! The entries of dict displays.

ghost use Rattle.std.specs.Prelude.{◌≡◌, ◌∷◌, [], OnOk, None, Some};
ghost use Rattle.rp_dict.specs.Dict.{insert_entry};
ghost use Rattle.rp_ops.specs.Outcome.{Answers};
ghost use Rattle.rp_store.specs.Key.{same_key};
ghost use Rattle.rp_store.specs.Writers.{first_written};
ghost use Rattle.rp_access.specs.Entries.{as_dict, dict_from, dict_then};

use rp_base::{Memory, OpEnd, Rock, Seed, Value};
use rp_dict::Dict;
use rp_ops::Refusal;
use rp_store::{Key, key_of, push_new, set_held};
use std::alloc::Global;

/// The entries of a dict display (Python Language Reference, Dictionary displays), from keys, each with the value
/// behind it. A key that comes again stays as it was first written, and gets the later value.
///
/// # Errors
/// - `Raised` with `TypeError` and the text `key`, where a value can be no key.
/// - `Memory` where a growth was refused.
pub fn entries_of(
    alloc: Global,
    seed: Seed,
    elements: &[Value],
) -> Result<Dict<Key, (Rock, Value)>, OpEnd>
    ensures { Answers (as_dict result) (dict_from [] elements.now) }
{
    let mut entries = Dict::new(alloc, seed);
    for i in 0..elements.len() / 2 {
        put(alloc, &mut entries, &elements[2 * i], &elements[2 * i + 1])?;
    }
    Ok(entries)
}

/// Gives a key its value.
fn put(
    alloc: Global,
    entries: &mut Dict<Key, (Rock, Value)>,
    key: &Value,
    value: &Value,
) -> Result<(), OpEnd>
    ensures { Answers (dict_then result entries.new) (dict_from entries.old (key.now ∷ value.now ∷ [])) }
{
    match key {
        Value::Rock(rock) => put_rock(alloc, entries, rock, value),
        Value::Ref(_) => Err(Refusal::Key.end(alloc)),
        Value::Prox(_) => Err(Refusal::Key.end(alloc)),
    }
}

/// The same, of a rock.
fn put_rock(
    alloc: Global,
    entries: &mut Dict<Key, (Rock, Value)>,
    rock: &Rock,
    value: &Value,
) -> Result<(), OpEnd>
    ensures { Answers (dict_then result entries.new)
        (dict_from entries.old (Value.Rock rock.now ∷ value.now ∷ [])) }
{
    match key_of(rock)? {
        Some(key) => {
            put_key(entries, key, rock, value)?;
            Ok(())
        }
        None => Err(Refusal::Key.end(alloc)),
    }
}

/// The same, of a rock with a key form.
fn put_key(
    entries: &mut Dict<Key, (Rock, Value)>,
    key: Key,
    rock: &Rock,
    value: &Value,
) -> Result<(), Memory>
    ensures { OnOk result (entries.new
        ≡ insert_entry same_key entries.old key (first_written key rock.now entries.old, value.now)) }
{
    let value = value.copy()?;
    let Err(value) = set_held(entries, &key, value) else {
        return Ok(());
    };
    push_new(entries, key, rock.copy()?, value)
}
