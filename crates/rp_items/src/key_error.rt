//! The end of an operation on a key that is missing.
#![tactic(auto, using(rp_store::proofs::CallerLemmas::goes_on))]

ghost use Rattle.std.specs.Prelude.{◌≡◌, IfOk};
ghost use Rattle.rp_store.specs.Counters.{KeepsCounters};
ghost use Rattle.rp_ops.specs.Outcome.{Raises};
ghost use Rattle.rp_show.specs.Shown.{shown_inside};

use rp_base::{Kind, Memory, OpEnd, Raised, Rock, Text};
use rp_show::shown_inside;
use rp_store::{Store, bytes_of};
use std::alloc::Global;

/// The end of an operation on a key that a dict does not have; `Memory` where there is none for its text, or the store
/// holds no more bytes of such texts.
#[inline(never)]
pub fn missing_key(alloc: Global, store: &mut Store, rock: &Rock) -> OpEnd
    ensures raises { Raises result (record { kind = Kind.KeyError; text = shown_inside rock.now }) }
    ensures same { store.new ≡ store.old }
    ensures counters { KeepsCounters store.old store.new }
{
    match key_text(alloc, store, rock) {
        Ok(text) => OpEnd::Raised(Raised {
            kind: Kind::KeyError,
            text,
        }),
        Err(_) => OpEnd::Memory,
    }
}

/// A key as it is shown inside a container, whose bytes the store counts.
///
/// # Errors
/// `Memory` where a growth was refused, or the store holds no more bytes of such texts.
fn key_text(alloc: Global, store: &mut Store, rock: &Rock) -> Result<Text, Memory>
    ensures text { IfOk result (λ t. t ≡ shown_inside rock.now) }
    ensures same { store.new ≡ store.old }
{
    let text = shown_inside(alloc, rock)?;
    store.hold_text(bytes_of(&text))?;
    Ok(text)
}
