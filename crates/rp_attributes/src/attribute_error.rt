//! The end of an operation on an attribute that is missing.
#![tactic(auto, using(rp_store::proofs::CallerLemmas::goes_on))]

ghost use Rattle.std.specs.Prelude.{◌≡◌, IfOk};
ghost use Rattle.rp_base.specs.declared.kind.Kind.TheVariants.{AttributeError};
ghost use Rattle.rp_base.specs.Names.{word_of};
ghost use Rattle.rp_ops.specs.Outcome.{Raises};
ghost use Rattle.rp_store.specs.Counters.{KeepsCounters};

use rp_base::{Kind, Memory, Name, Names, OpEnd, Raised, Text, word_of};
use rp_store::{Store, bytes_of};
use std::alloc::Global;

/// The end of an operation on an attribute that is not there; `Memory` where there is none for its text, or the store
/// holds no more bytes of such texts.
#[inline(never)]
pub(crate) fn no_attribute(alloc: Global, store: &mut Store, names: &Names, name: Name) -> OpEnd
    ensures raises { Raises result (record { kind = AttributeError; text = word_of names.now name }) }
    ensures same { store.new ≡ store.old }
    ensures counters { KeepsCounters store.old store.new }
{
    match word_text(alloc, store, names, name) {
        Ok(text) => OpEnd::Raised(Raised {
            kind: Kind::AttributeError,
            text,
        }),
        Err(_) => OpEnd::Memory,
    }
}

/// The word of a name as a text of an exception, whose bytes the store counts.
///
/// # Errors
/// `Memory` where a growth was refused, or the store holds no more bytes of such texts.
pub fn word_text(
    alloc: Global,
    store: &mut Store,
    names: &Names,
    name: Name,
) -> Result<Text, Memory>
    ensures text { IfOk result (λ t. t ≡ word_of names.now name) }
    ensures same { store.new ≡ store.old }
{
    let text = Text::new(alloc, word_of(names, name))?;
    store.hold_text(bytes_of(&text))?;
    Ok(text)
}
