//! Exceptions that code raises.

ghost use Rattle.std.specs.Prelude.{[], None};
ghost use Rattle.rp_meaning.specs.Exceptions.{raise_again, raise_value};
ghost use Rattle.rp_meaning.specs.State.{Flow, State};
ghost use Rattle.rp_ops.specs.Outcome.{raises};
ghost use Rattle.rp_access.specs.Comes.{IsEnd};

use rp_base::{Kind, OpEnd, Raised, Rock, Value};
use rp_ops::raised;
use std::alloc::Global;

/// The end of `raise` with a value (Python Language Reference, The raise statement): an exception is raised itself, and
/// of a kind one with no text; of another value it is `TypeError` with the text `raise`. `Memory` where there is none
/// for the text.
pub fn raise_value(alloc: Global, value: Value) -> OpEnd
    ensures { (s : State) → IsEnd result s (raise_value value s) }
{
    match value {
        Value::Rock(rock) => raise_rock(alloc, rock),
        Value::Ref(_) => raise_again(alloc),
        Value::Prox(_) => raise_again(alloc),
    }
}

/// The same, of a rock.
fn raise_rock(alloc: Global, rock: Rock) -> OpEnd
    ensures { (s : State) → IsEnd result s (raise_value (Value.Rock rock) s) }
{
    match rock {
        Rock::Exc(kind, text) => OpEnd::Raised(Raised { kind, text }),
        Rock::Kind(kind) => raise_kind(alloc, kind),
        Rock::Nil => raise_again(alloc),
        Rock::Truth(_) => raise_again(alloc),
        Rock::Int(_) => raise_again(alloc),
        Rock::Text(_) => raise_again(alloc),
        Rock::Native(_) => raise_again(alloc),
    }
}

/// An exception of a kind, with no text.
fn raise_kind(alloc: Global, kind: Kind) -> OpEnd
    ensures { (s : State) → IsEnd {A = Flow} result s (raises kind [] s) }
{
    raised(alloc, kind, "")
}

/// The end of `raise` alone where no exception is handled: `TypeError` with the text `raise`. `Memory` where there is
/// none for the text.
pub fn raise_again(alloc: Global) -> OpEnd
    ensures { (s : State) → IsEnd result s (raise_again None s) }
{
    raised(alloc, Kind::TypeError, "raise")
}
