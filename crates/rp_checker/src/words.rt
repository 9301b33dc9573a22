//! What may be read of built-in kinds, and of every object.

ghost use Rattle.std.specs.Prelude.{◌≡◌};
ghost use Rattle.rp_checker.specs.Tables.{is_place_among, public_places, row_unlisted};

use rp_base::{ClassTag, Name, Op, word};
use rp_decl::Row;

/// The places of the names that everybody may read of a list or a tuple.
const SEQUENCE: [usize; 6] = [
    word::GET_ITEM.0,
    word::LEN.0,
    word::ITER.0,
    word::CONTAINS.0,
    word::INDEX.0,
    word::COUNT.0,
];

/// The same of a dict.
const MAPPING: [usize; 9] = [
    word::GET_ITEM.0,
    word::LEN.0,
    word::ITER.0,
    word::CONTAINS.0,
    word::GET.0,
    word::KEYS.0,
    word::VALUES.0,
    word::ITEMS.0,
    word::COPY.0,
];

/// The same of a function or a method.
const CALLABLE: [usize; 1] = [word::CALL.0];

/// The places of the names that may be read by default: comparisons, truth and text.
const AVAILABLE: [usize; 8] = [
    word::LT.0,
    word::LE.0,
    word::EQ.0,
    word::NE.0,
    word::GT.0,
    word::GE.0,
    word::BOOL.0,
    word::STR.0,
];

/// Whether everybody may read the name of a built-in kind.
pub fn is_public(class: ClassTag, name: Name) -> bool
    ensures { result ≡ is_place_among (public_places class) name }
{
    match class {
        ClassTag::List | ClassTag::Tuple => SEQUENCE.contains(&name.0),
        ClassTag::Dict => MAPPING.contains(&name.0),
        ClassTag::Function | ClassTag::Method => CALLABLE.contains(&name.0),
        ClassTag::Class | ClassTag::Declared(_) | ClassTag::Other => false,
    }
}

/// The row for an operation that no class lists.
pub fn row_unlisted(op: Op) -> Row
    ensures { result ≡ row_unlisted op }
{
    match op {
        Op::Get(name) if AVAILABLE.contains(&name.0) => Row::Default,
        _ => Row::Forbidden,
    }
}
