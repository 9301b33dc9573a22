//! The names of the words of operations, which stand at fixed places.
ghost use Rattle.std.specs.Prelude.{◌≡◌, Some, map, slice_get};
ghost use Rattle.rp_base.specs.FirstNames.{named_words};
ghost use Rattle.rp_base.specs.Names.{first_words};

use crate::value::Name;

pub const GET_ITEM: Name = Name(0);

pub const SET_ITEM: Name = Name(1);

pub const DEL_ITEM: Name = Name(2);

pub const ITER: Name = Name(3);

pub const ITEMS: Name = Name(4);

pub const CONTAINS: Name = Name(5);

pub const LEN: Name = Name(6);

pub const CALL: Name = Name(7);

pub const BOOL: Name = Name(8);

pub const STR: Name = Name(9);

pub const ADD: Name = Name(10);

pub const SUB: Name = Name(11);

pub const MUL: Name = Name(12);

pub const FLOOR_DIV: Name = Name(13);

pub const MOD: Name = Name(14);

pub const POW: Name = Name(15);

pub const BIT_AND: Name = Name(16);

pub const BIT_OR: Name = Name(17);

pub const BIT_XOR: Name = Name(18);

pub const LSHIFT: Name = Name(19);

pub const RSHIFT: Name = Name(20);

pub const REFLECTED_ADD: Name = Name(21);

pub const REFLECTED_SUB: Name = Name(22);

pub const REFLECTED_MUL: Name = Name(23);

pub const REFLECTED_FLOOR_DIV: Name = Name(24);

pub const REFLECTED_MOD: Name = Name(25);

pub const REFLECTED_POW: Name = Name(26);

pub const REFLECTED_BIT_AND: Name = Name(27);

pub const REFLECTED_BIT_OR: Name = Name(28);

pub const REFLECTED_BIT_XOR: Name = Name(29);

pub const REFLECTED_LSHIFT: Name = Name(30);

pub const REFLECTED_RSHIFT: Name = Name(31);

pub const IN_PLACE_ADD: Name = Name(32);

pub const IN_PLACE_SUB: Name = Name(33);

pub const IN_PLACE_MUL: Name = Name(34);

pub const IN_PLACE_FLOOR_DIV: Name = Name(35);

pub const IN_PLACE_MOD: Name = Name(36);

pub const IN_PLACE_POW: Name = Name(37);

pub const IN_PLACE_BIT_AND: Name = Name(38);

pub const IN_PLACE_BIT_OR: Name = Name(39);

pub const IN_PLACE_BIT_XOR: Name = Name(40);

pub const IN_PLACE_LSHIFT: Name = Name(41);

pub const IN_PLACE_RSHIFT: Name = Name(42);

pub const LT: Name = Name(43);

pub const LE: Name = Name(44);

pub const GT: Name = Name(45);

pub const GE: Name = Name(46);

pub const EQ: Name = Name(47);

pub const NE: Name = Name(48);

pub const NEG: Name = Name(49);

pub const POS: Name = Name(50);

pub const INVERT: Name = Name(51);

pub const INDEX: Name = Name(52);

pub const COUNT: Name = Name(53);

pub const GET: Name = Name(54);

pub const KEYS: Name = Name(55);

pub const VALUES: Name = Name(56);

pub const COPY: Name = Name(57);

pub const INIT: Name = Name(58);

/// The law that each of these names is the place of its word, so that `Names` holds it there from the start.
pub fn stand_at_their_words()
    ensures { map (λ named. slice_get first_words named.0.0) named_words ≡ map (λ named. Some named.1) named_words }
{}
