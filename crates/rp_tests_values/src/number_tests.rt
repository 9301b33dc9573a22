//! Operators on numbers and truth values, with no cell used and no step taken.

// The values are CPython's where they fit into 64 bits.

use crate::answers::all_answer;
use std::test::Fail;

const CASES: &str = "
    Sums and products end at 64 bits.
    2 + 3 => 5
    9223372036854775807 + 1 => OverflowError: int
    -9223372036854775808 + -1 => OverflowError: int
    -9223372036854775808 + 9223372036854775807 => -1
    2 - 3 => -1
    -9223372036854775808 - 1 => OverflowError: int
    -1 - -9223372036854775808 => 9223372036854775807
    0 - -9223372036854775808 => OverflowError: int
    -3 * 4 => -12
    -9223372036854775808 * -1 => OverflowError: int
    -9223372036854775808 * 1 => -9223372036854775808
    3037000499 * 3037000499 => 9223372030926249001
    3037000500 * 3037000500 => OverflowError: int

    Quotients are rounded down.
    7 // 2; 7 % 2 => 3; 1
    -7 // 2; -7 % 2 => -4; 1
    7 // -2; 7 % -2 => -4; -1
    -7 // -2; -7 % -2 => 3; -1
    6 // -2; 6 % -2 => -3; 0
    0 // -2; 0 % -2 => 0; 0
    -9223372036854775808 // -1; -9223372036854775808 % -1 => OverflowError: int; 0
    -9223372036854775808 // 3; -9223372036854775808 % 3 => -3074457345618258603; 1
    9223372036854775807 // -9223372036854775808; 9223372036854775807 % -9223372036854775808 => -1; -1
    -9223372036854775808 // 9223372036854775807; -9223372036854775808 % 9223372036854775807 => -2; 9223372036854775806
    1 // 0; 1 % 0 => ZeroDivisionError: zero; ZeroDivisionError: zero
    0 // 0; 0 % 0 => ZeroDivisionError: zero; ZeroDivisionError: zero

    Powers take any exponent from 0.
    0 ** 0 => 1
    7 ** 2 => 49
    2 ** 62 => 4611686018427387904
    2 ** 63 => OverflowError: int
    -2 ** 63 => -9223372036854775808
    -2 ** 64 => OverflowError: int
    -3 ** 39 => -4052555153018976267
    3 ** 40 => OverflowError: int
    0 ** 9223372036854775807 => 0
    1 ** 9223372036854775807 => 1
    -1 ** 9223372036854775807 => -1
    -1 ** 9223372036854775806 => 1
    2 ** 9223372036854775807 => OverflowError: int
    2 ** -1 => ValueError: power
    0 ** -1 => ValueError: power
    1 ** -9223372036854775808 => ValueError: power

    Shifts take any count from 0.
    1 << 0; 1 >> 0 => 1; 1
    1 << 62; 1 >> 62 => 4611686018427387904; 0
    3 << 62; 3 >> 62 => OverflowError: int; 0
    1 << 63; 1 >> 63 => OverflowError: int; 0
    -1 << 63; -1 >> 63 => -9223372036854775808; -1
    -1 << 64; -1 >> 64 => OverflowError: int; -1
    0 << 1000; 0 >> 1000 => 0; 0
    -7 << 1; -7 >> 1 => -14; -4
    -9223372036854775808 << 1; -9223372036854775808 >> 1 => OverflowError: int; -4611686018427387904
    -9223372036854775808 << 64; -9223372036854775808 >> 64 => OverflowError: int; -1
    9223372036854775807 << 9223372036854775807; 9223372036854775807 >> 9223372036854775807 => OverflowError: int; 0
    1 << -1; 1 >> -1 => ValueError: shift; ValueError: shift
    0 << -9223372036854775808; 0 >> -9223372036854775808 => ValueError: shift; ValueError: shift

    Bits are those of 64.
    -5 & 3; -5 | 3; -5 ^ 3 => 3; -5; -8
    -9223372036854775808 & 9223372036854775807; -9223372036854775808 | 9223372036854775807; \
        -9223372036854775808 ^ 9223372036854775807 => 0; -1; -1
    12 & 10; 12 | 10; 12 ^ 10 => 8; 14; 6

    Bits of truth values are truth values.
    False & False => False
    False | False => False
    False ^ False => False
    False & True => False
    False | True => True
    False ^ True => True
    True & False => False
    True | False => True
    True ^ False => True
    True & True => True
    True | True => True
    True ^ True => False
    True + True => 2
    True << True => 2
    True & 1 => 1
    2 | True => 3

    Unary operators take numbers.
    neg 5 => -5
    pos 5 => 5
    invert 5 => -6
    neg 0 => 0
    pos 0 => 0
    invert 0 => -1
    neg 9223372036854775807 => -9223372036854775807
    pos 9223372036854775807 => 9223372036854775807
    invert 9223372036854775807 => -9223372036854775808
    neg -9223372036854775808 => OverflowError: int
    pos -9223372036854775808 => -9223372036854775808
    invert -9223372036854775808 => 9223372036854775807
    neg True => -1
    invert False => -1
    neg '1' => TypeError: operand
    pos None => TypeError: operand
    invert KeyError => TypeError: operand
";

#[test]
fn numbers_are_operated_on(rt: HostRuntime) -> Result<(), Fail> {
    all_answer(rt.alloc(), CASES)?;
    Ok(())
}
