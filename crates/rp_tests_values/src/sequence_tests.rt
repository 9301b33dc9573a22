//! Operators on texts, lists and tuples, and what counts as true.

use crate::answers::all_answer;
use std::test::Fail;

const CASES: &str = "
    Texts are joined and repeated.
    'né' + 'e' => 'née' | 4 cells
    '' + '' => ''
    'ab' * 3 => 'ababab' | 6 cells
    3 * 'ab' => 'ababab' | 6 cells
    'ab' * 1 => 'ab' | 2 cells
    1 * 'ab' => 'ab' | 2 cells
    'ab' * 0 => ''
    0 * 'ab' => ''
    'ab' * -1 => ''
    -1 * 'ab' => ''
    'ab' * -9223372036854775808 => ''
    -9223372036854775808 * 'ab' => ''
    'ab' * True => 'ab' | 2 cells
    '' * 9223372036854775807 => ''

    Texts cost their bytes.
    cells 6; 'é' * 3 => 'ééé' | 6 cells
    cells 5; 'é' * 3 => stop cells
    cells 0; 'é' * 1 => stop cells
    cells 0; 'é' * 0 => ''
    cells 18446744073709551613; 'é' * 9223372036854775807 => stop cells
    cells 18446744073709551615; 'abc' * 9223372036854775807 => stop cells
    cells 3; 'é' + 'e' => 'ée' | 3 cells
    cells 2; 'é' + 'e' => stop cells

    Sequences are joined.
    [1, 2] + [3] => [1, 2, 3] | 4 cells
    [] + [3] => [3] | 2 cells
    [3] + [] => [3] | 2 cells
    [] + [] => [] | 1 cells
    (1, 2) + (3) => (1, 2, 3) | 4 cells
    () + (3) => (3) | 2 cells
    (3) + () => (3) | 2 cells
    () + () => () | 1 cells

    Sequences are repeated.
    [1, 2] * 2 => [1, 2, 1, 2] | 5 cells
    [1, 2] * True => [1, 2] | 3 cells
    [1] * 0 => [] | 1 cells
    [1] * -1 => [] | 1 cells
    [] * 1152921504606846976 => [] | 1 cells
    3 * [1] => [1, 1, 1] | 4 cells
    (1, 2) * 2 => (1, 2, 1, 2) | 5 cells
    (1, 2) * True => (1, 2) | 3 cells
    (1) * 0 => () | 1 cells
    (1) * -1 => () | 1 cells
    () * 1152921504606846976 => () | 1 cells
    3 * (1) => (1, 1, 1) | 4 cells

    Sequences cost a cell and one for each element.
    cells 4; [1, 2] + [3] => [1, 2, 3] | 4 cells
    cells 3; [1, 2] + [3] => stop cells
    cells 7; [1, 2] * 3 => [1, 2, 1, 2, 1, 2] | 7 cells
    cells 6; [1, 2] * 3 => stop cells
    cells 1; [1, 2] * 0 => [] | 1 cells
    cells 0; [1, 2] * 0 => stop cells
    cells 18446744073709551613; [1, 2] * 9223372036854775807 => stop cells
    cells 18446744073709551615; [1, 2, 3] * 9223372036854775807 => stop cells
    cells 1; [] * 1000000000000000000 => [] | 1 cells

    What no memory holds is not made. The cells are within the limit, and what they are for is larger than any memory.
    cells 18446744073709551614; 'é' * 9223372036854775807 => no memory | 18446744073709551614 cells
    cells 18446744073709551615; [1, 2] * 9223372036854775807 => no memory | 18446744073709551615 cells

    Sequences take no other sequences.
    [1] + (1,) => TypeError: operand
    [1] * [1] => TypeError: operand
    [1] * (1,) => TypeError: operand
    [1] - [1] => TypeError: operand
    [1] | [1] => TypeError: operand

    Sequences take no other rocks.
    [1] + 1 => TypeError: operand
    [1] * None => TypeError: operand
    [1] | True => TypeError: operand
    [1] * 'a' => TypeError: operand

    Rocks take no other rocks.
    'a' * 'a' => TypeError: operand
    'a' + 1 => TypeError: operand
    'a' // 0 => TypeError: operand
    'a' << -1 => TypeError: operand
    1 + KeyError => TypeError: operand
    len ** None => TypeError: operand

    Elements of a lent list are lent. The new list is of the side that runs.
    x = []; y = ~[x]; side 2; z = y + y; z; owner z => [~x, ~x]; 2 | 3 cells
    x = []; y = [x]; side 2; z = y + y; z; owner z => [x, x]; 2 | 3 cells
    x = []; y = ~[x]; side 2; z = y * 2; z; owner z => [~x, ~x]; 2 | 3 cells
    x = []; y = [x]; side 2; z = y * 2; z; owner z; owner y => [x, x]; 2; 1 | 3 cells

    Rocks count as true but for nothing.
    truth 0 => False
    truth 1 => True
    truth -1 => True
    truth -9223372036854775808 => True
    truth None => False
    truth False => False
    truth True => True
    truth '' => False
    truth '0' => True
    truth KeyError => True
    truth KeyError('') => True
    truth len => True

    Objects count as true but for empty ones.
    x = []; truth x; truth ~x => False; False
    x = [0]; truth x; truth ~x => True; True
    x = (); truth x; truth ~x => False; False
    x = (0,); truth x; truth ~x => True; True
    x = {}; truth x; truth ~x => False; False
    x = {None: None}; truth x; truth ~x => True; True
    x = bound(None, append); truth x; truth ~x => True; True
    x = class C {}; truth x; truth ~x => True; True
    x = lambda(); truth x; truth ~x => True; True
    c = class C {}; x = c {}; truth x; truth ~x => True; True
";

#[test]
fn texts_lists_and_tuples_are_operated_on(rt: HostRuntime) -> Result<(), Fail> {
    all_answer(rt.alloc(), CASES)?;
    Ok(())
}
