//! Steps, cells and exceptions, as operations take and raise them.

use crate::answers::all_answer;
use std::test::Fail;

const CASES: &str = "
    Steps are taken while they are left.
    steps 2; step => done | 1 steps
    steps 0; step => stop steps
    steps 5; take 3 => done | 3 steps
    steps 3; take 3 => done | 3 steps
    steps 2; take 3 => stop steps | 2 steps
    steps 0; take 0 => done

    Cells are used up to the limit.
    cells 5; use 5 => done | 5 cells
    cells 5; use 6 => stop cells
    cells 9; copies 1 2 4 => done | 9 cells
    cells 8; copies 1 2 4 => stop cells
    cells 18446744073709551615; copies 1 2 9223372036854775807 => done | 18446744073709551615 cells
    cells 18446744073709551615; copies 1 2 9223372036854775808 => stop cells

    A new text costs its bytes.
    cells 5; new_text 'né'; used; new_character 'é' => 'né'; 3; 'é' | 5 cells
    cells 2; new_text 'né' => stop cells
    cells 1; new_character 'é' => stop cells

    Each refusal raises its exception.
    refuse Zero => ZeroDivisionError: zero
    refuse Overflow => OverflowError: int
    refuse Power => ValueError: power
    refuse Shift => ValueError: shift
    refuse Operand => TypeError: operand
    refuse Item => TypeError: item
    refuse Index => TypeError: index
    refuse Outside => IndexError: index
    refuse Key => TypeError: key
    refuse Slice => ValueError: slice
    refuse Iterate => TypeError: iterate
    refuse Depth => RecursionError: depth
    refuse Resized => RuntimeError: dict size
    raise KeyError '\\'é\\'' => KeyError: 'é'

    New objects are of the side.
    side 2; x = new_list; owner x; x => 2; [] | 1 cells
    cells 0; new_list => stop cells
    y = [1, 'a']; side 3; x = add_list y; owner x; owner y; x => 3; 1; [1, 'a']
    y = [1, []]; side 3; x = add_tuple y; owner x; owner y; x => 3; 1; (1, [])
    handed []; handed_lent []; handed ~[]; handed_lent 5 => []; ~[]; ~[]; 5

    Operands are seen by their kinds.
    operand 5; operand True; operand 'a'; operand None => number; truth; text; other
    operand [1]; operand ~[1]; operand (1,); operand ~(1,) => list; lent list; tuple; lent tuple
    operand {}; operand KeyError('a'); operand len; operand bound(1, len) => other; other; other; other
";

#[test]
fn steps_cells_and_exceptions_are_counted_and_raised(rt: HostRuntime) -> Result<(), Fail> {
    all_answer(rt.alloc(), CASES)?;
    Ok(())
}
