//! Walking, and augmented assignment.

use crate::answers::all_answer;
use std::test::Fail;

const CASES: &str = "
    Lists are extended in place.
    x = [1, 2]; y = x += [3, 4, 5]; same x y; x => True; [1, 2, 3, 4, 5] | 3 cells | 3 steps
    x = [1]; y = x += []; same x y; x => True; [1]
    x = []; y = x += [1]; same x y; x => True; [1] | 1 cells | 1 steps
    x = [1, 2]; y = x += (3, 4, 5); same x y; x => True; [1, 2, 3, 4, 5] | 3 cells | 3 steps
    x = [1]; y = x += (); same x y; x => True; [1]
    x = []; y = x += (1); same x y; x => True; [1] | 1 cells | 1 steps
    x = [1, 2]; y = x += x; same x y; x => True; [1, 2, 1, 2] | 2 cells | 2 steps
    x = []; y = x += x; same x y; x => True; []

    Growths end by steps and cells.
    cells 5; steps 2; x = [1, 2]; x += 'né'; x => [1, 2, 'n', 'é']; [1, 2, 'n', 'é'] | 5 cells | 2 steps
    cells 9; steps 1; x = [1, 2]; x += 'né'; x => stop steps; [1, 2] | 1 cells | 1 steps
    cells 4; steps 9; x = [1, 2]; x += 'né'; x => stop cells; [1, 2] | 3 cells | 2 steps
    cells 2; steps 9; x = [1, 2]; x += 'né'; x => stop cells; [1, 2] | 1 cells | 2 steps
    cells 0; steps 1; x = [1, 2]; x += 'né'; x => stop cells; [1, 2] | 1 steps
    cells 0; steps 0; x = [1, 2]; x += 'né'; x => stop steps; [1, 2]
    cells 0; steps 0; x = [1, 2]; x += ''; x => [1, 2]; [1, 2]

    Lists are repeated in place.
    cells 4; steps 0; x = [1, 2]; x *= 3; x => [1, 2, 1, 2, 1, 2]; [1, 2, 1, 2, 1, 2] | 4 cells
    cells 3; steps 0; x = [1, 2]; x *= 3; x => stop cells; [1, 2]
    cells 0; steps 0; x = [1, 2]; x *= 1; x => [1, 2]; [1, 2]
    cells 0; steps 0; x = [1, 2]; x *= 0; x => []; []
    cells 0; steps 0; x = [1, 2]; x *= -1; x => []; []
    cells 0; steps 0; x = [1, 2]; x *= -9223372036854775808; x => []; []
    cells 9; steps 0; x = [1, 2]; x *= 4611686018427387904; x => stop cells; [1, 2]
    cells 0; steps 0; x = [1, 2]; x *= True; x => [1, 2]; [1, 2]
    x = [1, 2]; y = x *= 3; same x y; x => True; [1, 2, 1, 2, 1, 2] | 4 cells
    x = []; y = x *= 3; same x y; x => True; []

    A list stays where no memory holds its copies. The cells are within the limit, and the copies larger than any \
        memory.
    cells 18446744073709551615; x = [1, 2]; x *= 9223372036854775807; x \
        => no memory; [1, 2] | 18446744073709551612 cells

    Lists take no other operands in place.
    x = [1, 2]; x += 5; x => TypeError: iterate; [1, 2]
    x = [1, 2]; x += None; x => TypeError: iterate; [1, 2]
    x = [1, 2]; x *= 'a'; x => TypeError: operand; [1, 2]
    x = [1, 2]; x *= None; x => TypeError: operand; [1, 2]
    x = [1, 2]; x -= 1; x => TypeError: operand; [1, 2]

    A tuple stays.
    x = (1,); y = x += (2,); same x y; x; y => False; (1); (1, 2) | 3 cells
    x = (1,); y = x += (); same x y; x; y => False; (1); (1) | 2 cells

    Keys are walked as first written.
    x = []; x += {True: None}; x => [True]; [True] | 1 cells | 1 steps
    d = {True: None}; walk d => [True] | 1 steps
    d = {True: None}; walk ~d => [True] | 1 steps
    walk {'b': 1, None: 2, 3: 4} => ['b', None, 3] | 3 steps

    Dicts are not joined.
    d = {True: None}; d | d => TypeError: operand

    Lists and tuples are walked.
    walk [1, 2, 3] => [1, 2, 3] | 3 steps
    walk [] => []
    steps 2; walk [1, 2, 3] => stop steps | 2 steps
    walk (1, 2, 3) => [1, 2, 3] | 3 steps
    walk () => []
    steps 2; walk (1, 2, 3) => stop steps | 2 steps

    No rock but a text is walked.
    walk None => TypeError: iterate
    walk True => TypeError: iterate
    walk 5 => TypeError: iterate
    walk KeyError('a') => TypeError: iterate
    walk KeyError => TypeError: iterate
    walk len => TypeError: iterate

    Code is not walked.
    x = bound(None, append); walk x; walk ~x => TypeError: iterate; TypeError: iterate
    x = class C {}; walk x; walk ~x => TypeError: iterate; TypeError: iterate
    x = lambda(); walk x; walk ~x => TypeError: iterate; TypeError: iterate

    What is walked out of a proxy is lent.
    x = []; walk ~[x] => [~x] | 1 steps
    x = []; walk [x] => [x] | 1 steps
    x = []; walk ~(x, 1) => [~x, 1] | 2 steps

    A walk goes on over what grows. As CPython walks: a list to its present end, and a dict that changed its size \
        raises.
    x = [1, 2]; live x x 3 => [1, 2, 3] | 1 cells | 3 steps
    x = [1, 2]; live ~x x 3 => [1, 2, 3] | 1 cells | 3 steps
    x = []; live x x 1 => [1] | 1 cells | 1 steps
    x = [1, 2]; y = []; live (1, 2) y x; y => [1, 2]; [x] | 1 cells | 2 steps
    y = []; live 'né' y 1 => ['n', 'é'] | 4 cells | 2 steps
    y = []; d = {1: 2, 'a': 3}; live d y 1 => [1, 'a'] | 1 cells | 2 steps
    d = {1: 2, 7: 3}; live d d 1; d => [1, 7]; {1: 2, 7: 1} | 2 steps
    d = {1: 2, 3: 4}; live d d 1; d => RuntimeError: dict size; {1: 2, 3: 4, 7: 1} | 1 cells | 1 steps
    d = {1: 2}; live d d 1 => RuntimeError: dict size | 1 cells | 1 steps
    y = []; live 5 y 1; y => TypeError: iterate; []

    Texts are walked by characters.
    walk 'né' => ['n', 'é'] | 3 cells | 2 steps
    walk '😀e' => ['😀', 'e'] | 5 cells | 2 steps
    cells 2; walk 'né' => stop cells | 1 cells | 2 steps
    steps 1; walk 'né' => stop steps | 1 cells | 1 steps
";

#[test]
fn values_are_walked_and_grow_in_place(rt: HostRuntime) -> Result<(), Fail> {
    all_answer(rt.alloc(), CASES)?;
    Ok(())
}
