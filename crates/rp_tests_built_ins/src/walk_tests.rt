//! Built-in functions that make lists of what is walked or counted. `bench/built_in_cases.py` has each case.

use crate::answers::others;
use std::test::Fail;

const RANGES: &str = r#"
    Ranges are lists of numbers.
    range(3) => [0, 1, 2] ‖ range(0) => [] ‖ range(-3) => [] ‖ range(1, 4) => [1, 2, 3] ‖ range(4, 1) => []
    range(1, 1) => [] ‖ range(-2, 2) => [-2, -1, 0, 1] ‖ range(0, 10, 3) => [0, 3, 6, 9] ‖ range(0, 9, 3) => [0, 3, 6]
    range(10, 0, -3) => [10, 7, 4, 1] ‖ range(9, 0, -3) => [9, 6, 3] ‖ range(0, 10, -1) => [] ‖ range(10, 0, 1) => []
    range(True) => [0] ‖ range(False, True) => [0] ‖ range(0, 3, True) => [0, 1, 2] ‖ range(-3, 3, 2) => [-3, -1, 1]
    range(9223372036854775806, 9223372036854775807) => [9223372036854775806]
    range(9223372036854775800, 9223372036854775807, 5) => [9223372036854775800, 9223372036854775805]
    range(9223372036854775806, 9223372036854775807, 9223372036854775807) => [9223372036854775806]
    range(lowest, -9223372036854775806) => [-9223372036854775808, -9223372036854775807]
    range(0, lowest, lowest) => [0] ‖ range(9223372036854775807, lowest, lowest) => [9223372036854775807, -1]
    range(lowest, 9223372036854775807, 9223372036854775807) => [-9223372036854775808, -1, 9223372036854775806]
    range(-1, lowest, lowest) => [-1] ‖ range(1, 0, lowest) => [1] ‖ range(0, 1, 9223372036854775807) => [0]
    range(1, 2, 0) => ValueError: range ‖ range(0, 0, 0) => ValueError: range ‖ range(1, 2, False) => ValueError: range
    range('a') => TypeError: argument ‖ range(None) => TypeError: argument ‖ range([]) => TypeError: argument
    range(1, 'a') => TypeError: argument ‖ range('a', 1) => TypeError: argument
    range(1, 2, 'a') => TypeError: argument ‖ range(1, 2, None) => TypeError: argument
    range('a', 2, 0) => TypeError: argument ‖ range(lent([1])) => TypeError: argument
    range(KeyError) => TypeError: argument ‖ range(thing()) => TypeError: argument ‖ range() => TypeError: arguments
    range(1, 2, 3, 4) => TypeError: arguments
    By our own rules, or with what they cost.
    range(0) => [] | ours | 0 steps | 1 cells ‖ range(3) => [0, 1, 2] | ours | 0 steps | 4 cells
    range(0, 10, 3) => [0, 3, 6, 9] | 0 steps | 5 cells ‖ range(10, 0, -4) => [10, 6, 2] | 0 steps | 4 cells
    range(1, 2, 0) => ValueError: range | 0 steps | 0 cells ‖ cells 1000; range(1000) => stop cells
    cells 1000; len(range(999)) => 999 ‖ range(9223372036854775807) => stop cells
    range(lowest, 9223372036854775807) => stop cells ‖ range(9223372036854775807, lowest, -1) => stop cells
"#;

#[test]
fn ranges_are_lists(rt: HostRuntime) -> Result<(), Fail> {
    let found = others(rt.alloc(), RANGES)?;
    assert_eq!(rt; found.as_str(), "");
    Ok(())
}

const SORTED: &str = r#"
    Sorted lists, of all numbers or all texts.
    sorted([]) => [] ‖ sorted(()) => [] ‖ sorted('') => [] ‖ sorted({}) => [] ‖ sorted([3, 1, 2]) => [1, 2, 3]
    sorted((2, 1)) => [1, 2] ‖ sorted('hello') => ['e', 'h', 'l', 'l', 'o'] ‖ sorted({2: 0, 1: 0}) => [1, 2]
    sorted(['b', 'a', 'B', 'ab', '']) => ['', 'B', 'a', 'ab', 'b'] ‖ sorted([1, True, 0, False]) => [0, False, 1, True]
    sorted([True, 1]) => [True, 1] ‖ sorted([1, True]) => [1, True]
    sorted([2, 1, True, 0, False, 1]) => [0, False, 1, True, 1, 2] ‖ sorted(lent([2, 1])) => [1, 2]
    sorted([lowest, 9223372036854775807, 0, -1]) => [-9223372036854775808, -1, 0, 9223372036854775807]
    sorted(['😀', '\uff5e', 'z', 'é']) => ['z', 'é', '～', '😀'] ‖ sorted([5]) => [5]
    sorted([9, 8, 7, 6, 5, 4, 3, 2, 1, 0]) => [0, 1, 2, 3, 4, 5, 6, 7, 8, 9]
    sorted(['10', '9', '1']) => ['1', '10', '9'] ‖ a = [2, 1]; b = sorted(a); a => [2, 1]
    sorted([1, 'a']) => TypeError: argument ‖ sorted(['a', None]) => TypeError: argument
    sorted([None, 1]) => TypeError: argument ‖ sorted([[1], 2]) => TypeError: argument
    sorted({'a': 1, 1: 1}) => TypeError: argument ‖ sorted([KeyError, KeyError]) => TypeError: argument
    sorted(5) => TypeError: iterate ‖ sorted(None) => TypeError: iterate ‖ sorted(True) => TypeError: iterate
    sorted(len) => TypeError: iterate ‖ sorted(thing()) => TypeError: iterate ‖ sorted() => TypeError: arguments
    sorted([], None) => TypeError: arguments
    By our own rules, or with what they cost.
    sorted([None]) => TypeError: argument ‖ sorted([[2], [1]]) => TypeError: argument
    sorted([(1,)]) => TypeError: argument ‖ sorted([]) => [] | ours | 0 steps | 1 cells
    sorted([3, 1, 2]) => [1, 2, 3] | ours | 3 steps | 4 cells ‖ sorted('bé') => ['b', 'é'] | 2 steps | 6 cells
    sorted({'b': 1, 'a': 2}) => ['a', 'b'] | 2 steps | 3 cells
    sorted([1, 'a']) => TypeError: argument | 2 steps | 0 cells ‖ sorted(theirs([1])) => [1] | ours
"#;

#[test]
fn lists_are_sorted(rt: HostRuntime) -> Result<(), Fail> {
    let found = others(rt.alloc(), SORTED)?;
    assert_eq!(rt; found.as_str(), "");
    Ok(())
}

const COUNTED: &str = r#"
    What is walked with its places.
    enumerate([]) => [] ‖ enumerate(['a', 'b']) => [(0, 'a'), (1, 'b')] ‖ enumerate(('a',)) => [(0, 'a')]
    enumerate('ab') => [(0, 'a'), (1, 'b')] ‖ enumerate({'a': 1, 'b': 2}) => [(0, 'a'), (1, 'b')]
    enumerate(lent([[1]])) => [(0, [1])] ‖ enumerate([None, [1]]) => [(0, None), (1, [1])]
    a = [1]; b = a.append(a); enumerate(a) => [(0, 1), (1, [1, [...]])] ‖ enumerate('äb') => [(0, 'ä'), (1, 'b')]
    enumerate(5) => TypeError: iterate ‖ enumerate(None) => TypeError: iterate ‖ enumerate(True) => TypeError: iterate
    enumerate(KeyError) => TypeError: iterate ‖ enumerate(len) => TypeError: iterate
    enumerate(thing()) => TypeError: iterate ‖ enumerate() => TypeError: arguments
    enumerate([], 1, 2) => TypeError: arguments
    By our own rules, or with what they cost.
    enumerate([], 1) => TypeError: arguments ‖ enumerate([]) => [] | ours | 0 steps | 1 cells
    enumerate([7, 8]) => [(0, 7), (1, 8)] | ours | 2 steps | 9 cells
    enumerate('éb') => [(0, 'é'), (1, 'b')] | 2 steps | 12 cells
    a = enumerate(lent([[1]])); a.pop() => (0, [1]) | ours | 1 lent elements
    a = enumerate([[1]]); a.pop() => (0, [1]) | ours | 0 lent elements ‖ enumerate(theirs([1])) => [(0, 1)] | ours
    enumerate(5) => TypeError: iterate | 0 steps | 0 cells
"#;

#[test]
fn elements_are_counted(rt: HostRuntime) -> Result<(), Fail> {
    let found = others(rt.alloc(), COUNTED)?;
    assert_eq!(rt; found.as_str(), "");
    Ok(())
}

const ZIPPED: &str = r#"
    What is walked side by side.
    zip() => [] ‖ zip([]) => [] ‖ zip([1, 2]) => [(1,), (2,)] ‖ zip([1, 2], [3, 4]) => [(1, 3), (2, 4)]
    zip([1, 2, 3], [4]) => [(1, 4)] ‖ zip([4], [1, 2, 3]) => [(4, 1)] ‖ zip([], [1]) => [] ‖ zip([1], []) => []
    zip('ab', [1, 2]) => [('a', 1), ('b', 2)] ‖ zip({'a': 1}, (2,)) => [('a', 2)]
    zip([1, 2], 'ab', (3, 4)) => [(1, 'a', 3), (2, 'b', 4)] ‖ zip([1, 2, 3], 'ab', (3,)) => [(1, 'a', 3)]
    zip(lent([[1]]), [[2]]) => [([1], [2])] ‖ a = [1]; b = a.append(a); zip(a, a) => [(1, 1), ([1, [...]], [1, [...]])]
    zip('', 'a') => [] ‖ zip([1], [2], [3], [4]) => [(1, 2, 3, 4)] ‖ zip(5) => TypeError: iterate
    zip([1], 5) => TypeError: iterate ‖ zip(5, [1]) => TypeError: iterate ‖ zip([], 5) => TypeError: iterate
    zip(None) => TypeError: iterate ‖ zip([], [], thing()) => TypeError: iterate ‖ zip('ab', True) => TypeError: iterate
    zip(len, []) => TypeError: iterate
    By our own rules, or with what they cost.
    zip() => [] | ours | 0 steps | 1 cells ‖ zip([]) => [] | ours | 0 steps | 1 cells
    zip([1, 2], [3, 4]) => [(1, 3), (2, 4)] | ours | 2 steps | 9 cells
    zip([1, 2, 3], 'ab') => [(1, 'a'), (2, 'b')] | 2 steps | 11 cells
    zip('abc', [1]) => [('a', 1)] | 1 steps | 6 cells ‖ zip([1], 'abc') => [(1, 'a')] | 1 steps | 6 cells
    zip('é', 'ab', '') => [] | 0 steps | 1 cells ‖ zip('éa', 'b') => [('é', 'b')] | 1 steps | 8 cells
    zip([1], 5) => TypeError: iterate | 0 steps | 0 cells ‖ zip('ab', 5) => TypeError: iterate | 0 steps | 0 cells
    a = zip(lent([[1]]), [[2]]); a.pop() => ([1], [2]) | ours | 1 lent elements
    steps 1; cells 1; zip('ab', 'cd') => stop cells ‖ steps 1; cells 2; zip('ab', 'cd') => stop steps
    steps 2; cells 12; zip('ab', 'cd') => stop cells ‖ zip('ab', 'cd') => [('a', 'c'), ('b', 'd')] | 2 steps | 13 cells
"#;

#[test]
fn elements_go_side_by_side(rt: HostRuntime) -> Result<(), Fail> {
    let found = others(rt.alloc(), ZIPPED)?;
    assert_eq!(rt; found.as_str(), "");
    Ok(())
}
