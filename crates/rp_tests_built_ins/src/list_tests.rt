//! Methods of lists and of tuples. `bench/built_in_cases.py` has each case.

use crate::answers::others;
use std::test::Fail;

const LIST_GROWTHS: &str = r#"
    Lists grow by append, extend and insert.
    [].append(1) => None ‖ a = []; a.append(1); a => [1] ‖ a = [1]; a.append([2]); a => [1, [2]]
    a = [1]; a.append(a); a => [1, [...]] ‖ a = []; a.append(lent([1])); a => [[1]]
    a = [1]; lent(a).append(2); a => [1, 2] ‖ [].append() => TypeError: arguments
    [].append(1, 2) => TypeError: arguments ‖ [].extend() => TypeError: arguments
    [].extend([], []) => TypeError: arguments ‖ [].insert() => TypeError: arguments
    [].insert(0) => TypeError: arguments ‖ [].insert(0, 1, 2) => TypeError: arguments ‖ [].extend([]) => None
    a = [1]; a.extend([2, 3]); a => [1, 2, 3] ‖ a = [1]; a.extend((2,)); a => [1, 2]
    a = [1]; a.extend('äb'); a => [1, 'ä', 'b'] ‖ a = [1]; a.extend({'a': 2, 3: 4}); a => [1, 'a', 3]
    a = [1]; a.extend(a); a => [1, 1] ‖ a = [1]; a.extend([]); a => [1] ‖ a = [1]; a.extend(''); a => [1]
    a = []; a.extend(lent([[1]])); a => [[1]] ‖ a = [1]; a.extend(lent(a)); a => [1, 1]
    [].extend(5) => TypeError: iterate ‖ [].extend(None) => TypeError: iterate ‖ [1].extend(True) => TypeError: iterate
    [].extend(len) => TypeError: iterate ‖ [].extend(KeyError('a')) => TypeError: iterate
    [].extend(thing()) => TypeError: iterate ‖ [].insert(0, 1) => None ‖ a = [1, 2]; a.insert(0, 9); a => [9, 1, 2]
    a = [1, 2]; a.insert(1, 9); a => [1, 9, 2] ‖ a = [1, 2]; a.insert(2, 9); a => [1, 2, 9]
    a = [1, 2]; a.insert(7, 9); a => [1, 2, 9] ‖ a = [1, 2]; a.insert(-1, 9); a => [1, 9, 2]
    a = [1, 2]; a.insert(-2, 9); a => [9, 1, 2] ‖ a = [1, 2]; a.insert(-3, 9); a => [9, 1, 2]
    a = [1, 2]; a.insert(-7, 9); a => [9, 1, 2] ‖ a = [1, 2]; a.insert(True, 9); a => [1, 9, 2]
    a = [1, 2]; a.insert(False, 9); a => [9, 1, 2] ‖ a = [1, 2]; a.insert(9223372036854775807, 9); a => [1, 2, 9]
    a = [1, 2]; a.insert(lowest, 9); a => [9, 1, 2] ‖ a = []; a.insert(-1, 9); a => [9]
    a = [1]; a.insert(0, a); a => [[...], 1] ‖ [].insert('a', 1) => TypeError: argument
    [].insert(None, 1) => TypeError: argument ‖ [].insert([], 1) => TypeError: argument
    [1].insert((0,), 1) => TypeError: argument ‖ [1].insert(lent([]), 1) => TypeError: argument
    By our own rules, or with what they cost.
    [1].append(2) => None | rock | 0 steps | 1 cells ‖ [1].append('abc') => None | 0 steps | 1 cells
    [1].append([2, 3]) => None | 0 steps | 1 cells ‖ [1].extend([2, 3]) => None | rock | 2 steps | 2 cells
    [1].extend([]) => None | 0 steps | 0 cells ‖ [1].extend('aé') => None | 2 steps | 5 cells
    [1].extend({'a': 1}) => None | 1 steps | 1 cells ‖ [1, 2].insert(0, 3) => None | rock | 0 steps | 1 cells
    [1].insert('a', 2) => TypeError: argument | 0 steps | 0 cells ‖ steps 2; cells 1; [].extend([1, 2]) => stop cells
    steps 1; cells 0; [].extend([1, 2]) => stop steps ‖ a = []; a.append(lent([1])); a => [[1]] | 1 lent elements
    a = []; a.append([1]); a => [[1]] | 0 lent elements
    a = []; a.extend(lent([[1], 2])); a => [[1], 2] | 1 lent elements
    a = []; a.insert(0, lent([1])); a => [[1]] | 1 lent elements
"#;

#[test]
fn lists_grow(rt: HostRuntime) -> Result<(), Fail> {
    let found = others(rt.alloc(), LIST_GROWTHS)?;
    assert_eq!(rt; found.as_str(), "");
    Ok(())
}

const LIST_TAKES: &str = r#"
    Elements are taken out of lists, and put in the opposite order.
    [1, 2].pop() => 2 ‖ [1, 2].pop(0) => 1 ‖ [1, 2].pop(1) => 2 ‖ [1, 2].pop(-1) => 2 ‖ [1, 2].pop(-2) => 1
    [1, 2].pop(True) => 2 ‖ [1, 2].pop(False) => 1 ‖ a = [1, 2, 3]; a.pop(); a => [1, 2]
    a = [1, 2, 3]; a.pop(1); a => [1, 3] ‖ a = [1, 2, 3]; a.pop(-3); a => [2, 3] ‖ [[1]].pop() => [1]
    a = [1]; b = a.append(a); a.pop() => [1] ‖ a = [1, 2]; lent(a).pop(0); a => [2] ‖ [].pop() => IndexError: index
    [].pop(0) => IndexError: index ‖ [].pop(-1) => IndexError: index ‖ [1, 2].pop(2) => IndexError: index
    [1, 2].pop(-3) => IndexError: index ‖ [1].pop(9223372036854775807) => IndexError: index
    [1].pop(lowest) => IndexError: index ‖ [1].pop(True) => IndexError: index ‖ [1].pop('a') => TypeError: argument
    [1].pop(None) => TypeError: argument ‖ [1].pop([]) => TypeError: argument ‖ [].pop('a') => TypeError: argument
    [1].pop(lent([0])) => TypeError: argument ‖ [1].pop(0, 1) => TypeError: arguments
    [1].reverse(1) => TypeError: arguments ‖ [1].remove() => TypeError: arguments
    [1].remove(1, 2) => TypeError: arguments ‖ [].reverse() => None ‖ a = []; a.reverse(); a => []
    a = [1]; a.reverse(); a => [1] ‖ a = [1, [2], 'c']; a.reverse(); a => ['c', [2], 1]
    a = [1, 2, 3, 4]; a.reverse(); a => [4, 3, 2, 1] ‖ a = [1]; b = a.append(a); a.reverse(); a => [[...], 1]
    [1].remove(1) => None ‖ a = [1, 2, 1]; a.remove(1); a => [2, 1] ‖ a = [0, 1]; a.remove(True); a => [0]
    a = [True, 1]; a.remove(1); a => [1] ‖ a = [[1], [2]]; a.remove([2]); a => [[1]]
    a = ['a', 'b']; a.remove('b'); a => ['a'] ‖ a = [None]; a.remove(None); a => []
    a = [lent([1])]; a.remove([1]); a => [] ‖ [].remove(1) => ValueError: value ‖ [1].remove(2) => ValueError: value
    ['a'].remove('b') => ValueError: value ‖ [[1]].remove((1,)) => ValueError: value
    [1].remove('1') => ValueError: value ‖ [None].remove(False) => ValueError: value
    By our own rules, or with what they cost.
    [1, 2].pop() => 2 | rock | 0 steps | 0 cells ‖ [1, 2].pop(2) => IndexError: index | 0 steps | 0 cells
    ['abc'].pop() => 'abc' | 0 steps | 0 cells ‖ [[1]].pop() => [1] | ours | 0 steps | 0 cells
    [lent([1])].pop() => [1] | lent ‖ [1, 2].reverse() => None | rock | 0 steps | 0 cells
    [1, 2, 3].remove(1) => None | rock | 1 steps | 0 cells ‖ [1, 2, 3].remove(3) => None | 3 steps | 0 cells
    [1, 2].remove(3) => ValueError: value | 2 steps | 0 cells
    [[1, 2], [1, 3]].remove([1, 3]) => None | 6 steps | 0 cells
    [[1], [1, 3]].remove([1, 3]) => None | 4 steps | 0 cells
    [1].pop(0, 'a') => TypeError: arguments | 0 steps | 0 cells
"#;

#[test]
fn elements_are_taken_out(rt: HostRuntime) -> Result<(), Fail> {
    let found = others(rt.alloc(), LIST_TAKES)?;
    assert_eq!(rt; found.as_str(), "");
    Ok(())
}

const SEARCHES: &str = r#"
    Elements of lists and tuples are searched for.
    [1, 2].index(2) => 1 ‖ [1, 2, 1].index(1) => 0 ‖ [1].index(True) => 0 ‖ [True].index(1) => 0
    ('a', 'b').index('b') => 1 ‖ [[1], [2]].index([2]) => 1 ‖ [(), []].index([]) => 1 ‖ [{1: 2}].index({True: 2}) => 0
    [None].index(None) => 0 ‖ [KeyError].index(KeyError) => 0 ‖ [len].index(len) => 0
    a = [1]; b = a.append(a); a.index(a) => 1 ‖ lent([1, 2]).index(2) => 1 ‖ [lent([1])].index([1]) => 0
    [[1]].index(lent([1])) => 0 ‖ (1, 2).index(2) => 1 ‖ [].index(1) => ValueError: value
    ().index(1) => ValueError: value ‖ [1].index(2) => ValueError: value ‖ (1,).index('1') => ValueError: value
    [[1]].index((1,)) => ValueError: value ‖ ['ab'].index('a') => ValueError: value
    [None].index(0) => ValueError: value ‖ [{1: 2}].index({1: 3}) => ValueError: value
    [1].index() => TypeError: arguments ‖ (1,).index() => TypeError: arguments ‖ [1].count() => TypeError: arguments
    (1,).count() => TypeError: arguments ‖ [1].count(1, 2) => TypeError: arguments
    (1,).count(1, 2) => TypeError: arguments ‖ [].count(1) => 0 ‖ ().count(1) => 0 ‖ [1, True, 1, '1'].count(1) => 3
    [1, 2].count(3) => 0 ‖ ('a', 'b', 'a').count('a') => 2 ‖ [[1], [1], (1,)].count([1]) => 2
    [None, 0, False].count(0) => 2 ‖ [None, 0, False].count(None) => 1 ‖ lent([1, 1]).count(1) => 2
    a = [1]; b = a.append(a); a.count(a) => 1 ‖ ['', ''].count('') => 2 ‖ (lent([1]), [1]).count([1]) => 2
    By our own rules, or with what they cost.
    [1].index(1, 0) => TypeError: arguments ‖ (1,).index(1, 0, 1) => TypeError: arguments
    [KeyError('a')].index(KeyError('a')) => 0 ‖ [KeyError('a')].count(LookupError('a')) => 0
    [1, 2, 3].index(2) => 1 | rock | 2 steps | 0 cells ‖ (1, 2, 3).index(3) => 2 | rock | 3 steps | 0 cells
    [1, 2].index(3) => ValueError: value | 2 steps | 0 cells ‖ [[1, 2], [3]].index([3]) => 1 | 3 steps | 0 cells
    [[1, 2], [1, 3]].index([1, 3]) => 1 | 6 steps | 0 cells ‖ [[2, 2], [1, 3]].index([1, 3]) => 1 | 5 steps | 0 cells
    a = [1]; b = a.append(a); a.index(a) => 1 | 2 steps | 0 cells ‖ [1, 2, 1].count(1) => 2 | rock | 3 steps | 0 cells
    [[1], [1]].count([1]) => 2 | 4 steps | 0 cells ‖ ({1: [2]}, 3).count({1: [2]}) => 1 | 4 steps | 0 cells
    a = [1]; b = a.append(a); c = [1]; d = c.append(c); [a].index(c) => RecursionError: depth
"#;

#[test]
fn elements_are_searched_for(rt: HostRuntime) -> Result<(), Fail> {
    let found = others(rt.alloc(), SEARCHES)?;
    assert_eq!(rt; found.as_str(), "");
    Ok(())
}

const NO_METHODS: &str = r#"
    Methods that the receiver does not have, whatever the arguments.
    By our own rules, or with what they cost.
    (1,).append(2) => TypeError: call ‖ (1,).append() => TypeError: call ‖ ().pop() => TypeError: call
    (1,).reverse() => TypeError: call ‖ [1].keys() => TypeError: call ‖ [1].copy() => TypeError: call
    [1].join('a') => TypeError: call ‖ None.append(1) => TypeError: call ‖ True.count(1) => TypeError: call
    KeyError.index(1) => TypeError: call ‖ KeyError('a').count('a') => TypeError: call
    len.append(1) => TypeError: call ‖ thing().append(1) => TypeError: call
    lent((1,)).append(2) => TypeError: call ‖ [1].len() => TypeError: call ‖ [1].print() => TypeError: call
    (1,).append(2) => TypeError: call | 0 steps | 0 cells
"#;

#[test]
fn other_values_have_no_such_methods(rt: HostRuntime) -> Result<(), Fail> {
    let found = others(rt.alloc(), NO_METHODS)?;
    assert_eq!(rt; found.as_str(), "");
    Ok(())
}
