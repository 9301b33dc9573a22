//! Calls of built-in functions. `bench/built_in_cases.py` has each case.

use crate::answers::others;
use std::test::Fail;

const LENGTHS: &str = r#"
    Lengths, truth values and texts.
    len([]) => 0 ‖ len([1, 2]) => 2 ‖ len(()) => 0 ‖ len((1,)) => 1 ‖ len({}) => 0 ‖ len({'a': 1, 'b': 2}) => 2
    len('') => 0 ‖ len('abc') => 3 ‖ len('äöü') => 3 ‖ len('😀') => 1 ‖ len(lent([1])) => 1 ‖ len(lent({1: 2})) => 1
    len([[1, 2]]) => 1 ‖ a = [1]; b = a.append(a); len(a) => 2 ‖ len(lent('ab')) => 2 ‖ len(1) => TypeError: len
    len(None) => TypeError: len ‖ len(True) => TypeError: len ‖ len(KeyError('a')) => TypeError: len
    len(KeyError) => TypeError: len ‖ len(len) => TypeError: len ‖ len(thing()) => TypeError: len
    len() => TypeError: arguments ‖ len([], []) => TypeError: arguments ‖ len([], [], []) => TypeError: arguments
    bool(None) => False ‖ bool(True) => True ‖ bool(False) => False ‖ bool(0) => False ‖ bool(1) => True
    bool(-1) => True ‖ bool('') => False ‖ bool('a') => True ‖ bool(' ') => True ‖ bool([]) => False ‖ bool([0]) => True
    bool(()) => False ‖ bool((0,)) => True ‖ bool({}) => False ‖ bool({0: 0}) => True ‖ bool(len) => True
    bool(KeyError) => True ‖ bool(KeyError('')) => True ‖ bool(lent([])) => False ‖ bool(lent([0])) => True
    bool(thing()) => True ‖ bool(1, 2) => TypeError: arguments ‖ str('a') => 'a' ‖ str('') => '' ‖ str(1) => '1'
    str(-5) => '-5' ‖ str(lowest) => '-9223372036854775808' ‖ str(None) => 'None' ‖ str(True) => 'True'
    str([]) => '[]' ‖ str([1, 'a']) => "[1, 'a']" ‖ str((1,)) => '(1,)' ‖ str(()) => '()'
    str({'a': [1], 2: ()}) => "{'a': [1], 2: ()}" ‖ str('it\'s') => "it's" ‖ str(['it\'s']) => '["it\'s"]'
    str(['a"b\'c']) => '[\'a"b\\\'c\']' ‖ str(['\n\t\r\\']) => "['\\n\\t\\r\\\\']"
    str(['\x00\x1f\x7f']) => "['\\x00\\x1f\\x7f']" ‖ str(lent([1])) => '[1]'
    a = [1]; b = a.append(a); str(a) => '[1, [...]]' ‖ a = [1]; b = (a, 2); c = a.append(b); str(b) => '([1, (...)], 2)'
    str(ValueError('a')) => 'a' ‖ str(ValueError()) => '' ‖ str(KeyError) => "<class 'KeyError'>"
    str([ValueError('a'), KeyError()]) => "[ValueError('a'), KeyError()]" ‖ str(1, 2) => TypeError: arguments
    By our own rules, or with what they cost.
    bool() => TypeError: arguments ‖ str() => TypeError: arguments ‖ str(KeyError('a')) => 'a'
    str(len) => '<function len>' ‖ str(removeSecurityProxy) => '<function removeSecurityProxy>'
    str(thing()) => '<thing object>' ‖ len(str(['\x80\u200b'])) => 6 ‖ len([1, 2]) => 2 | rock | 0 steps | 0 cells
    bool([1, 2]) => True | 0 steps | 0 cells ‖ str('abc') => 'abc' | 0 steps | 0 cells
    str(12) => '12' | 0 steps | 2 cells ‖ str(None) => 'None' | 0 steps | 4 cells
    str(ValueError('äb')) => 'äb' | 0 steps | 3 cells ‖ str([]) => '[]' | 0 steps | 2 cells
    str([1, 'a']) => "[1, 'a']" | 2 steps | 8 cells ‖ str([[1], ()]) => '[[1], ()]' | 3 steps | 9 cells
    str({'a': 1}) => "{'a': 1}" | 1 steps | 8 cells ‖ steps 1; cells 0; str([1]) => stop cells
    steps 0; cells 1; str([1]) => stop steps ‖ steps 1; cells 3; str([1, 2]) => stop cells
    steps 1; cells 4; str([1, 2]) => stop steps
"#;

#[test]
fn lengths_truth_and_texts(rt: HostRuntime) -> Result<(), Fail> {
    let found = others(rt.alloc(), LENGTHS)?;
    assert_eq!(rt; found.as_str(), "");
    Ok(())
}

const NUMBERS: &str = r#"
    Numbers of texts, and absolute values.
    int(5) => 5 ‖ int(-5) => -5 ‖ int(True) => 1 ‖ int(False) => 0 ‖ int('5') => 5 ‖ int('-5') => -5 ‖ int('+5') => 5
    int('007') => 7 ‖ int('0') => 0 ‖ int('-0') => 0 ‖ int('+00') => 0
    int('9223372036854775807') => 9223372036854775807 ‖ int('-9223372036854775808') => -9223372036854775808
    int('00000000000000000000000000005') => 5 ‖ int('-0000000000000000000000000005') => -5 ‖ int('') => ValueError: int
    int('-') => ValueError: int ‖ int('+') => ValueError: int ‖ int('+-5') => ValueError: int
    int('--5') => ValueError: int ‖ int('a') => ValueError: int ‖ int('1a') => ValueError: int
    int('a1') => ValueError: int ‖ int('0x10') => ValueError: int ‖ int('1.5') => ValueError: int
    int('1 2') => ValueError: int ‖ int('5-') => ValueError: int ‖ int('1e3') => ValueError: int
    int('²') => ValueError: int ‖ int('99999999999999999999x') => ValueError: int ‖ int('\x00') => ValueError: int
    int(None) => TypeError: argument ‖ int([]) => TypeError: argument ‖ int((1,)) => TypeError: argument
    int({}) => TypeError: argument ‖ int(lent([5])) => TypeError: argument ‖ int(KeyError) => TypeError: argument
    int(KeyError('5')) => TypeError: argument ‖ int(len) => TypeError: argument ‖ int(thing()) => TypeError: argument
    abs(5) => 5 ‖ abs(-5) => 5 ‖ abs(0) => 0 ‖ abs(True) => 1 ‖ abs(False) => 0
    abs(9223372036854775807) => 9223372036854775807 ‖ abs(-9223372036854775807) => 9223372036854775807
    abs('5') => TypeError: argument ‖ abs('-5') => TypeError: argument ‖ abs(None) => TypeError: argument
    abs([]) => TypeError: argument ‖ abs((1,)) => TypeError: argument ‖ abs({}) => TypeError: argument
    abs(lent([1])) => TypeError: argument ‖ abs(KeyError) => TypeError: argument ‖ abs(thing()) => TypeError: argument
    abs() => TypeError: arguments ‖ abs(1, 2) => TypeError: arguments ‖ int('5', 10, 1) => TypeError: arguments
    By our own rules, or with what they cost.
    int() => TypeError: arguments ‖ int('5', 10) => TypeError: arguments ‖ int(' 5') => ValueError: int
    int('5 ') => ValueError: int ‖ int('5\n') => ValueError: int ‖ int('1_000') => ValueError: int
    int('٣') => ValueError: int ‖ int('５') => ValueError: int ‖ int('9223372036854775808') => OverflowError: int
    int('-9223372036854775809') => OverflowError: int ‖ int('18446744073709551616') => OverflowError: int
    int('-18446744073709551617') => OverflowError: int
    int('99999999999999999999999999999999999999') => OverflowError: int
    int('-99999999999999999999999999999999999999') => OverflowError: int ‖ abs(lowest) => OverflowError: int
    int('-12') => -12 | rock | 0 steps | 0 cells ‖ abs(-12) => 12 | rock | 0 steps | 0 cells
"#;

#[test]
fn numbers_are_spelled(rt: HostRuntime) -> Result<(), Fail> {
    let found = others(rt.alloc(), NUMBERS)?;
    assert_eq!(rt; found.as_str(), "");
    Ok(())
}

const SUMS: &str = r#"
    Sums are of walked numbers.
    sum([]) => 0 ‖ sum(()) => 0 ‖ sum({}) => 0 ‖ sum('') => 0 ‖ sum([1, 2, 3]) => 6 ‖ sum((1, 2)) => 3
    sum({1: 'a', 2: 'b'}) => 3 ‖ sum([True, True, False]) => 2 ‖ sum({True: 5}) => 1 ‖ sum(lent([1, 2])) => 3
    sum(lent({3: 4})) => 3 ‖ sum([-1, 1]) => 0 ‖ sum([lowest, 9223372036854775807]) => -1
    sum([9223372036854775807, -1, 1]) => 9223372036854775807 ‖ sum([lowest, 1, -1]) => -9223372036854775808
    sum(['a']) => TypeError: argument ‖ sum([1, 'a']) => TypeError: argument ‖ sum('ab') => TypeError: argument
    sum([None]) => TypeError: argument ‖ sum([[1]]) => TypeError: argument ‖ sum([(1,)]) => TypeError: argument
    sum({'a': 1}) => TypeError: argument ‖ sum([KeyError]) => TypeError: argument
    sum(lent([[1]])) => TypeError: argument ‖ sum([9223372036854775807, 'a']) => TypeError: argument
    sum(5) => TypeError: iterate ‖ sum(None) => TypeError: iterate ‖ sum(True) => TypeError: iterate
    sum(len) => TypeError: iterate ‖ sum(KeyError) => TypeError: iterate ‖ sum(KeyError('a')) => TypeError: iterate
    sum(thing()) => TypeError: iterate ‖ sum() => TypeError: arguments ‖ sum([1], 2, 3) => TypeError: arguments
    By our own rules, or with what they cost.
    sum([1], 2) => TypeError: arguments ‖ sum([9223372036854775807, 1]) => OverflowError: int
    sum([lowest, -1]) => OverflowError: int ‖ sum([9223372036854775807, 1, -1]) => OverflowError: int
    sum([9223372036854775807, True, lowest]) => OverflowError: int
    sum([9223372036854775807, 1, 'a']) => TypeError: argument ‖ sum([1, 2, 3]) => 6 | rock | 3 steps | 0 cells
    sum([1, 'a', 3]) => TypeError: argument | 3 steps | 0 cells ‖ sum('äb') => TypeError: argument | 2 steps | 3 cells
    sum(5) => TypeError: iterate | 0 steps | 0 cells ‖ steps 1; cells 0; sum('ab') => stop cells
    steps 0; cells 0; sum('ab') => stop steps ‖ steps 2; sum([1, 'a', 3]) => stop steps
"#;

#[test]
fn numbers_are_added(rt: HostRuntime) -> Result<(), Fail> {
    let found = others(rt.alloc(), SUMS)?;
    assert_eq!(rt; found.as_str(), "");
    Ok(())
}

const EXTREMES: &str = r#"
    The least and the greatest, of one walked argument or of several.
    min([3, 1, 2]) => 1 ‖ max([3, 1, 2]) => 3 ‖ min((3, 1)) => 1 ‖ max((3, 1)) => 3 ‖ min({2: 0, 1: 0}) => 1
    max({'a': 0, 'b': 0}) => 'b' ‖ min('hello') => 'e' ‖ max('hello') => 'o' ‖ min(3, 1, 2) => 1 ‖ max(3, 1, 2) => 3
    min('b', 'a') => 'a' ‖ max('b', 'a', 'ab') => 'b' ‖ min('a', 'B') => 'B' ‖ max('', 'a') => 'a' ‖ min(-1, 0) => -1
    min([5]) => 5 ‖ max('a') => 'a' ‖ min(1, True) => 1 ‖ min(True, 1) => True ‖ max(1, True) => 1
    max(True, 1) => True ‖ min([False, 0]) => False ‖ max([0, False, -1]) => 0 ‖ min(0, False, True) => 0
    min(lent([2, 1])) => 1 ‖ max(lent((2, 1))) => 2 ‖ min(lowest, 9223372036854775807) => -9223372036854775808
    max(lowest, 9223372036854775807) => 9223372036854775807 ‖ min('é', 'z') => 'z' ‖ max('😀', '\uff5e') => '😀'
    min('😀', '\uff5e') => '～' ‖ max('a', 'aa') => 'aa' ‖ max(['1', '10', '9']) => '9' ‖ min([]) => ValueError: empty
    max([]) => ValueError: empty ‖ min('') => ValueError: empty ‖ max(()) => ValueError: empty
    min({}) => ValueError: empty ‖ max(lent([])) => ValueError: empty ‖ min(5) => TypeError: iterate
    max(None) => TypeError: iterate ‖ min(True) => TypeError: iterate ‖ max(len) => TypeError: iterate
    min(KeyError('a')) => TypeError: iterate ‖ max(thing()) => TypeError: iterate ‖ min([1, 'a']) => TypeError: argument
    max(1, 'a') => TypeError: argument ‖ min('a', 1) => TypeError: argument ‖ max([None, None]) => TypeError: argument
    min([1], 'a') => TypeError: argument ‖ max(1, None) => TypeError: argument
    min(KeyError, KeyError) => TypeError: argument ‖ max({'a': 1, 1: 1}) => TypeError: argument
    min() => TypeError: arguments ‖ max() => TypeError: arguments
    By our own rules, or with what they cost.
    min([None]) => TypeError: argument ‖ max([[1]]) => TypeError: argument ‖ min([1], [2]) => TypeError: argument
    max((1,), (2,)) => TypeError: argument ‖ min(lent([1]), lent([2])) => TypeError: argument
    min([3, 1, 2]) => 1 | rock | 3 steps | 0 cells ‖ max('helloé') => 'é' | rock | 6 steps | 7 cells
    min(3, 1) => 1 | 0 steps | 0 cells ‖ min('abc', 'ab') => 'ab' | 0 steps | 0 cells
    min([]) => ValueError: empty | 0 steps | 0 cells ‖ max([1, 'a', 2]) => TypeError: argument | 3 steps | 0 cells
"#;

#[test]
fn the_least_and_the_greatest_are_found(rt: HostRuntime) -> Result<(), Fail> {
    let found = others(rt.alloc(), EXTREMES)?;
    assert_eq!(rt; found.as_str(), "");
    Ok(())
}

const COPIES: &str = r#"
    Copies as lists, tuples and dicts.
    list() => [] ‖ list([]) => [] ‖ list([1, 2]) => [1, 2] ‖ list((1, 2)) => [1, 2] ‖ list('ab') => ['a', 'b']
    list('äb') => ['ä', 'b'] ‖ list('') => [] ‖ list({'a': 1, 2: 3}) => ['a', 2] ‖ list(lent([[1]])) => [[1]]
    list(lent('ab')) => ['a', 'b'] ‖ a = [1]; b = a.append(a); list(a) => [1, [1, [...]]]
    a = [[1]]; b = list(a); c = b.append(2); a => [[1]]
    list([None, True, KeyError]) => [None, True, <class 'KeyError'>] ‖ tuple() => () ‖ tuple([]) => ()
    tuple([1, 2]) => (1, 2) ‖ tuple((1,)) => (1,) ‖ tuple('ab') => ('a', 'b') ‖ tuple({'a': 1}) => ('a',)
    tuple(lent(([1], 2))) => ([1], 2) ‖ a = [1]; b = a.append(a); tuple(a) => (1, [1, [...]])
    list(5) => TypeError: iterate ‖ list(None) => TypeError: iterate ‖ list(True) => TypeError: iterate
    list(len) => TypeError: iterate ‖ list(KeyError('a')) => TypeError: iterate ‖ list(thing()) => TypeError: iterate
    tuple(5) => TypeError: iterate ‖ tuple(None) => TypeError: iterate ‖ tuple(KeyError) => TypeError: iterate
    tuple(thing()) => TypeError: iterate ‖ list([], []) => TypeError: arguments ‖ tuple((), ()) => TypeError: arguments
    list(1, 2, 3) => TypeError: arguments ‖ dict({}, {}) => TypeError: arguments ‖ dict(1, 2, 3) => TypeError: arguments
    dict() => {} ‖ dict({}) => {} ‖ dict({'b': 1, 'a': 2}) => {'b': 1, 'a': 2}
    dict({True: 1, None: 2, '': 3}) => {True: 1, None: 2, '': 3} ‖ dict(lent({1: [2], 2: 3})) => {1: [2], 2: 3}
    dict(5) => TypeError: argument ‖ dict(None) => TypeError: argument ‖ dict(True) => TypeError: argument
    dict([1]) => TypeError: argument ‖ dict(len) => TypeError: argument ‖ dict(thing()) => TypeError: argument
    By our own rules, or with what they cost.
    dict('') => TypeError: argument ‖ dict('ab') => TypeError: argument ‖ dict([]) => TypeError: argument
    dict([(1, 2)]) => TypeError: argument ‖ dict(lent([])) => TypeError: argument
    list() => [] | ours | 0 steps | 1 cells ‖ list([1, 2]) => [1, 2] | ours | 2 steps | 3 cells
    list('aé') => ['a', 'é'] | 2 steps | 6 cells ‖ list({'a': 1}) => ['a'] | 1 steps | 2 cells
    tuple() => () | ours | 0 steps | 1 cells ‖ tuple((1, 2)) => (1, 2) | ours | 2 steps | 3 cells
    dict() => {} | ours | 0 steps | 1 cells ‖ dict({'a': 1, 'b': 2}) => {'a': 1, 'b': 2} | ours | 0 steps | 3 cells
    list(5) => TypeError: iterate | 0 steps | 0 cells
    list(lent([[1], 2, {}])) => [[1], 2, {}] | ours | 2 lent elements
    list([[1], lent({})]) => [[1], {}] | 1 lent elements ‖ tuple(lent(([1], 2))) => ([1], 2) | ours | 1 lent elements
    dict(lent({1: [2], 2: 3})) => {1: [2], 2: 3} | ours | 1 lent elements
    dict({1: [2], 2: lent([3])}) => {1: [2], 2: [3]} | 1 lent elements ‖ list(theirs([1])) => [1] | ours
    dict(theirs({1: 2})) => {1: 2} | ours ‖ steps 2; cells 2; list([1, 2]) => stop cells
    steps 1; cells 0; list([1, 2]) => stop steps
"#;

#[test]
fn lists_tuples_and_dicts_are_copied(rt: HostRuntime) -> Result<(), Fail> {
    let found = others(rt.alloc(), COPIES)?;
    assert_eq!(rt; found.as_str(), "");
    Ok(())
}

const OTHER_CALLS: &str = r#"
    Methods that are called as functions, and proxies that are taken off.
    By our own rules, or with what they cost.
    append([1], 2) => TypeError: call ‖ isdigit('1') => TypeError: call ‖ join() => TypeError: call
    removeSecurityProxy(1) => 1 | rock | 0 steps | 0 cells ‖ removeSecurityProxy('a') => 'a' | rock | 0 cells
    removeSecurityProxy([1]) => [1] | ours | 0 steps | 0 cells
    removeSecurityProxy(lent([1])) => [1] | ours | 0 steps | 0 cells
    removeSecurityProxy(lent(theirs([1]))) => [1] | theirs ‖ removeSecurityProxy() => TypeError: arguments
    removeSecurityProxy(1, 2) => TypeError: arguments
"#;

#[test]
fn other_calls_are_refused(rt: HostRuntime) -> Result<(), Fail> {
    let found = others(rt.alloc(), OTHER_CALLS)?;
    assert_eq!(rt; found.as_str(), "");
    Ok(())
}

const LINES: &str = r#"
    The line of print.
    print() => '\n' ‖ print('') => '\n' ‖ print('', '') => ' \n' ‖ print('a') => 'a\n'
    print('a', 'b', 'c') => 'a b c\n' ‖ print(1, None, True, -2) => '1 None True -2\n'
    print([1, 'a'], (2,), {}) => "[1, 'a'] (2,) {}\n" ‖ print(['a'], 'b') => "['a'] b\n"
    print(lent([1]), 'ä') => '[1] ä\n' ‖ print('a\nb') => 'a\nb\n'
    print(ValueError('a'), [ValueError('a')]) => "a [ValueError('a')]\n"
    a = [1]; b = a.append(a); print(a) => '[1, [...]]\n' ‖ print(KeyError) => "<class 'KeyError'>\n"
    print('it\'s', ['it\'s']) => 'it\'s ["it\'s"]\n'
    By our own rules, or with what they cost.
    print(KeyError('a')) => 'a\n' ‖ print(thing(), len) => '<thing object> <function len>\n'
    print() => '\n' | 0 steps | 1 cells ‖ print('ab') => 'ab\n' | 0 steps | 3 cells
    print('é', '') => 'é \n' | 0 steps | 4 cells ‖ print([1, 2], 'a') => '[1, 2] a\n' | 2 steps | 9 cells
    print({'a': 1}) => "{'a': 1}\n" | 1 steps | 9 cells ‖ print(10, None) => '10 None\n' | 0 steps | 8 cells
    steps 0; cells 2; print('a', [1]) => stop cells ‖ steps 0; cells 3; print('a', [1]) => stop steps
"#;

#[test]
fn lines_are_printed(rt: HostRuntime) -> Result<(), Fail> {
    let found = others(rt.alloc(), LINES)?;
    assert_eq!(rt; found.as_str(), "");
    Ok(())
}
