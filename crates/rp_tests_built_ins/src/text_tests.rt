//! Methods of texts. `bench/built_in_cases.py` has each case.

use crate::answers::others;
use std::test::Fail;

const TEXT_JOINS: &str = r#"
    Texts are joined, split and stripped.
    ', '.join([]) => '' ‖ ', '.join(['a']) => 'a' ‖ ', '.join(['a', 'b']) => 'a, b' ‖ ''.join(['a', 'b', 'c']) => 'abc'
    '-'.join('abc') => 'a-b-c' ‖ '-'.join(('a', 'b')) => 'a-b' ‖ '-'.join({'a': 1, 'b': 2}) => 'a-b'
    '-'.join(['', '']) => '-' ‖ 'é'.join(['ä', 'ö']) => 'äéö' ‖ ''.join('') => '' ‖ '-'.join(lent(['a', 'b'])) => 'a-b'
    ''.join([1]) => TypeError: argument ‖ ''.join(['a', 1]) => TypeError: argument
    ''.join([None]) => TypeError: argument ‖ ''.join([['a']]) => TypeError: argument
    ''.join({1: 'a'}) => TypeError: argument ‖ ''.join([KeyError]) => TypeError: argument
    ''.join(5) => TypeError: iterate ‖ ''.join(None) => TypeError: iterate ‖ ''.join(True) => TypeError: iterate
    ''.join(thing()) => TypeError: iterate ‖ ''.join() => TypeError: arguments ‖ ''.join([], []) => TypeError: arguments
    ''.split('a', 1, 2) => TypeError: arguments ‖ ''.split() => [] ‖ ' '.split() => [] ‖ 'a'.split() => ['a']
    'a b'.split() => ['a', 'b'] ‖ ' a\t b\n\r '.split() => ['a', 'b']
    'a\u2003b\u3000c\x85d'.split() => ['a', 'b', 'c', 'd'] ‖ len('a\u200bb'.split()) => 1
    'a,b'.split(',') => ['a', 'b'] ‖ ',a,,b,'.split(',') => ['', 'a', '', 'b', ''] ‖ ''.split(',') => ['']
    'abc'.split('abc') => ['', ''] ‖ 'a'.split('ab') => ['a'] ‖ 'aXXbXX'.split('XX') => ['a', 'b', '']
    'aaa'.split('aa') => ['', 'a'] ‖ 'äöä'.split('ö') => ['ä', 'ä'] ‖ 'a b'.split(' ') => ['a', 'b']
    '  '.split(' ') => ['', '', ''] ‖ 'a'.split('') => ValueError: empty ‖ ''.split('') => ValueError: empty
    'a'.split(5) => TypeError: argument ‖ 'a'.split([]) => TypeError: argument ‖ 'a'.split(True) => TypeError: argument
    'a'.split(lent([])) => TypeError: argument ‖ ''.strip() => '' ‖ ' '.strip() => '' ‖ ' a '.strip() => 'a'
    'a b'.strip() => 'a b' ‖ '\t\n\r\x0b\x0c a \u2003\u3000\x85\xa0'.strip() => 'a' ‖ len('\u200ba'.strip()) => 2
    'äb'.strip() => 'äb'
    By our own rules, or with what they cost.
    'a'.split(None) => TypeError: argument ‖ 'a b'.split(' ', 1) => TypeError: arguments
    'a'.strip('a') => TypeError: arguments ‖ '\x1ca\x1f'.strip() => '\x1ca\x1f' ‖ 'a\x1cb'.split() => ['a\x1cb']
    ','.join(['a', 'b']) => 'a,b' | rock | 2 steps | 3 cells ‖ ','.join([]) => '' | 0 steps | 0 cells
    'é'.join(['a', 'b', 'c']) => 'aébéc' | 3 steps | 7 cells ‖ ''.join('aé') => 'aé' | 2 steps | 6 cells
    ''.join(['a', 1, 'b']) => TypeError: argument | 3 steps | 0 cells
    ''.join(5) => TypeError: iterate | 0 steps | 0 cells ‖ ''.split() => [] | ours | 0 steps | 1 cells
    'ab c'.split() => ['ab', 'c'] | ours | 0 steps | 6 cells ‖ 'é,,b'.split(',') => ['é', '', 'b'] | 0 steps | 7 cells
    ' é '.strip() => 'é' | rock | 0 steps | 2 cells ‖ 'a'.strip() => 'a' | 0 steps | 1 cells
"#;

#[test]
fn texts_are_joined_and_split(rt: HostRuntime) -> Result<(), Fail> {
    let found = others(rt.alloc(), TEXT_JOINS)?;
    assert_eq!(rt; found.as_str(), "");
    Ok(())
}

const TEXT_SEARCHES: &str = r#"
    Parts of texts are searched for, counted and replaced.
    'abc'.startswith('ab') => True ‖ 'abc'.startswith('b') => False ‖ 'abc'.startswith('') => True
    ''.startswith('') => True ‖ ''.startswith('a') => False ‖ 'äb'.startswith('ä') => True
    'abc'.startswith('abcd') => False ‖ 'abc'.endswith('bc') => True ‖ 'abc'.endswith('b') => False
    'abc'.endswith('') => True ‖ ''.endswith('') => True ‖ 'bä'.endswith('ä') => True ‖ 'c'.endswith('bc') => False
    'abc'.find('b') => 1 ‖ 'abc'.find('bc') => 1 ‖ 'abc'.find('d') => -1 ‖ 'abc'.find('') => 0 ‖ ''.find('') => 0
    ''.find('a') => -1 ‖ 'äb'.find('b') => 1 ‖ '😀é'.find('é') => 1 ‖ 'aab'.find('ab') => 1 ‖ 'abab'.find('ab') => 0
    'banana'.count('an') => 2 ‖ 'aaa'.count('aa') => 1 ‖ 'abc'.count('d') => 0 ‖ ''.count('a') => 0
    'äbä'.count('ä') => 2 ‖ 'abc'.count('abc') => 1 ‖ 'aXa'.replace('a', 'bb') => 'bbXbb'
    'aaa'.replace('aa', 'b') => 'ba' ‖ 'abc'.replace('d', 'x') => 'abc' ‖ 'abc'.replace('b', '') => 'ac'
    ''.replace('a', 'b') => '' ‖ 'äbä'.replace('ä', 'é') => 'ébé' ‖ 'ab'.replace('ab', 'ab') => 'ab'
    '123'.isdigit() => True ‖ ''.isdigit() => False ‖ '1a'.isdigit() => False ‖ '-1'.isdigit() => False
    ' 1'.isdigit() => False ‖ '0'.isdigit() => True ‖ 'ä'.isdigit() => False ‖ 'a'.startswith(5) => TypeError: argument
    'a'.startswith(None) => TypeError: argument ‖ 'a'.startswith(['a']) => TypeError: argument
    'a'.endswith(5) => TypeError: argument ‖ 'a'.endswith(lent(['a'])) => TypeError: argument
    'a'.find(5) => TypeError: argument ‖ 'a'.find(None) => TypeError: argument ‖ 'a'.find(['a']) => TypeError: argument
    'a'.count(5) => TypeError: argument ‖ 'a'.count(None) => TypeError: argument
    'a'.replace(1, 'a') => TypeError: argument ‖ 'a'.replace('a', 1) => TypeError: argument
    'a'.replace('', None) => TypeError: argument ‖ 'a'.replace(None, None) => TypeError: argument
    'a'.startswith() => TypeError: arguments ‖ 'a'.endswith() => TypeError: arguments
    'a'.find() => TypeError: arguments ‖ 'a'.count() => TypeError: arguments ‖ 'a'.replace() => TypeError: arguments
    'a'.replace('a') => TypeError: arguments ‖ '1'.isdigit(1) => TypeError: arguments
    'a'.replace('a', 'b', 1, 2) => TypeError: arguments
    By our own rules, or with what they cost.
    'a'.startswith(('a', 'b')) => TypeError: argument ‖ 'a'.endswith(('a', 'b')) => TypeError: argument
    'a'.startswith('a', 0) => TypeError: arguments ‖ 'a'.endswith('a', 0) => TypeError: arguments
    'a'.find('a', 0) => TypeError: arguments ‖ 'a'.count('a', 0) => TypeError: arguments
    'aa'.replace('a', 'b', 1) => TypeError: arguments ‖ 'a'.count('') => ValueError: empty
    ''.count('') => ValueError: empty ‖ 'a'.replace('', 'b') => ValueError: empty
    ''.replace('', 'b') => ValueError: empty ‖ '²'.isdigit() => False ‖ '٣'.isdigit() => False
    'abc'.startswith('ab') => True | rock | 0 steps | 0 cells ‖ 'abc'.endswith('c') => True | 0 steps | 0 cells
    'abc'.find('c') => 2 | rock | 0 steps | 0 cells ‖ 'abc'.count('c') => 1 | 0 steps | 0 cells
    '12'.isdigit() => True | 0 steps | 0 cells ‖ 'aXa'.replace('a', 'éé') => 'ééXéé' | rock | 0 steps | 9 cells
    'abc'.replace('d', 'x') => 'abc' | 0 steps | 3 cells ‖ 'a'.replace('a', '') => '' | 0 steps | 0 cells
"#;

#[test]
fn texts_are_searched(rt: HostRuntime) -> Result<(), Fail> {
    let found = others(rt.alloc(), TEXT_SEARCHES)?;
    assert_eq!(rt; found.as_str(), "");
    Ok(())
}
