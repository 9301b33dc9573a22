//! Methods of dicts. `bench/built_in_cases.py` has each case.

use crate::answers::others;
use std::test::Fail;

const DICT_READS: &str = r#"
    Dicts are read, and copied.
    {}.get(1) => None ‖ {1: 2}.get(1) => 2 ‖ {1: 2}.get(True) => 2 ‖ {True: 2}.get(1) => 2 ‖ {'a': 1}.get('a') => 1
    {'a': 1}.get('b') => None ‖ {'a': 1}.get('b', 5) => 5 ‖ {'a': 1}.get('a', 5) => 1 ‖ {None: 1}.get(None) => 1
    {0: 1}.get(False) => 1 ‖ {'1': 1}.get(1) => None ‖ {}.get(1, [2]) => [2] ‖ {1: [2]}.get(1) => [2]
    lent({1: [2]}).get(1) => [2] ‖ {'ä': 1}.get('ä') => 1 ‖ {}.get([]) => TypeError: key
    {1: 2}.get({}) => TypeError: key ‖ {}.get([], 1) => TypeError: key ‖ {1: 2}.get(lent([]), 3) => TypeError: key
    {}.get() => TypeError: arguments ‖ {}.get(1, 2, 3) => TypeError: arguments ‖ {}.keys(1) => TypeError: arguments
    {}.values(1) => TypeError: arguments ‖ {}.items(1) => TypeError: arguments ‖ {}.copy(1) => TypeError: arguments
    {}.keys() => [] ‖ {'a': 1, 2: 3}.keys() => ['a', 2] ‖ {True: 1, None: 2}.keys() => [True, None] ‖ {}.values() => []
    {'a': [1], 2: 3}.values() => [[1], 3] ‖ {}.items() => [] ‖ {'a': 1, 2: [3]}.items() => [('a', 1), (2, [3])]
    lent({1: [2]}).values() => [[2]] ‖ lent({1: [2]}).items() => [(1, [2])]
    a = {1: 2}; b = a.setdefault(3, a); a.values() => [2, {1: 2, 3: {...}}]
    a = {1: 2}; b = a.setdefault('a', a); dict(a) => {1: 2, 'a': {1: 2, 'a': {...}}} ‖ {}.copy() => {}
    {'b': 1, 'a': [2]}.copy() => {'b': 1, 'a': [2]} ‖ a = {1: 2}; b = a.copy(); c = b.setdefault(3, 4); a => {1: 2}
    lent({1: [2]}).copy() => {1: [2]}
    By our own rules, or with what they cost.
    {}.get((1,)) => TypeError: key ‖ {}.get(KeyError) => TypeError: key ‖ {}.get(KeyError('a')) => TypeError: key
    {}.get(len) => TypeError: key ‖ {}.get(thing()) => TypeError: key ‖ {1: 2}.get(1) => 2 | rock | 0 steps | 0 cells
    {1: 'abc'}.get(1) => 'abc' | 0 steps | 0 cells ‖ {}.get(1, 'abc') => 'abc' | 0 steps | 0 cells
    {}.get([]) => TypeError: key | 0 steps | 0 cells ‖ {}.keys() => [] | ours | 0 steps | 1 cells
    {'a': 1, 'b': 2}.keys() => ['a', 'b'] | ours | 0 steps | 3 cells
    {'a': 'x', 'b': 2}.values() => ['x', 2] | ours | 0 steps | 3 cells ‖ {}.items() => [] | ours | 0 steps | 1 cells
    {'a': 1, 'b': 2}.items() => [('a', 1), ('b', 2)] | ours | 0 steps | 9 cells
    {'a': 1, 'b': [2]}.copy() => {'a': 1, 'b': [2]} | ours | 0 steps | 3 cells | 0 lent elements
    theirs({1: 2}).keys() => [1] | theirs ‖ theirs({1: 2}).values() => [2] | theirs
    theirs({1: 2}).items() => [(1, 2)] | theirs ‖ theirs({1: 2}).copy() => {1: 2} | theirs
"#;

#[test]
fn dicts_are_read(rt: HostRuntime) -> Result<(), Fail> {
    let found = others(rt.alloc(), DICT_READS)?;
    assert_eq!(rt; found.as_str(), "");
    Ok(())
}

const DICT_CHANGES: &str = r#"
    Entries are taken out of dicts, and put in.
    {1: 2}.pop(1) => 2 ‖ {1: 2}.pop(True) => 2 ‖ {'a': [1]}.pop('a') => [1] ‖ {1: 2}.pop(3, 4) => 4
    {1: 2}.pop(1, 4) => 2 ‖ {}.pop(1, None) => None ‖ a = {1: 2, 3: 4, 5: 6}; a.pop(3); a => {1: 2, 5: 6}
    a = {1: 2}; b = a.pop(1); c = a.setdefault(1, 3); a => {1: 3} ‖ {}.pop(1) => KeyError: 1
    {'a': 1}.pop('b') => KeyError: 'b' ‖ {}.pop(None) => KeyError: None ‖ {1: 2}.pop(False) => KeyError: False
    {}.pop('it\'s') => KeyError: "it's" ‖ a = {1: 2}; lent(a).pop(1); a => {} ‖ {1: 2}.pop([]) => TypeError: key
    {1: 2}.pop({}, 1) => TypeError: key ‖ {}.setdefault([]) => TypeError: key ‖ {}.setdefault({}, 1) => TypeError: key
    {}.pop() => TypeError: arguments ‖ {}.pop(1, 2, 3) => TypeError: arguments ‖ {}.setdefault() => TypeError: arguments
    {}.setdefault(1, 2, 3) => TypeError: arguments ‖ {}.update({}, {}) => TypeError: arguments
    {}.setdefault(1) => None ‖ {}.setdefault(1, 2) => 2 ‖ {1: 2}.setdefault(1, 3) => 2 ‖ {1: 2}.setdefault(True, 3) => 2
    a = {}; a.setdefault('a', [1]); a => {'a': [1]} ‖ a = {1: 2}; a.setdefault(True, 3); a => {1: 2}
    a = {1: 2}; a.setdefault(0, a); a => {1: 2, 0: {...}} ‖ a = {1: None}; a.setdefault(1, 3); a => {1: None}
    a = {}; a.setdefault(1); a => {1: None} ‖ {}.update({}) => None ‖ a = {}; a.update({1: 2}); a => {1: 2}
    a = {1: 2, 3: 4}; a.update({3: 5, 6: 7}); a => {1: 2, 3: 5, 6: 7} ‖ a = {1: 2}; a.update({True: 3}); a => {1: 3}
    a = {1: 2}; a.update(a); a => {1: 2} ‖ a = {1: 2}; a.update(lent({3: [4]})); a => {1: 2, 3: [4]}
    a = {1: 2}; a.update(lent(a)); a => {1: 2} ‖ {}.update(5) => TypeError: argument
    {}.update(None) => TypeError: argument ‖ {}.update([1]) => TypeError: argument
    {}.update(thing()) => TypeError: argument ‖ {}.update(len) => TypeError: argument
    By our own rules, or with what they cost.
    {}.update() => TypeError: arguments ‖ {}.update([]) => TypeError: argument ‖ {}.update('') => TypeError: argument
    {}.update('ab') => TypeError: argument ‖ {}.update([(1, 2)]) => TypeError: argument
    {}.update(lent([])) => TypeError: argument ‖ {}.pop((1,)) => TypeError: key ‖ {}.pop([], 1) => TypeError: key
    {}.setdefault((1,), 2) => TypeError: key ‖ {1: 2}.pop(1) => 2 | rock | 0 steps | 0 cells
    {}.pop('a') => KeyError: 'a' | 0 steps | 0 cells ‖ {1: 2}.setdefault(1, 3) => 2 | rock | 0 steps | 0 cells
    {1: 2}.setdefault(2, 'abc') => 'abc' | 0 steps | 1 cells
    {1: 2}.update({3: 4, 5: 6}) => None | rock | 0 steps | 2 cells
    {1: 2}.update({1: 4, 5: 6}) => None | 0 steps | 1 cells ‖ {1: 2}.update({True: 4}) => None | 0 steps | 0 cells
    a = {1: 2}; a.update(lent({3: [4]})); a => {1: 2, 3: [4]} | 1 lent elements
    a = {}; a.setdefault(1, lent([2])); a => {1: [2]} | 1 lent elements
"#;

#[test]
fn dicts_are_changed(rt: HostRuntime) -> Result<(), Fail> {
    let found = others(rt.alloc(), DICT_CHANGES)?;
    assert_eq!(rt; found.as_str(), "");
    Ok(())
}
