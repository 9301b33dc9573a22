//! Scripts over lists, tuples, dicts and texts. `bench/script_cases.py` made the cases.

use crate::ran::{Ran, RanTrusted};
use rp_tests_cases::all_answer;
use std::test::Fail;

const LISTS: &str =
    r#"print([], [1], [1, 'a', None], [[1], (2,)], ()) => [] [1] [1, 'a', None] [[1], (2,)] ()~well
print((1,), (1, 2), ((1,), [])) => (1,) (1, 2) ((1,), [])~well
xs = [1, 2, 3]~print(xs[0], xs[-1], len(xs)) => 1 3 3~well
xs = [1, 2, 3]~xs[1] = 'x'~xs[-1] = xs[0]~print(xs) => [1, 'x', 1]~well
xs = [1, 2, 3]~del xs[0]~del xs[-1]~print(xs) => [2]~well
xs = [1]~xs.append(2)~xs.extend((3, 4))~xs.insert(0, 0)~print(xs, xs.pop(), xs.pop(0), xs) => [1, 2, 3] 4 0 [1, 2, 3\
    ]~well
xs = [3, 1, 3]~print(xs.index(3), xs.count(3))~xs.reverse()~print(xs)~xs.remove(3)~print(xs) => 0 2~[3, 1, 3]~[1, 3]\
    ~well
print([1] + [2], (1,) + (2, 3), [0] * 3, (1, 2) * 2, [1] * -1) => [1, 2] (1, 2, 3) [0, 0, 0] (1, 2, 1, 2) []~well
xs = [1]~ys = xs~xs += [2]~xs *= 2~print(xs, ys) => [1, 2, 1, 2] [1, 2, 1, 2]~well
t = (1,)~u = t~t += (2,)~print(t, u) => (1, 2) (1,)~well
xs = [[0] * 2] * 2~xs[0][1] = 5~print(xs) => [[0, 5], [0, 5]]~well
xs = []~xs.append(xs)~print(xs, len(xs)) => [[...]] 1~well
print(list('abc'), tuple([1, 2]), list(range(2, 8, 3)), list((1,))) => ['a', 'b', 'c'] (1, 2) [2, 5] [1]~well
m = [[1, 2], [3, 4]]~print(m[1][0], m[0][1] + m[1][1]) => 3 6~well
print([1, 2][3]) => IndexError: index
xs = [1]~xs[1] = 2 => IndexError: index
del [1][5] => IndexError: index
t = (1, 2)~t[0] = 3 => TypeError: item
del (1, 2)[0] => TypeError: item
print([1]['a']) => TypeError: index
print([].pop()) => IndexError: index
[1].remove(2) => ValueError: value
[1].nothing => AttributeError: nothing
[1].append() => TypeError: arguments
print(5[0]) => TypeError: item
xs = [1]~xs.x = 1 => AttributeError: x
print([1] + (2,)) => TypeError: operand
print(len(5)) => TypeError: len"#;

const DICTS: &str =
    r#"d = dict()~d['a'] = 1~d[2] = 'b'~d[None] = []~print(d, len(d)) => {'a': 1, 2: 'b', None: []} 3~well
d = dict()~d[1] = 'a'~d[True] = 'b'~print(d) => {1: 'b'}~well
d = dict()~d['a'] = 1~d['b'] = 2~del d['a']~d['a'] = 3~print(d) => {'b': 2, 'a': 3}~well
d = dict()~d['a'] = 1~print(d.get('a'), d.get('b'), d.get('b', 7), d.setdefault('c', 3), d) => 1 None 7 3 {'a': 1, '\
    c': 3}~well
d = dict()~d['a'] = 1~print(d.pop('a'), d.pop('a', 5), d) => 1 5 {}~well
d = dict()~d['a'] = [1]~e = d.copy()~e['b'] = 2~e['a'].append(2)~print(d, e) => {'a': [1, 2]} {'a': [1, 2], 'b': 2}~\
    well
d = dict()~d['x'] = 1~e = dict(d)~e.update(d)~print(e == d, e) => True {'x': 1}~well
d = dict()~for w in 'abcab':~    d[w] = d.get(w, 0) + 1~print(d) => {'a': 2, 'b': 2, 'c': 1}~well
d = dict()~d['a'] => KeyError: 'a'
d = dict()~del d[5] => KeyError: 5
d = dict()~d[[]] = 1 => TypeError: key
print([] in dict()) => TypeError: key
d = dict()~d['k'] = d~print(d) => {'k': {...}}~well
d = dict()~d.a = 1 => AttributeError: a
d = dict()~d['a'] = 1~print(d.keys(), d.values(), d.items()) => ['a'] [1] [('a', 1)]~well"#;

const DISPLAYS: &str =
    r#"print({}, {'a': 1}, {1: 'x', 'b': [2], None: {}}) => {} {'a': 1} {1: 'x', 'b': [2], None: {}}~well
print({1: 'a', True: 'b', 'c': 0, 1: 'd'}) => {1: 'd', 'c': 0}~well
print({'a': 1, 'b': 2, 'a': 3}, len({1: 1, 1: 2, 2: 3})) => {'a': 3, 'b': 2} 2~well
d = {'b': 1, 'a': 2,}~d['c'] = 3~for k in d:~    print(k, d[k]) => b 1~a 2~c 3~well
print({'a': 1} == {'a': 1}, {1: 2, 3: 4} == {3: 4, 1: 2}, 'a' in {'a': 1}, 'b' in {'a': 'b'}) => True True True Fals\
    e~well
x = {'x': 1}~y = {'x': x['x'] + 1, 'z': x}~y['z']['x'] = 5~print(x, y) => {'x': 5} {'x': 2, 'z': {'x': 5}}~well
print({print(1): print(2), print(3): print(4)}) => 1~2~3~4~{None: None}~well
print({[]: 1}) => TypeError: key
print({'a': 1, {}: print('value')}) => value~TypeError: key
print({'a': 1 // 0}) => ZeroDivisionError: zero
print({x: 1}) => NameError: x
print({(1, 2): 3}) => TypeError: key"#;

const TEXTS: &str = r#"print('a' + 'b', 'ab' * 2, 'x' * 0, len('añ😀')) => ab abab  3~well
print('abc'[0], 'abc'[-1], 'añ😀'[1], 'añ😀'[2]) => a c ñ 😀~well
print(','.join(['a', 'b']), 'a b  c'.split(), 'a-b-'.split('-')) => a,b ['a', 'b', 'c'] ['a', 'b', '']~well
print(' x '.strip(), 'abc'.startswith('ab'), 'abc'.endswith('bc'), 'abcabc'.find('ca')) => x True True 2~well
print('aXbX'.replace('X', 'y'), 'aaa'.count('a'), '12'.isdigit(), ''.isdigit()) => ayby 3 True False~well
print(str(5) + str(None) + str([1, 'a']), str(True)) => 5None[1, 'a'] True~well
print(['a\n', "it's", 'q"', '\\']) => ['a\n', "it's", 'q"', '\\']~well
s = ''~for i in range(5):~    s += str(i)~print(s) => 01234~well
print('abc'[3]) => IndexError: index
'a'[0] = 'b' => TypeError: item
print('a' + 1) => TypeError: operand
''.join([1]) => TypeError: argument
'a'.split('') => ValueError: empty
'abc'.nothing => AttributeError: nothing
print('a', 'b')~print()~print('c') => a b~~c~well
print(len(str(9223372036854775807))) => 19~well"#;

const SLICES: &str =
    r#"xs = [0, 1, 2, 3, 4, 5]~print(xs[1:4], xs[:2], xs[4:], xs[:]) => [1, 2, 3] [0, 1] [4, 5] [0, 1, 2, 3, 4, 5]~well
xs = [0, 1, 2, 3, 4, 5]~print(xs[-3:-1], xs[-100:2], xs[4:100], xs[4:2]) => [3, 4] [0, 1] [4, 5] []~well
xs = [0, 1, 2, 3, 4, 5]~print(xs[::2], xs[1::3], xs[::-1], xs[4:1:-2], xs[-1:-4:-1]) => [0, 2, 4] [1, 4] [5, 4, 3, 2\
    , 1, 0] [4, 2] [5, 4, 3]~well
print('añ😀b'[1:3], 'añ😀b'[::-1], 'abc'[:-1], 'abc'[5:], 'abcdef'[1:-1:2]) => ñ😀 b😀ña ab  bd~well
print((1, 2, 3)[1:], (1, 2, 3)[::-2], (1, 2, 3)[-2:], ()[:]) => (2, 3) (3, 1) (2, 3) ()~well
print('abc'[None:None:None], 'abc'[None:2], [1, 2, 3][True:], 'abcd'[::-3]) => abc ab [2, 3] da~well
print([1, 2, 3][9223372036854775807:], 'abc'[-9223372036854775807:2], 'ab'[::9223372036854775807]) => [] ab a~well
xs = [[1], [2]]~ys = xs[:]~ys.append(3)~ys[0].append(9)~print(xs, ys) => [[1, 9], [2]] [[1, 9], [2], 3]~well
print('abcdef'[1:5][1:3][0], [3, 1, 2][1:].index(2), len('abc'[1:])) => c 1 2~well
print((print(1) or 'abcd')[print(2) or 1:print(3) or 3:print(4) or 2]) => 1~2~3~4~b~well
print('abcd'[print(1):][:print(2) or 2]) => 1~2~ab~well
print([1, 2, 3][::0]) => ValueError: slice
print('abc'['a':]) => TypeError: index
print((1,)[::[]]) => TypeError: index
print(5[1:2]) => TypeError: item
print([1][:1 // 0]) => ZeroDivisionError: zero"#;

const AUGMENTED: &str = r#"xs = [1, 2, 3]~xs[0] += 10~xs[-1] *= 2~print(xs) => [11, 2, 6]~well
d = {'a': 1}~d['a'] += 5~d['a'] <<= 2~print(d) => {'a': 24}~well
xs = [[1], 2]~ys = xs[0]~xs[0] += [3]~print(xs, ys) => [[1, 3], 2] [1, 3]~well
m = [[1, 2], [3, 4]]~m[1][0] -= 1~m[0] *= 2~print(m) => [[1, 2, 1, 2], [2, 4]]~well
d = {'w': ''}~for c in 'abc':~    d['w'] += c~print(d) => {'w': 'abc'}~well
xs = [5, 6]~(print(1) or xs)[print(2) or 1] += print(3) or 4~print(xs) => 1~2~3~[5, 10]~well
d = {}~d['a'] += 1 => KeyError: 'a'
xs = [1]~xs[1] += 1 => IndexError: index
xs = [1]~xs[0] += xs.pop() => IndexError: index
t = (1, 2)~t[0] += 1 => TypeError: item
xs = [1, 2]~xs[0] += 'a' => TypeError: operand
xs = [1]~xs.x += 1 => AttributeError: x
5[0] += 1 // 0 => TypeError: item"#;

#[test]
fn lists_and_tuples_hold_elements(rt: HostRuntime) -> Result<(), Fail> {
    all_answer(rt.alloc(), &Ran, LISTS)
}

#[test]
fn dicts_hold_entries(rt: HostRuntime) -> Result<(), Fail> {
    all_answer(rt.alloc(), &Ran, DICTS)
}

#[test]
fn dicts_are_displayed(rt: HostRuntime) -> Result<(), Fail> {
    all_answer(rt.alloc(), &Ran, DISPLAYS)
}

#[test]
fn texts_are_cut_and_joined(rt: HostRuntime) -> Result<(), Fail> {
    all_answer(rt.alloc(), &Ran, TEXTS)
}

#[test]
fn slices_are_read(rt: HostRuntime) -> Result<(), Fail> {
    all_answer(rt.alloc(), &Ran, SLICES)
}

#[test]
fn items_are_augmented(rt: HostRuntime) -> Result<(), Fail> {
    all_answer(rt.alloc(), &RanTrusted, AUGMENTED)
}
