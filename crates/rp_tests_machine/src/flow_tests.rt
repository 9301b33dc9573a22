//! Scripts that branch, loop, raise and unpack, and the order of operands. `bench/script_cases.py` made the cases.

use crate::ran::Ran;
use rp_tests_cases::all_answer;
use std::test::Fail;

const BRANCHES: &str =
    r#"x = 3~if x > 2:~    print('more')~elif x > 1:~    print('one')~else:~    print('less') => more~well
x = 2~if x > 2:~    print('more')~elif x > 1:~    print('one')~else:~    print('less') => one~well
x = 1~if x > 2:~    print('more')~elif x > 1:~    print('one')~else:~    print('less') => less~well
i = 0~while i < 3:~    print(i)~    i += 1~print('end', i) => 0~1~2~end 3~well
i = 0~while 1:~    i += 1~    if i == 2:~        continue~    if i > 4:~        break~    print(i) => 1~3~4~well
i = 0~while i < 3:~    j = 0~    while 1:~        j += 1~        if j > i:~            break~        print(i, j)~   \
     i += 1 => 1 1~2 1~2 2~well
while 0:~    print('never')~print('behind') => behind~well
while []:~    pass~print('behind') => behind~well
i = 3~while i:~    i -= 1~    print(i) => 2~1~0~well
i = 5~while 10 // i:~    i -= 1 => ZeroDivisionError: zero
if 1 // 0:~    print('no') => ZeroDivisionError: zero
if 0:~    1 // 0~print('on') => on~well
n = 27~steps = 0~while n != 1:~    if n % 2:~        n = 3 * n + 1~    else:~        n //= 2~    steps += 1~print(st\
    eps) => 111~well
a = 0~b = 1~while a < 100:~    print(a)~    c = a + b~    a = b~    b = c => 0~1~1~2~3~5~8~13~21~34~55~89~well"#;

const LOOPS: &str = r#"for x in [1, 2, 3]:~    print(x) => 1~2~3~well
for x in ():~    print(x)~print('none') => none~well
for x in (1, 'a', None):~    print(x)~print(x) => 1~a~None~None~well
for c in 'añ😀':~    print(c, len(c)) => a 1~ñ 1~😀 1~well
for c in '':~    print(c)~print('none') => none~well
d = dict()~d['b'] = 1~d['a'] = 2~for k in d:~    print(k, d[k]) => b 1~a 2~well
for i in range(3):~    for j in range(i):~        print(i, j) => 1 0~2 0~2 1~well
for x in range(10):~    if x == 2:~        continue~    if x == 5:~        break~    print(x) => 0~1~3~4~well
xs = [1]~for x in xs:~    print(x)~    if x < 4:~        xs.append(x + 1)~print(xs) => 1~2~3~4~[1, 2, 3, 4]~well
xs = [1, 2, 3, 4]~for x in xs:~    print(x)~    xs.remove(x)~print(xs) => 1~3~[2, 4]~well
t = 0~for x in range(101):~    t += x~print(t) => 5050~well
for x in sorted(['b', 'c', 'a']):~    print(x) => a~b~c~well
for p in enumerate('ab'):~    print(p) => (0, 'a')~(1, 'b')~well
for p in zip([1, 2], 'ab'):~    print(p) => (1, 'a')~(2, 'b')~well
for x in 5:~    print(x) => TypeError: iterate
for x in None:~    print(x) => TypeError: iterate
for x in [1, 0]:~    print(1 // x) => 1~ZeroDivisionError: zero
d = dict()~d['a'] = 1~for k in d:~    d[k + 'b'] = 2 => RuntimeError: dict size
for xs in [[1], [2, 3]]:~    for x in xs:~        if x == 2:~            break~        print(x)~    print('next') =>\
     1~next~next~well
xs = []~for c in 'abc':~    xs.append(c)~print(xs, ''.join(xs)) => ['a', 'b', 'c'] abc~well"#;

const RAISES: &str = r#"raise ValueError('told') => ValueError: told
raise ValueError => ValueError: 
raise IndexError(5) => IndexError: 5
print('a')~if 1:~    raise RuntimeError('here')~print('b') => a~RuntimeError: here
for i in range(5):~    if i == 2:~        raise TypeError(i)~    print(i) => 0~1~TypeError: 2
x = ArithmeticError('kept')~print(x)~raise x => kept~ArithmeticError: kept
raise (print(1) or LookupError)(print(2) or 'text') => 1~2~LookupError: text
raise {'k': [ValueError]}['k'][0] => ValueError: 
raise 5 => TypeError: raise
raise None => TypeError: raise
raise len => TypeError: raise"#;

const UNPACKING: &str = r#"a, b = 1, 2~print(a, b)~a, b = b, a~print(a, b) => 1 2~2 1~well
(a, (b, c)) = (1, [2, 3])~print(a, b, c) => 1 2 3~well
[a, b] = 'xy'~print(a, b) => x y~well
a, = [5]~print(a) => 5~well
a, b = {'x': 1, 'y': 2}~print(a, b) => x y~well
i, xs = 1, [0, 0]~i, xs[i] = 0, 9~print(i, xs) => 0 [9, 0]~well
xs = [0]~xs[print(2) or 0], y = print(1) or (7, 8)~print(xs, y) => 1~2~[7] 8~well
xs = [0]~ys = xs~xs, xs[0] = [1, 2], 3~print(xs, ys) => [3, 2] [0]~well
for i, c in enumerate('ab'):~    print(i, c) => 0 a~1 b~well
for a, (b, c) in [(1, (2, 3)), (4, 'xy')]:~    print(a, b, c) => 1 2 3~4 x y~well
for k, v in {'a': 1, 'b': 2}.items():~    print(k, v) => a 1~b 2~well
t = 0~for (x, y) in zip([1, 2], [3, 4]):~    if x == 2:~        continue~    t += x * y~print(t, x, y) => 3 2 4~well
xs = [1, 2, 3]~for xs[0], xs[1] in [(4, 5), (6, 7)]:~    print(xs) => [4, 5, 3]~[6, 7, 3]~well
a, b = [1] => ValueError: unpack
a, b = 1, 2, 3 => ValueError: unpack
a, b = 5 => TypeError: iterate
for a, b in [(1, 2), (3,)]:~    print(a, b) => 1 2~ValueError: unpack
a, xs[0] = 1, 2 => NameError: xs
a, b = 1, 1 // 0 => ZeroDivisionError: zero"#;

const ORDER: &str = r#"print((print(1) or 1) + (print(2) or 2) * (print(3) or 3)) => 1~2~3~7~well
xs = [0, 0]~xs[print(2) or 0] = print(1) or 5~print(xs) => 1~2~[5, 0]~well
print([print(1), print(2)], (print(3), print(4))) => 1~2~3~4~[None, None] (None, None)~well
print((print(1) or 'abc')[print(2) or 1]) => 1~2~b~well
(print(1) or print)(print(2), print(3)) => 1~2~3~None None~well
(print(1) or []).append(print(2)) => 1~2~well
print((print(1) or 1) < (print(2) or 2) < (print(3) or 3)) => 1~2~3~True~well
print((print(2) or 'a') if print(1) is None else (print(3) or 'b')) => 1~2~a~well
xs = [1]~xs[print(1) or 0]~del xs[print(2) or 0]~print(xs) => 1~2~[]~well
a = b = print(1)~print(a, b) => 1~None None~well
xs = [5]~xs[print(2) or 0] = xs[print(1) or 0] = 7~print(xs) => 2~1~[7]~well
print(- (print(1) or 1) ** (print(2) or 2)) => 1~2~-1~well
x = 1~x += (print(x) or 2) + x~print(x) => 1~4~well
print(max(print(1) or 1, print(2) or 2)) => 1~2~2~well
for x in print(1) or [3]:~    print(x) => 1~3~well"#;

#[test]
fn branches_are_taken(rt: HostRuntime) -> Result<(), Fail> {
    all_answer(rt.alloc(), &Ran, BRANCHES)
}

#[test]
fn loops_walk_over_values(rt: HostRuntime) -> Result<(), Fail> {
    all_answer(rt.alloc(), &Ran, LOOPS)
}

#[test]
fn exceptions_are_raised(rt: HostRuntime) -> Result<(), Fail> {
    all_answer(rt.alloc(), &Ran, RAISES)
}

#[test]
fn values_are_unpacked(rt: HostRuntime) -> Result<(), Fail> {
    all_answer(rt.alloc(), &Ran, UNPACKING)
}

#[test]
fn operands_are_evaluated_in_order(rt: HostRuntime) -> Result<(), Fail> {
    all_answer(rt.alloc(), &Ran, ORDER)
}
