//! Scripts with classes, comprehensions, and arguments with stars and names. CPython gave what the plain ones print.

use crate::ran::{Ran, RanTrusted};
use rp_tests_cases::all_answer;
use std::test::Fail;

const CLASSES: &str = r#"class A:~    pass~a = A()~a.x = 1~print(a.x) => 1~well
class A:~    def __init__(self, x):~        self.x = x~    def get(self):~        return self.x~print(A(3).get()) =>\
     3~well
class A:~    def f(self, y=2):~        return y~a = A()~print(a.f(), a.f(5)) => 2 5~well
class A:~    def f(self):~        return self.g() + 1~    def g(self):~        return 1~print(A().f()) => 2~well
class A:~    'text'~    def f(self):~        return 'f'~g = A().f~print(g()) => f~well
class A:~    def __init__(self):~        print('made')~A()~A() => made~made~well
class A:~    def f(self):~        return 1~    def f(self):~        return 2~print(A().f()) => 2~well
class A:~    def __init__(self, n):~        self.n = n~    def up(self):~        self.n = self.n + 1~        return \
    self~print(A(1).up().up().n) => 3~well
def make():~    class B:~        def f(self):~            return 'b'~    return B()~print(make().f()) => b~well
n = 3~class A:~    def f(self, x=n):~        return x~n = 4~print(A().f()) => 3~well
class A:~    def f(self):~        return [self.x for x in [1, 2]]~a = A()~a.x = 7~print(a.f()) => [7, 7]~well
class A:~    def f(self):~        return 1~    pass~    def g(self):~        return 2~print(A().f(), A().g()) => 1 2\
    ~well
class A:~    def f(self):~        return 'a'~class B:~    def f(self):~        return A().f() + 'b'~print(B().f()) =\
    > ab~well
class A:~    def f(self, *xs, **d):~        return (xs, d)~print(A().f(1, 2, k=3)) => ((1, 2), {'k': 3})~well
a = 'out'~class A:~    def f(self):~        return a~print(A().f()) => out~well
for i in [1, 2]:~    class A:~        def f(self):~            return i~    print(A().f()) => 1~2~well
class A:~    def f(self, x=1 // 0):~        pass~print('no') => ZeroDivisionError: zero
class A:~    pass~A(1) => TypeError: arguments
class A:~    def __init__(self):~        return 1~A() => TypeError: init
class A:~    def __init__(self, x):~        pass~A() => TypeError: arguments
class A:~    pass~A()() => TypeError: call
class A:~    pass~A().x => AttributeError: x
class A:~    pass~x = A()~class A:~    def f(self):~        pass~x.f() => AttributeError: f"#;

const CALLABLES: &str =
    r#"class A:~    def __call__(self, x):~        return x + 1~print(A()(1)) => 2~well
class A:~    def __call__(self, x, y=0):~        return (x, y)~a = A()~print(a(1, y=2), a(*[3]), a(**{'x': 4})) => (\
    1, 2) (3, 0) (4, 0)~well
class A:~    def __call__(self, *xs, **d):~        return (xs, d)~print(A()(1, *[2], k=3), [f() for f in [A()]]) => \
    ((1, 2), {'k': 3}) [((), {})]~well
class A:~    def __call__(self):~        return 1~A()(2) => TypeError: arguments"#;

const COMPREHENSIONS: &str = r#"print([x * 2 for x in [1, 2, 3]]) => [2, 4, 6]~well
print([x for x in [1, 2, 3, 4] if x % 2 == 0]) => [2, 4]~well
print([(x, y) for x in [1, 2] for y in 'ab']) => [(1, 'a'), (1, 'b'), (2, 'a'), (2, 'b')]~well
print([x for x in [1, 2, 3, 4, 5, 6] if x > 2 if x < 6]) => [3, 4, 5]~well
print({x: x * x for x in [1, 2, 3]}) => {1: 1, 2: 4, 3: 9}~well
print({k: v for k, v in [('a', 1), ('b', 2)]}) => {'a': 1, 'b': 2}~well
x = 'out'~print([x for x in [1, 2]], x) => [1, 2] out~well
print([[y for y in x] for x in [[1, 2], [3]]]) => [[1, 2], [3]]~well
print([])~print([x for x in []]) => []~[]~well
n = 10~print([x + n for x in [1, 2]]) => [11, 12]~well
def f(xs):~    return [g(x) for x in xs]~def g(x):~    return x + 1~print(f([1, 2])) => [2, 3]~well
print([a + b for a, b in [(1, 2), (3, 4)]]) => [3, 7]~well
print([x for x in 'abc' if x != 'b']) => ['a', 'c']~well
print({x: [y for y in [x, x]] for x in 'ab'}) => {'a': ['a', 'a'], 'b': ['b', 'b']}~well
fs = [lambda: x for x in [1, 2]]~print([f() for f in fs]) => [2, 2]~well
print([x for x in {'a': 1, 'b': 2}], {v: k for k, v in [('a', 1)]}) => ['a', 'b'] {1: 'a'}~well
print([x + y for x in [1, 2] if x > 1 for y in [x, 5] if y != x]) => [7]~well
xs = [1, 2, 3]~print([xs for x in xs][0] == xs, [x for x in [x * 2 for x in xs]]) => True [2, 4, 6]~well
x = [1, 2]~print([x for x in x], x) => [1, 2] [1, 2]~well
def f(x):~    return [x + y for y in [x]]~print(f(1)) => [2]~well
def f(n):~    return [n] + [y for x in [n - 1] if x > 0 for y in f(x)]~print(f(4)) => [4, 3, 2, 1]~well
print([1 if x else 0 for x in [0, 'a', [], [0]]], [[] for x in [1, 2]]) => [0, 1, 0, 1] [[], []]~well
ys = [[] for x in 'ab']~ys[0].append(1)~print(ys) => [[1], []]~well
print({1: 'a' for x in [1, 2]}, {x: x for x in [1, True]}) => {1: 'a'} {1: True}~well
print([print(x) for x in [1, 2]]) => 1~2~[None, None]~well
print([print(x) or y for x in [1, 2] for y in [print('in') or x] if print(y) or 1]) => in~1~1~in~2~2~[1, 2]~well
try:~    [1 // x for x in [1, 0]]~except ZeroDivisionError:~    print('taken')~x = 5~print(x) => taken~5~well
def f():~    for i in [1, 2]:~        if [x for x in [i] if x > 1]:~            return i~print(f()) => 2~well
xs = [1]~print([xs.append(x) or x for x in xs if x < 2 if len(xs) < 4]) => [1, 1, 1]~well
d = {}~print([d.update({x: 1}) for x in [1, 2]], d) => [None, None] {1: 1, 2: 1}~well
print(sum([x for x in [1, 2, 3]]), max([len(w) for w in ['a', 'bcd']])) => 6 3~well
print([k for k in {x for x in [1, 2, 1]}], (2 in {x for x in [1, 2]}), (3 in {1, 2})) => [1, 2] True False~well
[x for x in 5] => TypeError: iterate
[1 // x for x in [1, 0]] => ZeroDivisionError: zero
[x for x in [1]]~print(x) => NameError: x
[y for x in [1] for y in x] => TypeError: iterate
{[]: x for x in [1]} => TypeError: key
print([x for x in y]) => NameError: y
[a for a, b in [(1, 2, 3)]] => ValueError: unpack"#;

const ARGUMENTS: &str =
    r#"def f(a, b, c):~    return (a, b, c)~print(f(*[1, 2, 3]), f(1, *(2, 3)), f(*'ab', *[1])) => (1, 2, 3) \
    (1, 2, 3) ('a', 'b', 1)~well
def f(*xs):~    return xs~print(f(*[]), f(*[1], 2, *[3, 4])) => () (1, 2, 3, 4)~well
def f(a, b=2, c=3):~    return (a, b, c)~print(f(1, c=5), f(a=1, b=4), f(c=1, a=2)) => (1, 2, 5) (1, 4, 3) (2, 2, 1)\
    ~well
def f(a, **d):~    return (a, d)~print(f(1, x=2, y=3), f(1)) => (1, {'x': 2, 'y': 3}) (1, {})~well
def f(*xs, **d):~    return (xs, d)~print(f(1, 2, k=3), f()) => ((1, 2), {'k': 3}) ((), {})~well
print(*[1, 2, 3]) => 1 2 3~well
f = lambda x, y: (x, y)~print(f(y=1, x=2)) => (2, 1)~well
def f(x):~    print(x)~    return x~def g(a, b):~    return a~g(f(1), b=f(2)) => 1~2~well
class A:~    def __init__(self, x, y=1):~        self.p = (x, y)~print(A(1, y=2).p, A(*[3]).p) => (1, 2) (3, 1)~well
def f(a, b=2, *xs, **d):~    return (a, b, xs, d)~print(f(**{'a': 1}), f(1, **{'b': 5, 'z': 6}), f(*[1, 2, 3], **{})\
    ) => (1, 2, (), {}) (1, 5, (), {'z': 6}) (1, 2, (3,), {})~well
def f(**d):~    return d~print(f(a=1, **{'b': 2}, c=3, **{'e': 4})) => {'a': 1, 'b': 2, 'c': 3, 'e': 4}~well
def f(**d):~    d['a'] = 2~    return d~e = {'a': 1}~print(f(**e), e) => {'a': 2} {'a': 1}~well
print(1, **{}) => 1~well
print(len(*['abc']), max(*[3, 5]), *{'a': 1}) => 3 5 a~well
def f(x):~    print(x)~    return x~def g(*xs, **d):~    return (xs, d)~print(g(f(1), *f([2]), f(3), k=f(4), **f({'z\
    ': 5}))) => 1~[2]~3~4~{'z': 5}~((1, 2, 3), {'k': 4, 'z': 5})~well
class A:~    def f(self, x, y):~        return x - y~a = A()~print(a.f(y=1, x=5), a.f(**{'x': 1, 'y': 2}), a.f(*[3],\
     y=1)) => 4 -1 2~well
def f(a, b):~    return (a, b)~print([f(*p) for p in [(1, 2), (3, 4)]], {k: f(a=k, b=v) for k, v in [(1, 2)]}) => [(\
    1, 2), (3, 4)] {1: (1, 2)}~well
def f(n, acc=0):~    return acc if n == 0 else f(n - 1, acc=acc + n)~print(f(10)) => 55~well
def f(*xs):~    return xs~xs = [1, 2]~ys = f(*xs)~xs.append(3)~print(ys, xs) => (1, 2) [1, 2, 3]~well
def f(x, y):~    return x + y~print(f(*[1], **{'y': 2}) + f(1, y=2) * f(*'a', y='b').count('a')) => 6~well
def f(a):~    return a~f(b=1) => TypeError: arguments
def f(a):~    return a~f(1, a=1) => TypeError: arguments
print(1, x=2) => TypeError: arguments
f = 1~f(x=2) => TypeError: call
def f(a):~    return a~f(*5) => TypeError: iterate
def f(a):~    return a~f(a=1, **{'a': 2}) => TypeError: arguments
def f(**d):~    return d~f(**{'a': 1}, **{'a': 2}) => TypeError: arguments
def f(**d):~    return d~f(**[1]) => TypeError: argument
def f(**d):~    return d~f(**{1: 2}) => TypeError: argument
def f(**d):~    return d~f(**5) => TypeError: argument
len(x=[1]) => TypeError: arguments
[].append(x=1) => TypeError: arguments
None(x=1) => TypeError: call
class A:~    pass~A(x=1) => TypeError: arguments
def f(x):~    print(x)~f(1 // 0, *f(2)) => ZeroDivisionError: zero
def f(a):~    return a~f(**{'a': 1, 'b': 2}) => TypeError: arguments"#;

#[test]
fn classes_make_instances(rt: HostRuntime) -> Result<(), Fail> {
    all_answer(rt.alloc(), &Ran, CLASSES)
}

#[test]
fn instances_are_called(rt: HostRuntime) -> Result<(), Fail> {
    all_answer(rt.alloc(), &RanTrusted, CALLABLES)
}

#[test]
fn comprehensions_make_lists_and_dicts(rt: HostRuntime) -> Result<(), Fail> {
    all_answer(rt.alloc(), &Ran, COMPREHENSIONS)
}

#[test]
fn arguments_are_spread_and_named(rt: HostRuntime) -> Result<(), Fail> {
    all_answer(rt.alloc(), &Ran, ARGUMENTS)
}
