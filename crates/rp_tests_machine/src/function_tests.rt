//! Scripts that define and call functions. `bench/script_cases.py` made the cases.

use crate::ran::Ran;
use rp_tests_cases::all_answer;
use std::test::Fail;

const CALLS: &str = r#"def f():~    print('in')~    return 1~print(f()) => in~1~well
def f(a, b=2):~    return a + b~print(f(1), f(1, 5)) => 3 6~well
def f():~    pass~print(f()) => None~well
f = lambda x: x * 2~print(f(4), (lambda: 'a')()) => 8 a~well
def f(n):~    if n == 0:~        return 0~    return n + f(n - 1)~print(f(10)) => 55~well
x = 1~def f():~    x = 2~    return x~print(f(), x) => 2 1~well
x = 1~def f():~    global x~    x = 2~f()~print(x) => 2~well
def f(a):~    def g(b):~        return a + b~    return g~print(f(1)(2), f(5)(6)) => 3 11~well
def f(*xs):~    return xs~print(f(), f(1, 2)) => () (1, 2)~well
def f(a, *xs):~    return (a, xs)~print(f(1), f(1, 2, 3)) => (1, ()) (1, (2, 3))~well
def f(xs):~    for x in xs:~        if x > 1:~            return x~    return None~print(f([1, 2, 3]), f([])) => 2 N\
    one~well
def f():~    while True:~        return 'out'~print(f()) => out~well
def f():~    try:~        return 'body'~    finally:~        print('last')~print(f()) => last~body~well
def f():~    try:~        1 // 0~    except ZeroDivisionError:~        return 'taken'~    finally:~        print('la\
    st')~print(f()) => last~taken~well
def f():~    try:~        return 1~    finally:~        return 2~print(f()) => 2~well
def f():~    try:~        1 // 0~    finally:~        return 'no exception'~print(f()) => no exception~well
def f():~    for x in [1, 2]:~        try:~            return x~        finally:~            print('left', x)~print(\
    f()) => left 1~1~well
def f():~    try:~        1 // 0~    except ZeroDivisionError as e:~        try:~            return 'inner'~        \
    finally:~            print('finally')~print(f()) => finally~inner~well
def f():~    1 // 0~try:~    f()~except ZeroDivisionError:~    print('out of f') => out of f~well
def f():~    raise ValueError('v')~try:~    f()~except ValueError as e:~    print(e) => v~well
def g():~    return [1, 2]~a, b = g()~print(a, b) => 1 2~well
def f(x):~    return x~print([f(1), f(2)], f(3) + f(4), {'a': f(5)}['a']) => [1, 2] 7 5~well
def f(x=[]):~    x.append(1)~    return x~f()~print(f()) => [1, 1]~well
def f(x):~    x[0] = 5~    return x[0]~print(f([1, 2])) => 5~well
def f(n):~    return n if n < 2 else f(n - 1) + f(n - 2)~print(f(12)) => 144~well
def f():~    return g()~def g():~    return 'g'~print(f()) => g~well
def f(a, b):~    return a < b < 3~print(f(1, 2), f(2, 1)) => True False~well
def outer():~    n = 0~    def inner():~        return n~    n = 3~    return inner()~print(outer()) => 3~well
def f(a):~    del a~    return 'gone'~print(f(1)) => gone~well
compose = lambda f, g: lambda x: f(g(x))~print(compose(lambda x: x + 1, lambda x: x * 2)(5)) => 11~well"#;

const RETURNS: &str = r#"def f():~    return~print(f()) => None~well
def f():~    return 1, 2~print(f()) => (1, 2)~well
def f(x):~    if x > 0:~        return 'more'~    elif x < 0:~        return 'less'~print(f(1), f(-1), f(0)) => more\
     less None~well
def f(rows):~    for row in rows:~        for x in row:~            if x > 3:~                return x~print(f([[1, \
    2], [3, 4], [5]]), f([[1]])) => 4 None~well
def f():~    return print('in') or 5~print(f()) => in~5~well
def f():~    return 1 // 0~f() => ZeroDivisionError: zero
def f():~    try:~        pass~    except ValueError:~        return 'no'~    else:~        return 'else'~    finall\
    y:~        print('last')~print(f()) => last~else~well
def f():~    x = 1~    try:~        return x~    finally:~        x = 2~print(f()) => 1~well
def f():~    xs = [1]~    try:~        return xs~    finally:~        xs.append(2)~print(f()) => [1, 2]~well
def f():~    try:~        return 1 // 0~    except ZeroDivisionError:~        return 'taken'~print(f()) => taken~wel\
    l
def f():~    try:~        try:~            return 1~        finally:~            print('inner')~    finally:~       \
     print('outer')~print(f()) => inner~outer~1~well"#;

const WRONG_CALLS: &str = r#"def f(a):~    return a~f() => TypeError: arguments
def f(a):~    return a~f(1, 2) => TypeError: arguments
def f():~    return f()~f() => RecursionError: calls
x = 5~x() => TypeError: call
def f():~    print(y)~f() => NameError: y
def f():~    print(y)~    y = 1~f() => UnboundLocalError: y
f = lambda: 1 // 0~f() => ZeroDivisionError: zero
def f(a=1 // 0):~    return a~print('no') => ZeroDivisionError: zero
def f():~    try:~        1 // 0~    finally:~        print('last')~f() => last~ZeroDivisionError: zero
x = 5~x(print('argument')) => argument~TypeError: call
def f():~    pass~f(print('argument')) => argument~TypeError: arguments
def f(x):~    print('no')~f(1 // 0) => ZeroDivisionError: zero
def f():~    pass~f[0] => TypeError: item
def f():~    pass~f + 1 => TypeError: operand
def f():~    pass~f < f => TypeError: operand
def f():~    pass~for x in f:~    pass => TypeError: iterate
def f():~    return 1~f()() => TypeError: call
def f():~    pass~f.x => AttributeError: x
def f():~    pass~f.x = 1 => AttributeError: x
def f():~    pass~d = {}~d[f] = 1 => TypeError: key"#;

const CLOSURES: &str =
    r#"def counter():~    n = [0]~    def more():~        n[0] = n[0] + 1~        return n[0]~    return more~a = co\
    unter()~b = counter()~print(a(), a(), b(), a()) => 1 2 1 3~well
fs = []~for i in range(3):~    fs.append(lambda: i)~print(fs[0](), fs[2]()) => 2 2~well
fs = []~for i in range(3):~    fs.append(lambda i=i: i)~print(fs[0](), fs[1](), fs[2](5)) => 0 1 5~well
def pair():~    xs = []~    def put(x):~        xs.append(x)~    def get():~        return xs~    return put, get~pu\
    t, get = pair()~put(1)~put('a')~print(get()) => [1, 'a']~well
def a(x):~    def b(y):~        def c(z):~            return [x, y, z]~        return c~    return b~print(a(1)(2)(3\
    ), a('x')('y')('z')) => [1, 2, 3] ['x', 'y', 'z']~well
x = 'global'~def f():~    x = 'f'~    def g():~        return x~    def h(x):~        return x~    return g(), h('h'\
    ), x~print(f(), x) => ('f', 'h', 'f') global~well
x = 1~def f():~    x = 2~    def g():~        global x~        x = 3~    g()~    return x~print(f(), x) => 2 3~well
x = 1~def f():~    x = 2~    def g():~        global x~        return x~    return g()~print(f()) => 1~well
def f():~    def g():~        return x~    print(g())~    x = 1~f() => NameError: x
def f():~    x = 1~    def g():~        return x~    del x~    return g()~f() => NameError: x
x = 1~def f():~    print(x)~    x = 2~f() => UnboundLocalError: x
def f(n):~    def g(k):~        return 1 if k == 0 else k * g(k - 1)~    return g(n)~print(f(5), f(10)) => 120 36288\
    00~well
add = lambda a: lambda b: lambda c: a + b + c~print(add(1)(2)(3)) => 6~well
def f():~    if 0:~        def g():~            return 1~    return g()~f() => UnboundLocalError: g
def f(x):~    def g():~        return x~    x = x + 1~    return g~print(f(1)(), f(5)()) => 2 6~well
def f():~    out = []~    for i in range(3):~        def g():~            return i~        out.append(g)~    return \
    [out[0](), out[1](), out[2]()]~print(f()) => [2, 2, 2]~well
def f():~    return y~y = 5~print(f())~y = 6~print(f()) => 5~6~well
def f():~    return len('abc')~print(f())~def len(x):~    return 'own'~print(f()) => 3~own~well
def f():~    return 1~g = f~def f():~    return 2~print(g(), f()) => 1 2~well
for i in range(2):~    def f():~        return i~print(f())~i = 5~print(f()) => 1~5~well"#;

const DEFAULTS: &str = r#"x = 1~def f(a=x):~    return a~x = 2~print(f(), f(3)) => 1 3~well
def f(a=print(1), b=print(2)):~    return a~print('def')~f() => 1~2~def~well
def f(a, b=2, c=3):~    return [a, b, c]~print(f(1), f(1, 5), f(1, 5, 6)) => [1, 2, 3] [1, 5, 3] [1, 5, 6]~well
f = lambda a, b=10: a + b~print(f(1), f(1, 2)) => 11 3~well
a = 5~def f(a=a + 1):~    return a~print(f()) => 6~well
def f(a, *xs, **kw):~    return [a, xs, kw]~print(f(1), f(1, 2, 3)) => [1, (), {}] [1, (2, 3), {}]~well
def f(**kw):~    kw['a'] = 1~    return kw~print(f(), f() == f()) => {'a': 1} True~well
def f(x, g=lambda v: v + 1):~    return g(x)~print(f(1), f(1, lambda v: v * 10)) => 2 10~well
def f(*xs):~    return xs~t = f(1, [2])~t[1].append(3)~print(t) => (1, [2, 3])~well
f = lambda *xs: xs~print(f(), f(1)) => () (1,)~well
def f(a, b=1):~    return a~f() => TypeError: arguments
def f(a=1):~    return a~f(1, 2) => TypeError: arguments
def f(**kw):~    return kw~f(1) => TypeError: arguments"#;

const CALLBACKS: &str =
    r#"def apply(f, x):~    return f(x)~print(apply(len, 'abc'), apply(lambda v: v * 2, 4), apply(str, 5) + '!') => \
    3 8 5!~well
def each(f, xs):~    out = []~    for x in xs:~        out.append(f(x))~    return out~print(each(abs, [-1, 2]), eac\
    h(lambda x: [x], 'ab')) => [1, 2] [['a'], ['b']]~well
def twice(f):~    return lambda x: f(f(x))~print(twice(twice(lambda n: n + 3))(0)) => 12~well
ops = {'add': lambda a, b: a + b, 'mul': lambda a, b: a * b}~print(ops['add'](2, 3), ops['mul'](2, 3)) => 5 6~well
for f in [len, lambda s: s + '!', str]:~    print(f('ab')) => 2~ab!~ab~well
def fill(put):~    put(1)~    put(2)~xs = []~fill(xs.append)~print(xs) => [1, 2]~well
def apply(f):~    try:~        return f()~    except ZeroDivisionError:~        return 'taken'~print(apply(lambda: 1\
     // 0), apply(lambda: 5)) => taken 5~well
def fold(f, xs, start):~    for x in xs:~        start = f(start, x)~    return start~print(fold(lambda a, b: a * b,\
     [1, 2, 3, 4], 1), fold(max, [3, 9, 2], 0)) => 24 9~well
def f():~    print('callee')~    return lambda x: x~print(f()(print('argument') or 1)) => callee~argument~1~well
def f(a, b):~    return a~f(print(1), print(2)) => 1~2~well
def f():~    pass~g = f~print(f == g, f == print, f != g, [f].index(g)) => True False False 0~well
def f():~    return 0~print(bool(f), not f) => True False~well
def f(n):~    return (lambda: n) if n else f~print(f(3)(), f(0)(4)()) => 3 4~well
def f():~    pass~print(f, [f], lambda: 1) => <function f> [<function f>] <function <lambda>>~well"#;

const RECURSION: &str =
    r#"def f(n):~    return 1 if n < 2 else n * f(n - 1)~print(f(20)) => 2432902008176640000~well
def even(n):~    return True if n == 0 else odd(n - 1)~def odd(n):~    return False if n == 0 else even(n - 1)~print\
    (even(10), even(7), odd(7)) => True False True~well
def depth(t):~    if not t:~        return 0~    return 1 + max(depth(t[0]), depth(t[1]))~print(depth(((), ((), ((),\
     ())))), depth(())) => 3 0~well
def hanoi(n, a, b, c):~    if n == 0:~        return 0~    return hanoi(n - 1, a, c, b) + 1 + hanoi(n - 1, c, b, a)~\
    print(hanoi(6, 'a', 'b', 'c')) => 63~well
def a(m, n):~    if m == 0:~        return n + 1~    if n == 0:~        return a(m - 1, 1)~    return a(m - 1, a(m, \
    n - 1))~print(a(2, 3)) => 9~well
def perms(xs):~    if not xs:~        return [[]]~    out = []~    for i in range(len(xs)):~        for p in perms(x\
    s[:i] + xs[i + 1:]):~            out.append([xs[i]] + p)~    return out~print(perms([1, 2, 3])) => [[1, 2, 3], [\
    1, 3, 2], [2, 1, 3], [2, 3, 1], [3, 1, 2], [3, 2, 1]]~well
def gcd(a, b):~    return a if b == 0 else gcd(b, a % b)~print(gcd(1071, 462)) => 21~well
def f(n):~    return 0 if n == 0 else 1 + f(n - 1)~print(f(999)) => 999~well
f = lambda n: 0 if n == 0 else 1 + g(n - 1)~g = lambda n: 0 if n == 0 else 1 + f(n - 1)~print(f(999)) => 999~well
def f(n):~    return len('ab') if n == 0 else f(n - 1)~print(f(999)) => 2~well
def f():~    return 1~t = 0~for i in range(2000):~    t += f()~print(t) => 2000~well
def f(n):~    return 1 if n < 2 else n * f(n - 1)~print(f(21)) => OverflowError: int
def f(n):~    return 0 if n == 0 else 1 + f(n - 1)~print(f(1000)) => RecursionError: calls
f = lambda n: 0 if n == 0 else 1 + g(n - 1)~g = lambda n: 0 if n == 0 else 1 + f(n - 1)~print(f(1000)) => RecursionE\
    rror: calls
def f(n):~    return 0 if n == 0 else 1 + f(n - 1)~try:~    print(f(1000))~except RecursionError as e:~    print(e)~\
    print(f(999)) => calls~999~well
def f():~    try:~        return 1 + f()~    except RecursionError:~        return 1~print(f()) => 1000~well"#;

#[test]
fn functions_are_called(rt: HostRuntime) -> Result<(), Fail> {
    all_answer(rt.alloc(), &Ran, CALLS)?;
    all_answer(rt.alloc(), &Ran, RETURNS)
}

#[test]
fn calls_are_refused(rt: HostRuntime) -> Result<(), Fail> {
    all_answer(rt.alloc(), &Ran, WRONG_CALLS)
}

#[test]
fn functions_find_the_names_around_them(rt: HostRuntime) -> Result<(), Fail> {
    all_answer(rt.alloc(), &Ran, CLOSURES)
}

#[test]
fn parameters_take_defaults_and_what_is_left_over(rt: HostRuntime) -> Result<(), Fail> {
    all_answer(rt.alloc(), &Ran, DEFAULTS)
}

#[test]
fn functions_are_values(rt: HostRuntime) -> Result<(), Fail> {
    all_answer(rt.alloc(), &Ran, CALLBACKS)
}

#[test]
fn functions_call_themselves(rt: HostRuntime) -> Result<(), Fail> {
    all_answer(rt.alloc(), &Ran, RECURSION)
}
