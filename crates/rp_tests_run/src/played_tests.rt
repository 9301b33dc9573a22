//! Scripts that the machine runs, over fields of every kind. What the plain ones print is what Python prints.

use crate::program_answers::Said;
use rp_tests_cases::all_answer;
use std::test::Fail;

const PLAIN: &str = r#"x = 1 + 2~print(x) => session 1 bob~3~end ok~0
if True: pass => session 1 bob~end ok~0
t = 0~for x in [1, 2, 3]:~    t += x * x~print(t, t // 4, t % 4, -t // 4) => session 1 bob~14 3 2 -4~end ok~0
n = 27~steps = 0~while n != 1:~    n = 3 * n + 1 if n % 2 else n // 2~    steps += 1~print(steps) => session 1 bob~1\
    11~end ok~0
d = {'b': 1, 'a': [2, 3]}~d['c'] = (4,)~for k in sorted(d):~    print(k, d[k])~print('a' in d, len(d), d.get('z', 0)\
    ) => session 1 bob~a [2, 3]~b 1~c (4,)~True 3 0~end ok~0
a, (b, c) = 1, 'xy'~a, b = b, a~print(a, b, c) => session 1 bob~x 1 y~end ok~0
s = 'a-b-c'~print(s.split('-'), '+'.join(s.split('-')), s[::-1], s[1:4]) => session 1 bob~['a', 'b', 'c'] a+b+c c-b-\
    a -b-~end ok~0
print(min(3, 1), max([4, 9]), sum((1, 2)), abs(-5), list(range(2, 8, 3)), list(zip('ab', [1, 2]))) => session 1 bob~\
    1 9 3 5 [2, 5] [('a', 1), ('b', 2)]~end ok~0
print(1 < 2 < 3, not [], 1 is None, 'a' in 'cat', 2 ** 10, 7 & 3 | 8) => session 1 bob~True True False True 1024 11~\
    end ok~0
for i in range(5):~    if i == 1:~        continue~    if i == 4:~        break~    print(i) => session 1 bob~0~2~3~\
    end ok~0
total = 0~for pair in enumerate(['x', 'yy']):~    total += pair[0] + len(pair[1])~print(f'{total} in all') => sessio\
    n 1 bob~4 in all~end ok~0
b = 2~b += 3~b **= 2~b -= 1~print(b, b == 24 and 'yes' or 'no') => session 1 bob~24 yes~end ok~0
assert 1 < 2, 'no'~print('held') => session 1 bob~held~end ok~0
print(-7 // 2, -7 % 3, 7 // -2, 7 % -3) => session 1 bob~-4 2 -4 -2~end ok~0
x = [1]~x.append(x)~print(x) => session 1 bob~[1, [...]]~end ok~0
print({True: 'a', 1: 'b'}) => session 1 bob~{True: 'b'}~end ok~0
n = 3~print(f'a{n}b{{}}') => session 1 bob~a3b{}~end ok~0
print((2 in {1, 2}), [x for x in {3, 3, 1}]) => session 1 bob~True [3, 1]~end ok~0
x = 5~def f():~    global x~    x = x + 1~f()~print(x) => session 1 bob~6~end ok~0"#;

/// Over the folder, whose fields are numbers and texts.
const FOLDER: &str =
    r#"for i in (1, 2):~    print(root.title, i) => session 1 bob~Home 1~Home 2~end ok~0
print(len(root.title) + root.size) => session 1 bob~7~end ok~0
x = root~if x.size > 2:~    print(x.title[0]) => session 1 bob~H~end ok~0
print('on')~root.title = 'New' => session 1 bob~on~end Unauthorized: zope.Manage~1
x = root.secret + 1 => session 1 bob~end ForbiddenAttribute: secret~1
print(1 // 0) => session 1 bob~end ZeroDivisionError: zero~1
raise ValueError('no') => session 1 bob~end ValueError: no~1
print(1)~print(q + 1) => session 1 bob~1~end NameError: q~1
while True:~    pass => session 1 bob~end stopped steps~5
print('on')~x = [0] * 2000000 => session 1 bob~on~end stopped cells~5
print(-7 // 2, -7 % 3)~print(9223372036854775807 + 1) => session 1 bob~-4 2~end OverflowError: int~1
{}['a'] => session 1 bob~end KeyError: 'a'~1
a, b = [1] => session 1 bob~end ValueError: unpack~1
def f():~    x = x + 1~f() => session 1 bob~end UnboundLocalError: x~1
x = []~for i in range(250): x = [x]~print(x) => session 1 bob~end RecursionError: depth~1
x = [1]~for i in range(30): x = [x, x]~print(str(x)) => session 1 bob~end stopped cells~5
x = [1]~y = [1]~for i in range(20):~    x = [x, x]~    y = [y, y]~print(x == y) => session 1 bob~end stopped steps~5"#;

const SHOP: &str =
    r#"for a in catalogue.articles:~    print(a, len(a)) => session 1 bob~saw 3~nail 4~end ok~0
print(saw.tags[-1], saw.sizes['small'], len(saw.tags), sorted(saw.sizes)) => session 1 bob~steel 3 2 ['small']~end ok~0
x = [catalogue.title] * 2~x[0] = saw.price~print(x) => session 1 bob~[1290, 'Tools']~end ok~0
saw.price = 1300~print(saw.price + 1) => session 1 bob~1301~end ok~0
print(saw.price)~print(saw.cost) => session 1 bob~1290~end Unauthorized: shop.Cost~1
print(saw.tags) => session 1 bob~['wood', 'steel']~end ok~0
saw.tags.append('x') => session 1 bob~end ForbiddenAttribute: append~1
saw.tags[0] = 'x' => session 1 bob~end ForbiddenAttribute: __setitem__~1
print(saw.sold) => session 1 bob~end ForbiddenAttribute: sold~1"#;

/// Functions and handlers, over the folder too.
const FUNCTIONS: &str =
    r#"def fib(n):~    return n if n < 2 else fib(n - 1) + fib(n - 2)~for i in range(8):~    print(fib(i)) => session\
     1 bob~0~1~1~2~3~5~8~13~end ok~0
def f(n):~    return 0 if n == 0 else 1 + f(n - 1)~print(f(999))~print(f(1000)) => session 1 bob~999~end RecursionErro\
    r: calls~1
def f(page):~    try:~        return page.secret~    except AttributeError as e:~        return e~    finally:~        \
    print('asked')~print(f(root)) => session 1 bob~asked~secret~end ok~0
title = lambda page=root: page.title~try:~    root.title = 'New'~except Unauthorized as e:~    print(title(), e) => ses\
    sion 1 bob~Home zope.Manage~end ok~0
def f(n, k=2):~    def g(x):~        return x * k + n~    return g~print(f(1)(3), f(1, 5)(3)) \
    => session 1 bob~7 16~end ok~0
f = lambda *xs: sum(xs)~try:~    print(f(1, 2), f('a'))~except TypeError:~    print('taken')~finally:~    print('las\
    t') => session 1 bob~taken~last~end ok~0
try:~    root.title = 'New'~except Unauthorized as e:~    print('not without', e)~else:~    print('set') \
    => session 1 bob~not without zope.Manage~end ok~0
try:~    print(root.secret)~except Forbidden as e:~    print(e)~    raise \
    => session 1 bob~secret~end ForbiddenAttribute: secret~1
def f():~    return f()~f() => session 1 bob~end RecursionError: calls~1
def f():~    try:~        while True:~            pass~    except:~        print('no')~    finally:~        print('no')\
    ~f() => session 1 bob~end stopped steps~5"#;

/// Classes, comprehensions, and arguments by name and star.
const CLASSES: &str =
    r#"class A:~    def __init__(self, n, k=2):~        self.n = n * k~    def get(self):~        return self.n\
    ~print(A(3).get(), A(3, k=5).n) => session 1 bob~6 15~end ok~0
print([i * 2 for i in (1, 2) if i > 1], {i: [i] for i in (1, 2)}, 2 in {i for i in (1, 2, 1)}) \
    => session 1 bob~[4] {1: [1], 2: [2]} True~end ok~0
def f(x, *xs, **d):~    return (x, xs, d)~print(f(1, *[2, 3], k=4), f(**{'x': 5})) \
    => session 1 bob~(1, (2, 3), {'k': 4}) (5, (), {})~end ok~0
def f(x):~    return x~f(y=1) => session 1 bob~end TypeError: arguments~1
print([len(title) for title in [root.title]]) => session 1 bob~[4]~end ok~0
print([name for name in root.secret]) => session 1 bob~end ForbiddenAttribute: secret~1"#;

/// Comprehensions and arguments over what is lent.
const LENT: &str =
    r#"print([len(a) for a in catalogue.articles], {a: saw.price for a in catalogue.articles if a == 'saw'}) \
    => session 1 bob~[3, 4] {'saw': 1290}~end ok~0
print(*catalogue.articles, *saw.sizes) => session 1 bob~saw nail small~end ok~0
def f(**d):~    return d~print(f(**saw.sizes)) => session 1 bob~{'small': 3}~end ok~0
print([x for x in saw.sold]) => session 1 bob~end ForbiddenAttribute: sold~1"#;

/// Attributes by their words.
const WORDS: &str =
    r#"print(getattr('-', 'join')(['a', 'b']), getattr(root, 'title'), getattr(root, 'sold', 0)) \
    => session 1 bob~a-b Home 0~end ok~0
class A: pass~a = A()~setattr(a, 'x', 5)~print(a.x)~setattr(root, 'title', 'New') \
    => session 1 bob~5~end Unauthorized: zope.Manage~1
print(getattr(root, 'secret')) => session 1 bob~end ForbiddenAttribute: secret~1
print(getattr(root, '__class__', 0)) => session 1 bob~end ForbiddenAttribute: __class__~1"#;

#[test]
fn runs_plain_scripts_as_python_does(rt: HostRuntime) -> Result<(), Fail> {
    all_answer(rt.alloc(), &Said::Of, PLAIN)
}

#[test]
fn runs_scripts_over_numbers_and_texts(rt: HostRuntime) -> Result<(), Fail> {
    all_answer(rt.alloc(), &Said::Of, FOLDER)
}

#[test]
fn runs_scripts_over_lists_and_dicts(rt: HostRuntime) -> Result<(), Fail> {
    all_answer(rt.alloc(), &Said::Shop, SHOP)
}

#[test]
fn runs_functions_and_handlers(rt: HostRuntime) -> Result<(), Fail> {
    all_answer(rt.alloc(), &Said::Of, FUNCTIONS)
}

#[test]
fn runs_classes_comprehensions_and_named_arguments(rt: HostRuntime) -> Result<(), Fail> {
    all_answer(rt.alloc(), &Said::Of, CLASSES)
}

#[test]
fn runs_comprehensions_over_what_is_lent(rt: HostRuntime) -> Result<(), Fail> {
    all_answer(rt.alloc(), &Said::Shop, LENT)
}

#[test]
fn reads_and_stores_attributes_by_words(rt: HostRuntime) -> Result<(), Fail> {
    all_answer(rt.alloc(), &Said::Of, WORDS)
}

/// A text of the declarations, another in its place, and what is said where eve prints the title.
const FIELDS: &str =
    r#"size = 3 => size = [true, { a = 1 }] => session 1 eve~end Unauthorized: zope.View~1"#;

#[test]
fn runs_over_fields_of_every_kind(rt: HostRuntime) -> Result<(), Fail> {
    all_answer(rt.alloc(), &Said::Where, FIELDS)
}
