//! Scripts that read and store attributes by `getattr` and `setattr`. CPython gave what those of ATTRIBUTES print.

use crate::ran::{Ran, RanFor, RanWithin};
use rp_tests_cases::all_answer;
use std::test::Fail;

const ATTRIBUTES: &str =
    r#"class A:~    def f(self):~        return self.x~a = A()~setattr(a, 'x', 5)~print(getattr\
    (a, 'x'), getattr(a, 'f')(), getattr(a, 'y', 'none'), getattr(a, 'x', 0)) => 5 5 none 5~well
print(getattr([1, 2], 'index')(2), getattr('ab', 'find')('b'), getattr(5, 'x', None), getattr([], 'none', 'd')) => 1\
     1 None d~well
class A:~    pass~a = A()~print(setattr(a, 'new', 1))~for n in ['p', 'q']:~    setattr(a, n, n + n)~print(a.new, a.p\
    , a.q, [getattr(a, n) for n in ['q', 'p']]) => None~1 pp qq ['qq', 'pp']~well
class A:~    pass~a = A()~try:~    getattr(a, 'missing')~except AttributeError:~    print('missing')~g = getattr~s =\
     setattr~s(a, 'x', [])~g(a, 'x').append(1)~print(a.x, getattr(a, 'for', 3)) => missing~[1] 3~well
class A:~    pass~a = A()~setattr(a, 'def', 2)~print(getattr(a, 'def')) => 2~well
class A:~    pass~a = A()~setattr(*[a, 'x', 1])~print(getattr(*[a, 'x']), getattr(a, *['y', 2]), (lambda g: g(a, 'x'\
    ))(getattr)) => 1 2 1~well
class A:~    def __init__(self):~        setattr(self, 'n', 1)~    def up(self, k):~        setattr(self, k, getattr\
    (self, k, 0) + 1)~        return self~a = A()~print(a.up('n').up('m').up('m').n, a.m) => 2 2~well
class A:~    pass~a = A()~words = ['one', 'two']~for i in range(2):~    setattr(a, words[i], i)~print([getattr(a, w)\
     for w in words + ['one']], getattr(a, 'three', None) is None) => [0, 1, 0] True~well
d = {}~print(getattr(d, 'get')('x', 1), getattr(d, 'x', getattr(d, 'y', 'z')), len(getattr('a b', 'split')())) => 1 \
    z 2~well
class A:~    pass~print(getattr(A(), 'x', ValueError).x) => AttributeError: x
class A:~    pass~a = A()~getattr(a, 'x', 1 // 0) => ZeroDivisionError: zero
class A:~    pass~a = A()~setattr(a, 'f', lambda: 3)~print(a.f(), getattr(a, 'f')()) => 3 3~well"#;

const WORDS: &str = r#"getattr(5) => TypeError: arguments
getattr() => TypeError: arguments
getattr(1, 'a', 2, 3) => TypeError: arguments
setattr(1, 'a') => TypeError: arguments
setattr(1, 'a', 2, 3) => TypeError: arguments
getattr(1, name='a') => TypeError: arguments
getattr(1, 2) => TypeError: argument
getattr(1, 2, 3) => TypeError: argument
setattr(1, None, 3) => TypeError: argument
getattr([], ['a'], 3) => TypeError: argument
getattr(1, 'a b') => AttributeError: name
setattr(1, '', 2) => AttributeError: name
setattr(1, '1a', 2) => AttributeError: name
print(getattr(1, 'a b', 7), getattr(1, '', 8), getattr(1, '1x', 9)) => 7 8 9~well
setattr([], 'x', 1) => AttributeError: x
setattr(len, 'x', 1) => AttributeError: x
getattr([], '_') => AttributeError: _
try:~    getattr(1, 'b')~except AttributeError:~    print('taken') => taken~well
getattr(1, '_a') => ForbiddenAttribute: _a
getattr(1, '_a', 7) => ForbiddenAttribute: _a
getattr([], 'tb_frame', 7) => ForbiddenAttribute: tb_frame
getattr([], 'x__roles__') => ForbiddenAttribute: x__roles__
setattr(1, '__init__', 1) => ForbiddenAttribute: __init__
getattr('a', '__class__') => ForbiddenAttribute: __class__
try:~    getattr(1, '_a')~except AttributeError as e:~    print('taken', e) => taken _a~well
try:~    getattr(1, 'b')~except AttributeError as e:~    print('taken', e) => taken b~well
x = 'a' * 256~print(getattr(1, x, 'long'))~getattr(1, x) => long~AttributeError: name
print(getattr(1, 'ﬁ', 'form'))~getattr(1, 'ﬁ') => form~AttributeError: name"#;

/// The principal, the script, and what comes of it: what it prints, how it ends, and the trail.
const DECIDED: &str =
    r#"eve => print(getattr(site, 'title')) => Home~well~1 1 eve allow get Page.title zope.Public~
bob => print(getattr(site, 'tags')) => ['a', 'b']~well~1 1 bob allow get Page.tags demo.View~2 1 bob allow get list.__\
    str__ default~
eve => print(getattr(site, 'tags', 'd')) => Unauthorized: demo.View~1 1 eve deny get Page.tags demo.View~
eve => nothing = 'd'~print(getattr(site, 'nothing', nothing)) => d~well~1 1 eve forbid get Page.nothing~
eve => nothing = 'd'~print(getattr(site, 'nothing')) => ForbiddenAttribute: nothing~1 1 eve forbid get Page.nothing~
eve => getattr(site, '_title', 1) => ForbiddenAttribute: _title~
ann => print(setattr(site, 'title', 'New'), site.title) => None New~well~1 1 ann allow set Page.title demo.Edit~2 1 an\
    n allow get Page.title zope.Public~
bob => setattr(site, 'title', 'New') => Unauthorized: demo.Edit~1 1 bob deny set Page.title demo.Edit~
eve => setattr(site, 'size', [1])~print(getattr(site, 'size')) => [1]~well~1 1 eve allow set Page.size zope.Public~2 \
    1 eve allow get Page.size zope.Public~
bob => g = getattr(getattr(site, 'info'), 'get')~print(g('n')) => 1~well~1 1 bob allow get Page.info demo.View~2 1 bo\
    b allow get dict.get zope.Public~3 1 bob allow get method.__call__ zope.Public~
bob => secret = 5~print(getattr(site, 'secret', secret))~getattr(site, '_x', 5) => 5~ForbiddenAttribute: _x~1 1 bob f\
    orbid get Page.secret~
eve => secret = 1~setattr(site, 'secret', secret) => ForbiddenAttribute: secret~1 1 eve forbid set Page.secret~
eve => getattr(site, 5) => TypeError: argument~
eve => getattr(site, 'a b', 5)~getattr(site, 'a b') => AttributeError: name~
bob => print(len(getattr(site, 'tags')), [getattr(site, w) for w in ['title', 'size']]) => 2 ['Home', 3]~well~1 1 bob\
     allow get Page.tags demo.View~2 1 bob allow get list.__len__ zope.Public~3 1 bob allow get Page.title zope.Publi\
    c~4 1 bob allow get Page.size zope.Public~
bob => x = getattr(site, 'draft', 'd') => Unauthorized: demo.Edit~1 1 bob deny get Page.draft demo.Edit~
bob => nothing = [1]~xs = getattr(site, 'nothing', nothing)~xs.append(2)~print(nothing) => [1, 2]~well~1 1 bob forbid\
     get Page.nothing~"#;

/// The steps, the cells, the script, and what comes of it.
const TAKEN: &str = r#"6 => 1 => getattr([], 'x', 5) => well~
5 => 1 => getattr([], 'x', 5) => no step~
6 => 0 => getattr([], 'x', 5) => no cell~
6 => 3 => getattr([1], 'index') => well~
6 => 2 => getattr([1], 'index') => no cell~
11 => 3 => class A:~    pass~a = A()~setattr(a, 'x', 5) => well~
10 => 3 => class A:~    pass~a = A()~setattr(a, 'x', 5) => no step~
11 => 2 => class A:~    pass~a = A()~setattr(a, 'x', 5) => no cell~
1000 => 1 => getattr(site, 'title') => well~1 1 eve allow get Page.title zope.Public~
1000 => 0 => getattr(site, 'title') => no cell~"#;

#[test]
fn attributes_are_read_and_stored_by_words(rt: HostRuntime) -> Result<(), Fail> {
    all_answer(rt.alloc(), &Ran, ATTRIBUTES)
}

#[test]
fn words_are_judged(rt: HostRuntime) -> Result<(), Fail> {
    all_answer(rt.alloc(), &Ran, WORDS)
}

#[test]
fn reads_and_stores_by_words_are_decided(rt: HostRuntime) -> Result<(), Fail> {
    all_answer(rt.alloc(), &RanFor, DECIDED)
}

#[test]
fn words_take_steps_and_cells(rt: HostRuntime) -> Result<(), Fail> {
    all_answer(rt.alloc(), &RanWithin, TAKEN)
}
