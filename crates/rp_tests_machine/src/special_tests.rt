//! Scripts whose operations special methods do. CPython gave what those print that end well.

use crate::ran::{RanBehind, RanFor, RanTrusted, RanTrustedWithin};
use rp_tests_cases::all_answer;
use std::test::Fail;

/// A class with all special methods of containers.
const BOX: &str = r#"class Box:
    def __init__(self, xs):
        self.xs = xs
    def __getitem__(self, i):
        return self.xs[i]
    def __setitem__(self, i, v):
        self.xs[i] = v
    def __delitem__(self, i):
        del self.xs[i]
    def __len__(self):
        return len(self.xs)
    def __contains__(self, v):
        return v in self.xs
"#;

/// The box is defined before each.
const BOXED: &str =
    r#"b = Box([1, 2, 3])~print(b[0], b[-1], len(b), 2 in b, 5 in b, 5 not in b) => 1 3 3 True False\
     True~well
b = Box([1, 2, 3])~b[0] = 7~del b[1]~print(b.xs) => [7, 3]~well
b = Box([1, 2])~b[0] += 5~b[1] *= b[0]~print(b.xs) => [6, 12]~well
b = Box([[1, 2], 'ab', lambda x: x + 1])~print(b[0][1], b[1][-1], b[2](4), b[1].find('b'), b[0][1:]) => 2 b 5 1 [2]~\
    well
b = Box([1, 2])~for b[0] in [8, 9]:~    print(b[0], b.xs)~a, b[1] = 5, 6~b[0] = c = 4~print(a, b.xs, c) => 8 [8, 2]~\
    9 [9, 2]~5 [4, 6] 4~well
b = Box([1, 2])~b[0], b[1] = b[1], b[0]~print(b.xs) => [2, 1]~well
b = Box([1, 2])~print([b[i] for i in range(len(b))], [x for x in [1, 3] if x in b], {x: b[0] for x in b.xs if x not \
    in [1]}) => [1, 2] [1] {2: 1}~well
b = Box([0, 1, 2])~del b[0], b[0]~print(b.xs, len(b)) => [2] 1~well
b = Box([])~try:~    b[3]~except IndexError:~    print('none')~finally:~    print('last') => none~last~well
b = Box([Box([5])])~b[0][0] = 6~b[0][0] += 1~print(b[0][0], len(b[0]), 7 in b[0]) => 7 1 True~well
b = Box([1])~print(len(b) + len(b), -len(b), not len(b), [len(b), len([])])~f = len~print(f(b), (lambda g, x: g(x))(\
    len, b), len(*[b])) => 2 -1 False [1, 0]~1 1 1~well
b = Box({'n': 2})~b['m'] = b['n'] ** 3~b['n'] -= 1~print(b.xs, 'm' in b, 8 in b, len(b)) => {'n': 1, 'm': 8} True Fa\
    lse 2~well
b = Box([1, 2, 3])~i = 0~while i < len(b):~    b[i] += 10~    i += 1~print(b.xs, b[0] < b[1] < b[2], b[0] and b[1], \
    0 or b[2]) => [11, 12, 13] True 12 13~well
b = Box([[3, 1], {'sep': 2}])~def f(*xs, **d):~    return (xs, d)~print(f(*b[0], **b[1]), f(b[0], k=b[1]['sep'])) =>\
     ((3, 1), {'sep': 2}) (([3, 1],), {'k': 2})~well
b = Box([ValueError('held'), ValueError])~try:~    raise b[0]~except b[1] as e:~    print('taken', e) => taken held~\
    well
b = Box([True, 'told'])~assert b[0], b[1]~if b[0]:~    print('yes' if not b[0] else b[1])~b[0] = False~assert b[0], \
    b[1] => told~AssertionError: told
b = Box([1, 2])~def f(x=b[1]):~    return x~b[1] = 3~print(f(), (lambda: b[1])()) => 2 3~well
class A:~    pass~b = Box([A()])~b[0].x = 1~b[0].x += 4~print(b[0].x)~del b[0].x~b[0].x => 5~AttributeError: x
b = Box([2])~print(len(b), b[0], 2 in b)~b.xs = {}~print(len(b), 2 in b)~b[0] => 1 2 True~0 False~KeyError: 0
b = Box([1])~b.xs = b~b[0] => RecursionError: calls
b = Box([1])~b[1] = 2 => IndexError: index
b = Box((1, 2))~print(b[1], len(b), 2 in b)~b[1] = 2 => 2 2 True~TypeError: item
b = Box('abc')~print(b[1], len(b), 'bc' in b)~del b[1] => b 3 True~TypeError: item
b = Box([1])~b[0] += 'x' => TypeError: operand
b = Box([1])~b[0] += undefined => NameError: undefined"#;

const SPECIAL: &str =
    r#"class A:~    def __contains__(self, v):~        return [v] if v else ''~a = A()~print(1 in \
    a, 0 in a, 1 not in a, 0 not in a) => True False False True~well
class A:~    def __contains__(self, v):~        print('asked', v)~        return v > 1~a = A()~print(1 < 2 in a, 3 i\
    n a in [a], 0 in a in 5) => asked 2~asked 3~asked 0~True True False~well
class A:~    def __len__(self):~        return True~print(len(A())) => 1~well
class A:~    def __getitem__(self, i):~        print('get', i)~        return i~    def __setitem__(self, i, v):~   \
         print('set', i, v)~        return 'dropped'~    def __delitem__(self, i):~        print('del', i)~        r\
    eturn 5~a = A()~a['k'] = a[1] = a[2]~del a['k']~a[3] -= a[4] => get 2~set k 2~set 1 2~del k~get 3~get 4~set 3 -1\
    ~well
class A:~    def __getitem__(self, i):~        return i~a = A()~print(a[None], a['x'], a[(1, 2)], a[a] == a) => None\
     x (1, 2) True~well
class A:~    def __getitem__(self, n):~        return 0 if n == 0 else n + self[n - 1]~print(A()[10]) => 55~well
class A:~    def __call__(self, x):~        return x~    def __len__(self):~        return 3~a = A()~print(a(len(a))\
    ) => 3~well
class A:~    def __len__(self):~        return 0~    def __getitem__(self, i):~        return i~a = A()~x = len(a) o\
    r a[2] or a[3]~print(x, a[1] if len(a) == 0 else 'no', len(a) and 1)~while a[0]:~    pass~assert a[1]~print({a[1\
    ]: a[2]}, (a[3],), a[4] ** a[2], -a[1]) => 2 1 0~{1: 2} (3,) 16 -1~well
class A:~    def __getitem__(self, i):~        raise KeyError('own')~a = A()~try:~    a[1]~except KeyError as e:~   \
     print('taken') => taken~well
class A:~    def __setitem__(self, i, v):~        self.i = i~        self.v = v~def f():~    a = A()~    a[1] = 2~  \
      return (a.i, a.v)~print(f()) => (1, 2)~well
class A:~    def __getitem__(self, *xs):~        return xs~    def __len__(self, n=4):~        return n~print(A()[1]\
    , A()[(1, 2)], len(A())) => (1,) ((1, 2),) 4~well
class A:~    def __getitem__(self, i):~        try:~            return 1 // i~        except ZeroDivisionError:~    \
            return 'none'~        finally:~            print('last')~a = A()~print(a[1], a[0]) => last~last~1 none~w\
    ell
class A:~    def __contains__(self, v):~        for x in [1, 2]:~            if x == v:~                return True~\
    a = A()~print(2 in a, 3 in a, 3 not in a) => True False True~well
class A:~    def __getitem__(self, i):~        return lambda x, k=0: (i, x, k)~a = A()~print(a['f'](1), a['g'](*[2],\
     k=3)) => ('f', 1, 0) ('g', 2, 3)~well
class A:~    pass~a = A()~a.n = 1~class B:~    def __getitem__(self, i):~        return a~    def __delitem__(self, \
    i):~        a.n = 'deleted'~b = B()~b[0].n = 2~b[0].n += 5~print(b[1].n)~del b[2]~print(a.n) => 7~deleted~well
class A:~    def __len__(self):~        return 2~    def __getitem__(self, i):~        return len(self) * i~    def \
    __contains__(self, v):~        return self[1] == v~print(2 in A(), 3 in A(), A()[4]) => True False 8~well
def f(a):~    def g():~        return a[1] + a[2]~    return g~class A:~    def __getitem__(self, i):~        return\
     i * 10~print(f(A())(), f([0, 1, 2])()) => 30 3~well
class A:~    def __getitem__(self, i):~        print('read')~        return [i]~    def __setitem__(self, i, v):~   \
         print('stored', i, v)~a = A()~(print('place') or a)[print('key') or 1] += (print('right') or [2]) => place~\
    key~read~right~stored 1 [1, 2]~well
class A:~    def __setitem__(self, i, v):~        print(i, v)~a = A()~(print('place') or a)[print('key') or 1] = pri\
    nt('right') => right~place~key~1 None~well
class A:~    def __getitem__(self, i):~        return i~print([A()['x']] * 2, A()[(1,)][0], str(A()[1]) + 'x') => ['\
    x', 'x'] 1 1x~well"#;

const REFUSALS: &str = r#"class A:~    pass~A()[0] => TypeError: item
class A:~    pass~A()[0] = 1 => TypeError: item
class A:~    pass~del A()[0] => TypeError: item
class A:~    pass~1 in A() => TypeError: operand
class A:~    pass~len(A()) => TypeError: len
class A:~    pass~a = A()~a.__len__ = lambda: 3~len(a) => TypeError: len
class A:~    def __getitem__(self):~        pass~A()[1] => TypeError: arguments
class A:~    def __len__(self, n):~        return n~len(A()) => TypeError: arguments
class A:~    def __setitem__(self, i):~        pass~A()[1] = 2 => TypeError: arguments
class A:~    def __getitem__(self, i):~        return self[i]~A()[0] => RecursionError: calls
class A:~    def __len__(self):~        return len(self)~len(A()) => RecursionError: calls
class A:~    def __len__(self):~        return 'a'~len(A()) => TypeError: len
class A:~    def __len__(self):~        return [1]~len(A()) => TypeError: len
class A:~    def __len__(self):~        pass~len(A()) => TypeError: len
class A:~    def __len__(self):~        return 1~len(A(), A()) => TypeError: arguments
class A:~    def __len__(self):~        return 1~len(x=A()) => TypeError: arguments
class A:~    def __contains__(self, v):~        return 1 // v~print(1 in A(), 0 in A()) => ZeroDivisionError: zero
class A:~    def __setitem__(self, i, v):~        raise ValueError('no')~A()[1] = 2 => ValueError: no
class A:~    def __delitem__(self, i):~        raise ValueError('no')~del A()[1] => ValueError: no
class A:~    def __getitem__(self, i):~        return i~a = A()~a[1] += 2 => TypeError: item
class A:~    def __setitem__(self, i, v):~        pass~a = A()~a[1] += 2 => TypeError: item
class A:~    def __getitem__(self, i):~        print(i)~a = A()~a[1] += 2 => 1~TypeError: operand
class A:~    def __delitem__(self, i):~        print('del', i)~a = A()~del a[1], a[2], b[3] => del 1~del 2~NameError\
    : b
class A:~    def __getitem__(self, i):~        return i~    def __len__(self):~        return 1~a, b = 1, A()[2][3] \
    => TypeError: item
class A:~    def __getitem__(self, i):~        return i~A()[0:1] => TypeError: item
class A:~    def __getitem__(self, i):~        return i~for x in A():~    pass => TypeError: iterate
class A:~    def __getitem__(self, i):~        return i~a, b = A() => TypeError: iterate
class A:~    def __getitem__(self, i):~        return i~1 in A() => TypeError: operand
class A:~    def __len__(self):~        return -1~len(A()) => TypeError: len
class A:~    def __len__(self):~        return 0~print('yes' if A() else 'no', not A(), bool(A())) => yes False True\
    ~well"#;

/// The steps, the cells, the script, and what comes of it.
const TAKEN: &str =
    r#"11 => 7 => class A:~    def __getitem__(self, i):~        return i~a = A()~a[1] => well~
10 => 7 => class A:~    def __getitem__(self, i):~        return i~a = A()~a[1] => no step~
11 => 6 => class A:~    def __getitem__(self, i):~        return i~a = A()~a[1] => no cell~
9 => 6 => class A:~    def __len__(self):~        return 3~len(A()) => well~
8 => 6 => class A:~    def __len__(self):~        return 3~len(A()) => no step~
9 => 5 => class A:~    def __len__(self):~        return 3~len(A()) => no cell~
11 => 7 => class A:~    def __contains__(self, v):~        return 1~a = A()~1 in a => well~
10 => 7 => class A:~    def __contains__(self, v):~        return 1~a = A()~1 in a => no step~
11 => 6 => class A:~    def __contains__(self, v):~        return 1~a = A()~1 in a => no cell~
10 => 8 => class A:~    def __setitem__(self, i, v):~        pass~a = A()~a[1] = 2 => well~
9 => 8 => class A:~    def __setitem__(self, i, v):~        pass~a = A()~a[1] = 2 => no step~
10 => 7 => class A:~    def __setitem__(self, i, v):~        pass~a = A()~a[1] = 2 => no cell~
9 => 7 => class A:~    def __delitem__(self, i):~        pass~a = A()~del a[1] => well~
8 => 7 => class A:~    def __delitem__(self, i):~        pass~a = A()~del a[1] => no step~
9 => 6 => class A:~    def __delitem__(self, i):~        pass~a = A()~del a[1] => no cell~
13 => 13 => class A:~    def __getitem__(self, i):~        return i~    def __setitem__(self, i, v):~        pass~a = \
    A()~a[1] += 2 => well~
12 => 13 => class A:~    def __getitem__(self, i):~        return i~    def __setitem__(self, i, v):~        pass~a = \
    A()~a[1] += 2 => no step~
13 => 12 => class A:~    def __getitem__(self, i):~        return i~    def __setitem__(self, i, v):~        pass~a = \
    A()~a[1] += 2 => no cell~
1000 => 1000 => class A:~    def __getitem__(self, i):~        while 1:~            pass~try:~    A()[1]~finally:~    \
    print('no') => no step~
1000 => 9 => class A:~    def __len__(self):~        print('abc')~try:~    len(A())~except:~    print() => no cell~"#;

/// The principal, the script, and what comes of it. The shelf's class has rows for special methods, and none of these.
const DECIDED: &str =
    r#"eve => print(len(shelf)) => TypeError: len~1 1 eve allow get Shelf.__len__ zope.Public~
eve => shelf[0] => Unauthorized: demo.View~1 1 eve deny get Shelf.__getitem__ demo.View~
bob => shelf[0] => TypeError: item~1 1 bob allow get Shelf.__getitem__ demo.View~
bob => shelf[1:] => TypeError: item~1 1 bob allow get Shelf.__getitem__ demo.View~
bob => 1 in shelf => TypeError: operand~1 1 bob allow get Shelf.__contains__ demo.View~
eve => 1 not in shelf => Unauthorized: demo.View~1 1 eve deny get Shelf.__contains__ demo.View~
bob => shelf[0] = 1 => Unauthorized: demo.Edit~1 1 bob deny get Shelf.__setitem__ demo.Edit~
ann => shelf[0] = 1 => TypeError: item~1 1 ann allow get Shelf.__setitem__ demo.Edit~
bob => del shelf[0] => Unauthorized: demo.Edit~1 1 bob deny get Shelf.__delitem__ demo.Edit~
ann => del shelf[0] => TypeError: item~1 1 ann allow get Shelf.__delitem__ demo.Edit~
eve => len(site) => ForbiddenAttribute: __len__~1 1 eve forbid get Page.__len__~
eve => site['x'] => ForbiddenAttribute: __getitem__~1 1 eve forbid get Page.__getitem__~
eve => 'x' in site => ForbiddenAttribute: __contains__~1 1 eve forbid get Page.__contains__~
eve => site['x'] = 1 => ForbiddenAttribute: __setitem__~1 1 eve forbid get Page.__setitem__~
eve => del site['x'] => ForbiddenAttribute: __delitem__~1 1 eve forbid get Page.__delitem__~"#;

#[test]
fn boxes_do_what_lists_do(rt: HostRuntime) -> Result<(), Fail> {
    all_answer(rt.alloc(), &RanBehind { front: BOX }, BOXED)
}

#[test]
fn special_methods_are_called(rt: HostRuntime) -> Result<(), Fail> {
    all_answer(rt.alloc(), &RanTrusted, SPECIAL)
}

#[test]
fn special_methods_are_refused(rt: HostRuntime) -> Result<(), Fail> {
    all_answer(rt.alloc(), &RanTrusted, REFUSALS)
}

#[test]
fn special_methods_take_steps_and_cells(rt: HostRuntime) -> Result<(), Fail> {
    all_answer(rt.alloc(), &RanTrustedWithin, TAKEN)
}

#[test]
fn operations_are_decided_before_special_methods(rt: HostRuntime) -> Result<(), Fail> {
    all_answer(rt.alloc(), &RanFor, DECIDED)
}
