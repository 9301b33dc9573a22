//! The command `show`: the text of scripts as they run, by the table of guards and the rules of printed text.

use crate::program_answers::Said;
use rp_tests_cases::all_answer;
use std::test::Fail;

const GUARDS: &str = r#"show s.py => x = o.a => x = _getattr_(o, 'a')~0
show s.py => x = o.a.b[0].c => x = _getattr_(_getitem_(_getattr_(_getattr_(o, 'a'), 'b'), 0), 'c')~0
show s.py => x = o[:] => x = _getitem_(o, slice(None, None, None))~0
show s.py => x = o[a:b:c.d] => x = _getitem_(o, slice(a, b, _getattr_(c, 'd')))~0
show s.py => o.a = p[0] => _write_(o).a = _getitem_(p, 0)~0
show s.py => o.a.b = o[i][j] = v => _write_(_getattr_(o, 'a')).b = _write_(_getitem_(o, i))[j] = v~0
show s.py => del o.a, o[i], x => del _write_(o).a, _write_(o)[i], x~0
show s.py => a, b = x.y[1]~for i in xs:~    o.n = i~f(*xs)~t += 1 => (a, b) = _unpack_sequence_(_getitem_(_getattr_(x, \
    'y'), 1), (2,), _getiter_)~for i in _getiter_(xs):~    _write_(o).n = i~_apply_(f, *xs)~\
    t = _inplacevar_('+=', t, 1)~0
show s.py => for a, b in e: pass => for (a, b) in _iter_unpack_sequence_(e, (2,), _getiter_):~    pass~0
show s.py => for x in a, b: pass => for x in _getiter_((a, b)):~    pass~0
show s.py => for o.a in e: pass => for _write_(o).a in _getiter_(e):~    pass~0
show s.py => a, = e => (a,) = _unpack_sequence_(e, (1,), _getiter_)~0
show s.py => [a, (b, c)] = e => (a, (b, c)) = _unpack_sequence_(e, (2, (1, (2,))), _getiter_)~0
show s.py => (a, b), c, (d, (e, f)) = x => ((a, b), c, (d, (e, f))) = _unpack_sequence_(x, (3, (0, (2,)), (2, (2, (1, \
    (2,))))), _getiter_)~0
show s.py => f(x, k=1, **d) => _apply_(f, x, k=1, **d)~0
show s.py => f(x, k=o.a) => f(x, k=_getattr_(o, 'a'))~0
show s.py => o.f(*a)(b) => _apply_(_getattr_(o, 'f'), *a)(b)~0
show s.py => f(g(*a), *h(b)) => _apply_(f, _apply_(g, *a), *h(b))~0
show s.py => x **= f(*a) => x = _inplacevar_('**=', x, _apply_(f, *a))~0
show s.py => y = [x.a for x in e if x.b] => y = [_getattr_(x, 'a') for x in _getiter_(e) if _getattr_(x, 'b')]~0
show s.py => y = [x for r in m for (x,) in r] \
    => y = [x for r in _getiter_(m) for (x,) in _iter_unpack_sequence_(r, (1,), _getiter_)]~0
show s.py => y = {k: v for k, v in d.items()} \
    => y = {k: v for (k, v) in _iter_unpack_sequence_(_getattr_(d, 'items')(), (2,), _getiter_)}~0
show s.py => x = o.a[i](j) => x = _getitem_(_getattr_(o, 'a'), i)(j)~0
show s.py => x = [o.a, o[i]], {o.a: o[i]} \
    => x = ([_getattr_(o, 'a'), _getitem_(o, i)], {_getattr_(o, 'a'): _getitem_(o, i)})~0
show s.py => x = -o.a; y = not o.a => x = -_getattr_(o, 'a')~y = not _getattr_(o, 'a')~0
show s.py => x = o.a + o[i] * 2 => x = _getattr_(o, 'a') + (_getitem_(o, i) * 2)~0
show s.py => x = o.a < o.b => x = _getattr_(o, 'a') < _getattr_(o, 'b')~0
show s.py => x = o.a if o.b else o.c => x = _getattr_(o, 'a') if _getattr_(o, 'b') else _getattr_(o, 'c')~0
show s.py => x = lambda a=o.b: a.c => x = lambda a=_getattr_(o, 'b'): _getattr_(a, 'c')~0
show s.py => def f(x): return x.a, x[0] => def f(x):~    return (_getattr_(x, 'a'), _getitem_(x, 0))~0
show s.py => raise E(o.a) => raise E(_getattr_(o, 'a'))~0
show s.py => assert o.a, o.b => assert _getattr_(o, 'a'), _getattr_(o, 'b')~0
show s.py => try: x = o.a~except o.E as e: y = e.args \
    => try:~    x = _getattr_(o, 'a')~except _getattr_(o, 'E') as e:~    y = _getattr_(e, 'args')~0
show s.py => x = f(*o.a, **o.b) => x = _apply_(f, *_getattr_(o, 'a'), **_getattr_(o, 'b'))~0
show s.py => x = o.f(*a).g(**b) => x = _apply_(_getattr_(_apply_(_getattr_(o, 'f'), *a), 'g'), **b)~0
show s.py => x = [a for a in o.b for c in a.d] \
    => x = [a for a in _getiter_(_getattr_(o, 'b')) for c in _getiter_(_getattr_(a, 'd'))]~0
show s.py => x -= o[i] => x = _inplacevar_('-=', x, _getitem_(o, i))~0
show s.py => x[0], y.a = e => (_write_(x)[0], _write_(y).a) = _unpack_sequence_(e, (2,), _getiter_)~0
show s.py => for i, (a, b) in e: pass => for (i, (a, b)) in _iter_unpack_sequence_(e, (2, (1, (2,))), _getiter_):~    \
    pass~0
show s.py => while x.a and not y[0]: x = y => while _getattr_(x, 'a') and (not _getitem_(y, 0)):~    x = y~0
show s.py => class A:~    def __init__(self, a): self.a = a \
    => class A:~    def __init__(self, a):~        _write_(self).a = a~0
show s.py => print(o, 'a') => print(o, 'a')~0"#;

const FORMS: &str = r#"show s.py => x=1;y=2 => x = 1~y = 2~0
show s.py => x = y = -1 => x = y = -1~0
show s.py => y = a+b*c; y = (a+b)*c; y = a-b-c => y = a + (b * c)~y = (a + b) * c~y = a - b - c~0
show s.py => y = - -x; y = 2**-1; y = -x**2 => y = -(-x)~y = 2 ** (-1)~y = -(x ** 2)~0
show s.py => y = not a and b or c => y = ((not a) and b) or c~0
show s.py => y = a < b <= c+1 is not None not in d => y = a < b <= (c + 1) is not None not in d~0
show s.py => y = a if b else c; y = (a if b else c) if d else e => y = a if b else c~y = (a if b else c) if d else e~0
show s.py => y = lambda: 0; y = lambda a, b=1, *c, **d: (a, b) => y = lambda: 0~y = lambda a, b=1, *c, **d: (a, b)~0
show s.py => y = (), (1,), [], [2], {}, {3: 4, a: b} => y = ((), (1,), [], [2], {}, {3: 4, a: b})~0
show s.py => y = 'a"b'; y = "a'b"; y = 'a\n\\' => y = 'a"b'~y = "a'b"~y = 'a\n\\'~0
show s.py => y = None; y = True, False => y = None~y = (True, False)~0
show s.py => y = [i for i in r if i and j if k] => y = [i for i in _getiter_(r) if (i and j) if k]~0
show s.py => y = (a + b)(c); y = (1)(2); y = (1).a => y = (a + b)(c)~y = (1)(2)~y = _getattr_(1, 'a')~0
show s.py => if a: x = 1~elif b: y = 2~else: z = 3 => if a:~    x = 1~elif b:~    y = 2~else:~    z = 3~0
show s.py => while o.a:~  if b: break~  else:~    continue \
    => while _getattr_(o, 'a'):~    if b:~        break~    else:~        continue~0
show s.py => try: f()~except E as e: raise~except: pass~else: g()~finally: h() \
    => try:~    f()~except E as e:~    raise~except:~    pass~else:~    g()~finally:~    h()~0
show s.py => assert a; assert a, 'b'; raise E('x') => assert a~assert a, 'b'~raise E('x')~0
show s.py => def f(a, b=o.x, *c, **d):~    global g, h~    return a \
    => def f(a, b=_getattr_(o, 'x'), *c, **d):~    global g, h~    return a~0
show s.py => def f(): return => def f():~    return~0
show s.py => class A(): pass => class A:~    pass~0
show s.py => class A:~    def m(self): return self.x => class A:~    def m(self):~        return _getattr_(self, 'x')~0
show s.py => x = ａ => x = a~0
show s.py =>  => 0
show s.py => print(f'a{x}b')~y = x in {1, 2} => print(_getattr_('', 'join')(['a', str(x), 'b']))~\
    y = x in {1: None, 2: None}~0"#;

const REFUSED: &str = r#"show s.py => _x = 1 => line 1: name "_x" is forbidden~4
show s.py => x = = 1 => line 1: syntax~4
show s.py => o.a += 1; _y => line 1: augmented assignment to an attribute or item is forbidden~\
    line 1: name "_y" is forbidden~4"#;

#[test]
fn shows_each_guard(rt: HostRuntime) -> Result<(), Fail> {
    all_answer(rt.alloc(), &Said::To, GUARDS)
}

#[test]
fn shows_each_form(rt: HostRuntime) -> Result<(), Fail> {
    all_answer(rt.alloc(), &Said::To, FORMS)
}

#[test]
fn shows_no_script_that_is_refused(rt: HostRuntime) -> Result<(), Fail> {
    all_answer(rt.alloc(), &Said::To, REFUSED)
}
