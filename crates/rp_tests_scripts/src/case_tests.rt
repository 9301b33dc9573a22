//! Small scripts, and the line at which the grammar refuses them.

// CPython's own parser agrees on which of them it takes, as bench/grammar_cases.py shows; the lines of refusals, and
// the last table, are the grammar's own.

use crate::answers::Question;
use crate::cases::all_answer;
use std::test::Fail;

const STATEMENTS_OF_PYTHON_ARE_READ: &str = "\
pass
x
x, y
x,
x = 1
x = y = 1
x = y = z = 1, 2
x, y = 1
x, = y
(x, y) = z
(x), y = z
((x, y)) = z
[x, y] = z
[x] = z
[x, y,], z = w
(x, (y, z)), w = v
x, [y, z] = w
(x) = 1
((x)) = 1
x.y = 1
x[y] = 1
x.y = x[y] = z = 1
(x.y), z[1] = w
f(x).y = 1
f(x)[y] = 1
(f(x)).y = 1
x = y, z
x = y,
x += 1
x.y -= 1
x[y] *= 1, 2
(x) //= 1
x %= 1; y **= 1; z &= 1
x |= 1; y ^= 1; z <<= 1; w >>= 1
pass; pass
pass;
pass; x = 1;
del x
del x, y
del x,
del (x), y[0]
del x.y, (z)
del f(x).y
assert x
assert x, y
assert (x, y), z
raise x
raise f(x)
global x
global x, y
if x: pass
if x: pass␊else: pass
if x: pass␊elif y: pass
if x: pass␊elif y: pass␊elif z: pass␊else: pass
if x:␊    pass␊    y = 1␊z = 1
if x: y; z
if x: y; z;
if x:␊  if y:␊    pass␊  else:␊    pass␊else:␊  pass
if x: pass␊␊␊# a comment␊y
while x: break
while x: continue
while x:␊    if y: break␊    continue
for x in y: pass
for x, y in z: pass
for x, in y: pass
for (x, y), [z] in w: pass
for (x) in y: pass
for x.y in z: pass
for x[y] in z: pass
for x in y, z: pass
for x in y,: pass
for x in y: break
for x in lambda: y: pass
try: pass␊finally: pass
try: pass␊except: pass
try: pass␊except x: pass
try: pass␊except x as y: pass
try: pass␊except (x, y): pass
try: pass␊except x: pass␊except y as z: pass␊except: pass
try: pass␊except x: pass␊else: pass
try: pass␊except x: pass␊else: pass␊finally: pass
try: pass␊except x: pass␊finally: pass
try:␊    pass␊except x:␊    raise
try:␊    try: pass␊    finally: pass␊except x: pass
while x:␊    try: break␊    finally: continue
def f(): pass
def f(): return
def f(): return x
def f(): return x, y
def f(): return; pass
def f(x, y=1, *z, **w): return x
def f(x,): pass
def f(*x,): pass
def f(**x): pass
def f():␊    def g(): return 1␊    return g
def f():␊    global x␊    x = 1
def f():␊    for x in y:␊        return x
def f():␊    try: pass␊    except: raise
class C: pass
class C(): pass
class C:␊    def f(self): return self␊    pass␊    'text'
class C: 'a' 'b'
class C: pass; 'a'
class C:␊    ('text')
x = lambda: y
x if y else z
x = y if z else w
not not x
x is not None
-x ** -y
f(lambda x: x, *y, k=z, **w)
x[1:2:3]
x = {a: b, c: d}
[x for x in y if z if w for v in x]
'a' 'b'
x = (1,␊2)
";

/// Scripts that CPython takes too.
#[test]
fn statements_of_python_are_read(rt: HostRuntime) -> Result<(), Fail> {
    all_answer(
        rt.alloc(),
        Question::Refusal,
        "0",
        STATEMENTS_OF_PYTHON_ARE_READ,
    )
}

const WHAT_PYTHON_REFUSES_IS_REFUSED: &str = "\
x = = 1
x =
= x
x y
x = 1 y
1 = x
x + y = 1
f(x) = 1
x = 1 = y
None = x
'a' = x
x + 1 += 2
(x, y) += 1
x, y += 1
f(x) += 1
x += y += 1
x = y += 1
x += y = 1
del
del f(x)
del 1
del x y
del x + y
assert
assert x y
raise x y
raise x, y
global
global 1
global x.y
global x,
pass pass
pass x
return
return x
break
continue
;
pass;;
; pass
x = 1; y = = 2
if x
if x pass
if: pass
if x:
if x:␊pass
else: pass
elif x: pass
except: pass
finally: pass
while: pass
for x y: pass
for x in: pass
for in y: pass
for f(x) in y: pass
for x + y in z: pass
for 1 in x: pass
for x in y pass
try: pass
try: pass␊else: pass
try: pass␊x
try:␊    x = = 1␊except: pass
try: pass␊except x as: pass
try: pass␊except x as 1: pass
try: pass␊except x y: pass
def f: pass
def (): pass
def f() pass
def f(x x): pass
def f(x, x): pass
def f(x, *x): pass
def f(x=1, y): pass
def f(*x, *y): pass
def f(**x, y): pass
def f(1): pass
def f(,): pass
def f():␊return
class: pass
class C pass
yield x
print(x) if y
x␊    y => 2
x = 1␊y = = 2 => 2
x = 1; y = 2␊z = ; w => 2
if x: pass␊else pass => 2
if x: pass␊elif: pass => 2
try: pass␊except x: = 1 => 2
def f():␊    x = = 1␊y = 1 => 2
def f():␊    break => 2
def f(x):␊    global x => 2
if x: pass␊else: pass␊else: pass => 3
if x: pass␊else: pass␊elif y: pass => 3
try: pass␊except: pass␊except x: pass => 3
try: pass␊except: pass␊except: pass => 3
try: pass␊except x: pass␊except y as: pass => 3
try: pass␊except x: pass␊else pass => 3
try: pass␊finally: pass␊except: pass => 3
try: pass␊finally: pass␊else: pass => 3
while x:␊    def f():␊        break => 3
def f():␊    class C:␊        return => 3
if x:␊    y = 1␊    = 2 => 3
if x:␊    y␊elif = 1: pass => 3
if x:␊    y␊else:␊    = 1 => 4
for x in y:␊    if z:␊        w␊    else:␊        break break => 5
";

/// Scripts that CPython refuses too, with the line of the grammar of this language.
#[test]
fn what_python_refuses_is_refused(rt: HostRuntime) -> Result<(), Fail> {
    all_answer(
        rt.alloc(),
        Question::Refusal,
        "1",
        WHAT_PYTHON_REFUSES_IS_REFUSED,
    )
}

const WHAT_IS_NO_FORM_OF_THE_LANGUAGE_IS_REFUSED: &str = "\
raise
a = (b, c) = d
(a, b) = c = d
() = x
[] = x
x[1:2] = y
del x[1:2]
del (x, y)
del [x]
x[1, 2]
*x, y = z
x = *y, z
for x in *y, z: pass
import x
from x import y
with x: pass
x: y = 1
class C(x): pass
def f(*, x): pass
def f(x: y): pass
def f() -> x: pass
f(a for a in b)
x is y
x < y is z
match x:␊    case 1: pass
try: pass␊except* x: pass
while x: pass␊else: pass => 2
for x in y: pass␊else: pass => 2
class C:␊    x = 1 => 2
class C:␊    1 => 2
class C:␊    'a' + 'b' => 2
class C:␊    class D: pass => 2
class C:␊    def f(self): pass␊    x = 1 => 3
class C:␊    pass␊    if x: pass => 3
class C:␊    def f(self):␊        global x => 3
try: pass␊except:␊    def f(): raise => 3
";

/// Scripts that CPython takes, of forms that this language leaves out.
#[test]
fn what_is_no_form_of_the_language_is_refused(rt: HostRuntime) -> Result<(), Fail> {
    all_answer(
        rt.alloc(),
        Question::Refusal,
        "1",
        WHAT_IS_NO_FORM_OF_THE_LANGUAGE_IS_REFUSED,
    )
}
