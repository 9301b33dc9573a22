//! Tests of the transformer: which guard each form of a script is handed to (RestrictedPython, transformer).

use crate::answers::Question;
use crate::cases::all_answer;
use std::test::Fail;

/// Each guard field of the tree that runs. One of a call without stars is empty.
const FORMS_HAVE_THEIR_GUARDS: &str = "\
x =>
global x; x = y = -1 =>
(a) = b =>
o.a => GetAttr
o.a.b[0].c => GetAttr GetAttr GetItem GetAttr
o[i.a] => GetAttr GetItem
o[:] => GetItem
o[a.x:b[0]:c] => GetAttr GetItem GetItem
print(o.a) => GetAttr -
o.a = p[0] => Write GetItem
o.a.b = o[i.c][j] = v => GetAttr Write GetAttr GetItem Write
del o.a, o[i], x => Write Write
for x in e.a: x.b => GetAttr GetIter GetAttr
for o.a in e: pass => Write GetIter
for a, o[i.x] in e.f(): pass => GetAttr Write GetAttr - IterUnpack
for (a, b), c in e: pass => IterUnpack
[x.a for x in e[0] if x.b if x[0]] => GetAttr GetItem GetIter GetAttr GetItem
[x for r in m for (x,) in r] => GetIter IterUnpack
{k.a: v[0] for k, v in d.items()} => GetAttr GetItem GetAttr - IterUnpack
a, = e => Unpack
[a, (b, c)] = e => Unpack
a.b, c[0] = d.e => Write Write GetAttr Unpack
f() => -
f(x, k=o.a) => GetAttr -
f(*a) => Apply
f(x, k=v, **d) => Apply
f(x, *a.b, k=v, **d[0]) => GetAttr GetItem Apply
o.f(*a)(b) => GetAttr Apply -
f(g(*a), *h(b)) => Apply - Apply
x += o.a => GetAttr Inplace
x **= f(*a) => Apply Inplace
lambda a, b=o.b, *c, **d: a[0] => GetAttr GetItem
def f(a=o.b, *c): return a[0] => GetAttr GetItem
class C:␊ def m(self): self.x = self[0] => Write GetItem
if a.b: c.d = 1␊elif e[0]: x += 1␊else: del f.g => GetAttr Write GetItem Inplace Write
while o.a: o.b() => GetAttr GetAttr -
try: o.a␊except k[0] as e: e.x = 1␊else: f(*a)␊finally: del o.c => GetAttr GetItem Write Apply Write
try: a, b = e␊except: raise␊finally: x = o[0] => Unpack GetItem
def f():␊ for x in e:␊  if x: return x.a => GetIter GetAttr
raise E(o.a) => GetAttr -
assert o.a, o.b[0] => GetAttr GetAttr GetItem
o[0] if p.b else f(*q) => GetAttr GetItem Apply
a or o.b and not p[0] => GetAttr GetItem
a < o.b <= c[0] is not None => GetAttr GetItem
-o.a ** p[0] + ~q.b * 2 => GetAttr GetItem GetAttr
[o.a, (p[0], {q.b: f(*r)})] => GetAttr GetItem GetAttr Apply
";

#[test]
fn forms_have_their_guards(rt: HostRuntime) -> Result<(), Fail> {
    all_answer(rt.alloc(), Question::Guards, "", FORMS_HAVE_THEIR_GUARDS)
}

/// The policy of names refuses these scripts, so that none of them is rewritten when it runs.
const AUGMENTED_PARTS_HAVE_NO_GUARD_OF_THEIR_OWN: &str = "\
o.a += 1 => Write -
o[i.x] -= p[0] => GetAttr Write GetItem -
def f():␊ o.a.b += f(*x) => GetAttr Write Apply -
";

#[test]
fn augmented_parts_have_no_guard_of_their_own(rt: HostRuntime) -> Result<(), Fail> {
    all_answer(
        rt.alloc(),
        Question::Guards,
        "",
        AUGMENTED_PARTS_HAVE_NO_GUARD_OF_THEIR_OWN,
    )
}

/// Whether nothing stands without its guard, before the transformer and after it.
const WHAT_IS_TRANSFORMED_STANDS_GUARDED: &str = "\
x => yes yes
global x; x = y = -1 => yes yes
f(x, k=y) => yes yes
lambda a, b=c, *d, **e: a + b => yes yes
while x: break => yes yes
o.a
o[i]
o[:]
o.a = x
del o[i]
for x in e: pass
[x for x, y in e]
a, b = e
f(*a)
f(**d)
x += 1
f(g(h(*a)))
lambda a=o.b: a
def f():␊ class C:␊  def g(a=b.c): pass
if a: pass␊elif b: pass␊else: x.y
try: pass␊except a.b: pass
try: pass␊except: pass␊else: x[0]
try: pass␊finally: raise E(*a)
o.a += 1 => no no
o[0] -= 1 => no no
";

#[test]
fn what_is_transformed_stands_guarded(rt: HostRuntime) -> Result<(), Fail> {
    all_answer(
        rt.alloc(),
        Question::IsGuarded,
        "no yes",
        WHAT_IS_TRANSFORMED_STANDS_GUARDED,
    )
}
