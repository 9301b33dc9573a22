//! Tests of the names of code blocks: where each block finds a name (Python Language Reference, Naming and binding).

use crate::scope_texts::{Reading, all_found};
use std::test::Fail;

/// Each script with some of its code blocks by their numbers, and where these find some names: among their own local
/// names, so many blocks outwards, or among the globals.
const BLOCKS_FIND_THEIR_NAMES: &str = "\
x = 1 => 0: x=global
def f(a):␊ return a + b => 0: f=global, a=global; 1: a=local 0, b=global, f=global
def f(a, b=1, *c, **d):␊ e = a␊ return e => 1: a=local 0, b=local 1, c=local 2, d=local 3, e=local 4
def f():␊ def g():␊  return x␊ x = 1␊ return g => 1: g=local 0, x=local 1; 2: x=outer 1 1, g=outer 1 0
def f(x):␊ def g():␊  def h():␊   return x␊  return h␊ return g => \
1: x=local 0, g=local 1; 2: h=local 0, x=outer 1 0, g=outer 1 1; 3: x=outer 2 0, g=outer 2 1, h=outer 1 0
def f():␊ global x␊ x = 1␊ y = x => 0: f=global, x=global; 1: x=global, y=local 0
def f(x):␊ def g():␊  global x␊  return x␊ return g => 1: x=local 0, g=local 1; 2: x=global, g=outer 1 1
def f():␊ x = 1␊ def g():␊  global x␊  def h():␊   return x␊  return h␊ return g => \
1: x=local 0, g=local 1; 2: x=global, h=local 0; 3: x=global, h=outer 1 0, g=outer 2 1
def f():␊ global x␊ def g():␊  x = 1␊  return x␊ return g => 1: x=global, g=local 0; 2: x=local 0, g=outer 1 0
f = lambda a, b=c: a + b + d => 0: f=global, a=global; 1: a=local 0, b=local 1, c=global, d=global
def f(x):␊ return lambda y: x + y => 1: x=local 0, y=global; 2: y=local 0, x=outer 1 0
x = [a for a in b] => 0: a=global; 1: a=local 0, b=global, x=global
def f(xs):␊ return [x + y for x in xs for y in x if y] => \
1: xs=local 0, x=global, y=global; 2: x=local 0, y=local 1, xs=outer 1 0
def f(d):␊ return {k: v for k, v in d} => 1: d=local 0, k=global; 2: k=local 0, v=local 1, d=outer 1 0
r = [[b for b in a] for a in c] => 1: a=local 0, b=global; 2: b=local 0, a=outer 1 0
r = [a for a in [b for b in c]] => 1: a=local 0, b=global; 2: b=local 0, a=global
r = [a for a in c for b in [d for d in a]] => 1: a=local 0, b=local 1, d=global; 2: d=local 0, a=outer 1 0, b=outer 1 1
def f(a=lambda b: c):␊ c = 1␊ return a => 1: a=local 0, c=local 1, b=global; 2: b=local 0, c=global, a=global
def f(x):␊ return lambda y=(lambda z: y): y => 2: y=local 0, x=outer 1 0, z=global; 3: z=local 0, y=global, x=outer 1 0
def f(x):␊ class C:␊  def m(self):␊   return x + C␊ return C => \
1: x=local 0, C=local 1, m=global; 2: self=local 0, x=outer 1 0, C=outer 1 1, m=global
class C:␊ def m(self, a):␊  self.b = a␊  return b => 0: C=global, m=global; 1: self=local 0, a=local 1, b=global
def f(xs):␊ for a, (b, c) in xs:␊  d = a␊ return d => 1: xs=local 0, a=local 1, b=local 2, c=local 3, d=local 4
def f():␊ try:␊  a = 1␊ except E as e:␊  b = e␊ else:␊  c = 1␊ finally:␊  d = 1 => \
1: a=local 0, e=local 1, b=local 2, c=local 3, d=local 4, E=global
def f():␊ del a, b.c => 1: a=local 0, b=global, c=global
def f():␊ a += b␊ c[d] += 1 => 1: a=local 0, b=global, c=global, d=global
def f(p):␊ a, b.x, c[0] = p␊ return a => 1: p=local 0, a=local 1, b=global, c=global, x=global
def f():␊ a = b = a = 1 => 1: a=local 0, b=local 1
def f(t):␊ if t:␊  a = 1␊ elif b:␊  c = 1␊ else:␊  d = 1␊ while c:␊  e = 1 => \
1: t=local 0, a=local 1, c=local 2, d=local 3, e=local 4, b=global
def f(x):␊ def g(x):␊  return x␊ return g => 1: x=local 0, g=local 1; 2: x=local 0
def f():␊ return [a for a in b]␊g = lambda c: c => 1: a=global, c=global; 2: a=local 0; 3: c=local 0
x = (lambda a: a) if (lambda b: b) else (lambda c: c) => \
1: a=local 0, b=global; 2: b=local 0, a=global; 3: c=local 0, b=global
f((lambda a: a), k=lambda b: b)[lambda c: c] => 1: a=local 0, k=global; 2: b=local 0; 3: c=local 0
d = {(lambda a: a): (lambda b: b)} => 1: a=local 0, b=global; 2: b=local 0
d[lambda a: a] = lambda b: b => 1: a=local 0, b=global; 2: b=local 0, a=global
def f(n):␊ def g(m):␊  return g(m - 1) + f(n)␊ return g(n) => \
1: n=local 0, g=local 1, f=global; 2: m=local 0, g=outer 1 1, n=outer 1 0, f=global
def f():␊ class C:␊  def m(self):␊   return [C for x in self] => \
1: C=local 0, m=global; 2: self=local 0, C=outer 1 0; 3: x=local 0, C=outer 2 0, self=outer 1 0
def f(a):␊ global b, c␊ d = 1␊ b = 2␊ e = 3 => 1: a=local 0, d=local 1, e=local 2, b=global, c=global
def f(x):␊ return [x for x in x] => 1: x=local 0; 2: x=local 0
def f(xs):␊ return [a for a in [b for b in xs]] => \
1: xs=local 0; 2: a=local 0, xs=outer 1 0; 3: b=local 0, xs=outer 1 0, a=global
def f(xs):␊ return [[b + x for b in a] for a in xs] => \
2: a=local 0, xs=outer 1 0; 3: b=local 0, a=outer 1 0, xs=outer 2 0, x=global
def f():␊ global x␊ return [x for y in x] => 1: x=global; 2: y=local 0, x=global
";

#[test]
fn blocks_find_their_names(rt: HostRuntime) -> Result<(), Fail> {
    all_found(rt.alloc(), Reading::Program, BLOCKS_FIND_THEIR_NAMES)
}
