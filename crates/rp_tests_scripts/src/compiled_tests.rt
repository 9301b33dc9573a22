//! Tests of compiled scripts and trusted modules: where their code blocks find names, and what they are refused for.

use crate::scope_texts::{Reading, all_found};
use std::test::Fail;

/// Each script with places that code blocks of its compiled form find, or with why it is refused.
const COMPILED_BLOCKS_FIND_THEIR_NAMES: &str = "\
x = 1 => 0: x=global
def f(a):␊ b = a.c[0]␊ return b => 0: f=global, a=global; 1: a=local 0, b=local 1, c=global, f=global
def f(x):␊ def g():␊  return x(*x)␊ return g => 1: x=local 0, g=local 1; 2: x=outer 1 0, g=outer 1 1
def f(xs):␊ for a, b in xs:␊  return [x.y for x in b] => 1: xs=local 0, a=local 1, b=local 2; 2: x=local 0, b=outer 1 2
f = lambda a: a.b(c) => 0: f=global; 1: a=local 0, b=global, c=global
class C:␊ def m(self):␊  self.x = C => 0: C=global, m=global; 1: self=local 0, C=global
def f():␊ global x␊ x += 1 => 0: x=global; 1: x=global
def f(a):␊ b = a._c => line 2: attribute \"_c\" is forbidden
x = = 1 => line 1: syntax
";

/// Each module with its local names and places that its code blocks find, whatever names it has, or with why it is
/// refused.
const TRUSTED_BLOCKS_FIND_THEIR_NAMES: &str = "\
x = 1 => Box box x; 0: x=global, box=global
box = 1␊Box = 2 => Box box; 0: Box=global, box=global
def f(a):␊ return [box for b in a] => Box box f; 1: a=local 0, box=global; 2: b=local 0, a=outer 1 0, box=global
def f(Box):␊ return lambda: Box => Box box f; 1: Box=local 0; 2: Box=outer 1 0
_x = 1 => Box box _x; 0: _x=global
class C:␊ def __init__(self):␊  self.f_code += 1 => Box box C; 1: self=local 0, C=global
def print(exec):␊ return exec.__class__ => Box box print; 1: exec=local 0, print=global
x = = 1 => line 1: syntax
x = $ => line 1: bad character
";

#[test]
fn compiled_blocks_find_their_names(rt: HostRuntime) -> Result<(), Fail> {
    all_found(
        rt.alloc(),
        Reading::Script,
        COMPILED_BLOCKS_FIND_THEIR_NAMES,
    )
}

#[test]
fn trusted_blocks_find_their_names(rt: HostRuntime) -> Result<(), Fail> {
    all_found(rt.alloc(), Reading::Module, TRUSTED_BLOCKS_FIND_THEIR_NAMES)
}
