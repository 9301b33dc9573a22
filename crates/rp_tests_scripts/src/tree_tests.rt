//! Tests of the heights of trees.

use crate::answers::Question;
use crate::cases::all_answer;
use std::test::Fail;

/// Branches, handlers, clauses, parameters, arguments and trailers are no nodes.
const TREES_HAVE_THE_HEIGHTS_OF_THE_RULE: &str = "\
a = a => 2
 => 0
a, = a => 3
pass => 1
def a(): return a => 3
assert a, b => 2
del a.a => 3
if a: pass => 2
try: pass␊except a as b: pass␊else: pass => 2
def a(a): pass => 2
a => 2
'a' => 2
a, a => 3
[a for a in a if a] => 3
lambda a=b: a => 3
a + b => 3
a.a => 3
a(a) => 3
pass␊a => 2
pass␊not not not a => 5
while a:␊ while a:␊  while a:␊   pass␊a => 4
while a:␊ while a:␊  while a:␊   pass␊not not not a => 5
while a:␊ while a:␊  while a:␊   while a:␊    while a:␊     \
    while a:␊      while a:␊       while a:␊        while a:␊         pass␊not not not a => 10
";

#[test]
fn trees_have_the_heights_of_the_rule(rt: HostRuntime) -> Result<(), Fail> {
    all_answer(
        rt.alloc(),
        Question::Height,
        "",
        TREES_HAVE_THE_HEIGHTS_OF_THE_RULE,
    )
}
