//! Tests of the grammar of statements.

use crate::answers::Question;
use crate::cases::all_answer;
use std::test::Fail;

const SIMPLE_STATEMENTS_ARE_READ: &str = "\
pass => (1 pass)
 =>
x => (1 expr x)
x, 1 => (1 expr (tuple x 1))
x; y;␊␊z; pass => (1 expr x)(1 expr y)(3 expr z)(3 pass)
x = 1 => (1 = x 1)
x = y.a = y[2] = 1, 2 => (1 = x y.a y[2] (tuple 1 2))
x, y = 1 => (1 unpack (group x y) 1)
[x, (y, z.a)] = 1, 2 => (1 unpack (group x (group y z.a)) (tuple 1 2))
x += 1, 2 => (1 aug 1 x (tuple 1 2))
x.a //= 1 => (1 aug 1 x.a 1)
del x, y.a, y[1], => (1 del x y.a y[1])
raise x => (1 raise x)
assert x, y => (1 assert x y)
assert x => (1 assert x)
global x, y => (1 global x y)
";

#[test]
fn simple_statements_are_read(rt: HostRuntime) -> Result<(), Fail> {
    all_answer(
        rt.alloc(),
        Question::Statements,
        "",
        SIMPLE_STATEMENTS_ARE_READ,
    )
}

const COMPOUND_STATEMENTS_ARE_READ: &str = "\
if x: pass => (1 if x {(1 pass)})
if x: y␊elif 1:␊  z␊elif 2: pass␊else:␊  x; y␊  z \
    => (1 if x {(1 expr y)} 1 {(3 expr z)} 2 {(4 pass)} else {(6 expr x)(6 expr y)(7 expr z)})
while x: break; continue => (1 while x {(1 break)(1 continue)})
for x, y in 1, 2:␊  if x: break␊ => (1 for (group x y) (tuple 1 2) {(2 if x {(2 break)})})
try: x␊finally: y => (1 try {(1 expr x)} finally {(2 expr y)})
try: x␊except 1: y␊except 2 as z: raise␊except: pass␊else: 3␊finally: 4 \
    => (1 try {(1 expr x)} except 1 {(2 expr y)} except 2 as z {(3 raise)} except {(4 pass)} else {(5 expr 3)} \
    finally {(6 expr 4)})
def f(x, y=1, *z, **w): return x, y␊x => (1 def f x y=1 *z **w : {(1 return (tuple x y))})(2 expr x)
def f():␊  global x; return => (1 def f : {(2 global x)(2 return)})
class x:␊  'a'␊  pass␊  def f(self): return 1 => (1 class x {(2 expr 'a')(3 pass)(4 def f self : {(4 return 1)})})
class x(): pass => (1 class x {(1 pass)})
";

#[test]
fn compound_statements_are_read(rt: HostRuntime) -> Result<(), Fail> {
    all_answer(
        rt.alloc(),
        Question::Statements,
        "",
        COMPOUND_STATEMENTS_ARE_READ,
    )
}

const A_FAULT_HAS_THE_LINE_OF_ITS_PLACE: &str = "\
x␊y y => 2
if x:␊  y␊  y y => 3
if x:␊  y␊elif: y => 3
if x:␊  y␊else y => 3
try:␊  y␊  y y␊ => 1
try:␊  y␊except x:␊  y␊  y y␊ => 5
try:␊  y␊except:␊  y␊except x: y => 5
try:␊  y␊x => 1
class x:␊  y => 2
class x:␊  def f(): y␊  if x: y => 3
␊return => 2
def f():␊  class x:␊    def g():␊      global x => 4
def f(x):␊  global x => 2
def f(x, x):␊  pass => 1
while x:␊  def f():␊    break => 3
raise => 1
x;;y => 1
f() = 1 => 1
x, 1 = 2 => 1
(x, y) += 1 => 1
";

#[test]
fn a_fault_has_the_line_of_its_place(rt: HostRuntime) -> Result<(), Fail> {
    all_answer(
        rt.alloc(),
        Question::Statements,
        "",
        A_FAULT_HAS_THE_LINE_OF_ITS_PLACE,
    )
}
