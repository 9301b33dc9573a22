//! Tests of the grammar of expressions.

use crate::answers::Question;
use crate::cases::all_answer;
use std::test::Fail;

const ATOMS_AND_DISPLAYS_ARE_READ: &str = "\
x => x
12 => 12
'a' 'b' \"c\" => 'abc'
None => None
True => True
False => False
() => (tuple)
((x)) => x
(x,) => (tuple x)
(x, y) => (tuple x y)
((x, y), z,) => (tuple (tuple x y) z)
[] => (list)
[x] => (list x)
[x, y,] => (list x y)
{} => (dict)
{a: b} => (dict a:b)
{a: b, c: d,} => (dict a:b c:d)
[x for x in y] => (list of x for x in y)
[x for x in y if z] => (list of x for x in y if z)
[x for x, in y if z if w for a.b in c] => (list of x for (group x) in y if z if w for a.b in c)
[x for (x, y), [z] in y] => (list of x for (group (group x y) (group z)) in y)
[x for ((a.b[c])) in y or z] => (list of x for (a .b)[c] in (or y z))
{a: b for a in c} => (dict of a b for a in c)
";

#[test]
fn atoms_and_displays_are_read(rt: HostRuntime) -> Result<(), Fail> {
    all_answer(
        rt.alloc(),
        Question::Expression,
        "",
        ATOMS_AND_DISPLAYS_ARE_READ,
    )
}

const TRAILERS_ARE_READ: &str = "\
f() => (f call)
f(x) => (f call x)
f(x,) => (f call x)
f(*a, b, *c) => (f call *a b *c)
f(a, k=b, **c) => (f call a k=b **c)
f(k=a, m=b,) => (f call k=a m=b)
f(**a, k=b) => (f call **a k=b)
f(a == b) => (f call (a == b))
a.b[c](d).e => (a .b [c] call d .e)
(a.b).c => ((a .b) .c)
a[:] => (a [::])
a[b:] => (a [b::])
a[:b] => (a [:b:])
a[b:c] => (a [b:c:])
a[::] => (a [::])
a[b:c:d] => (a [b:c:d])
a[::d] => (a [::d])
a[(b, c)] => (a [(tuple b c)])
'a'.b => ('a' .b)
";

#[test]
fn trailers_are_read(rt: HostRuntime) -> Result<(), Fail> {
    all_answer(rt.alloc(), Question::Expression, "", TRAILERS_ARE_READ)
}

const OPERATORS_ARE_READ: &str = "\
-x => (- x)
-+~x => (- (+ (~ x)))
-x ** -y => (- (** x (- y)))
x ** y ** z => (** x (** y z))
a * b // c % d => (a * b // c % d)
a + b - c => (a + b - c)
(a + b) + c => ((a + b) + c)
a - (b - c) => (a - (b - c))
a + b * c << d & e ^ f | g => (((((a + (b * c)) << d) & e) ^ f) | g)
a >> b << c => (a >> b << c)
a < b => (a < b)
a < b <= c > d >= e == f != g => (a < b <= c > d >= e == f != g)
a in b not in c => (a in b not in c)
a is None => (a is None)
a is not None == b => (a is not None == b)
not a => (not a)
not not a in b => (not (not (a in b)))
a and b => (and a b)
a and b and c or d or not e => (or (and a b c) d (not e))
(a and b) and c => (and (and a b) c)
a if b else c => (if b a c)
a if b else c if d else e => (if b a (if d c e))
(a if b else c) if d else e => (if d (if b a c) e)
";

#[test]
fn operators_are_read(rt: HostRuntime) -> Result<(), Fail> {
    all_answer(rt.alloc(), Question::Expression, "", OPERATORS_ARE_READ)
}

const LAMBDAS_ARE_READ: &str = "\
lambda: x => (lambda : x)
lambda a,: a => (lambda a : a)
lambda a, b=c, *d, **e: f => (lambda a b=c *d **e : f)
lambda *a,: a => (lambda *a : a)
lambda **a,: a => (lambda **a : a)
lambda **a: a if b else c => (lambda **a : (if b a c))
lambda a=lambda: b: a => (lambda a=(lambda : b) : a)
x if y else lambda: z => (if y x (lambda : z))
[lambda: x for x in y] => (list of (lambda : x) for x in y)
";

#[test]
fn lambdas_are_read(rt: HostRuntime) -> Result<(), Fail> {
    all_answer(rt.alloc(), Question::Expression, "", LAMBDAS_ARE_READ)
}

const EXPRESSION_LISTS_ARE_READ: &str = "\
x => x
x, => (tuple x)
x, y => (tuple x y)
x, y + z, => (tuple x (y + z))
(x, y), z => (tuple (tuple x y) z)
x, lambda: y, z => (tuple x (lambda : y) z)
x y => -
x,, => -
, => -
";

#[test]
fn expression_lists_are_read(rt: HostRuntime) -> Result<(), Fail> {
    all_answer(rt.alloc(), Question::List, "", EXPRESSION_LISTS_ARE_READ)
}

const TARGETS_ARE_READ: &str = "\
x => x
(x) => x
a.b => a.b
a[b] => a[b]
x, => (group x)
x, [y, (z)], => (group x (group y z))
(x, y) => (group x y)
f() => -
1 => -
x, 1 => -
x + y => -
";

#[test]
fn targets_are_read(rt: HostRuntime) -> Result<(), Fail> {
    all_answer(rt.alloc(), Question::Target, "", TARGETS_ARE_READ)
}

const PARAMETERS_ARE_READ: &str = "\
a => a :
a, b=c, *d, **e, => a b=c *d **e :
a=lambda b: c, => a=(lambda b : c) :
a, a => a a :
a=b, c => -
**a, *b => -
a b => -
";

#[test]
fn parameters_are_read(rt: HostRuntime) -> Result<(), Fail> {
    all_answer(rt.alloc(), Question::Parameters, "", PARAMETERS_ARE_READ)
}

const PLACES_ARE_FOUND: &str = "\
x => x
a.b[c] => (a .b)[c]
a(b).c => (a call b).c
a(b) => -
a[b:c] => -
(x, y) => -
1 => -
";

#[test]
fn places_are_found(rt: HostRuntime) -> Result<(), Fail> {
    all_answer(rt.alloc(), Question::Place, "", PLACES_ARE_FOUND)
}

const OTHER_TOKENS_ARE_REFUSED: &str = "\
not
 => -
x +
+ * x
x **
** x
(x
x)
(,)
[,]
[x y]
{a: }
{a: b c: d}
f(,)
f(k=a, b)
f(**a, b)
f(k=a, k=b)
f(k=)
f(1=a)
f(*)
f(a b)
a.
a.1
a[]
a[b
a[b:c:d:e]
a not b
a not
a is
a is not
not in a
a in
a and
and a
a or or b
a if b
a if b else
a if else c
lambda
lambda a
lambda a b: c
lambda a=b, c: d
lambda *a, *b: c
lambda **a, b: c
lambda **a, *b: c
lambda a, a: b
lambda a, *a: b
lambda (a): b
lambda *: a
x if lambda: y else z
[x for]
[x for x]
[x for x in]
[x for f() in y]
[x for x + y in z]
[x for 1 in y]
[x for x in y if]
[x for x in y if z else w]
[x if y for x in z]
[x, y for x in z]
(x for x in)
{a: b, c: d for a in b}
lambda: (
";

/// Refused by CPython's own parser too.
#[test]
fn other_tokens_are_refused(rt: HostRuntime) -> Result<(), Fail> {
    all_answer(
        rt.alloc(),
        Question::Expression,
        "-",
        OTHER_TOKENS_ARE_REFUSED,
    )
}

const OTHER_FORMS_OF_PYTHON_ARE_REFUSED: &str = "\
a is b
a is True
a[b, c]
a[b:c, d]
[x for () in y]
[x for [] in y]
f(k=a, *b)
f(x for x in y)
(x for x in y)
{a}
{a: b, **c}
[*a]
(*a,)
(x := y)
lambda a, *, b: c
await x
";

/// Forms of Python that are no forms of the language.
#[test]
fn other_forms_of_python_are_refused(rt: HostRuntime) -> Result<(), Fail> {
    all_answer(
        rt.alloc(),
        Question::Expression,
        "-",
        OTHER_FORMS_OF_PYTHON_ARE_REFUSED,
    )
}

const AN_EXPRESSION_HAS_THE_LINE_OF_ITS_FIRST_TOKEN: &str = "\
x => 1
(␊x) => 2
(␊x,) => 1
((␊x) + y) => 2
(␊-␊x) => 2
((␊(␊x))(␊y).z) => 3
(␊[␊x]) => 2
(␊(x) if␊y else z) => 2
(␊lambda␊: x) => 2
";

/// Parentheses that make no node have no line.
#[test]
fn an_expression_has_the_line_of_its_first_token(rt: HostRuntime) -> Result<(), Fail> {
    all_answer(
        rt.alloc(),
        Question::Line,
        "",
        AN_EXPRESSION_HAS_THE_LINE_OF_ITS_FIRST_TOKEN,
    )
}

const DEEP_AND_LONG_EXPRESSIONS_ARE_READ: &str = "\
200×(‖x‖200×)
199×[‖x‖199×]
199×f(‖x‖199×)
199×-‖x
199×not ‖x
199×x ** ‖x
199×lambda: ‖x
199×x if x else ‖x
5000×x + ‖x
x
";

/// As deep as brackets and heights go, and a chain as long as one likes.
#[test]
fn deep_and_long_expressions_are_read(rt: HostRuntime) -> Result<(), Fail> {
    let cases = DEEP_AND_LONG_EXPRESSIONS_ARE_READ;
    all_answer(rt.alloc(), Question::IsExpression, "yes", cases)
}
