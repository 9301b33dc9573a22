//! Runs over declarations with a trusted module, and of those without a world.

use crate::program_answers::{RUN, said_over};
use crate::several_tests::said_to;
use rp_tests_cases::{Question, all_answer, part};
use std::alloc::Global;
use std::test::Fail;

/// What the program says to the words of the first part, where `one.py` and `two.py` hold the parts behind it.
enum Over {
    /// Over a folder that hands itself out.
    Filling,
    /// Over one that also looks into what it is handed.
    Peeking,
    /// Over a shelf with special methods of containers.
    Shelves,
}

impl Question for Over {
    fn answer(&self, alloc: Global, parts: &[String]) -> Result<String, Fail> {
        let declarations = match self {
            Over::Filling => FILLING,
            Over::Peeking => PEEKING,
            Over::Shelves => SHELVES,
        };
        said_to(alloc, part(parts, 0), declarations, parts)
    }
}

/// A folder that hands itself out, with a list, and a field that everybody may read and set.
pub const FILLING: &str = r#"version = 1
permissions = ["zope.View", "zope.Manage"]
expose = ["root"]
module = """
class Folder:
    def fill(self, out):
        out.append(self)
    def each(self, f):
        return f(self)
"""
[class.Base]
get = { size = "zope.Public", fill = "zope.Public", each = "zope.Public" }
[class.Folder]
like = "Base"
get = { title = "zope.View", items = "zope.Public", box = "zope.Public" }
set = { box = "zope.Public" }
[group.staff]
allow = ["zope.View"]
[principal.bob]
allow = ["zope.View"]
[principal.eve]
[principal.kim]
groups = ["staff"]
deny = ["zope.View"]
[object.root]
class = "Folder"
fields = { title = "Home", size = 3, secret = "k", items = [1, 2] }
"#;

const PEEKING: &str = r#"version = 1
permissions = ["zope.View"]
expose = ["root"]
module = """
class Folder:
    def fill(self, out):
        out.append(self)
    def peek(self, other):
        return other.secret
    def bare(self, other):
        return removeSecurityProxy(other).secret
    def first(self, xs):
        return xs[0].secret
"""
[class.Folder.get]
size = "zope.Public"
fill = "zope.Public"
peek = "zope.Public"
bare = "zope.Public"
first = "zope.Public"
[principal.bob]
[object.root]
class = "Folder"
fields = { size = 3, secret = "k" }
"#;

const SHELVES: &str = r#"version = 1
permissions = ["demo.View", "demo.Edit"]
expose = ["shelf", "spin"]
module = """
class Shelf:
    def __len__(self):
        return len(self.books)
    def __getitem__(self, i):
        return self.books[i]
    def __setitem__(self, i, book):
        self.books[i] = book
    def __contains__(self, book):
        return book in self.books
def spin():
    while True:
        pass
"""
[class.Shelf.get]
title = "zope.Public"
__len__ = "zope.Public"
__getitem__ = "demo.View"
__contains__ = "demo.View"
__setitem__ = "demo.Edit"
[principal.ann]
allow = ["demo.View", "demo.Edit"]
[principal.bob]
allow = ["demo.View"]
[principal.eve]
[object.shelf]
class = "Shelf"
fields = { title = "Old", books = ["Ada", "Bede"] }
"#;

/// Each way out of a list into which trusted code has put an object hands out a proxy of it.
const FILLED: &str =
    r#"run title.toml bob:one.py --trail => xs = []~root.fill(xs)~print(xs[0].size)~print(xs[0].secret) \
    => session 1 bob~3~end ForbiddenAttribute: secret~trail 4~1 1 bob allow get Folder.fill zope.Public~\
    2 1 bob allow get method.__call__ zope.Public~3 1 bob allow get Folder.size zope.Public~\
    4 1 bob forbid get Folder.secret~1
run title.toml bob:one.py => xs = []~root.fill(xs)~for x in xs: print(x.secret) \
    => session 1 bob~end ForbiddenAttribute: secret~1
run title.toml bob:one.py => xs = []~root.fill(xs)~a, = xs~print(a.secret) \
    => session 1 bob~end ForbiddenAttribute: secret~1
run title.toml bob:one.py => xs = []~root.fill(xs)~xs.pop().secret => session 1 bob~end ForbiddenAttribute: secret~1
run title.toml bob:one.py => xs = []~root.fill(xs)~xs[0:1][0].secret => session 1 bob~end ForbiddenAttribute: secret~1
run title.toml bob:one.py => xs = []~root.fill(xs)~[x.secret for x in xs] \
    => session 1 bob~end ForbiddenAttribute: secret~1
run title.toml bob:one.py => xs = []~root.fill(xs)~def f(*a): return a[0].secret~f(*xs) \
    => session 1 bob~end ForbiddenAttribute: secret~1
run title.toml bob:one.py => xs = []~root.fill(xs)~list(xs)[0].secret => session 1 bob~end ForbiddenAttribute: secret~1
run title.toml bob:one.py => xs = []~root.fill(xs)~{1: xs[0]}[1].secret \
    => session 1 bob~end ForbiddenAttribute: secret~1
run title.toml bob:one.py => xs = []~root.fill(xs)~sorted(xs) => session 1 bob~end TypeError: argument~1"#;

const CALLED: &str = r#"run title.toml bob:one.py => root.each(lambda o: o.secret) \
    => session 1 bob~end ForbiddenAttribute: secret~1
run title.toml bob:one.py => print(root.each(lambda o: o.title)) => session 1 bob~Home~end ok~0
run title.toml eve:one.py => print(root.each(lambda o: o.title)) => session 1 eve~end Unauthorized: zope.View~1
run title.toml bob:one.py => root.items + [1] => session 1 bob~end ForbiddenAttribute: __add__~1
run title.toml dave:one.py => print(1) => principal: dave~3
run title.toml bob:one.py => x = => script 1: line 1: syntax~4"#;

const PEEKED: &str =
    r#"run title.toml bob:one.py --trail => print(root.bare(root))~print(root.peek(root)) \
    => session 1 bob~k~end ForbiddenAttribute: secret~trail 5~1 1 bob allow get Folder.bare zope.Public~\
    2 1 bob allow get method.__call__ zope.Public~3 1 bob allow get Folder.peek zope.Public~\
    4 1 bob allow get method.__call__ zope.Public~5 1 bob forbid get Folder.secret~1
run title.toml bob:one.py => root.first([root]) => session 1 bob~end ForbiddenAttribute: secret~1
run title.toml bob:one.py => xs = []~root.fill(xs)~print(root.first(xs))~root.first([xs[0]]) \
    => session 1 bob~k~end ForbiddenAttribute: secret~1
run title.toml bob:one.py => print(removeSecurityProxy) => session 1 bob~end NameError: removeSecurityProxy~1"#;

/// Operations that special methods do, each behind its decision.
const SPECIAL: &str =
    r#"run title.toml bob:one.py eve:two.py --trail => print(len(shelf), shelf[1], 'Ada' in shelf) \
    => print(len(shelf))~print(shelf[1]) => session 1 bob~2 Bede True~end ok~session 2 eve~2~\
    end Unauthorized: demo.View~trail 5~1 1 bob allow get Shelf.__len__ zope.Public~\
    2 1 bob allow get Shelf.__getitem__ demo.View~3 1 bob allow get Shelf.__contains__ demo.View~\
    4 2 eve allow get Shelf.__len__ zope.Public~5 2 eve deny get Shelf.__getitem__ demo.View~1
run title.toml ann:one.py bob:two.py --trail => shelf[0] = [1]~shelf[0].append(2) => print(shelf[0], len(shelf))~\
    shelf[0].append(3) => session 1 ann~end ok~session 2 bob~[1, 2] 2~end ForbiddenAttribute: append~trail 7~\
    1 1 ann allow get Shelf.__setitem__ demo.Edit~2 1 ann allow get Shelf.__getitem__ demo.View~\
    3 2 bob allow get Shelf.__getitem__ demo.View~4 2 bob allow get Shelf.__len__ zope.Public~\
    5 2 bob allow get list.__str__ default~6 2 bob allow get Shelf.__getitem__ demo.View~\
    7 2 bob forbid get list.append~1
run title.toml ann:one.py bob:two.py --trail => shelf[0] = lambda f: f(shelf) \
    => print(shelf[0](lambda s: s.title)) => session 1 ann~end ok~session 2 bob~Old~end ok~trail 5~\
    1 1 ann allow get Shelf.__setitem__ demo.Edit~2 2 bob allow get Shelf.__getitem__ demo.View~\
    3 2 bob allow get function.__call__ zope.Public~4 2 bob allow get function.__call__ zope.Public~\
    5 2 bob allow get Shelf.title zope.Public~0
run title.toml ann:one.py bob:two.py --turns 1,2,1 => shelf[0] = 'Cleo'~\
    shelf[0] = 'Dan' => print(shelf[0], 'Cleo' in shelf)~shelf[0] = 'Eve' => session 1 ann~end ok~session 2 bob~\
    Cleo True~end Unauthorized: demo.Edit~1
run title.toml ann:one.py bob:two.py --turns 1,2,1,2 => shelf[1] = shelf[0]~\
    shelf[0] = 'Dan' => print(shelf[0], shelf[1])~print(shelf[0], shelf[1]) => session 1 ann~end ok~session 2 bob~\
    Ada Ada~Dan Ada~end ok~0
run title.toml ann+bob:one.py => try:~    shelf[0] = 1~except Unauthorized as e:~\
        print(e, shelf[0]) => session 1 ann+bob~demo.Edit Ada~end ok~0
run title.toml bob:one.py => print(getattr(shelf, 'title'), getattr(shelf, 'books', 'none'))~\
    getattr(shelf, '__len__') => session 1 bob~Old none~end ForbiddenAttribute: __len__~1
run title.toml bob:one.py eve:two.py --steps 50 => print(len(shelf))~spin() => print(len(shelf)) => session 1 bob~\
    2~end stopped steps~session 2 eve~2~end ok~5"#;

/// Nothing of a module is looked at where a permission is asked for.
const ASKED: &str = r#"may title.toml kim zope.View => kim no principal~may no~1
may title.toml bob+eve zope.View => bob yes principal~eve no none~may no~1
may title.toml bob zope.Edit => permission: zope.Edit~3"#;

/// A module, and what is said to a run whose principal is not declared, and which exposes a name that is not bound.
struct Loaded;

impl Question for Loaded {
    fn answer(&self, alloc: Global, parts: &[String]) -> Result<String, Fail> {
        let module = part(parts, 0);
        let declarations = format!(in alloc;
            r#"version = 1
expose = ["zeta", "alpha"]
module = """
{module}
"""
[class.Box]
[object.box]
class = "Box"
"#
        )?;
        said_to(
            alloc,
            "run title.toml dave:one.py",
            declarations.as_str(),
            parts,
        )
    }
}

const ORDER: &str = r#"x = = 1~1 // 0 => declarations: module line 1: syntax~3
x = 1~1 // 0 => declarations: module ended ZeroDivisionError: zero~3
x = 1 => declarations: expose alpha~3
alpha = 1 => declarations: expose zeta~3
alpha = 1~zeta = box => principal: dave~3"#;

/// What bob is told of what a module makes of an object `box`.
struct Found;

impl Question for Found {
    fn answer(&self, alloc: Global, parts: &[String]) -> Result<String, Fail> {
        let module = part(parts, 0);
        let declarations = format!(in alloc;
            r#"version = 1
expose = ["found"]
module = """
{module}
"""
[class.Box]
[principal.bob]
[object.box]
class = "Box"
fields = {{ size = 3 }}
"#
        )?;
        said_over(alloc, RUN, declarations.as_str(), b"print(found)")
    }
}

/// The module, and what is told: CPython prints the same.
const MADE: &str =
    r#"class Box:~    def __getitem__(self, i):~        return i~found = box[0] => session 1 bob~0~end ok~0
class Box:~    def __len__(self):~        return self.size~    def __contains__(self, n):~\
            return n < self.size~found = (len(box), 2 in box, 5 in box, 5 not in box) => session 1 bob~\
    (3, True, False, True)~end ok~0
class Box:~    def __setitem__(self, k, v):~        setattr(self, k, v)~    def __delitem__(self, k):~\
            del self.size~box['n'] = 5~box['m'] = getattr(box, 'n') + 1~del box['size']~\
    found = (box.n, box.m, getattr(box, 'size', 'none')) => session 1 bob~(5, 6, 'none')~end ok~0
class Box:~    def __getitem__(self, k):~        return getattr(self, k)~    def __setitem__(self, k, v):~\
            setattr(self, k, v)~box['size'] += 4~box['size'] *= 2~found = box['size'] => session 1 bob~14~end ok~0
class Box:~    def __call__(self, *xs, **d):~        return (xs, d)~\
    found = box(1, *[2, 3], k=4, **{'m': 5}) => session 1 bob~((1, 2, 3), {'k': 4, 'm': 5})~end ok~0
class Pair:~    def __init__(self, a, b=2):~        self.a = a~        self.b = b~    def __getitem__(self, i):~\
            return [self.a, self.b][i]~p = Pair(1)~found = [p[0], p[1], p[-1]] => session 1 bob~[1, 2, 2]~end ok~0
def fib(n):~    return n if n < 2 else fib(n - 1) + fib(n - 2)~\
    found = {i: [fib(j) for j in range(i)] for i in range(1, 5) if i % 2} => session 1 bob~{1: [0], 3: [0, 1, 1]}~\
    end ok~0
try:~    box[0]~except TypeError:~    found = 'none'~finally:~    box.size += 1~\
    found = (found, box.size) => session 1 bob~('none', 4)~end ok~0
_kept = 'kept'~def __twice(x):~    return x * 2~found = __twice(_kept) => session 1 bob~keptkept~end ok~0
print('dropped')~def count():~    global found~    found = f'{box.size} in all'~count()~\
    found += '!' if box.size in {1, 3} else '?' => session 1 bob~3 in all!~end ok~0
total = 0~for i, (a, b) in enumerate(zip([1, 2], 'xy')):~    total += i * a + len(b)~while total < 100:~\
        total *= 3~found = total => session 1 bob~108~end ok~0"#;

#[test]
fn lists_hand_out_proxies(rt: HostRuntime) -> Result<(), Fail> {
    all_answer(rt.alloc(), &Over::Filling, FILLED)
}

#[test]
fn scripts_call_trusted_code(rt: HostRuntime) -> Result<(), Fail> {
    all_answer(rt.alloc(), &Over::Filling, CALLED)
}

#[test]
fn trusted_code_keeps_proxies_that_it_is_handed(rt: HostRuntime) -> Result<(), Fail> {
    all_answer(rt.alloc(), &Over::Peeking, PEEKED)
}

#[test]
fn refuses_what_has_no_world_before_principals(rt: HostRuntime) -> Result<(), Fail> {
    all_answer(rt.alloc(), &Loaded, ORDER)
}

#[test]
fn modules_run_in_the_whole_language(rt: HostRuntime) -> Result<(), Fail> {
    all_answer(rt.alloc(), &Found, MADE)
}

#[test]
fn operations_call_special_methods_of_trusted_classes(rt: HostRuntime) -> Result<(), Fail> {
    all_answer(rt.alloc(), &Over::Shelves, SPECIAL)
}

#[test]
fn tells_permissions_of_declarations_with_a_module(rt: HostRuntime) -> Result<(), Fail> {
    all_answer(rt.alloc(), &Over::Filling, ASKED)
}
