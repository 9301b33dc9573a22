//! Special methods of trusted classes, which scripts call by operations on objects that they are lent.

use crate::module_tests::told_over;
use rp_tests_cases::{Question, all_answer, number, part};
use rp_tests_stage::{Code, Setting};
use std::alloc::Global;
use std::test::Fail;

/// More steps and cells than the scripts of tables take.
const AMPLE: u64 = 1_000_000;

const DECLARATIONS: &str = r#"version = 1
permissions = ["demo.View", "demo.Edit"]
expose = ["shelf", "box", "make", "loose", "Tag", "shelves"]
module = """
class Shelf:
    def __len__(self):
        return len(self.books)
    def __getitem__(self, i):
        self.reads += 1
        return self.books[i]
    def __setitem__(self, i, book):
        self.books[i] = book
    def __delitem__(self, i):
        del self.books[i]
    def __contains__(self, book):
        return book in self.books
    def count(self, other):
        return len(other) + len(self)
    def mark(self, other):
        other[0] += '!'
    def first(self, xs):
        return xs[0][0]
    def drop(self, other):
        del removeSecurityProxy(other)[0]
class Box:
    def __len__(self):
        return self.size
    def __getitem__(self, f):
        return f(self)
    def __setitem__(self, f, x):
        self.size = f(x)
    def __delitem__(self, f):
        f(self.size)
    def __contains__(self, f):
        return f(self)
    def __call__(self, x, y=2):
        return [x, y]
class Tag:
    def __init__(self, n):
        self.n = n
    def __len__(self):
        return self.n
class Loose:
    def __len__(self):
        return 3
def make(n):
    return Tag(n)
def loose():
    return Loose()
shelves = [shelf, box]
"""
[class.Shelf.get]
__len__ = "zope.Public"
__getitem__ = "demo.View"
__setitem__ = "demo.Edit"
__delitem__ = "demo.Edit"
__contains__ = "demo.View"
reads = "zope.Public"
count = "zope.Public"
mark = "zope.Public"
first = "zope.Public"
drop = "zope.Public"
[class.Box.get]
__len__ = "zope.Public"
__getitem__ = "zope.Public"
__setitem__ = "zope.Public"
__delitem__ = "zope.Public"
__contains__ = "zope.Public"
__call__ = "demo.View"
size = "demo.View"
[class.Box.set]
size = "demo.Edit"
[class.Tag.get]
__len__ = "zope.Public"
n = "demo.View"
[principal.ann]
allow = ["demo.View", "demo.Edit"]
[principal.bob]
allow = ["demo.View"]
[principal.eve]
[object.shelf]
class = "Shelf"
fields = { books = ["Ada", "Bede", ["x", "y"]], reads = 0 }
[object.box]
class = "Box"
fields = { size = 4 }
"#;

/// A script for a principal, within limits.
fn within(who: &str, steps: u64, cells: u64) -> Setting<'_> {
    Setting {
        declarations: DECLARATIONS,
        who,
        code: Code::Script,
        steps,
        cells,
    }
}

/// What the script that is the second part prints for the principal of the first, how it ends, and the trail.
struct LentTo;

impl Question for LentTo {
    fn answer(&self, alloc: Global, parts: &[String]) -> Result<String, Fail> {
        let script = part(parts, 1);
        told_over(alloc, within(part(parts, 0), AMPLE, AMPLE), script)
    }
}

/// The same for ann of the script that is the third part, which may take as many steps as the first says, and use as
/// many cells as the second.
struct LentWithin;

impl Question for LentWithin {
    fn answer(&self, alloc: Global, parts: &[String]) -> Result<String, Fail> {
        let steps = number(parts, 0) as u64;
        let cells = number(parts, 1) as u64;
        told_over(alloc, within("ann", steps, cells), part(parts, 2))
    }
}

/// What is decided comes first, and where it is not allowed the method is not called.
const PERMITTED: &str =
    r#"eve => print(len(shelf)) => 3~well~1 1 eve allow get Shelf.__len__ zope.Public~
bob => print(shelf[0], shelf[-2], shelf.reads) => Ada Bede 2~well~1 1 bob allow get Shelf.__getitem__ demo.View~\
    2 1 bob allow get Shelf.__getitem__ demo.View~3 1 bob allow get Shelf.reads zope.Public~
ann => shelf[0] = 'Cleo'~print(shelf[0], len(shelf)) => Cleo 3~well~1 1 ann allow get Shelf.__setitem__ demo.Edit~\
    2 1 ann allow get Shelf.__getitem__ demo.View~3 1 ann allow get Shelf.__len__ zope.Public~
ann => del shelf[0], shelf[0]~print(len(shelf)) => 1~well~1 1 ann allow get Shelf.__delitem__ demo.Edit~\
    2 1 ann allow get Shelf.__delitem__ demo.Edit~3 1 ann allow get Shelf.__len__ zope.Public~
bob => print('Ada' in shelf, 'Cleo' in shelf, 'Ada' not in shelf) => True False False~well~\
    1 1 bob allow get Shelf.__contains__ demo.View~2 1 bob allow get Shelf.__contains__ demo.View~\
    3 1 bob allow get Shelf.__contains__ demo.View~
eve => try:~    shelf[0]~except Unauthorized as e:~    print(e, shelf.reads) => demo.View 0~well~\
    1 1 eve deny get Shelf.__getitem__ demo.View~2 1 eve allow get Shelf.reads zope.Public~
bob => try:~    shelf[0] = 'Cleo'~except Unauthorized as e:~    print(e, shelf[0]) => demo.Edit Ada~well~\
    1 1 bob deny get Shelf.__setitem__ demo.Edit~2 1 bob allow get Shelf.__getitem__ demo.View~
bob => try:~    del shelf[0]~except Unauthorized as e:~    print(e, len(shelf)) => demo.Edit 3~well~\
    1 1 bob deny get Shelf.__delitem__ demo.Edit~2 1 bob allow get Shelf.__len__ zope.Public~
eve => 'Ada' not in shelf => Unauthorized: demo.View~1 1 eve deny get Shelf.__contains__ demo.View~
ann => for shelf[0] in ['Cleo', 'Dan']:~    print(shelf[0]) => Cleo~Dan~well~\
    1 1 ann allow get Shelf.__setitem__ demo.Edit~2 1 ann allow get Shelf.__getitem__ demo.View~\
    3 1 ann allow get Shelf.__setitem__ demo.Edit~4 1 ann allow get Shelf.__getitem__ demo.View~
bob => print(shelf[shelf.reads], [shelf[i] for i in range(2)], 'Ada' in shelf in [shelf]) \
    => Ada ['Ada', 'Bede'] True~well~1 1 bob allow get Shelf.reads zope.Public~\
    2 1 bob allow get Shelf.__getitem__ demo.View~3 1 bob allow get Shelf.__getitem__ demo.View~\
    4 1 bob allow get Shelf.__getitem__ demo.View~5 1 bob allow get Shelf.__contains__ demo.View~
bob => print([len(one) for one in shelves], shelves[0][1], 'Bede' in shelves[0]) => [3, 4] Bede True~well~\
    1 1 bob allow get list.__iter__ zope.Public~2 1 bob allow get Shelf.__len__ zope.Public~\
    3 1 bob allow get Box.__len__ zope.Public~4 1 bob allow get list.__getitem__ zope.Public~\
    5 1 bob allow get Shelf.__getitem__ demo.View~6 1 bob allow get list.__getitem__ zope.Public~\
    7 1 bob allow get Shelf.__contains__ demo.View~
bob => print(box(5), len(box)) => [5, 2] 4~well~1 1 bob allow get Box.__call__ demo.View~\
    2 1 bob allow get Box.__len__ zope.Public~3 1 bob allow get list.__str__ default~
eve => try:~    box(5)~except Unauthorized as e:~    print(e, len(box)) => demo.View 4~well~\
    1 1 eve deny get Box.__call__ demo.View~2 1 eve allow get Box.__len__ zope.Public~
bob => if shelf[0] and len(shelf) > 2:~    print('yes' if shelf else 'no') => yes~well~\
    1 1 bob allow get Shelf.__getitem__ demo.View~2 1 bob allow get Shelf.__len__ zope.Public~\
    3 1 bob allow get Shelf.__bool__ default~
bob => shelf[0:2] => TypeError: item~1 1 bob allow get Shelf.__getitem__ demo.View~
bob => for book in shelf:~    print(book) => ForbiddenAttribute: __iter__~1 1 bob forbid get Shelf.__iter__~"#;

/// What a special method gives is lent, unless it is the script's own.
const HANDED_OUT: &str =
    r#"bob => xs = shelf[2]~print(xs, xs[0], len(xs))~xs.append('z') => ['x', 'y'] x 2~ForbiddenAttribute: append~\
    1 1 bob allow get Shelf.__getitem__ demo.View~2 1 bob allow get list.__getitem__ zope.Public~\
    3 1 bob allow get list.__len__ zope.Public~4 1 bob allow get list.__str__ default~\
    5 1 bob forbid get list.append~
bob => shelf[2][0] = 'z' => ForbiddenAttribute: __setitem__~1 1 bob allow get Shelf.__getitem__ demo.View~\
    2 1 bob forbid get list.__setitem__~
ann => xs = [1]~shelf[0] = xs~shelf[0].append(2)~print(xs, shelf[0]) => [1, 2] [1, 2]~well~\
    1 1 ann allow get Shelf.__setitem__ demo.Edit~2 1 ann allow get Shelf.__getitem__ demo.View~\
    3 1 ann allow get Shelf.__getitem__ demo.View~
ann => shelf[0] = shelf~print(shelf[0][1], shelf[0].reads) => Bede 3~well~\
    1 1 ann allow get Shelf.__setitem__ demo.Edit~2 1 ann allow get Shelf.__getitem__ demo.View~\
    3 1 ann allow get Shelf.__getitem__ demo.View~4 1 ann allow get Shelf.__getitem__ demo.View~\
    5 1 ann allow get Shelf.reads zope.Public~
ann => shelf[2] = lambda: shelf.reads~print(shelf[2](), shelf.reads) => 1 1~well~\
    1 1 ann allow get Shelf.__setitem__ demo.Edit~2 1 ann allow get Shelf.__getitem__ demo.View~\
    3 1 ann allow get Shelf.reads zope.Public~4 1 ann allow get Shelf.reads zope.Public~
bob => print(box(5)[1], box(1, y=[2])[1])~box(5).append(6) => 2 [2]~ForbiddenAttribute: append~\
    1 1 bob allow get Box.__call__ demo.View~2 1 bob allow get list.__getitem__ zope.Public~\
    3 1 bob allow get Box.__call__ demo.View~4 1 bob allow get list.__getitem__ zope.Public~\
    5 1 bob allow get Box.__call__ demo.View~6 1 bob forbid get list.append~
bob => xs = [3]~box(xs)[0].append(4)~print(xs) => [3, 4]~well~1 1 bob allow get Box.__call__ demo.View~\
    2 1 bob allow get list.__getitem__ zope.Public~"#;

/// Special methods that call a function that the script hands them: it is the script's code, for whom all is lent.
const CALLED_BACK: &str =
    r#"bob => print(box[lambda b: b.size], box[len], 5 + box[lambda b: len(b)]) => 4 4 9~well~\
    1 1 bob allow get Box.__getitem__ zope.Public~2 1 bob allow get Box.size demo.View~\
    3 1 bob allow get Box.__getitem__ zope.Public~4 1 bob allow get Box.__getitem__ zope.Public~\
    5 1 bob allow get Box.__len__ zope.Public~
eve => box[lambda b: b.size] => Unauthorized: demo.View~1 1 eve allow get Box.__getitem__ zope.Public~\
    2 1 eve deny get Box.size demo.View~
bob => box[lambda b: b.hidden] => ForbiddenAttribute: hidden~1 1 bob allow get Box.__getitem__ zope.Public~\
    2 1 bob forbid get Box.hidden~
bob => print((lambda b: b.size > 3) in box, (lambda b: []) in box, (lambda b: [0]) not in box) => True False False~\
    well~1 1 bob allow get Box.__contains__ zope.Public~2 1 bob allow get Box.size demo.View~\
    3 1 bob allow get Box.__contains__ zope.Public~4 1 bob allow get Box.__contains__ zope.Public~
bob => box[lambda x: x * 2] = 21~print(len(box))~del box[print] => 42~42~well~\
    1 1 bob allow get Box.__setitem__ zope.Public~2 1 bob allow get Box.__len__ zope.Public~\
    3 1 bob allow get Box.__delitem__ zope.Public~
bob => xs = []~box[xs.append]~print(xs[0].size, xs)~xs[0].hidden => 4 [<Box object>]~ForbiddenAttribute: hidden~\
    1 1 bob allow get Box.__getitem__ zope.Public~2 1 bob allow get Box.size demo.View~\
    3 1 bob forbid get Box.hidden~
bob => print(box[lambda b: b[lambda c: c.size + 1] + 1]) => 6~well~1 1 bob allow get Box.__getitem__ zope.Public~\
    2 1 bob allow get Box.__getitem__ zope.Public~3 1 bob allow get Box.size demo.View~
bob => try:~    box[lambda b: b.size // 0]~except ZeroDivisionError as e:~    print('taken', e) => taken zero~well~\
    1 1 bob allow get Box.__getitem__ zope.Public~2 1 bob allow get Box.size demo.View~
ann => def grow(n):~    box.size = n + len(box)~    return 7~del box[grow]~print(len(box))~box[grow] = 1~\
    print(len(box)) => 8~7~well~1 1 ann allow get Box.__delitem__ zope.Public~\
    2 1 ann allow get Box.__len__ zope.Public~3 1 ann allow set Box.size demo.Edit~\
    4 1 ann allow get Box.__len__ zope.Public~5 1 ann allow get Box.__setitem__ zope.Public~\
    6 1 ann allow get Box.__len__ zope.Public~7 1 ann allow set Box.size demo.Edit~\
    8 1 ann allow get Box.__len__ zope.Public~
bob => def own(b):~    return [b]~xs = box[own]~xs.append(1)~print(len(xs), xs[0].size) => 2 4~well~\
    1 1 bob allow get Box.__getitem__ zope.Public~2 1 bob allow get Box.size demo.View~
eve => (lambda b: b.size) in box => Unauthorized: demo.View~1 1 eve allow get Box.__contains__ zope.Public~\
    2 1 eve deny get Box.size demo.View~"#;

/// Special methods that end by an exception, or give what is none of their values.
const ENDED: &str =
    r#"bob => try:~    shelf[9]~except IndexError as e:~    print('none', e, shelf.reads) => none index 1~well~\
    1 1 bob allow get Shelf.__getitem__ demo.View~2 1 bob allow get Shelf.reads zope.Public~
bob => shelf['a'] => TypeError: index~1 1 bob allow get Shelf.__getitem__ demo.View~
ann => shelf[9] = 'z' => IndexError: index~1 1 ann allow get Shelf.__setitem__ demo.Edit~
ann => del shelf[9] => IndexError: index~1 1 ann allow get Shelf.__delitem__ demo.Edit~
bob => box[1] => TypeError: call~1 1 bob allow get Box.__getitem__ zope.Public~
bob => 1 in box => TypeError: call~1 1 bob allow get Box.__contains__ zope.Public~
ann => box.size = -1~len(box) => TypeError: len~1 1 ann allow set Box.size demo.Edit~\
    2 1 ann allow get Box.__len__ zope.Public~
ann => box.size = 'a'~len(box) => TypeError: len~1 1 ann allow set Box.size demo.Edit~\
    2 1 ann allow get Box.__len__ zope.Public~
ann => box.size = [1]~len(box) => TypeError: len~1 1 ann allow set Box.size demo.Edit~\
    2 1 ann allow get Box.__len__ zope.Public~
ann => box.size = True~print(len(box)) => 1~well~1 1 ann allow set Box.size demo.Edit~\
    2 1 ann allow get Box.__len__ zope.Public~
ann => del box.size~len(box) => AttributeError: size~1 1 ann allow set Box.size demo.Edit~\
    2 1 ann allow get Box.__len__ zope.Public~
ann => box.size = box~len(box) => TypeError: len~1 1 ann allow set Box.size demo.Edit~\
    2 1 ann allow get Box.__len__ zope.Public~
bob => box(1, 2, 3) => TypeError: arguments~1 1 bob allow get Box.__call__ demo.View~
bob => box(x=1, z=2) => TypeError: arguments~1 1 bob allow get Box.__call__ demo.View~"#;

/// Trusted code that works on what a script has lent it, and on what is its own.
const TRUSTED: &str =
    r#"bob => print(shelf.count(shelf), shelf.count(box), shelf.count('ab')) => 6 7 5~well~\
    1 1 bob allow get Shelf.count zope.Public~2 1 bob allow get method.__call__ zope.Public~\
    3 1 bob allow get Shelf.__len__ zope.Public~4 1 bob allow get Shelf.count zope.Public~\
    5 1 bob allow get method.__call__ zope.Public~6 1 bob allow get Box.__len__ zope.Public~\
    7 1 bob allow get Shelf.count zope.Public~8 1 bob allow get method.__call__ zope.Public~
ann => shelf.mark(shelf)~print(shelf[0]) => Ada!~well~1 1 ann allow get Shelf.mark zope.Public~\
    2 1 ann allow get method.__call__ zope.Public~3 1 ann allow get Shelf.__getitem__ demo.View~\
    4 1 ann allow get Shelf.__setitem__ demo.Edit~5 1 ann allow get Shelf.__getitem__ demo.View~
bob => shelf.mark(shelf) => Unauthorized: demo.Edit~1 1 bob allow get Shelf.mark zope.Public~\
    2 1 bob allow get method.__call__ zope.Public~3 1 bob allow get Shelf.__getitem__ demo.View~\
    4 1 bob deny get Shelf.__setitem__ demo.Edit~
eve => shelf.mark(shelf) => Unauthorized: demo.View~1 1 eve allow get Shelf.mark zope.Public~\
    2 1 eve allow get method.__call__ zope.Public~3 1 eve deny get Shelf.__getitem__ demo.View~
bob => xs = ['a']~shelf.mark(xs)~print(xs) => ['a!']~well~1 1 bob allow get Shelf.mark zope.Public~\
    2 1 bob allow get method.__call__ zope.Public~
bob => print(shelf.first([shelf]), shelf.first(['ab'])) => Ada a~well~1 1 bob allow get Shelf.first zope.Public~\
    2 1 bob allow get method.__call__ zope.Public~3 1 bob allow get Shelf.__getitem__ demo.View~\
    4 1 bob allow get Shelf.first zope.Public~5 1 bob allow get method.__call__ zope.Public~
eve => print(shelf.first(shelves)) => Unauthorized: demo.View~1 1 eve allow get Shelf.first zope.Public~\
    2 1 eve allow get method.__call__ zope.Public~3 1 eve allow get list.__getitem__ zope.Public~\
    4 1 eve deny get Shelf.__getitem__ demo.View~
eve => print(shelf.first([shelf])) => Unauthorized: demo.View~1 1 eve allow get Shelf.first zope.Public~\
    2 1 eve allow get method.__call__ zope.Public~3 1 eve deny get Shelf.__getitem__ demo.View~
eve => shelf.drop(shelf)~print(len(shelf)) => 2~well~1 1 eve allow get Shelf.drop zope.Public~\
    2 1 eve allow get method.__call__ zope.Public~3 1 eve allow get Shelf.__len__ zope.Public~"#;

/// Instances that trusted code makes of its classes.
const CONSTRUCTED: &str =
    r#"bob => tag = make(3)~print(tag.n, len(tag), len(make(4))) => 3 3 4~well~\
    1 1 bob allow get function.__call__ zope.Public~2 1 bob allow get Tag.n demo.View~\
    3 1 bob allow get Tag.__len__ zope.Public~4 1 bob allow get function.__call__ zope.Public~\
    5 1 bob allow get Tag.__len__ zope.Public~
eve => make(3).n => Unauthorized: demo.View~1 1 eve allow get function.__call__ zope.Public~\
    2 1 eve deny get Tag.n demo.View~
bob => Tag(3) => ForbiddenAttribute: __call__~1 1 bob forbid get class.__call__~
bob => make() => TypeError: arguments~1 1 bob allow get function.__call__ zope.Public~
bob => make(3)[0] => ForbiddenAttribute: __getitem__~1 1 bob allow get function.__call__ zope.Public~\
    2 1 bob forbid get Tag.__getitem__~
bob => len(loose()) => ForbiddenAttribute: __len__~1 1 bob allow get function.__call__ zope.Public~\
    2 1 bob forbid get instance.__len__~
bob => print(loose() == loose(), loose()) => False <Loose object>~well~\
    1 1 bob allow get function.__call__ zope.Public~2 1 bob allow get function.__call__ zope.Public~\
    3 1 bob allow get instance.__eq__ default~4 1 bob allow get instance.__eq__ default~\
    5 1 bob allow get function.__call__ zope.Public~6 1 bob allow get instance.__str__ default~"#;

/// The steps, the cells, the script, and what comes of it.
const LIMITED: &str = r#"7 => 3 => len(box) => well~1 1 ann allow get Box.__len__ zope.Public~
6 => 3 => len(box) => no step~1 1 ann allow get Box.__len__ zope.Public~
7 => 2 => len(box) => no cell~1 1 ann allow get Box.__len__ zope.Public~
7 => 0 => len(box) => no cell~
11 => 6 => box[len] => well~1 1 ann allow get Box.__getitem__ zope.Public~
10 => 6 => box[len] => no step~1 1 ann allow get Box.__getitem__ zope.Public~
11 => 5 => box[len] => no cell~1 1 ann allow get Box.__getitem__ zope.Public~
3 => 6 => box[len] => no step~
11 => 6 => len in box => well~1 1 ann allow get Box.__contains__ zope.Public~
10 => 6 => len in box => no step~1 1 ann allow get Box.__contains__ zope.Public~
11 => 5 => len in box => no cell~1 1 ann allow get Box.__contains__ zope.Public~
9 => 5 => box[abs] = 5 => well~1 1 ann allow get Box.__setitem__ zope.Public~
8 => 5 => box[abs] = 5 => no step~1 1 ann allow get Box.__setitem__ zope.Public~
9 => 4 => box[abs] = 5 => no cell~1 1 ann allow get Box.__setitem__ zope.Public~
8 => 4 => del box[abs] => well~1 1 ann allow get Box.__delitem__ zope.Public~
7 => 4 => del box[abs] => no step~1 1 ann allow get Box.__delitem__ zope.Public~
8 => 3 => del box[abs] => no cell~1 1 ann allow get Box.__delitem__ zope.Public~
8 => 8 => box(5) => well~1 1 ann allow get Box.__call__ demo.View~
7 => 8 => box(5) => no step~1 1 ann allow get Box.__call__ demo.View~
8 => 7 => box(5) => no cell~1 1 ann allow get Box.__call__ demo.View~
11 => 8 => make(3) => well~1 1 ann allow get function.__call__ zope.Public~
10 => 8 => make(3) => no step~1 1 ann allow get function.__call__ zope.Public~
11 => 7 => make(3) => no cell~1 1 ann allow get function.__call__ zope.Public~"#;

#[test]
fn special_methods_are_called_where_the_operation_is_permitted(
    rt: HostRuntime,
) -> Result<(), Fail> {
    all_answer(rt.alloc(), &LentTo, PERMITTED)
}

#[test]
fn what_special_methods_give_is_lent(rt: HostRuntime) -> Result<(), Fail> {
    all_answer(rt.alloc(), &LentTo, HANDED_OUT)
}

#[test]
fn special_methods_call_functions_of_scripts(rt: HostRuntime) -> Result<(), Fail> {
    all_answer(rt.alloc(), &LentTo, CALLED_BACK)
}

#[test]
fn special_methods_end_by_exceptions(rt: HostRuntime) -> Result<(), Fail> {
    all_answer(rt.alloc(), &LentTo, ENDED)
}

#[test]
fn trusted_code_is_decided_where_it_was_lent_something(rt: HostRuntime) -> Result<(), Fail> {
    all_answer(rt.alloc(), &LentTo, TRUSTED)
}

#[test]
fn trusted_code_makes_instances(rt: HostRuntime) -> Result<(), Fail> {
    all_answer(rt.alloc(), &LentTo, CONSTRUCTED)
}

#[test]
fn special_methods_of_lent_objects_take_steps_and_cells(rt: HostRuntime) -> Result<(), Fail> {
    all_answer(rt.alloc(), &LentWithin, LIMITED)
}
