//! Functions of scripts that trusted code calls while it walks what they change. CPython prints the same.

use crate::program_answers::{RUN, said_over};
use rp_tests_cases::{Question, all_answer, part};
use std::alloc::Global;
use std::test::Fail;

const WALKER: &str = r#"version = 1
expose = ["walker"]
module = """
class Walker:
    def each(self, xs, f):
        n = 0
        for x in xs:
            f(x)
            n += 1
        return n
    def own(self, f):
        for word in self.words:
            f(word)
        return len(self.words)
    def drop(self):
        return self.words.pop()
"""
[class.Walker.get]
each = "zope.Public"
own = "zope.Public"
drop = "zope.Public"
[principal.bob]
[object.walker]
class = "Walker"
fields = { words = ["a", "b", "c", "d"] }
"#;

/// What is said where bob runs the script that is the first part.
struct Walked;

impl Question for Walked {
    fn answer(&self, alloc: Global, parts: &[String]) -> Result<String, Fail> {
        said_over(alloc, RUN, WALKER, part(parts, 0).as_bytes())
    }
}

/// What is walked grows, shrinks and is emptied, and the functions store, raise and call back.
const CHANGED: &str =
    r#"xs = [1, 2, 3, 4]~print(walker.each(xs, xs.remove), xs) => session 1 bob~2 [2, 4]~end ok~0
d = {'a': 1, 'b': 2}~def f(k):~    del d[k]~walker.each(d, f) => session 1 bob~end RuntimeError: dict size\
    ~1
d = {'a': 1}~def f(k):~    if len(d) < 4:~        d[k + 'b'] = 2~print(walker.each([0], lambda x: walker.e\
    ach(d, f))) => session 1 bob~end RuntimeError: dict size~1
print(walker.own(lambda word: walker.drop())) => session 1 bob~2~end ok~0
words = []~def f(word):~    words.append(word)~    if len(words) < 3:~        walker.own(f)~print(walker.o\
    wn(f), len(words), words[:4]) => session 1 bob~4 12 ['a', 'a', 'a', 'b']~end ok~0
def f(x):~    raise ValueError(x)~try:~    walker.each([7], f)~except ValueError as e:~    print('taken', \
    e) => session 1 bob~taken 7~end ok~0
def f(x):~    if x > 0:~        walker.each([x - 1], f)~    print(x)~walker.each([2], f) => session 1 bob~\
    0~1~2~end ok~0
kept = []~walker.each([walker], kept.append)~print(kept[0] == walker, len(kept))~kept[0].drop()~print(kept\
    [0].own(kept.append), len(kept)) => session 1 bob~True 1~3 4~end ok~0
def f(x):~    xs.append(x)~    if len(xs) > 5:~        raise IndexError('enough')~xs = [1]~try:~    walker\
    .each(xs, f)~except IndexError as e:~    print(e, xs) => session 1 bob~enough [1, 1, 1, 1, 1, 1]~end ok~0
def f(x):~    return f(x)~try:~    walker.each([1], f)~except RecursionError:~    print('deep') => session\
     1 bob~deep~end ok~0
xs = [1, 2]~walker.each(xs, lambda x: xs.insert(0, x) if len(xs) < 5 else None)~print(xs) => session 1 bob\
    ~[1, 1, 1, 1, 2]~end ok~0"#;

#[test]
fn functions_of_scripts_change_what_trusted_code_walks(rt: HostRuntime) -> Result<(), Fail> {
    all_answer(rt.alloc(), &Walked, CHANGED)
}
