//! Two sessions that share objects and functions, in every order of their turns. `bench/turns.py` made the cases.

use crate::several_tests::said_to;
use rp_tests_cases::{Question, all_answer, part};
use std::alloc::Global;
use std::test::Fail;

const BOARD: &str = r#"version = 1
expose = ["board"]
module = """
class Board:
    def put(self, word):
        self.words.append(word)
        return len(self.words)
    def take(self):
        return self.words.pop()
    def count(self, key):
        self.counts[key] = self.counts.get(key, 0) + 1
        return self.counts[key]
    def keep(self, function):
        self.kept = function
    def ask(self, word):
        return self.kept(word)
    def told(self):
        return ' '.join(self.words) + ' ' + str(self.counts)
board.kept = lambda word: word + '?'
"""
[class.Board.get]
put = "zope.Public"
take = "zope.Public"
count = "zope.Public"
keep = "zope.Public"
ask = "zope.Public"
told = "zope.Public"
[principal.ann]
[principal.bob]
[object.board]
class = "Board"
fields = { words = ["old"], counts = { } }
"#;

const ONE: &str = r#"print(board.put('x'), board.count('n'), board.told())
board.keep(lambda word: word + str(board.count('one')))
print(board.ask('a'), board.take(), board.told())
"#;

const TWO: &str = r#"for word in ['y', 'z']:
    print(board.put(word), board.count('n'))
print(board.ask('b'), board.told())
board.keep(lambda word, seen=board.take(): seen + word + str(board.put('w')))
"#;

/// What is said where the sessions of both scripts take the turns that the first part lists.
struct InOrder;

impl Question for InOrder {
    fn answer(&self, alloc: Global, parts: &[String]) -> Result<String, Fail> {
        let turns = part(parts, 0);
        let line = format!(in alloc; "run title.toml ann:one.py bob:two.py --turns {turns}")?;
        let mut scripts = Vec::new(alloc);
        scripts.push(String::new(alloc))?;
        scripts.push(String::from_str(alloc, ONE)?)?;
        scripts.push(String::from_str(alloc, TWO)?)?;
        scripts.push(String::new(alloc))?;
        said_to(alloc, line.as_str(), BOARD, scripts.as_slice())
    }
}

/// CPython prints the same where the same statements run in that order.
const ORDERS: &str =
    r#"1,1,1,2,2,2 => session 1 ann~2 1 old x {'n': 1}~a1 x old {'n': 1, 'one': 1}~end ok~session 2 bob~2 2~3 3~b2 \
    old y z {'n': 3, 'one': 2}~end ok~0
1,1,2,1,2,2 => session 1 ann~2 1 old x {'n': 1}~a1 z old x y {'n': 3, 'one': 1}~end ok~session 2 bob~3 2~4 3\
    ~b2 old x y {'n': 3, 'one': 2}~end ok~0
1,1,2,2,1,2 => session 1 ann~2 1 old x {'n': 1}~a2 z old x y {'n': 3, 'one': 2}~end ok~session 2 bob~3 2~4 3\
    ~b1 old x y z {'n': 3, 'one': 1}~end ok~0
1,1,2,2,2,1 => session 1 ann~2 1 old x {'n': 1}~za4 w old x y {'n': 3, 'one': 1}~end ok~session 2 bob~3 2~4 \
    3~b1 old x y z {'n': 3, 'one': 1}~end ok~0
1,2,1,1,2,2 => session 1 ann~2 1 old x {'n': 1}~a1 z old x y {'n': 3, 'one': 1}~end ok~session 2 bob~3 2~4 3\
    ~b2 old x y {'n': 3, 'one': 2}~end ok~0
1,2,1,2,1,2 => session 1 ann~2 1 old x {'n': 1}~a2 z old x y {'n': 3, 'one': 2}~end ok~session 2 bob~3 2~4 3\
    ~b1 old x y z {'n': 3, 'one': 1}~end ok~0
1,2,1,2,2,1 => session 1 ann~2 1 old x {'n': 1}~za4 w old x y {'n': 3, 'one': 1}~end ok~session 2 bob~3 2~4 \
    3~b1 old x y z {'n': 3, 'one': 1}~end ok~0
1,2,2,1,1,2 => session 1 ann~2 1 old x {'n': 1}~a1 z old x y {'n': 3, 'one': 1}~end ok~session 2 bob~3 2~4 3\
    ~b? old x y z {'n': 3}~end ok~0
1,2,2,1,2,1 => session 1 ann~2 1 old x {'n': 1}~za4 w old x y {'n': 3}~end ok~session 2 bob~3 2~4 3~b? old x\
     y z {'n': 3}~end ok~0
1,2,2,2,1,1 => session 1 ann~2 1 old x {'n': 1}~a1 y old x {'n': 3, 'one': 1}~end ok~session 2 bob~3 2~4 3~b\
    ? old x y z {'n': 3}~end ok~0
2,1,1,1,2,2 => session 1 ann~4 3 old y z x {'n': 3}~a1 x old y z {'n': 3, 'one': 1}~end ok~session 2 bob~2 1\
    ~3 2~b2 old y z {'n': 3, 'one': 2}~end ok~0
2,1,1,2,1,2 => session 1 ann~4 3 old y z x {'n': 3}~a2 x old y z {'n': 3, 'one': 2}~end ok~session 2 bob~2 1\
    ~3 2~b1 old y z x {'n': 3, 'one': 1}~end ok~0
2,1,1,2,2,1 => session 1 ann~4 3 old y z x {'n': 3}~xa4 w old y z {'n': 3, 'one': 1}~end ok~session 2 bob~2 \
    1~3 2~b1 old y z x {'n': 3, 'one': 1}~end ok~0
2,1,2,1,1,2 => session 1 ann~4 3 old y z x {'n': 3}~a1 x old y z {'n': 3, 'one': 1}~end ok~session 2 bob~2 1\
    ~3 2~b? old y z x {'n': 3}~end ok~0
2,1,2,1,2,1 => session 1 ann~4 3 old y z x {'n': 3}~xa4 w old y z {'n': 3}~end ok~session 2 bob~2 1~3 2~b? o\
    ld y z x {'n': 3}~end ok~0
2,1,2,2,1,1 => session 1 ann~4 3 old y z x {'n': 3}~a1 z old y {'n': 3, 'one': 1}~end ok~session 2 bob~2 1~3\
     2~b? old y z x {'n': 3}~end ok~0
2,2,1,1,1,2 => session 1 ann~4 3 old y z x {'n': 3}~a1 x old y z {'n': 3, 'one': 1}~end ok~session 2 bob~2 1\
    ~3 2~b? old y z {'n': 2}~end ok~0
2,2,1,1,2,1 => session 1 ann~4 3 old y z x {'n': 3}~xa4 w old y z {'n': 3}~end ok~session 2 bob~2 1~3 2~b? o\
    ld y z {'n': 2}~end ok~0
2,2,1,2,1,1 => session 1 ann~4 3 old y z x {'n': 3}~a1 z old y {'n': 3, 'one': 1}~end ok~session 2 bob~2 1~3\
     2~b? old y z {'n': 2}~end ok~0
2,2,2,1,1,1 => session 1 ann~3 3 old y x {'n': 3}~a1 x old y {'n': 3, 'one': 1}~end ok~session 2 bob~2 1~3 2\
    ~b? old y z {'n': 2}~end ok~0"#;

#[test]
fn sessions_take_their_turns_in_every_order(rt: HostRuntime) -> Result<(), Fail> {
    all_answer(rt.alloc(), &InOrder, ORDERS)
}
