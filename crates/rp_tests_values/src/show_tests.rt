//! Values as texts.

// The texts of containers, numbers, truth values and kinds are those of CPython, but for an exception value with an
// empty text, which is shown as one that was made without a text; built-in functions, methods and instances have words
// of their own.

use crate::answers::all_answer;
use std::test::Fail;

const CASES: &str = "
    Objects are shown.
    x = [-1, 'a']; show x => [-1, 'a'] | 9 cells | 2 steps
    x = [-1, 'a']; y = (x, ~x); cells 1000; show y => ([-1, 'a'], [-1, 'a']) | 22 cells | 6 steps
    show (None,) => (None,) | 7 cells | 1 steps
    show () => () | 2 cells
    show [] => [] | 2 cells
    x = []; push x x; cells 99; show x => done; [[...]] | 7 cells | 1 steps
    t = []; x = [t, True]; y = (x,); elements x [y, True]; cells 99; show x \
        => done; [([...],), True] | 16 cells | 3 steps
    x = [1, True]; t = (x,); set_at x 0 t; cells 99; show t => done; ([(...), True],) | 16 cells | 3 steps
    show [ValueError('x'), ValueError('')] => [ValueError('x'), ValueError()] | 31 cells | 2 steps
    x = [-1, 'a']; show {True: x, None: 'é'} => {True: [-1, 'a'], None: 'é'} | 29 cells | 4 steps
    d = {}; put d 'k' ~d; cells 99; show d => done; {'k': {...}} | 12 cells | 1 steps
    show {} => {} | 2 cells
    c = class index {}; show c; show c {} => <class 'index'>; <index object> | 29 cells
    f = def index(); show f; show lambda(); show bound(5, f); show bound(5, append) \
        => <function index>; <function <lambda>>; <method index>; <method append> | 64 cells

    Cells and steps are taken in order.
    cells 9; steps 2; show [-1, 'a'] => [-1, 'a'] | 9 cells | 2 steps
    cells 9; steps 3; show [-1, 'a'] => [-1, 'a'] | 9 cells | 2 steps
    cells 8; steps 2; show [-1, 'a'] => stop cells | 8 cells | 2 steps
    cells 9; steps 1; show [-1, 'a'] => stop steps | 5 cells | 1 steps
    cells 9; steps 0; show [-1, 'a'] => stop steps | 1 cells
    cells 0; steps 9; show [-1, 'a'] => stop cells
    cells 4; steps 9; show [-1, 'a'] => stop cells | 4 cells | 1 steps
    x = [-1, 'a']; cells 29; steps 4; show {True: x, None: 'é'} => {True: [-1, 'a'], None: 'é'} | 29 cells | 4 steps
    x = [-1, 'a']; cells 29; steps 3; show {True: x, None: 'é'} => stop steps | 18 cells | 3 steps
    x = [-1, 'a']; cells 26; steps 4; show {True: x, None: 'é'} => stop cells | 25 cells | 4 steps
    x = [-1, 'a']; cells 28; steps 4; show {True: x, None: 'é'} => stop cells | 28 cells | 4 steps
    cells 2; steps 0; show [] => [] | 2 cells
    cells 1; steps 0; show [] => stop cells | 1 cells

    Two hundred containers lie within one another.
    x = wrap 0 []; show x => [] | 2 cells
    x = wrap 199 []; show x => [[[[[[[[[[[[[[[[[[[[[[[[[[[[[[[[[[[[[[[[[[[[[[[[[[[[[[[[[[[[[[[[[[[[[[[[[[[[[[[[[[[[[[[[\
        [[[[[[[[[[[[[[[[[[[[[[[[[[[[[[[[[[[[[[[[[[[[[[[[[[[[[[[[[[[[[[[[[[[[[[[[[[[[[[[[[[[[[[[[[[[[[[[[[[[[[[[[[[[[[[[\
        []]]]]]]]]]]]]]]]]]]]]]]]]]]]]]]]]]]]]]]]]]]]]]]]]]]]]]]]]]]]]]]]]]]]]]]]]]]]]]]]]]]]]]]]]]]]]]]]]]]]]]]]]]]]]]\
        ]]]]]]]]]]]]]]]]]]]]]]]]]]]]]]]]]]]]]]]]]]]]]]]]]]]]]]]]]]]]]]]]]]]]]]]]]]]]]]]]]]]]]]]]]] | 400 cells | 199 \
        steps
    steps 1000; x = wrap 200 []; show x; steps 1000; cells 9 => RecursionError: depth
    x = wrap 249 []; show x; steps 1000; cells 9 => RecursionError: depth
    x = []; push x x; cells 999; show x => done; [[...]] | 7 cells | 1 steps
    x = []; y = wrap 199 x; push x y; cells 999; show y => done; \
        [[[[[[[[[[[[[[[[[[[[[[[[[[[[[[[[[[[[[[[[[[[[[[[[[[[[[[[[[[[[[[[[[[[[[[[[[[[[[[[[[[[[[[[[[[[[[[[[[[[[[[[[[[[[[[[\
        [[[[[[[[[[[[[[[[[[[[[[[[[[[[[[[[[[[[[[[[[[[[[[[[[[[[[[[[[[[[[[[[[[[[[[[[[[[[[[[[[[[[[[[[[[...]]]]]]]]]]]]]]]]]]\
        ]]]]]]]]]]]]]]]]]]]]]]]]]]]]]]]]]]]]]]]]]]]]]]]]]]]]]]]]]]]]]]]]]]]]]]]]]]]]]]]]]]]]]]]]]]]]]]]]]]]]]]]]]]]]]]]\
        ]]]]]]]]]]]]]]]]]]]]]]]]]]]]]]]]]]]]]]]]]]]]]]]]]]]]]]]]]]]]]]]]]]]]]]]] | 405 cells | 200 steps
    x = []; y = wrap 200 x; push x y; show y; steps 1000; cells 9 => done; RecursionError: depth

    Rocks alone cost their bytes and texts nothing.
    cells 0; show 'it\\'s é' => it's é
    cells 3; show ValueError('é\\'') => é' | 3 cells
    cells 2; show ValueError('é\\'') => stop cells | 2 cells
    cells 1; show ValueError('é\\'') => stop cells
    cells 0; show ValueError(''); used => 0
    cells 3; show -12 => -12 | 3 cells
    cells 2; show -12 => stop cells | 2 cells
    cells 14; show len => <function len> | 14 cells

    Rocks alone are shown.
    show None => None | 4 cells
    show True => True | 4 cells
    show False => False | 5 cells
    show -12 => -12 | 3 cells
    show ValueError => <class 'ValueError'> | 20 cells
    show len => <function len> | 14 cells
    cells 20; steps 0; show 'it\\'s é' => it's é
    show ValueError('é\\'') => é' | 3 cells

    Plain and lent lists are shown.
    show [-1] => [-1] | 4 cells | 1 steps
    show ~[-1] => [-1] | 4 cells | 1 steps

    Texts stand in quotes.
    inside '' => ''
    inside 'a b' => 'a b'
    inside 'it\\'s' => \"it's\"
    inside 'say \"hi\"' => 'say \"hi\"'
    inside 'it\\'s \"so\"' => 'it\\'s \"so\"'
    inside '\\'\\'' => \"''\"
    inside '\"' => '\"'
    inside 'é€' => 'é€'

    Characters are escaped.
    inside 'a\\\\b' => 'a\\\\b'
    inside '\\\\' => '\\\\'
    inside 'a\\nb' => 'a\\nb'
    inside 'a\\rb' => 'a\\rb'
    inside 'a\\tb' => 'a\\tb'
    inside '\\0' => '\\x00'
    inside '\u{1b}[0m' => '\\x1b[0m'
    inside '\u{1f} ' => '\\x1f '
    inside '~\u{7f}' => '~\\x7f'
    inside '\\'\\n\\\\\"' => '\\'\\n\\\\\"'

    Numbers are decimal.
    inside 0 => 0
    inside -1 => -1
    inside 9223372036854775807 => 9223372036854775807
    inside -9223372036854775808 => -9223372036854775808

    Exceptions are calls.
    inside ValueError('x') => ValueError('x')
    inside ValueError('') => ValueError()
    inside KeyError('it\\'s') => KeyError(\"it's\")
    inside Exception('a\\n') => Exception('a\\n')

    Other rocks are words.
    inside None => None
    inside True => True
    inside False => False
    inside ValueError => <class 'ValueError'>
    inside len => <function len>
    inside startswith => <function startswith>
";

#[test]
fn values_are_shown(rt: HostRuntime) -> Result<(), Fail> {
    all_answer(rt.alloc(), CASES)?;
    Ok(())
}
