//! Equality, order and membership. The answers are CPython's; steps and depth are of this language.

use crate::answers::all_answer;
use std::test::Fail;

const CASES: &str = "
    Numbers are ordered to the ends of 64 bits.
    -9223372036854775808 < 9223372036854775807 => True
    9223372036854775807 < 9223372036854775807 => False
    -9223372036854775808 > 9223372036854775807 => False
    1 > 0 => True
    9223372036854775807 <= 9223372036854775807 => True
    0 <= -1 => False
    -1 >= 0 => False
    -9223372036854775808 >= -9223372036854775808 => True
    -9223372036854775808 == -9223372036854775808 => True
    -9223372036854775808 == 9223372036854775807 => False
    0 != 0 => False
    0 != -1 => True

    Truth values count as 1 and 0.
    True == 1 => True
    False == 0 => True
    True == 2 => False
    False != 1 => True
    False < 1 => True
    True < 1 => False
    True >= 1 => True
    1 == True => True
    0 == False => True
    2 == True => False

    Texts are ordered by code points.
    'Z' < 'a' => True
    'é' > 'z' => True
    '' < 'a' => True
    'a' < '' => False
    '�' < '𐀀' => True
    'a' < 'ab' => True
    'ab' < 'b' => True
    'b' >= 'ab' => True
    'a' < 'a' => False
    'a' <= 'a' => True
    'é' == 'é' => True
    'a' == 'b' => False
    'a' != '' => True

    Exception values are equal by kind and text.
    ValueError('a') == ValueError('a') => True
    ValueError('a') == ValueError('b') => False
    ValueError('a') == TypeError('a') => False
    ValueError('a') == ValueError => False

    Other rocks are equal to themselves.
    None == None; None == 0; KeyError == KeyError; KeyError == IndexError; len == len; len == str \
        => True; False; True; False; True; False

    Other kinds have no order.
    None < None; 1 < '1'; [1] < [2]; (1,) < (2,) \
        => TypeError: operand; TypeError: operand; TypeError: operand; TypeError: operand
    KeyError < KeyError; len < len; {} < {}; KeyError('a') < KeyError('b') \
        => TypeError: operand; TypeError: operand; TypeError: operand; TypeError: operand
    None <= None; 1 <= '1'; [1] <= [2]; (1,) <= (2,) \
        => TypeError: operand; TypeError: operand; TypeError: operand; TypeError: operand
    KeyError <= KeyError; len <= len; {} <= {}; KeyError('a') <= KeyError('b') \
        => TypeError: operand; TypeError: operand; TypeError: operand; TypeError: operand
    None > None; 1 > '1'; [1] > [2]; (1,) > (2,) \
        => TypeError: operand; TypeError: operand; TypeError: operand; TypeError: operand
    KeyError > KeyError; len > len; {} > {}; KeyError('a') > KeyError('b') \
        => TypeError: operand; TypeError: operand; TypeError: operand; TypeError: operand
    None >= None; 1 >= '1'; [1] >= [2]; (1,) >= (2,) \
        => TypeError: operand; TypeError: operand; TypeError: operand; TypeError: operand
    KeyError >= KeyError; len >= len; {} >= {}; KeyError('a') >= KeyError('b') \
        => TypeError: operand; TypeError: operand; TypeError: operand; TypeError: operand

    A pair takes a step up to the first unequal one.
    [1, 2] == [1, 2] => True | 2 steps
    steps 2; [1, 2] == [1, 2] => True | 2 steps
    steps 1; [1, 2] == [1, 2] => stop steps | 1 steps
    [1, 2, 3] != [1, 5, 3] => True | 2 steps
    steps 2; [1, 2, 3] != [1, 5, 3] => True | 2 steps
    steps 1; [1, 2, 3] != [1, 5, 3] => stop steps | 1 steps
    [1] == [1, 1] => False
    [] == [] => True
    equal [1, 2] [1, 2]; equal [1] [2] => True; False | 3 steps
    equal 1 True; equal 'a' 'b'; equal None None; equal {1: 2} {True: 2} => True; False; True; True | 1 steps

    Tuples are equal to tuples.
    steps 0; [1] == (1,) => False
    steps 1; (1,) == (1,) => True | 1 steps
    steps 1; (1,) == (2,) => False | 1 steps

    Dicts are equal in any order.
    {1: 10, 2: 20} == {2: 20, 1: 10} => True | 2 steps
    {1: 10, 2: 20} == {2: 20, 1: 11} => False | 1 steps
    {1: 10, 2: 20} == {1: 10, 3: 20} => False | 1 steps
    {1: 10, 2: 20} == {1: 10} => False
    {} == {} => True
    {1: [2]} == {1: [2]} => True | 2 steps
    {1: [2]} == {1: [3]} => False | 2 steps
    {None: 1, 'k': 2} == {'k': 2, None: 1} => True | 2 steps

    Other objects are equal to themselves. CPython compares bound methods by what they call and for what; here two \
        objects that are no containers are unequal.
    steps 0; x = bound(None, append); y = bound(None, append); x == y; x != y; x == x; ~x == x \
        => False; True; True; True
    x = lambda(); y = lambda(); x == y; x == x => False; True
    c = class C {}; x = c {}; y = c {}; x == y; x == x; x == ~x => False; True; True

    Rocks and objects are unequal.
    steps 0; x = [1]; x == 1; 1 == x; ~x == 1; 1 != ~x => False; False; False; True

    Lists are compared 200 deep.
    x = wrap 199 []; y = wrap 199 []; steps 300; x == y => True | 199 steps
    x = wrap 200 []; y = wrap 200 []; steps 300; x == y => RecursionError: depth | 200 steps
    x = wrap 249 []; y = wrap 249 []; steps 300; x == y => RecursionError: depth | 200 steps

    An object is equal to itself.
    x = []; push x x; y = []; push y y; x == x; x == ~x; ~x != ~x => done; done; True; True; False | 2 cells
    x = []; push x x; y = []; push y y; steps 300; x == y => done; done; RecursionError: depth | 2 cells | 200 steps
    x = []; push x x; y = []; push y y; steps 300; ~x == y => done; done; RecursionError: depth | 2 cells | 200 steps
    x = []; push x x; y = []; push y y; steps 199; x == y => done; done; stop steps | 2 cells | 199 steps

    Elements are sought by equality.
    steps 2; True in [0, 1] => True | 2 steps
    steps 1; True in [0, 1] => stop steps | 1 steps
    steps 1; 0 in [0, 1] => True | 1 steps
    steps 2; None in [0, 1] => False | 2 steps
    [1] in [0, [1]] => True | 3 steps
    1 in [] => False

    Lent containers are searched like plain ones.
    1 in [5, 1] => True | 2 steps
    2 in [5, 1] => False | 2 steps
    1 in ~[5, 1] => True | 2 steps
    2 in ~[5, 1] => False | 2 steps
    1 in (5, 1) => True | 2 steps
    2 in (5, 1) => False | 2 steps
    1 in ~(5, 1) => True | 2 steps
    2 in ~(5, 1) => False | 2 steps
    1 in {1: 2} => True
    2 in {1: 2} => False
    1 in ~{1: 2} => True
    2 in ~{1: 2} => False

    Keys are sought in dicts.
    d = {1: 2}; steps 0; True in d => True
    d = {1: 2}; steps 0; 1 in d => True
    d = {1: 2}; steps 0; 2 in d => False
    d = {1: 2}; steps 0; '1' in d => False
    d = {1: 2}; steps 0; d in d => TypeError: key
    d = {1: 2}; steps 0; KeyError in d => TypeError: key
    d = {1: 2}; steps 0; ~d in d => TypeError: key
    steps 0; None in {None: 0, 'k': 1} => True
    steps 0; 0 in {None: 0, 'k': 1} => False
    steps 0; 'k' in {None: 0, 'k': 1} => True
    steps 0; 'kk' in {None: 0, 'k': 1} => False
    steps 0; '' in {None: 0, 'k': 1} => False

    Texts are sought in texts.
    steps 0; 'b' in 'abc' => True
    steps 0; 'bc' in 'abc' => True
    steps 0; 'ac' in 'abc' => False
    steps 0; 'abcd' in 'abc' => False
    steps 0; '' in '' => True
    steps 0; '' in 'a' => True
    steps 0; 'a' in '' => False
    steps 0; 'é' in 'née' => True
    steps 0; '𐀀' in 'a𐀀b' => True
    1 in 'a'; 'a' in 1; None in None; 1 in KeyError \
        => TypeError: operand; TypeError: operand; TypeError: operand; TypeError: operand
    x = lambda(); 1 in x => TypeError: operand
";

#[test]
fn values_are_compared_and_sought(rt: HostRuntime) -> Result<(), Fail> {
    all_answer(rt.alloc(), CASES)?;
    Ok(())
}
