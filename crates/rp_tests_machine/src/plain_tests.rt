//! Scripts over numbers, comparisons and names. `bench/script_cases.py` made the cases.

use crate::ran::Ran;
use rp_tests_cases::all_answer;
use std::test::Fail;

const NUMBERS: &str = r#"print(1 + 2 * 3 - 4, (1 + 2) * 3) => 3 9~well
print(7 // 2, -7 // 2, 7 // -2, -7 // -2) => 3 -4 -4 3~well
print(7 % 3, -7 % 3, 7 % -3, -7 % -3) => 1 2 -2 -1~well
print(2 ** 10, -2 ** 2, 2 ** 3 ** 2, 0 ** 0) => 1024 -4 512 1~well
print(6 & 3, 6 | 3, 6 ^ 3, 1 << 5, 200 >> 3, -1 >> 70) => 2 7 5 32 25 -1~well
print(True + True, True & False, True | 1, True ^ True) => 2 False 1 False~well
print(- -5, +5, -(3 - 4), not 5, not 0, not not []) => 5 5 1 False True False~well
print(9223372036854775807, -9223372036854775807 - 1) => 9223372036854775807 -9223372036854775808~well
print(1 if 2 > 1 else 0, 'no' if 0 else 'yes') => 1 yes~well
print(abs(-3), int('42'), int(' 7') if 0 else int('-7'), int(True), bool(0), bool('x')) => 3 42 -7 1 False True~well
print(sum([1, 2, 3]), min(3, 1, 2), max([4, 9]), sorted([3, 1, 2])) => 6 1 9 [1, 2, 3]~well
x = 5~x += 2~x *= 3~x -= 1~x //= 4~x **= 2~x %= 7~x <<= 3~x |= 1~x &= 12~x ^= 5~x >>= 1~print(x) => 2~well
print(1 // 0) => ZeroDivisionError: zero
print('a')~print(1 % 0)~print('b') => a~ZeroDivisionError: zero
print(1 << -1) => ValueError: shift
print(int('x')) => ValueError: int
print(1 + 'a') => TypeError: operand
print(-'a') => TypeError: operand
print(sum(['a'])) => TypeError: argument
print(min([])) => ValueError: empty
print(9223372036854775807 + 1) => OverflowError: int
print(3037000500 * 3037000500) => OverflowError: int
print(-(-9223372036854775807 - 1)) => OverflowError: int
print(1 << 63) => OverflowError: int
print(2 ** 64) => OverflowError: int
print(2 ** -1) => ValueError: power"#;

const COMPARISONS: &str =
    r#"print(1 < 2, 2 <= 2, 3 > 4, 4 >= 5, 1 == True, 1 != 2) => True True False False True True~well
print(1 < 2 < 3, 1 < 3 < 2, 3 > 2 > 1 > 0, 1 == 1 == 1) => True False True True~well
print('a' < 'b', 'ab' < 'b', '' < 'a', 'b' >= 'a') => True True True True~well
print([1, 2] == [1, 2], [1] == (1,), (1, 2) == (1, 2), [1] != [2]) => True False True True~well
print(2 in [1, 2], 3 not in (1, 2), 'b' in 'abc', 'bd' in 'abc') => True True True False~well
x = None~print(x is None, x is not None, 0 is None) => True False False~well
print(0 and 1, 2 and 3, 0 or 4, 5 or 6, [] or 'x', '' and 1) => 0 3 4 5 x ~well
print(1 and 2 and 3, 1 and 0 and 3, 0 or '' or None, 0 or 7 or 8) => 3 0 None 7~well
print('first' if print('asked') or 1 else 'second') => asked~first~well
print(print(1) or print(2) or 3) => 1~2~3~well
print(print(1) and print(2)) => 1~None~well
print(0 and 1 // 0, 1 or 1 // 0) => 0 1~well
print(2 < 1 < 1 // 0) => False~well
print(len([1]) < len([1, 2]) < len([1, 2, 3])) => True~well
print(1 < 'a') => TypeError: operand
print('a' in ['b', 1, 'a'], None in [None], [] in [[]]) => True True True~well
print(1 in 5) => TypeError: operand
print(1 in 'a') => TypeError: operand
d = dict()~d['a'] = 1~print('a' in d, 1 in d, 'b' not in d) => True False True~well"#;

const NAMES: &str = r#"x = 1~x = x + 1~print(x) => 2~well
x = y = 3~x += 1~print(x, y) => 4 3~well
print(x) => NameError: x
x = 1~del x~print(x) => NameError: x
del x => NameError: x
x += 1 => NameError: x
x = 1~del x~x = 2~print(x) => 2~well
len = 3~print(len) => 3~well
a = 1~b = a~a = 2~print(a, b) => 2 1~well
xs = []~ys = xs~ys.append(1)~print(xs, ys) => [1] [1]~well
f = len~print(f('abc'), f == len) => 3 True~well
if 0:~    x = 1~print(x) => NameError: x
x = 1~x() => TypeError: call
'a'() => TypeError: call
None.x => AttributeError: x
a = b = []~a.append(b == a)~print(b) => [True]~well
pass~None~1~'text' => well
assert 1~assert 1, 'not told'~print('on') => on~well
assert 0, 'told' => AssertionError: told
assert [] => AssertionError: 
assert 1 // 0, 'later' => ZeroDivisionError: zero
assert 0, 1 // 0 => ZeroDivisionError: zero
len = 3~del len~print(len('ab')) => 2~well"#;

#[test]
fn numbers_are_operated_on(rt: HostRuntime) -> Result<(), Fail> {
    all_answer(rt.alloc(), &Ran, NUMBERS)
}

#[test]
fn values_are_compared(rt: HostRuntime) -> Result<(), Fail> {
    all_answer(rt.alloc(), &Ran, COMPARISONS)
}

#[test]
fn names_are_bound_and_found(rt: HostRuntime) -> Result<(), Fail> {
    all_answer(rt.alloc(), &Ran, NAMES)
}
