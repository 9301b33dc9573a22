//! Scripts that handle exceptions. `bench/script_cases.py` made the cases.

use crate::ran::Ran;
use rp_tests_cases::all_answer;
use std::test::Fail;

const HANDLERS: &str =
    r#"try:~    1 // 0~    print('no')~except ZeroDivisionError:~    print('taken')~print('on') => taken~on~well
try:~    1 // 0~except KeyError:~    print('no') => ZeroDivisionError: zero
try:~    1 // 0~except KeyError:~    print('no')~except ArithmeticError:~    print('above')~except ZeroDivisionError\
    :~    print('late') => above~well
try:~    1 // 0~except (KeyError, ZeroDivisionError):~    print('one of two') => one of two~well
try:~    1 // 0~except (KeyError, IndexError):~    print('no')~except:~    print('any') => any~well
try:~    dict()['a']~except LookupError:~    print('lookup') => lookup~well
try:~    [][0]~except Exception:~    print('exception') => exception~well
try:~    print(1)~except ValueError:~    print(2)~else:~    print(3) => 1~3~well
try:~    1 // 0~except ZeroDivisionError:~    print(2)~else:~    print(3) => 2~well
try:~    print(1)~except ZeroDivisionError:~    print(2)~else:~    1 // 0 => 1~ZeroDivisionError: zero
try:~    1 // 0~except ZeroDivisionError as e:~    print('in')~print(e) => in~NameError: e
e = 1~try:~    1 // 0~except ZeroDivisionError as e:~    e = 2~    print(e)~print(e) => 2~NameError: e
try:~    1 // 0~except ZeroDivisionError as e:~    del e~print('out') => out~well
try:~    1 // 0~except ZeroDivisionError as e:~    [][0]~print('no') => IndexError: index
try:~    try:~        1 // 0~    except ZeroDivisionError:~        raise~except ArithmeticError:~    print('again') \
    => again~well
try:~    1 // 0~except ZeroDivisionError:~    try:~        [][0]~    except IndexError:~        print('inner')~    r\
    aise => inner~ZeroDivisionError: zero
try:~    1 // 0~except ZeroDivisionError:~    try:~        [][0]~    except IndexError:~        raise => IndexError:\
     index
try:~    1 // 0~except 5:~    print('no') => TypeError: except
try:~    1 // 0~except (ZeroDivisionError, 5):~    print('no') => TypeError: except
try:~    1 // 0~except [][0]:~    print('no') => IndexError: index
try:~    1 // 0~except (print('asked') or KeyError):~    print('no')~except (print('too') or ZeroDivisionError):~   \
     print('yes') => asked~too~yes~well
try:~    print(1)~except (print('never') or KeyError):~    print('no') => 1~well
for x in [1, 0, 2]:~    try:~        print(6 // x)~    except ZeroDivisionError:~        print('none')~        conti\
    nue~    print('next') => 6~next~none~3~next~well
for x in [1, 0, 2]:~    try:~        print(6 // x)~    except ZeroDivisionError:~        break~print('out') => 6~out\
    ~well
for x in [[1, 0], [2]]:~    try:~        for y in x:~            print(2 // y)~    except ZeroDivisionError:~       \
     print(x) => 2~[1, 0]~1~well"#;

const RAISED_WITHIN: &str =
    r#"def f():~    raise ValueError~try:~    f()~except ValueError as e:~    print('[' + str(e) + ']') => []~well
def f(e):~    raise e~try:~    f(LookupError('k'))~except LookupError as e:~    print(e) => k~well
saved = None~try:~    raise ValueError('kept')~except ValueError as e:~    saved = e~print(saved)~raise saved => kep\
    t~ValueError: kept
def inner():~    try:~        [][0]~    except IndexError:~        print('inner')~try:~    1 // 0~except ZeroDivisio\
    nError:~    inner()~    raise => inner~ZeroDivisionError: zero
try:~    1 // 0~except ZeroDivisionError:~    for i in range(3):~        print(i)~        if i == 1:~            rai\
    se => 0~1~ZeroDivisionError: zero
def f():~    try:~        g()~    finally:~        print('f')~def g():~    try:~        raise RuntimeError('deep')~ \
       finally:~        print('g')~try:~    f()~except RuntimeError as e:~    print(e) => g~f~deep~well
try:~    raise IndexError('i')~except LookupError as e:~    print(e) => i~well
try:~    raise ValueError('v')~except ValueError as e:~    print([e], (e,)) => [ValueError('v')] (ValueError('v'),)~\
    well
try:~    try:~        raise ValueError('v')~    except KeyError:~        print('no')~    finally:~        print('las\
    t')~except ValueError as e:~    print(e) => last~v~well
def f():~    try:~        1 // 0~    except ZeroDivisionError as e:~        pass~    return e~f() => UnboundLocalErr\
    or: e
def f():~    try:~        1 // 0~    except ZeroDivisionError as e:~        return lambda: e~f()() => NameError: e
for x in [1]:~    try:~        1 // 0~    except ZeroDivisionError as e:~        break~print(e) => NameError: e
try:~    try:~        1 // 0~    except ZeroDivisionError as e:~        [][0]~except IndexError:~    pass~print(e) =\
    > NameError: e
def f(kind):~    try:~        raise kind~    except (KeyError, IndexError):~        return 'lookup'~    except Arith\
    meticError:~        return 'arithmetic'~    except:~        return 'other'~print(f(KeyError), f(OverflowError), \
    f(ZeroDivisionError), f(NameError)) => lookup arithmetic arithmetic other~well
def f(xs):~    for x in xs:~        try:~            print(10 // x)~        except ZeroDivisionError:~            pr\
    int('none')~            return 'out'~        finally:~            print('last', x)~print(f([5, 0, 2])) => 2~last\
     5~none~last 0~out~well
raise ValueError('a', 'b') => TypeError: arguments
try:~    {}['k']~except KeyError as e:~    print(e) => 'k'~well"#;

const LASTS: &str = r#"try:~    print(1)~finally:~    print(2) => 1~2~well
try:~    1 // 0~finally:~    print('last') => last~ZeroDivisionError: zero
try:~    1 // 0~except ZeroDivisionError:~    print(1)~finally:~    print(2) => 1~2~well
try:~    print(1)~except ValueError:~    print(2)~else:~    print(3)~finally:~    print(4) => 1~3~4~well
try:~    print(1)~except ZeroDivisionError:~    print(2)~else:~    1 // 0~finally:~    print(4) => 1~4~ZeroDivisionE\
    rror: zero
try:~    1 // 0~except ZeroDivisionError:~    [][0]~finally:~    print('last') => last~IndexError: index
try:~    1 // 0~finally:~    [][0] => IndexError: index
for x in [1, 2, 3]:~    try:~        if x == 2:~            continue~        if x == 3:~            break~        pr\
    int(x)~    finally:~        print('last', x)~print('out') => 1~last 1~last 2~last 3~out~well
for x in [1, 2]:~    try:~        1 // 0~    finally:~        print(x)~        break~print('out') => 1~out~well
i = 0~while i < 2:~    i += 1~    try:~        break~    finally:~        continue~print(i) => 2~well
try:~    try:~        1 // 0~    finally:~        print('inner')~except ZeroDivisionError:~    print('outer')~finall\
    y:~    print('last') => inner~outer~last~well
try:~    try:~        1 // 0~    finally:~        try:~            [][0]~        except IndexError:~            prin\
    t('within')~except ZeroDivisionError:~    print('outer') => within~outer~well"#;

#[test]
fn handlers_take_exceptions(rt: HostRuntime) -> Result<(), Fail> {
    all_answer(rt.alloc(), &Ran, HANDLERS)
}

#[test]
fn exceptions_pass_functions_and_handlers(rt: HostRuntime) -> Result<(), Fail> {
    all_answer(rt.alloc(), &Ran, RAISED_WITHIN)
}

#[test]
fn blocks_of_finally_come_last(rt: HostRuntime) -> Result<(), Fail> {
    all_answer(rt.alloc(), &Ran, LASTS)
}
