//! Scripts that leave blocks in each way, before blocks of `finally` that are. `bench/script_cases.py` made the cases.

use crate::ran::Ran;
use rp_tests_cases::all_answer;
use std::test::Fail;

const LEAVES: &str =
    r#"def f():~ for x in [1, 2]:~  try:~   print('try', x)~   pass~  finally:~   print('last', x)~   pass~  print('\
    on', x)~ return 'end'~print(f()) => try 1~last 1~on 1~try 2~last 2~on 2~end~well
def f():~ for x in [1, 2]:~  try:~   print('try', x)~   pass~  finally:~   print('last', x)~   return 'last'~  print\
    ('on', x)~ return 'end'~print(f()) => try 1~last 1~last~well
def f():~ for x in [1, 2]:~  try:~   print('try', x)~   pass~  finally:~   print('last', x)~   break~  print('on', x\
    )~ return 'end'~print(f()) => try 1~last 1~end~well
def f():~ for x in [1, 2]:~  try:~   print('try', x)~   pass~  finally:~   print('last', x)~   continue~  print('on'\
    , x)~ return 'end'~print(f()) => try 1~last 1~try 2~last 2~end~well
def f():~ for x in [1, 2]:~  try:~   print('try', x)~   pass~  finally:~   print('last', x)~   [][0]~  print('on', x\
    )~ return 'end'~print(f()) => try 1~last 1~IndexError: index
def f():~ for x in [1, 2]:~  try:~   print('try', x)~   return 'tried'~  finally:~   print('last', x)~   pass~  prin\
    t('on', x)~ return 'end'~print(f()) => try 1~last 1~tried~well
def f():~ for x in [1, 2]:~  try:~   print('try', x)~   return 'tried'~  finally:~   print('last', x)~   return 'las\
    t'~  print('on', x)~ return 'end'~print(f()) => try 1~last 1~last~well
def f():~ for x in [1, 2]:~  try:~   print('try', x)~   return 'tried'~  finally:~   print('last', x)~   break~  pri\
    nt('on', x)~ return 'end'~print(f()) => try 1~last 1~end~well
def f():~ for x in [1, 2]:~  try:~   print('try', x)~   return 'tried'~  finally:~   print('last', x)~   continue~  \
    print('on', x)~ return 'end'~print(f()) => try 1~last 1~try 2~last 2~end~well
def f():~ for x in [1, 2]:~  try:~   print('try', x)~   return 'tried'~  finally:~   print('last', x)~   [][0]~  pri\
    nt('on', x)~ return 'end'~print(f()) => try 1~last 1~IndexError: index
def f():~ for x in [1, 2]:~  try:~   print('try', x)~   break~  finally:~   print('last', x)~   pass~  print('on', x\
    )~ return 'end'~print(f()) => try 1~last 1~end~well
def f():~ for x in [1, 2]:~  try:~   print('try', x)~   break~  finally:~   print('last', x)~   return 'last'~  prin\
    t('on', x)~ return 'end'~print(f()) => try 1~last 1~last~well
def f():~ for x in [1, 2]:~  try:~   print('try', x)~   break~  finally:~   print('last', x)~   break~  print('on', \
    x)~ return 'end'~print(f()) => try 1~last 1~end~well
def f():~ for x in [1, 2]:~  try:~   print('try', x)~   break~  finally:~   print('last', x)~   continue~  print('on\
    ', x)~ return 'end'~print(f()) => try 1~last 1~try 2~last 2~end~well
def f():~ for x in [1, 2]:~  try:~   print('try', x)~   break~  finally:~   print('last', x)~   [][0]~  print('on', \
    x)~ return 'end'~print(f()) => try 1~last 1~IndexError: index
def f():~ for x in [1, 2]:~  try:~   print('try', x)~   continue~  finally:~   print('last', x)~   pass~  print('on'\
    , x)~ return 'end'~print(f()) => try 1~last 1~try 2~last 2~end~well
def f():~ for x in [1, 2]:~  try:~   print('try', x)~   continue~  finally:~   print('last', x)~   return 'last'~  p\
    rint('on', x)~ return 'end'~print(f()) => try 1~last 1~last~well
def f():~ for x in [1, 2]:~  try:~   print('try', x)~   continue~  finally:~   print('last', x)~   break~  print('on\
    ', x)~ return 'end'~print(f()) => try 1~last 1~end~well
def f():~ for x in [1, 2]:~  try:~   print('try', x)~   continue~  finally:~   print('last', x)~   continue~  print(\
    'on', x)~ return 'end'~print(f()) => try 1~last 1~try 2~last 2~end~well
def f():~ for x in [1, 2]:~  try:~   print('try', x)~   continue~  finally:~   print('last', x)~   [][0]~  print('on\
    ', x)~ return 'end'~print(f()) => try 1~last 1~IndexError: index
def f():~ for x in [1, 2]:~  try:~   print('try', x)~   1 // 0~  finally:~   print('last', x)~   pass~  print('on', \
    x)~ return 'end'~print(f()) => try 1~last 1~ZeroDivisionError: zero
def f():~ for x in [1, 2]:~  try:~   print('try', x)~   1 // 0~  finally:~   print('last', x)~   return 'last'~  pri\
    nt('on', x)~ return 'end'~print(f()) => try 1~last 1~last~well
def f():~ for x in [1, 2]:~  try:~   print('try', x)~   1 // 0~  finally:~   print('last', x)~   break~  print('on',\
     x)~ return 'end'~print(f()) => try 1~last 1~end~well
def f():~ for x in [1, 2]:~  try:~   print('try', x)~   1 // 0~  finally:~   print('last', x)~   continue~  print('o\
    n', x)~ return 'end'~print(f()) => try 1~last 1~try 2~last 2~end~well
def f():~ for x in [1, 2]:~  try:~   print('try', x)~   1 // 0~  finally:~   print('last', x)~   [][0]~  print('on',\
     x)~ return 'end'~print(f()) => try 1~last 1~IndexError: index"#;

const HANDLER_LEAVES: &str =
    r#"def f():~ for x in [1, 2]:~  try:~   1 // 0~  except ZeroDivisionError:~   print('taken', x)~   pass~  finall\
    y:~   print('last', x)~   pass~  print('on', x)~ return 'end'~print(f()) => taken 1~last 1~on 1~taken 2~last 2~o\
    n 2~end~well
def f():~ for x in [1, 2]:~  try:~   1 // 0~  except ZeroDivisionError:~   print('taken', x)~   pass~  finally:~   p\
    rint('last', x)~   return 'last'~  print('on', x)~ return 'end'~print(f()) => taken 1~last 1~last~well
def f():~ for x in [1, 2]:~  try:~   1 // 0~  except ZeroDivisionError:~   print('taken', x)~   pass~  finally:~   p\
    rint('last', x)~   break~  print('on', x)~ return 'end'~print(f()) => taken 1~last 1~end~well
def f():~ for x in [1, 2]:~  try:~   1 // 0~  except ZeroDivisionError:~   print('taken', x)~   pass~  finally:~   p\
    rint('last', x)~   continue~  print('on', x)~ return 'end'~print(f()) => taken 1~last 1~taken 2~last 2~end~well
def f():~ for x in [1, 2]:~  try:~   1 // 0~  except ZeroDivisionError:~   print('taken', x)~   pass~  finally:~   p\
    rint('last', x)~   [][0]~  print('on', x)~ return 'end'~print(f()) => taken 1~last 1~IndexError: index
def f():~ for x in [1, 2]:~  try:~   1 // 0~  except ZeroDivisionError:~   print('taken', x)~   return 'tried'~  fin\
    ally:~   print('last', x)~   pass~  print('on', x)~ return 'end'~print(f()) => taken 1~last 1~tried~well
def f():~ for x in [1, 2]:~  try:~   1 // 0~  except ZeroDivisionError:~   print('taken', x)~   return 'tried'~  fin\
    ally:~   print('last', x)~   return 'last'~  print('on', x)~ return 'end'~print(f()) => taken 1~last 1~last~well
def f():~ for x in [1, 2]:~  try:~   1 // 0~  except ZeroDivisionError:~   print('taken', x)~   return 'tried'~  fin\
    ally:~   print('last', x)~   break~  print('on', x)~ return 'end'~print(f()) => taken 1~last 1~end~well
def f():~ for x in [1, 2]:~  try:~   1 // 0~  except ZeroDivisionError:~   print('taken', x)~   return 'tried'~  fin\
    ally:~   print('last', x)~   continue~  print('on', x)~ return 'end'~print(f()) => taken 1~last 1~taken 2~last 2\
    ~end~well
def f():~ for x in [1, 2]:~  try:~   1 // 0~  except ZeroDivisionError:~   print('taken', x)~   return 'tried'~  fin\
    ally:~   print('last', x)~   [][0]~  print('on', x)~ return 'end'~print(f()) => taken 1~last 1~IndexError: index
def f():~ for x in [1, 2]:~  try:~   1 // 0~  except ZeroDivisionError:~   print('taken', x)~   break~  finally:~   \
    print('last', x)~   pass~  print('on', x)~ return 'end'~print(f()) => taken 1~last 1~end~well
def f():~ for x in [1, 2]:~  try:~   1 // 0~  except ZeroDivisionError:~   print('taken', x)~   break~  finally:~   \
    print('last', x)~   return 'last'~  print('on', x)~ return 'end'~print(f()) => taken 1~last 1~last~well
def f():~ for x in [1, 2]:~  try:~   1 // 0~  except ZeroDivisionError:~   print('taken', x)~   break~  finally:~   \
    print('last', x)~   break~  print('on', x)~ return 'end'~print(f()) => taken 1~last 1~end~well
def f():~ for x in [1, 2]:~  try:~   1 // 0~  except ZeroDivisionError:~   print('taken', x)~   break~  finally:~   \
    print('last', x)~   continue~  print('on', x)~ return 'end'~print(f()) => taken 1~last 1~taken 2~last 2~end~well
def f():~ for x in [1, 2]:~  try:~   1 // 0~  except ZeroDivisionError:~   print('taken', x)~   break~  finally:~   \
    print('last', x)~   [][0]~  print('on', x)~ return 'end'~print(f()) => taken 1~last 1~IndexError: index
def f():~ for x in [1, 2]:~  try:~   1 // 0~  except ZeroDivisionError:~   print('taken', x)~   continue~  finally:~\
       print('last', x)~   pass~  print('on', x)~ return 'end'~print(f()) => taken 1~last 1~taken 2~last 2~end~well
def f():~ for x in [1, 2]:~  try:~   1 // 0~  except ZeroDivisionError:~   print('taken', x)~   continue~  finally:~\
       print('last', x)~   return 'last'~  print('on', x)~ return 'end'~print(f()) => taken 1~last 1~last~well
def f():~ for x in [1, 2]:~  try:~   1 // 0~  except ZeroDivisionError:~   print('taken', x)~   continue~  finally:~\
       print('last', x)~   break~  print('on', x)~ return 'end'~print(f()) => taken 1~last 1~end~well
def f():~ for x in [1, 2]:~  try:~   1 // 0~  except ZeroDivisionError:~   print('taken', x)~   continue~  finally:~\
       print('last', x)~   continue~  print('on', x)~ return 'end'~print(f()) => taken 1~last 1~taken 2~last 2~end~w\
    ell
def f():~ for x in [1, 2]:~  try:~   1 // 0~  except ZeroDivisionError:~   print('taken', x)~   continue~  finally:~\
       print('last', x)~   [][0]~  print('on', x)~ return 'end'~print(f()) => taken 1~last 1~IndexError: index
def f():~ for x in [1, 2]:~  try:~   1 // 0~  except ZeroDivisionError:~   print('taken', x)~   raise~  finally:~   \
    print('last', x)~   pass~  print('on', x)~ return 'end'~print(f()) => taken 1~last 1~ZeroDivisionError: zero
def f():~ for x in [1, 2]:~  try:~   1 // 0~  except ZeroDivisionError:~   print('taken', x)~   raise~  finally:~   \
    print('last', x)~   return 'last'~  print('on', x)~ return 'end'~print(f()) => taken 1~last 1~last~well
def f():~ for x in [1, 2]:~  try:~   1 // 0~  except ZeroDivisionError:~   print('taken', x)~   raise~  finally:~   \
    print('last', x)~   break~  print('on', x)~ return 'end'~print(f()) => taken 1~last 1~end~well
def f():~ for x in [1, 2]:~  try:~   1 // 0~  except ZeroDivisionError:~   print('taken', x)~   raise~  finally:~   \
    print('last', x)~   continue~  print('on', x)~ return 'end'~print(f()) => taken 1~last 1~taken 2~last 2~end~well
def f():~ for x in [1, 2]:~  try:~   1 // 0~  except ZeroDivisionError:~   print('taken', x)~   raise~  finally:~   \
    print('last', x)~   [][0]~  print('on', x)~ return 'end'~print(f()) => taken 1~last 1~IndexError: index"#;

const ELSE_LEAVES: &str =
    r#"def f():~ for x in [1, 2]:~  try:~   print('try', x)~  except ZeroDivisionError:~   print('no')~  else:~   pa\
    ss~  finally:~   print('last', x)~  print('on', x)~ return 'end'~print(f()) => try 1~last 1~on 1~try 2~last 2~on\
     2~end~well
def f():~ for x in [1, 2]:~  try:~   print('try', x)~  except ZeroDivisionError:~   print('no')~  else:~   return 't\
    ried'~  finally:~   print('last', x)~  print('on', x)~ return 'end'~print(f()) => try 1~last 1~tried~well
def f():~ for x in [1, 2]:~  try:~   print('try', x)~  except ZeroDivisionError:~   print('no')~  else:~   break~  f\
    inally:~   print('last', x)~  print('on', x)~ return 'end'~print(f()) => try 1~last 1~end~well
def f():~ for x in [1, 2]:~  try:~   print('try', x)~  except ZeroDivisionError:~   print('no')~  else:~   continue~\
      finally:~   print('last', x)~  print('on', x)~ return 'end'~print(f()) => try 1~last 1~try 2~last 2~end~well
def f():~ for x in [1, 2]:~  try:~   print('try', x)~  except ZeroDivisionError:~   print('no')~  else:~   1 // 0~  \
    finally:~   print('last', x)~  print('on', x)~ return 'end'~print(f()) => try 1~last 1~ZeroDivisionError: zero"#;

const FUNCTION_LEAVES: &str =
    r#"def f():~ try:~  print('try')~  pass~ finally:~  print('last')~  pass~ print('on')~ return 'end'~print(f()) =\
    > try~last~on~end~well
def f():~ try:~  print('try')~  pass~ finally:~  print('last')~  return 'last'~ print('on')~ return 'end'~print(f())\
     => try~last~last~well
def f():~ try:~  print('try')~  pass~ finally:~  print('last')~  [][0]~ print('on')~ return 'end'~print(f()) => try~\
    last~IndexError: index
def f():~ try:~  print('try')~  return 'tried'~ finally:~  print('last')~  pass~ print('on')~ return 'end'~print(f()\
    ) => try~last~tried~well
def f():~ try:~  print('try')~  return 'tried'~ finally:~  print('last')~  return 'last'~ print('on')~ return 'end'~\
    print(f()) => try~last~last~well
def f():~ try:~  print('try')~  return 'tried'~ finally:~  print('last')~  [][0]~ print('on')~ return 'end'~print(f(\
    )) => try~last~IndexError: index
def f():~ try:~  print('try')~  1 // 0~ finally:~  print('last')~  pass~ print('on')~ return 'end'~print(f()) => try\
    ~last~ZeroDivisionError: zero
def f():~ try:~  print('try')~  1 // 0~ finally:~  print('last')~  return 'last'~ print('on')~ return 'end'~print(f(\
    )) => try~last~last~well
def f():~ try:~  print('try')~  1 // 0~ finally:~  print('last')~  [][0]~ print('on')~ return 'end'~print(f()) => tr\
    y~last~IndexError: index"#;

const LOOP_LEAVES: &str =
    r#"for x in [1, 2]:~ try:~  print('try', x)~  pass~ finally:~  print('last', x)~  pass~ print('on', x)~print('en\
    d') => try 1~last 1~on 1~try 2~last 2~on 2~end~well
for x in [1, 2]:~ try:~  print('try', x)~  pass~ finally:~  print('last', x)~  break~ print('on', x)~print('end') =>\
     try 1~last 1~end~well
for x in [1, 2]:~ try:~  print('try', x)~  pass~ finally:~  print('last', x)~  continue~ print('on', x)~print('end')\
     => try 1~last 1~try 2~last 2~end~well
for x in [1, 2]:~ try:~  print('try', x)~  pass~ finally:~  print('last', x)~  [][0]~ print('on', x)~print('end') =>\
     try 1~last 1~IndexError: index
for x in [1, 2]:~ try:~  print('try', x)~  break~ finally:~  print('last', x)~  pass~ print('on', x)~print('end') =>\
     try 1~last 1~end~well
for x in [1, 2]:~ try:~  print('try', x)~  break~ finally:~  print('last', x)~  break~ print('on', x)~print('end') =\
    > try 1~last 1~end~well
for x in [1, 2]:~ try:~  print('try', x)~  break~ finally:~  print('last', x)~  continue~ print('on', x)~print('end'\
    ) => try 1~last 1~try 2~last 2~end~well
for x in [1, 2]:~ try:~  print('try', x)~  break~ finally:~  print('last', x)~  [][0]~ print('on', x)~print('end') =\
    > try 1~last 1~IndexError: index
for x in [1, 2]:~ try:~  print('try', x)~  continue~ finally:~  print('last', x)~  pass~ print('on', x)~print('end')\
     => try 1~last 1~try 2~last 2~end~well
for x in [1, 2]:~ try:~  print('try', x)~  continue~ finally:~  print('last', x)~  break~ print('on', x)~print('end'\
    ) => try 1~last 1~end~well
for x in [1, 2]:~ try:~  print('try', x)~  continue~ finally:~  print('last', x)~  continue~ print('on', x)~print('e\
    nd') => try 1~last 1~try 2~last 2~end~well
for x in [1, 2]:~ try:~  print('try', x)~  continue~ finally:~  print('last', x)~  [][0]~ print('on', x)~print('end'\
    ) => try 1~last 1~IndexError: index
for x in [1, 2]:~ try:~  print('try', x)~  1 // 0~ finally:~  print('last', x)~  pass~ print('on', x)~print('end') =\
    > try 1~last 1~ZeroDivisionError: zero
for x in [1, 2]:~ try:~  print('try', x)~  1 // 0~ finally:~  print('last', x)~  break~ print('on', x)~print('end') \
    => try 1~last 1~end~well
for x in [1, 2]:~ try:~  print('try', x)~  1 // 0~ finally:~  print('last', x)~  continue~ print('on', x)~print('end\
    ') => try 1~last 1~try 2~last 2~end~well
for x in [1, 2]:~ try:~  print('try', x)~  1 // 0~ finally:~  print('last', x)~  [][0]~ print('on', x)~print('end') \
    => try 1~last 1~IndexError: index"#;

#[test]
fn blocks_in_loops_of_functions_are_left(rt: HostRuntime) -> Result<(), Fail> {
    all_answer(rt.alloc(), &Ran, LEAVES)
}

#[test]
fn blocks_of_handlers_and_of_else_are_left(rt: HostRuntime) -> Result<(), Fail> {
    all_answer(rt.alloc(), &Ran, HANDLER_LEAVES)?;
    all_answer(rt.alloc(), &Ran, ELSE_LEAVES)
}

#[test]
fn blocks_of_functions_and_of_loops_are_left(rt: HostRuntime) -> Result<(), Fail> {
    all_answer(rt.alloc(), &Ran, FUNCTION_LEAVES)?;
    all_answer(rt.alloc(), &Ran, LOOP_LEAVES)
}
