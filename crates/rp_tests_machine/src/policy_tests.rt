//! Scripts over declared objects: what they print, how they end, and every decision.

use crate::ran::{RanFor, RanTrustedFor, RanWithin};
use rp_tests_cases::all_answer;
use std::test::Fail;

/// The principal, the script, and what comes of it: what it prints, how it ends, and the trail.
const READS: &str =
    r#"eve => print(site.title) => Home~well~1 1 eve allow get Page.title zope.Public~
eve => print(site.tags) => Unauthorized: demo.View~1 1 eve deny get Page.tags demo.View~
eve => print(site.draft) => Unauthorized: demo.Edit~1 1 eve deny get Page.draft demo.Edit~
eve => print(site.nothing) => ForbiddenAttribute: nothing~1 1 eve forbid get Page.nothing~
eve => print(site.size < 4, 2 ** site.size) \
    => True 8~well~1 1 eve allow get Page.size zope.Public~2 1 eve allow get Page.size zope.Public~
bob => print(site.tags) \
    => ['a', 'b']~well~1 1 bob allow get Page.tags demo.View~2 1 bob allow get list.__str__ default~
bob => xs = [site.tags]~print(xs) => [['a', 'b']]~well~1 1 bob allow get Page.tags demo.View~
bob => print(site.tags[-1]) \
    => b~well~1 1 bob allow get Page.tags demo.View~2 1 bob allow get list.__getitem__ zope.Public~
bob => print(site.info['n'], site.info.get('on')) => 1 True~well~1 1 bob allow get Page.info demo.View~\
    2 1 bob allow get dict.__getitem__ zope.Public~3 1 bob allow get Page.info demo.View~\
    4 1 bob allow get dict.get zope.Public~5 1 bob allow get method.__call__ zope.Public~
bob => print(site.tags[1:]) => ['b']~well~1 1 bob allow get Page.tags demo.View~\
    2 1 bob allow get list.__getitem__ zope.Public~3 1 bob allow get list.__str__ default~
bob => print(len(site.tags), 'a' in site.tags) => 2 True~well~1 1 bob allow get Page.tags demo.View~\
    2 1 bob allow get list.__len__ zope.Public~3 1 bob allow get Page.tags demo.View~\
    4 1 bob allow get list.__contains__ zope.Public~
eve => print(Page, site) => <class 'Page'> <Page object>~well~1 1 eve allow get class.__str__ default~\
    2 1 eve allow get Page.__str__ default~
eve => if site:~    print('yes') => yes~well~1 1 eve allow get Page.__bool__ default~
eve => print(site == site, site is None) \
    => True False~well~1 1 eve allow get Page.__eq__ default~2 1 eve allow get Page.__eq__ default~"#;

const WALKS: &str = r#"bob => for t in site.tags:~    print(t) \
    => a~b~well~1 1 bob allow get Page.tags demo.View~2 1 bob allow get list.__iter__ zope.Public~
bob => x = site.info~for k in x:~    print(k) \
    => n~on~well~1 1 bob allow get Page.info demo.View~2 1 bob allow get dict.__iter__ zope.Public~
bob => print(sorted(site.tags)) \
    => ['a', 'b']~well~1 1 bob allow get Page.tags demo.View~2 1 bob allow get list.__iter__ zope.Public~
bob => for row in site.rows:~    for x in row:~        print(x) => 1~2~3~well~1 1 bob allow get Page.rows demo.View~\
    2 1 bob allow get list.__iter__ zope.Public~3 1 bob allow get list.__iter__ zope.Public~\
    4 1 bob allow get list.__iter__ zope.Public~
bob => a, b = site.tags~print(b, a) \
    => b a~well~1 1 bob allow get Page.tags demo.View~2 1 bob allow get list.__iter__ zope.Public~
eve => for x in site:~    print(x) => ForbiddenAttribute: __iter__~1 1 eve forbid get Page.__iter__~
eve => a, b = site => ForbiddenAttribute: __iter__~1 1 eve forbid get Page.__iter__~"#;

const CHANGES: &str = r#"ann => site.title = 'New'~print(site.title) \
    => New~well~1 1 ann allow set Page.title demo.Edit~2 1 ann allow get Page.title zope.Public~
bob => site.title = 'New' => Unauthorized: demo.Edit~1 1 bob deny set Page.title demo.Edit~
bob => del site.title => Unauthorized: demo.Edit~1 1 bob deny set Page.title demo.Edit~
eve => del site.size~print(site.size) \
    => AttributeError: size~1 1 eve allow set Page.size zope.Public~2 1 eve allow get Page.size zope.Public~
eve => site.size = [1]~print(site.size) \
    => [1]~well~1 1 eve allow set Page.size zope.Public~2 1 eve allow get Page.size zope.Public~
eve => site.secret = 1 => ForbiddenAttribute: secret~1 1 eve forbid set Page.secret~
bob => site.tags.append('c') \
    => ForbiddenAttribute: append~1 1 bob allow get Page.tags demo.View~2 1 bob forbid get list.append~
bob => site.tags[0] = 'x' \
    => ForbiddenAttribute: __setitem__~1 1 bob allow get Page.tags demo.View~2 1 bob forbid get list.__setitem__~
bob => del site.info['n'] \
    => ForbiddenAttribute: __delitem__~1 1 bob allow get Page.info demo.View~2 1 bob forbid get dict.__delitem__~
bob => tags = site.tags~tags += ['x'] \
    => ForbiddenAttribute: __iadd__~1 1 bob allow get Page.tags demo.View~2 1 bob forbid get list.__iadd__~"#;

const SPREADS: &str = r#"bob => print([t for t in site.tags]) \
    => ['a', 'b']~well~1 1 bob allow get Page.tags demo.View~2 1 bob allow get list.__iter__ zope.Public~
bob => print([x for row in site.rows for x in row if x > 1]) \
    => [2, 3]~well~1 1 bob allow get Page.rows demo.View~2 1 bob allow get list.__iter__ zope.Public~\
    3 1 bob allow get list.__iter__ zope.Public~4 1 bob allow get list.__iter__ zope.Public~
eve => [x for x in site] => ForbiddenAttribute: __iter__~1 1 eve forbid get Page.__iter__~
bob => print(*site.tags) \
    => a b~well~1 1 bob allow get Page.tags demo.View~2 1 bob allow get list.__iter__ zope.Public~
bob => def f(**d):~    return d~print(f(**site.info)) => {'n': 1, 'on': True}~well~\
    1 1 bob allow get Page.info demo.View~2 1 bob allow get dict.items zope.Public~
eve => print(*site) => ForbiddenAttribute: __iter__~1 1 eve forbid get Page.__iter__~
eve => def f(**d):~    return d~f(**site) => ForbiddenAttribute: items~1 1 eve forbid get Page.items~
eve => site(x=1) => ForbiddenAttribute: __call__~1 1 eve forbid get Page.__call__~"#;

/// The same of code that no policy judges.
const UPDATES: &str =
    r#"eve => site.size += 4~print(site.size) => 7~well~1 1 eve allow get Page.size zope.Public~\
    2 1 eve allow set Page.size zope.Public~3 1 eve allow get Page.size zope.Public~
bob => site.title += '!' \
    => Unauthorized: demo.Edit~1 1 bob allow get Page.title zope.Public~2 1 bob deny set Page.title demo.Edit~
eve => site.draft += print('value') => Unauthorized: demo.Edit~1 1 eve deny get Page.draft demo.Edit~
bob => site.tags[0] += 'x' => ForbiddenAttribute: __setitem__~1 1 bob allow get Page.tags demo.View~\
    2 1 bob allow get list.__getitem__ zope.Public~3 1 bob forbid get list.__setitem__~"#;

/// Functions that get, keep and give what is lent, and handlers of what is refused.
const FUNCTIONS: &str = r#"bob => def f(page):~    return page.title~print(f(site)) \
    => Home~well~1 1 bob allow get Page.title zope.Public~
bob => tags = lambda: site.tags~for t in tags():~    print(t) \
    => a~b~well~1 1 bob allow get Page.tags demo.View~2 1 bob allow get list.__iter__ zope.Public~
bob => def each(xs, f):~    for x in xs:~        f(x)~each(site.tags, print) \
    => a~b~well~1 1 bob allow get Page.tags demo.View~2 1 bob allow get list.__iter__ zope.Public~
bob => def f(tags=site.tags):~    return tags[0]~print(f()) \
    => a~well~1 1 bob allow get Page.tags demo.View~2 1 bob allow get list.__getitem__ zope.Public~
bob => def f():~    tags = site.tags~    return lambda i: tags[i]~g = f()~print(g(0), g(1)) \
    => a b~well~1 1 bob allow get Page.tags demo.View~2 1 bob allow get list.__getitem__ zope.Public~\
    3 1 bob allow get list.__getitem__ zope.Public~
bob => def f(get):~    return get('n')~print(f(site.info.get)) => 1~well~1 1 bob allow get Page.info demo.View~\
    2 1 bob allow get dict.get zope.Public~3 1 bob allow get method.__call__ zope.Public~
bob => def f(*pages):~    return pages[0].title~print(f(site, 1)) \
    => Home~well~1 1 bob allow get Page.title zope.Public~
eve => try:~    print(site.tags)~except Unauthorized as e:~    print('no', e)~finally:~    print('last') \
    => no demo.View~last~well~1 1 eve deny get Page.tags demo.View~
eve => def f(page):~    try:~        return page.nothing~    except AttributeError as e:~        return e~\
    print(f(site)) => nothing~well~1 1 eve forbid get Page.nothing~
eve => try:~    site.title = 1~except (KeyError, Forbidden):~    print('no')~except Unauthorized:~    print('yes') \
    => yes~well~1 1 eve deny set Page.title demo.Edit~
eve => def f():~    try:~        return site.tags~    finally:~        print(site.title)~f() \
    => Home~Unauthorized: demo.View~1 1 eve deny get Page.tags demo.View~2 1 eve allow get Page.title zope.Public~
eve => try:~    site()~except ForbiddenAttribute:~    raise => ForbiddenAttribute: __call__~\
    1 1 eve forbid get Page.__call__~"#;

const OPERATIONS: &str =
    r#"eve => print(site + 1) => ForbiddenAttribute: __add__~1 1 eve forbid get Page.__add__~
eve => print(1 + site) => ForbiddenAttribute: __radd__~1 1 eve forbid get Page.__radd__~
eve => print(-site) => ForbiddenAttribute: __neg__~1 1 eve forbid get Page.__neg__~
eve => site() => ForbiddenAttribute: __call__~1 1 eve forbid get Page.__call__~
eve => Page() => ForbiddenAttribute: __call__~1 1 eve forbid get class.__call__~
eve => print(site[0]) => ForbiddenAttribute: __getitem__~1 1 eve forbid get Page.__getitem__~
eve => print(len(site)) => ForbiddenAttribute: __len__~1 1 eve forbid get Page.__len__~
eve => print(1 in site) => ForbiddenAttribute: __contains__~1 1 eve forbid get Page.__contains__~
eve => print(site[1:]) => ForbiddenAttribute: __getitem__~1 1 eve forbid get Page.__getitem__~
eve => print({site: 1}) => TypeError: key~
eve => raise site => TypeError: raise~
eve => site = 5~print(site) => 5~well~"#;

/// The steps, the cells, the script, and what comes of it.
const LIMITS: &str = r#"1000 => 11 => xs = range(10) => well~
1000 => 10 => xs = range(10) => no cell~
1000000 => 1000000 => x = [1]~for i in range(30):~    x = [x, x]~print(str(x)) => no cell~
1000000 => 1000000 => x = [1]~y = [1]~for i in range(20):~    x = [x, x]~    y = [y, y]~print(x == y) => no step~
1000000 => 1000000 => x = []~for i in range(250):~    x = [x]~print(x) => RecursionError: depth~
0 => 1000 => x = 1 => no step~
2 => 1000 => x = 1 => well~
1 => 1000 => x = 1 => no step~
1000 => 0 => x = 1 => well~
1000 => 1 => print() => ~well~
1000 => 0 => print() => no cell~
1000 => 1000 => while 1:~    pass => no step~
1000 => 1000 => x = 'ab'~while 1:~    x = x + x => no cell~
1000 => 0 => print(site.title) => no cell~
1000 => 5 => print(site.title) => no cell~1 1 eve allow get Page.title zope.Public~
1000 => 6 => print(site.title) => Home~well~1 1 eve allow get Page.title zope.Public~"#;

/// The same: no handler takes a stop, and no block of `finally` runs behind it.
const STOPS: &str =
    r#"1000 => 1000 => try:~    while 1:~        pass~except:~    print('no')~finally:~    print() => no step~
1000 => 1000 => def f():~    try:~        while 1:~            pass~    finally:~        print('no')~f() => no step~
1000 => 3 => try:~    print('abc')~except:~    print()~finally:~    print() => no cell~
6 => 1000 => def f():~    return 1~f() => well~
5 => 1000 => def f():~    return 1~f() => no step~
7 => 1000 => try:~    1 // 0~except ZeroDivisionError:~    pass => well~
6 => 1000 => try:~    1 // 0~except ZeroDivisionError:~    pass => no step~
4 => 1000 => try:~    x = 1~finally:~    pass => well~
3 => 1000 => try:~    x = 1~finally:~    pass => no step~
1000 => 1 => def f():~    return 1 => well~
1000 => 0 => def f():~    return 1 => no cell~
1000 => 2 => def f():~    return 1~f() => well~
1000 => 1 => def f():~    return 1~f() => no cell~
1000 => 5 => def f(a, b):~    c = a~f(1, 2) => well~
1000 => 4 => def f(a, b):~    c = a~f(1, 2) => no cell~
1000 => 4 => def f(a=1):~    return a~f() => well~
1000 => 3 => def f(a=1):~    return a~f() => no cell~
1000 => 6 => def f(*xs):~    return 1~f(1, 2) => well~
1000 => 5 => def f(*xs):~    return 1~f(1, 2) => no cell~
1000 => 1 => f = lambda: 1 => well~
1000 => 0 => f = lambda: 1 => no cell~"#;

#[test]
fn reads_are_decided(rt: HostRuntime) -> Result<(), Fail> {
    all_answer(rt.alloc(), &RanFor, READS)
}

#[test]
fn walks_are_decided_once(rt: HostRuntime) -> Result<(), Fail> {
    all_answer(rt.alloc(), &RanFor, WALKS)
}

#[test]
fn changes_are_decided(rt: HostRuntime) -> Result<(), Fail> {
    all_answer(rt.alloc(), &RanFor, CHANGES)
}

#[test]
fn what_is_spread_is_decided(rt: HostRuntime) -> Result<(), Fail> {
    all_answer(rt.alloc(), &RanFor, SPREADS)
}

#[test]
fn augmented_places_are_decided_twice(rt: HostRuntime) -> Result<(), Fail> {
    all_answer(rt.alloc(), &RanTrustedFor, UPDATES)
}

#[test]
fn operations_are_decided(rt: HostRuntime) -> Result<(), Fail> {
    all_answer(rt.alloc(), &RanFor, OPERATIONS)
}

#[test]
fn functions_and_handlers_are_decided(rt: HostRuntime) -> Result<(), Fail> {
    all_answer(rt.alloc(), &RanFor, FUNCTIONS)
}

#[test]
fn sessions_stop_at_their_limits(rt: HostRuntime) -> Result<(), Fail> {
    all_answer(rt.alloc(), &RanWithin, LIMITS)
}

#[test]
fn nothing_runs_behind_a_stop(rt: HostRuntime) -> Result<(), Fail> {
    all_answer(rt.alloc(), &RanWithin, STOPS)
}
