//! The objects of a store, its writers, and the cells that they cost.

use crate::answers::all_answer;
use std::test::Fail;

const CASES: &str = "
    Objects cost one cell and one for each part.
    charged; cells 3; x = [1, 2]; objects => 1 | 3 cells
    charged; cells 2; x = [1, 2]; is_empty => stop cells; True
    charged; cells 2; x = (1,); objects => 1 | 2 cells
    charged; cells 1; x = (1,); is_empty => stop cells; True
    charged; cells 3; x = {0: 0, 1: 1}; objects => 1 | 3 cells
    charged; cells 2; x = {0: 0, 1: 1}; is_empty => stop cells; True
    c = class C {}; charged; cells 4; x = c {a: 7, b: 7, d: 7}; objects => 2 | 4 cells
    c = class C {}; charged; cells 3; x = c {a: 7, b: 7, d: 7}; objects => stop cells; 1
    f = lambda(); charged; cells 3; c = class C {a: f, b: f}; objects => 3 | 3 cells
    f = lambda(); charged; cells 2; c = class C {a: f, b: f}; objects => stop cells; 2
    charged; cells 2; f = lambda(1); f => lambda(1) | 2 cells
    charged; cells 1; f = lambda(1); objects => stop cells; 1
    charged; cells 1; m = bound(None, append); objects => 1 | 1 cells
    charged; cells 0; m = bound(None, append); objects => stop cells; 0

    Cells are exact at the ends of their type.
    cells 18446744073709551615; charge 1; charge 18446744073709551615; used; charge 18446744073709551614; charge 0; \
        charge 1; used => done; stop cells; 1; done; done; stop cells; 18446744073709551615 | 18446744073709551615 cells
    cells 5; charge 3; cells 0; used; limit; charge 0; charge 1 => done; 0; 0; done; stop cells

    Tags name the kinds and declared classes.
    x = [1]; y = {1: 2}; z = (); tag x; tag y; tag z; tag ~x => list; dict; tuple; list
    f = lambda(); m = bound(None, append); d = declared index {}; c = class index {a: f}; tag f; tag m; tag d; \
        tag c => function; method; class; class
    d = declared index {}; x = d {a: 1}; c = class index {}; y = c {a: 1}; o = declared Other {}; z = o {}; tag x; \
        tag y; tag z => index; other; another class

    Objects keep their owners and places.
    cells 3; side 4; a = bound(None, append); side 0; b = [1, 2, 3]; side 2; c = lambda(); owner a; owner b; owner c; \
        objects; charged; side 3; cells 0; x = bound(None, append); objects => 4; 0; 2; 4; stop cells; 4

    None numbers and texts are keys.
    key None; key True; key False; key -9223372036854775808; key 'é' => None; 1; 0; -9223372036854775808; 'é'
    key KeyError('é'); key KeyError; key append => no key; no key; no key

    Lists change as lists.
    charged; cells 7; x = [1, 2, 3]; push x 4; insert x 0 9; insert x 5 5; x; push x 6; insert x 0 6; x; \
        set_at x 1 8; remove_at x 2; x => done; done; done; [9, 1, 2, 3, 4, 5]; stop cells; stop cells; \
        [9, 1, 2, 3, 4, 5]; done; 2; [9, 8, 3, 4, 5] | 7 cells

    Lists take many at once.
    x = [1]; y = [2, 3]; z = [4, 5]; e = []; n = [9, 8, 7, 6]; cells 3; extend x y; x; extend x z; extend x e; x; \
        elements x n; x => done; [1, 2, 3]; stop cells; done; [1, 2, 3]; done; [9, 8, 7, 6] | 2 cells

    Held keys stay as first written.
    charged; cells 3; d = {}; put d True 10; put d 1 11; used; d; put d 0 12; put d 2 13; put d 1 14; d; \
        drop_key d 1; drop_key d 1; d => done; done; 2; {True: 11}; done; stop cells; done; {True: 14, 0: 12}; 14; \
        none; {0: 12} | 3 cells

    Fields cost a cell where they are new.
    c = class C {}; charged; cells 3; x = c {a: 7}; set_field x a 1; used; set_field x b 2; used; set_field x d 3; \
        set_field x b 6; field x b; x; drop_field x b; drop_field x d; drop_field x a; field x a \
        => done; 2; done; 3; stop cells; done; 6; c {a: 1, b: 6}; 6; none; 1; none | 3 cells

    Methods cost a cell where they are new.
    f = def f(); g = def g(); charged; cells 3; c = class C {a: f}; set_method c a g; used; set_method c b f; \
        set_method c d f; c; method c a; method c d; clear_methods c; method c a; used \
        => done; 2; done; stop cells; class C {a: g, b: f}; def g(); none; done; none; 3 | 3 cells
    f = def f(); c = class C {a: f}; clear_methods c; method c a; c => done; none; class C {}

    Texts without cells are counted. A text of more than 128 bytes that costs no cell counts twice: 300 bytes for each \
        cell of the limit, and at least 64 MB. A store that counts its cells again keeps that count.
    cells 0; hold 128; hold 32000000; used => done; done; 0
    cells 0; hold 32000001; hold 128; used => no memory; done; 0
    cells 1000000; hold 150000000; hold 128; hold 129; cells 1000000; hold 129 => done; done; no memory; no memory

    Parts are read by place and by name.
    x = [5, 6]; element x 1; element x 2; len_of x; t = (7,); element t 0; len_of t => 6; none; 2; 7; 1
    d = {1: 2}; len_of d; element d 0; f = lambda(); len_of f => 1; none; none
    f = def f(); c = class C {a: f}; x = c {b: 7}; method_of x a; method_of x b; class_of x \
        => def f(); none; class C {a: f}
    f = def f(); class_of f; method_of f a; class_of []; method f a => none; none; none; none
    f = def f(); g = def g(); c = class C {a: f}; d = class D {b: g, e: f}; set_methods c d; c; d \
        => done; class C {b: g, e: f}; class D {b: g, e: f}
    d = {1: 2, 3: 4}; drop_key d 1; seek d 0; d; x = [1]; seek x 1; x => 2; done; {3: 4}; done; [1]

    What breaks a condition is not called.
    x = [1]; put x 1 2; set_field x a 1; clear_methods x; insert x 2 0; set_at x 1 0; remove_at x 1; x \
        => unsound; unsound; unsound; unsound; unsound; unsound; [1]
    x = {}; push x 1; x += => unsound; unread
";

#[test]
fn objects_are_made_and_changed(rt: HostRuntime) -> Result<(), Fail> {
    all_answer(rt.alloc(), CASES)?;
    Ok(())
}
