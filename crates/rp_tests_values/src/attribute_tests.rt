//! Attributes: reading, storing and deleting.

// The methods of each kind are those of the language, with the names of CPython.

use crate::answers::all_answer;
use std::test::Fail;

const CASES: &str = "
    A field is read before a method.
    f = lambda(); c = class C {index: f}; x = c {index: 7}; cells 0; side 2; get x index => 7
    f = lambda(); c = class C {}; x = c {index: 7}; cells 0; side 2; get ~x index => 7
    f = lambda(); c = class C {index: f}; x = c {}; cells 1; side 2; get x index => bound(x, f) | 1 cells
    f = lambda(); c = class C {index: f}; x = c {count: 7}; cells 1; side 2; get ~x index => ~bound(x, f) | 1 cells
    f = lambda(); c = class C {index: f}; x = c {}; cells 0; side 2; get x index => stop cells
    f = lambda(); c = class C {index: f}; x = c {}; cells 1; side 2; get x count => AttributeError: count
    f = lambda(); c = class C {index: f}; x = c {index: 7}; cells 1; side 2; get ~x count => AttributeError: count

    A method keeps its receiver plain.
    f = lambda(); c = class C {index: f}; x = c {}; cells 1; side 2; m = get x index; m; owner m \
        => bound(x, f); 1 | 1 cells
    f = lambda(); c = class C {index: f}; x = c {}; cells 1; side 2; m = get ~x index; m; owner m \
        => ~bound(x, f); 1 | 1 cells

    A new field costs a cell.
    f = lambda(); c = class C {}; x = c {}; cells 0; side 2; give x index 8; get x index \
        => stop cells; AttributeError: index
    f = lambda(); c = class C {}; x = c {}; cells 0; side 2; give ~x index 8; get ~x index \
        => stop cells; AttributeError: index
    f = lambda(); c = class C {}; x = c {}; cells 1; side 2; give x index 8; get x index => done; 8 | 1 cells
    f = lambda(); c = class C {}; x = c {}; cells 1; side 2; give ~x index 8; get ~x index => done; 8 | 1 cells
    f = lambda(); c = class C {}; x = c {index: 7}; cells 0; side 2; give x index 8; get x index => done; 8
    f = lambda(); c = class C {}; x = c {index: 7}; cells 0; side 2; give ~x index 8; get ~x index => done; 8
    f = lambda(); c = class C {}; x = c {count: 7}; cells 0; side 2; give x index 8; get x index \
        => stop cells; AttributeError: index
    f = lambda(); c = class C {}; x = c {count: 7}; cells 0; side 2; give ~x index 8; get ~x index \
        => stop cells; AttributeError: index
    f = lambda(); c = class C {index: f}; x = c {count: 7}; cells 1; side 2; give x index 8; get x index \
        => done; 8 | 1 cells
    f = lambda(); c = class C {index: f}; x = c {count: 7}; cells 1; side 2; give ~x index 8; get ~x index \
        => done; 8 | 1 cells

    Only fields are deleted.
    f = lambda(); c = class C {}; x = c {index: 7}; cells 1; side 2; drop x index; get x index \
        => done; AttributeError: index
    f = lambda(); c = class C {}; x = c {index: 7}; cells 1; side 2; drop ~x index; get x index \
        => done; AttributeError: index
    f = lambda(); c = class C {index: f}; x = c {index: 7}; cells 1; side 2; drop x index; get x index \
        => done; bound(x, f) | 1 cells
    f = lambda(); c = class C {index: f}; x = c {index: 7}; cells 1; side 2; drop ~x index; get x index \
        => done; bound(x, f) | 1 cells
    f = lambda(); c = class C {index: f}; x = c {}; cells 1; side 2; drop x index; get x index \
        => AttributeError: index; bound(x, f) | 1 cells
    f = lambda(); c = class C {index: f}; x = c {}; cells 1; side 2; drop ~x index; get x index \
        => AttributeError: index; bound(x, f) | 1 cells
    f = lambda(); c = class C {}; x = c {count: 7}; cells 1; side 2; drop x index; get x index \
        => AttributeError: index; AttributeError: index
    f = lambda(); c = class C {}; x = c {count: 7}; cells 1; side 2; drop ~x index; get x index \
        => AttributeError: index; AttributeError: index

    A reference got through a proxy is lent.
    f = lambda(); c = class C {}; x = c {}; cells 1; side 2; give x index x; y = get x index; z = get ~x index; \
        same x y; same ~x z; same x z => done; True; True; False | 1 cells

    Only instances take attributes.
    f = lambda(); c = class C {index: f}; x = c {}; cells 1; side 2; give c index 8; drop c index; get c index \
        => AttributeError: index; AttributeError: index; AttributeError: index
    f = lambda(); c = class C {index: f}; x = c {}; cells 1; side 2; give ~c index 8; drop ~c index; get ~c index \
        => AttributeError: index; AttributeError: index; AttributeError: index
    x = []; give x index 8; drop x index => AttributeError: index; AttributeError: index
    x = []; give ~x index 8; drop ~x index => AttributeError: index; AttributeError: index
    x = (); give x index 8; drop x index => AttributeError: index; AttributeError: index
    x = (); give ~x index 8; drop ~x index => AttributeError: index; AttributeError: index
    x = {}; give x index 8; drop x index => AttributeError: index; AttributeError: index
    x = {}; give ~x index 8; drop ~x index => AttributeError: index; AttributeError: index
    x = ''; give x index 8; drop x index => AttributeError: index; AttributeError: index
    x = ''; give ~x index 8; drop ~x index => AttributeError: index; AttributeError: index
    x = lambda(); give x index 8; drop x index => AttributeError: index; AttributeError: index
    x = lambda(); give ~x index 8; drop ~x index => AttributeError: index; AttributeError: index
    x = bound(None, append); give x index 8; drop x index => AttributeError: index; AttributeError: index
    x = bound(None, append); give ~x index 8; drop ~x index => AttributeError: index; AttributeError: index
    give 1 index 8; drop 1 index => AttributeError: index; AttributeError: index
    give None index 8; drop None index => AttributeError: index; AttributeError: index
    give True index 8; drop True index => AttributeError: index; AttributeError: index
    give KeyError('a') index 8; drop KeyError('a') index => AttributeError: index; AttributeError: index
    give KeyError index 8; drop KeyError index => AttributeError: index; AttributeError: index
    give len index 8; drop len index => AttributeError: index; AttributeError: index

    Classes functions and methods have no attributes.
    f = lambda(); c = class C {index: f}; x = c {index: 7}; cells 9; side 2; get f index; get c index \
        => AttributeError: index; AttributeError: index
    f = lambda(); c = class C {index: f}; x = c {}; cells 9; side 2; m = get x index; get m index \
        => AttributeError: index | 1 cells
    f = lambda(); c = class C {index: f}; x = c {index: 7}; cells 9; side 2; get ~f index; get ~c index \
        => AttributeError: index; AttributeError: index
    f = lambda(); c = class C {index: f}; x = c {}; cells 9; side 2; m = get ~x index; get m index \
        => AttributeError: index | 1 cells

    Methods are found by the kind.
    x = []; side 2; m = get x append; m; owner m => bound(x, append); 1 | 1 cells
    x = []; side 2; m = get x extend; m; owner m => bound(x, extend); 1 | 1 cells
    x = []; side 2; m = get x insert; m; owner m => bound(x, insert); 1 | 1 cells
    x = []; side 2; m = get x pop; m; owner m => bound(x, pop); 1 | 1 cells
    x = []; side 2; m = get x remove; m; owner m => bound(x, remove); 1 | 1 cells
    x = []; side 2; m = get x index; m; owner m => bound(x, index); 1 | 1 cells
    x = []; side 2; m = get x count; m; owner m => bound(x, count); 1 | 1 cells
    x = []; side 2; m = get x reverse; m; owner m => bound(x, reverse); 1 | 1 cells
    x = []; side 2; m = get ~x append; m; owner m => ~bound(x, append); 1 | 1 cells
    x = []; side 2; m = get ~x extend; m; owner m => ~bound(x, extend); 1 | 1 cells
    x = []; side 2; m = get ~x insert; m; owner m => ~bound(x, insert); 1 | 1 cells
    x = []; side 2; m = get ~x pop; m; owner m => ~bound(x, pop); 1 | 1 cells
    x = []; side 2; m = get ~x remove; m; owner m => ~bound(x, remove); 1 | 1 cells
    x = []; side 2; m = get ~x index; m; owner m => ~bound(x, index); 1 | 1 cells
    x = []; side 2; m = get ~x count; m; owner m => ~bound(x, count); 1 | 1 cells
    x = []; side 2; m = get ~x reverse; m; owner m => ~bound(x, reverse); 1 | 1 cells
    x = (); side 2; m = get x index; m; owner m => bound(x, index); 1 | 1 cells
    x = (); side 2; m = get x count; m; owner m => bound(x, count); 1 | 1 cells
    x = (); side 2; m = get ~x index; m; owner m => ~bound(x, index); 1 | 1 cells
    x = (); side 2; m = get ~x count; m; owner m => ~bound(x, count); 1 | 1 cells
    x = {}; side 2; m = get x get; m; owner m => bound(x, get); 1 | 1 cells
    x = {}; side 2; m = get x keys; m; owner m => bound(x, keys); 1 | 1 cells
    x = {}; side 2; m = get x values; m; owner m => bound(x, values); 1 | 1 cells
    x = {}; side 2; m = get x items; m; owner m => bound(x, items); 1 | 1 cells
    x = {}; side 2; m = get x pop; m; owner m => bound(x, pop); 1 | 1 cells
    x = {}; side 2; m = get x setdefault; m; owner m => bound(x, setdefault); 1 | 1 cells
    x = {}; side 2; m = get x update; m; owner m => bound(x, update); 1 | 1 cells
    x = {}; side 2; m = get x copy; m; owner m => bound(x, copy); 1 | 1 cells
    x = {}; side 2; m = get ~x get; m; owner m => ~bound(x, get); 1 | 1 cells
    x = {}; side 2; m = get ~x keys; m; owner m => ~bound(x, keys); 1 | 1 cells
    x = {}; side 2; m = get ~x values; m; owner m => ~bound(x, values); 1 | 1 cells
    x = {}; side 2; m = get ~x items; m; owner m => ~bound(x, items); 1 | 1 cells
    x = {}; side 2; m = get ~x pop; m; owner m => ~bound(x, pop); 1 | 1 cells
    x = {}; side 2; m = get ~x setdefault; m; owner m => ~bound(x, setdefault); 1 | 1 cells
    x = {}; side 2; m = get ~x update; m; owner m => ~bound(x, update); 1 | 1 cells
    x = {}; side 2; m = get ~x copy; m; owner m => ~bound(x, copy); 1 | 1 cells
    x = ''; side 2; m = get x join; m; owner m => bound('', join); 2 | 1 cells
    x = ''; side 2; m = get x split; m; owner m => bound('', split); 2 | 1 cells
    x = ''; side 2; m = get x strip; m; owner m => bound('', strip); 2 | 1 cells
    x = ''; side 2; m = get x startswith; m; owner m => bound('', startswith); 2 | 1 cells
    x = ''; side 2; m = get x endswith; m; owner m => bound('', endswith); 2 | 1 cells
    x = ''; side 2; m = get x find; m; owner m => bound('', find); 2 | 1 cells
    x = ''; side 2; m = get x replace; m; owner m => bound('', replace); 2 | 1 cells
    x = ''; side 2; m = get x count; m; owner m => bound('', count); 2 | 1 cells
    x = ''; side 2; m = get x isdigit; m; owner m => bound('', isdigit); 2 | 1 cells
    x = ''; side 2; m = get ~x join; m; owner m => bound('', join); 2 | 1 cells
    x = ''; side 2; m = get ~x split; m; owner m => bound('', split); 2 | 1 cells
    x = ''; side 2; m = get ~x strip; m; owner m => bound('', strip); 2 | 1 cells
    x = ''; side 2; m = get ~x startswith; m; owner m => bound('', startswith); 2 | 1 cells
    x = ''; side 2; m = get ~x endswith; m; owner m => bound('', endswith); 2 | 1 cells
    x = ''; side 2; m = get ~x find; m; owner m => bound('', find); 2 | 1 cells
    x = ''; side 2; m = get ~x replace; m; owner m => bound('', replace); 2 | 1 cells
    x = ''; side 2; m = get ~x count; m; owner m => bound('', count); 2 | 1 cells
    x = ''; side 2; m = get ~x isdigit; m; owner m => bound('', isdigit); 2 | 1 cells

    Methods of other kinds are not found.
    x = []; side 2; get x get; objects => AttributeError: get; 1
    x = []; side 2; get x keys; objects => AttributeError: keys; 1
    x = []; side 2; get x items; objects => AttributeError: items; 1
    x = []; side 2; get x setdefault; objects => AttributeError: setdefault; 1
    x = []; side 2; get x join; objects => AttributeError: join; 1
    x = []; side 2; get x len; objects => AttributeError: len; 1
    x = []; side 2; get x sort; objects => AttributeError: sort; 1
    x = []; side 2; get x appends; objects => AttributeError: appends; 1
    x = []; side 2; get x appen; objects => AttributeError: appen; 1
    x = []; side 2; get x a; objects => AttributeError: a; 1
    x = []; side 2; get x __init__; objects => AttributeError: __init__; 1
    x = []; side 2; get ~x get; objects => AttributeError: get; 1
    x = []; side 2; get ~x keys; objects => AttributeError: keys; 1
    x = []; side 2; get ~x items; objects => AttributeError: items; 1
    x = []; side 2; get ~x setdefault; objects => AttributeError: setdefault; 1
    x = []; side 2; get ~x join; objects => AttributeError: join; 1
    x = []; side 2; get ~x len; objects => AttributeError: len; 1
    x = []; side 2; get ~x sort; objects => AttributeError: sort; 1
    x = []; side 2; get ~x appends; objects => AttributeError: appends; 1
    x = []; side 2; get ~x appen; objects => AttributeError: appen; 1
    x = []; side 2; get ~x a; objects => AttributeError: a; 1
    x = []; side 2; get ~x __init__; objects => AttributeError: __init__; 1
    x = (); side 2; get x append; objects => AttributeError: append; 1
    x = (); side 2; get x extend; objects => AttributeError: extend; 1
    x = (); side 2; get x insert; objects => AttributeError: insert; 1
    x = (); side 2; get x pop; objects => AttributeError: pop; 1
    x = (); side 2; get x remove; objects => AttributeError: remove; 1
    x = (); side 2; get x reverse; objects => AttributeError: reverse; 1
    x = (); side 2; get x get; objects => AttributeError: get; 1
    x = (); side 2; get x join; objects => AttributeError: join; 1
    x = (); side 2; get x __getitem__; objects => AttributeError: __getitem__; 1
    x = (); side 2; get ~x append; objects => AttributeError: append; 1
    x = (); side 2; get ~x extend; objects => AttributeError: extend; 1
    x = (); side 2; get ~x insert; objects => AttributeError: insert; 1
    x = (); side 2; get ~x pop; objects => AttributeError: pop; 1
    x = (); side 2; get ~x remove; objects => AttributeError: remove; 1
    x = (); side 2; get ~x reverse; objects => AttributeError: reverse; 1
    x = (); side 2; get ~x get; objects => AttributeError: get; 1
    x = (); side 2; get ~x join; objects => AttributeError: join; 1
    x = (); side 2; get ~x __getitem__; objects => AttributeError: __getitem__; 1
    x = {}; side 2; get x append; objects => AttributeError: append; 1
    x = {}; side 2; get x index; objects => AttributeError: index; 1
    x = {}; side 2; get x count; objects => AttributeError: count; 1
    x = {}; side 2; get x insert; objects => AttributeError: insert; 1
    x = {}; side 2; get x join; objects => AttributeError: join; 1
    x = {}; side 2; get x len; objects => AttributeError: len; 1
    x = {}; side 2; get x fromkeys; objects => AttributeError: fromkeys; 1
    x = {}; side 2; get x gett; objects => AttributeError: gett; 1
    x = {}; side 2; get x __len__; objects => AttributeError: __len__; 1
    x = {}; side 2; get ~x append; objects => AttributeError: append; 1
    x = {}; side 2; get ~x index; objects => AttributeError: index; 1
    x = {}; side 2; get ~x count; objects => AttributeError: count; 1
    x = {}; side 2; get ~x insert; objects => AttributeError: insert; 1
    x = {}; side 2; get ~x join; objects => AttributeError: join; 1
    x = {}; side 2; get ~x len; objects => AttributeError: len; 1
    x = {}; side 2; get ~x fromkeys; objects => AttributeError: fromkeys; 1
    x = {}; side 2; get ~x gett; objects => AttributeError: gett; 1
    x = {}; side 2; get ~x __len__; objects => AttributeError: __len__; 1
    x = ''; side 2; get x append; objects => AttributeError: append; 0
    x = ''; side 2; get x index; objects => AttributeError: index; 0
    x = ''; side 2; get x get; objects => AttributeError: get; 0
    x = ''; side 2; get x keys; objects => AttributeError: keys; 0
    x = ''; side 2; get x upper; objects => AttributeError: upper; 0
    x = ''; side 2; get x len; objects => AttributeError: len; 0
    x = ''; side 2; get x str; objects => AttributeError: str; 0
    x = ''; side 2; get x isdigits; objects => AttributeError: isdigits; 0
    x = ''; side 2; get x spli; objects => AttributeError: spli; 0
    x = ''; side 2; get x __add__; objects => AttributeError: __add__; 0
    x = ''; side 2; get ~x append; objects => AttributeError: append; 0
    x = ''; side 2; get ~x index; objects => AttributeError: index; 0
    x = ''; side 2; get ~x get; objects => AttributeError: get; 0
    x = ''; side 2; get ~x keys; objects => AttributeError: keys; 0
    x = ''; side 2; get ~x upper; objects => AttributeError: upper; 0
    x = ''; side 2; get ~x len; objects => AttributeError: len; 0
    x = ''; side 2; get ~x str; objects => AttributeError: str; 0
    x = ''; side 2; get ~x isdigits; objects => AttributeError: isdigits; 0
    x = ''; side 2; get ~x spli; objects => AttributeError: spli; 0
    x = ''; side 2; get ~x __add__; objects => AttributeError: __add__; 0

    Rocks other than texts have no attributes.
    get None count; get None append; get None args; get None real; get None __init__; get None __name__; \
        get None __class__ => AttributeError: count; AttributeError: append; AttributeError: args; \
        AttributeError: real; AttributeError: __init__; AttributeError: __name__; AttributeError: __class__
    get True count; get True append; get True args; get True real; get True __init__; get True __name__; \
        get True __class__ => AttributeError: count; AttributeError: append; AttributeError: args; \
        AttributeError: real; AttributeError: __init__; AttributeError: __name__; AttributeError: __class__
    get 7 count; get 7 append; get 7 args; get 7 real; get 7 __init__; get 7 __name__; \
        get 7 __class__ => AttributeError: count; AttributeError: append; AttributeError: args; AttributeError: real; \
        AttributeError: __init__; AttributeError: __name__; AttributeError: __class__
    get KeyError('count') count; get KeyError('count') append; get KeyError('count') args; \
        get KeyError('count') real; get KeyError('count') __init__; get KeyError('count') __name__; \
        get KeyError('count') __class__ => AttributeError: count; AttributeError: append; AttributeError: args; \
        AttributeError: real; AttributeError: __init__; AttributeError: __name__; AttributeError: __class__
    get KeyError count; get KeyError append; get KeyError args; get KeyError real; get KeyError __init__; \
        get KeyError __name__; get KeyError __class__ => AttributeError: count; AttributeError: append; \
        AttributeError: args; AttributeError: real; AttributeError: __init__; AttributeError: __name__; \
        AttributeError: __class__
    get len count; get len append; get len args; get len real; get len __init__; get len __name__; \
        get len __class__ => AttributeError: count; AttributeError: append; AttributeError: args; \
        AttributeError: real; AttributeError: __init__; AttributeError: __name__; AttributeError: __class__
";

#[test]
fn attributes_are_read_stored_and_deleted(rt: HostRuntime) -> Result<(), Fail> {
    all_answer(rt.alloc(), CASES)?;
    Ok(())
}
