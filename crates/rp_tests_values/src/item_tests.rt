//! Items: reading, storing and deleting.

use crate::answers::all_answer;
use std::test::Fail;

const CASES: &str = "
    Indexes below 0 count from the end.
    item [5, 6] 0 => 5
    item [5, 6] 1 => 6
    item [5, 6] 2 => IndexError: index
    item [5, 6] 9223372036854775807 => IndexError: index
    item [5, 6] -1 => 6
    item [5, 6] -2 => 5
    item [5, 6] -3 => IndexError: index
    item [5, 6] -9223372036854775808 => IndexError: index
    item (5, 6) 0 => 5
    item (5, 6) 1 => 6
    item (5, 6) 2 => IndexError: index
    item (5, 6) 9223372036854775807 => IndexError: index
    item (5, 6) -1 => 6
    item (5, 6) -2 => 5
    item (5, 6) -3 => IndexError: index
    item (5, 6) -9223372036854775808 => IndexError: index

    Numbers and truth values are indexes.
    item [5, 6] True => 6
    item [5, 6] False => 5
    item [5, 6] '0' => TypeError: index
    item [5, 6] None => TypeError: index
    item [5, 6] KeyError => TypeError: index
    item [5, 6] len => TypeError: index
    item (5, 6) True => 6
    item (5, 6) False => 5
    item (5, 6) '0' => TypeError: index
    item (5, 6) None => TypeError: index
    item (5, 6) KeyError => TypeError: index
    item (5, 6) len => TypeError: index

    Characters cost their bytes.
    cells 2; item 'née' 0 => 'n' | 1 cells
    cells 2; item 'née' 1 => 'é' | 2 cells
    cells 2; item 'née' -1 => 'e' | 1 cells
    cells 2; item 'née' -2 => 'é' | 2 cells
    cells 2; item 'née' -3 => 'n' | 1 cells
    cells 2; item 'née' 3 => IndexError: index
    cells 2; item 'née' -4 => IndexError: index
    cells 2; item 'née' 9223372036854775807 => IndexError: index
    cells 2; item 'née' -9223372036854775808 => IndexError: index
    cells 1; item 'née' 1 => stop cells
    item 'abc' 1; item 'abc' -1; item 'abc' 3 => 'b'; 'c'; IndexError: index | 2 cells
    item '' 0; item 'a' None; item 'a' 'a' => IndexError: index; TypeError: index; TypeError: index

    Only texts among rocks have items.
    item None 0; set None 0 None; delete None 0 => TypeError: item; TypeError: item; TypeError: item
    item True 0; set True 0 None; delete True 0 => TypeError: item; TypeError: item; TypeError: item
    item 5 0; set 5 0 None; delete 5 0 => TypeError: item; TypeError: item; TypeError: item
    item KeyError('abc') 0; set KeyError('abc') 0 None; delete KeyError('abc') 0 \
        => TypeError: item; TypeError: item; TypeError: item
    item KeyError 0; set KeyError 0 None; delete KeyError 0 => TypeError: item; TypeError: item; TypeError: item
    item len 0; set len 0 None; delete len 0 => TypeError: item; TypeError: item; TypeError: item
    set 'abc' 0 None; delete 'abc' 0 => TypeError: item; TypeError: item
    x = bound(None, append); item x 0; set x 0 1; delete x 0; item ~x 0 \
        => TypeError: item; TypeError: item; TypeError: item; TypeError: item
    x = class C {}; item x 0; set x 0 1; delete x 0; item ~x 0 \
        => TypeError: item; TypeError: item; TypeError: item; TypeError: item
    x = lambda(); item x 0; set x 0 1; delete x 0; item ~x 0 \
        => TypeError: item; TypeError: item; TypeError: item; TypeError: item

    Values are found by key.
    d = {True: 5}; item d 1; item d True; item d KeyError; item d 2 => 5; 5; TypeError: key; KeyError: 2
    d = {True: 5}; item ~d 1; item ~d True; item ~d KeyError; item ~d 2 => 5; 5; TypeError: key; KeyError: 2

    Missing keys are shown.
    item {True: 5} 'k' => KeyError: 'k'
    item {True: 5} 'it\\'s' => KeyError: \"it's\"
    item {True: 5} 'it\\'s \"so\"' => KeyError: 'it\\'s \"so\"'
    item {True: 5} '\"' => KeyError: '\"'
    item {True: 5} 'a\\tb\\n\\r\\\\' => KeyError: 'a\\tb\\n\\r\\\\'
    item {True: 5} '\u{7}\u{7f}\\0é' => KeyError: '\\x07\\x7f\\x00é'
    item {True: 5} '' => KeyError: ''
    item {True: 5} None => KeyError: None
    item {True: 5} False => KeyError: False
    item {True: 5} -42 => KeyError: -42

    Values of a lent dict are lent.
    d = {}; set d 1 d; item d 1; item ~d 1; d => done; {1: d}; ~{1: d}; {1: d} | 1 cells
    x = []; d = {1: x}; y = item ~d 1; z = item d 1; same x y; same x z; same ~x y => False; True; True

    New keys cost a cell.
    cells 2; d = {}; set d 1 None; set d 2 None; d => done; done; {1: None, 2: None} | 2 cells
    cells 1; d = {}; set d 1 None; set d 2 None; d => done; stop cells; {1: None} | 1 cells
    cells 1; d = {}; set d 1 None; set d 1 5; d => done; done; {1: 5} | 1 cells
    cells 0; d = {}; set d 1 None; set d 1 None; d => stop cells; stop cells; {}

    A key is tested before its cell.
    cells 0; d = {}; set d KeyError None; set d len None; d => TypeError: key; TypeError: key; {}

    Elements are set and deleted.
    x = [5, 6]; set x 0 7; x => done; [7, 6]
    x = [5, 6]; delete x 0; x => done; [6]
    x = [5, 6]; set ~x 0 7; x => done; [7, 6]
    x = [5, 6]; delete ~x 0; x => done; [6]
    x = [5, 6]; set x 1 7; x => done; [5, 7]
    x = [5, 6]; delete x 1; x => done; [5]
    x = [5, 6]; set ~x 1 7; x => done; [5, 7]
    x = [5, 6]; delete ~x 1; x => done; [5]
    x = [5, 6]; set x -1 7; x => done; [5, 7]
    x = [5, 6]; delete x -1; x => done; [5]
    x = [5, 6]; set ~x -1 7; x => done; [5, 7]
    x = [5, 6]; delete ~x -1; x => done; [5]
    x = [5, 6]; set x -2 7; x => done; [7, 6]
    x = [5, 6]; delete x -2; x => done; [6]
    x = [5, 6]; set ~x -2 7; x => done; [7, 6]
    x = [5, 6]; delete ~x -2; x => done; [6]
    x = [5, 6]; set x 2 7; delete x 2; x => IndexError: index; IndexError: index; [5, 6]
    x = [5, 6]; set ~x 2 7; delete ~x 2; x => IndexError: index; IndexError: index; [5, 6]
    x = [5, 6]; set x -3 7; delete x -3; x => IndexError: index; IndexError: index; [5, 6]
    x = [5, 6]; set ~x -3 7; delete ~x -3; x => IndexError: index; IndexError: index; [5, 6]

    Elements are changed by index alone.
    x = [5, 6]; set x True 7; x; delete x True; x; set x None 7; delete x None; set x 'a' 7; x \
        => done; [5, 7]; done; [5]; TypeError: index; TypeError: index; TypeError: index; [5]

    Keys are deleted once.
    d = {1: None}; delete d 1; d; delete d 1 => done; {}; KeyError: 1
    d = {1: None}; delete d True; delete d True => done; KeyError: True
    d = {1: None}; delete d 2; delete d KeyError; d => KeyError: 2; TypeError: key; {1: None}
    d = {1: None}; delete ~d 1; d; delete ~d 1 => done; {}; KeyError: 1
    d = {1: None}; delete ~d True; delete ~d True => done; KeyError: True
    d = {1: None}; delete ~d 2; delete ~d KeyError; d => KeyError: 2; TypeError: key; {1: None}

    Tuples stay.
    x = (5,); set x 0 None; delete x 0; x => TypeError: item; TypeError: item; (5)
    x = (5,); set ~x 0 None; delete ~x 0; x => TypeError: item; TypeError: item; (5)

    Items of a lent list are lent.
    x = []; y = [x]; a = item y 0; b = item ~y 0; same x a; same ~x b; same x b => True; True; False
    x = []; y = (x,); a = item y 0; b = item ~y 0; same x a; same ~x b => True; True

    An object is no index and no key.
    x = [1]; item x x => TypeError: index
    d = {1: 2}; item d d; item ~d ~d; set d d 1; delete d d \
        => TypeError: key; TypeError: key; TypeError: key; TypeError: key

    A key stays as first written.
    cells 1; d = {}; set d True None; set d 1 5; entry d 1; d => done; done; True; {True: 5} | 1 cells
";

#[test]
fn items_are_read_stored_and_deleted(rt: HostRuntime) -> Result<(), Fail> {
    all_answer(rt.alloc(), CASES)?;
    Ok(())
}
