//! Slices. What is wanted of texts is what CPython gives.

use crate::answers::all_answer;
use std::test::Fail;

const CASES: &str = "
    Slices of texts are of characters.
    slice 'hé€😀' None 2 None => 'hé' | 3 cells
    slice 'hé€😀' -2 None None => '€😀' | 7 cells
    slice 'hé€😀' None None -2 => '😀é' | 6 cells
    slice 'hé€😀' None None 3 => 'h😀' | 5 cells
    slice 'hé€😀' -9223372036854775808 9223372036854775807 9223372036854775807 => 'h' | 1 cells
    slice 'hé€😀' 9223372036854775807 -9223372036854775808 -9223372036854775808 => '😀' | 4 cells
    slice 'hé€😀' 9223372036854775807 9223372036854775807 -1 => ''

    Slices of texts cost their bytes.
    cells 3; slice 'née' None 2 None => 'né' | 3 cells
    cells 2; slice 'née' None 2 None => stop cells
    cells 1; slice 'née' None 2 None => stop cells
    cells 0; slice 'née' None 2 None => stop cells
    cells 0; slice 'née' 3 None None => ''

    Slices of lists and tuples are of their owner.
    side 3; x = [0, 1, 2, 3]; side 1; cells 5; y = slice x None None -1; y; owner y => [3, 2, 1, 0]; 3 | 5 cells
    side 3; x = [0, 1, 2, 3]; side 1; cells 4; slice x None None -1; x => stop cells; [0, 1, 2, 3]
    side 3; x = [0, 1, 2, 3]; side 1; y = slice x 1 3 None; y; owner y => [1, 2]; 3 | 3 cells
    side 3; x = [0, 1, 2, 3]; side 1; y = slice x 3 0 -2; y; owner y => [3, 1]; 3 | 3 cells
    side 3; x = [0, 1, 2, 3]; side 1; cells 1; y = slice x 9223372036854775807 None 9223372036854775807; y; owner y \
        => []; 3 | 1 cells
    side 3; x = [0, 1, 2, 3]; side 1; cells 5; y = slice ~x None None -1; y; owner y => ~[3, 2, 1, 0]; 3 | 5 cells
    side 3; x = [0, 1, 2, 3]; side 1; cells 4; slice ~x None None -1; x => stop cells; [0, 1, 2, 3]
    side 3; x = [0, 1, 2, 3]; side 1; y = slice ~x 1 3 None; y; owner y => ~[1, 2]; 3 | 3 cells
    side 3; x = [0, 1, 2, 3]; side 1; y = slice ~x 3 0 -2; y; owner y => ~[3, 1]; 3 | 3 cells
    side 3; x = [0, 1, 2, 3]; side 1; cells 1; y = slice ~x 9223372036854775807 None 9223372036854775807; y; \
        owner y => ~[]; 3 | 1 cells
    side 3; x = (0, 1, 2, 3); side 1; cells 5; y = slice x None None -1; y; owner y => (3, 2, 1, 0); 3 | 5 cells
    side 3; x = (0, 1, 2, 3); side 1; cells 4; slice x None None -1; x => stop cells; (0, 1, 2, 3)
    side 3; x = (0, 1, 2, 3); side 1; y = slice x 1 3 None; y; owner y => (1, 2); 3 | 3 cells
    side 3; x = (0, 1, 2, 3); side 1; y = slice x 3 0 -2; y; owner y => (3, 1); 3 | 3 cells
    side 3; x = (0, 1, 2, 3); side 1; cells 1; y = slice x 9223372036854775807 None 9223372036854775807; y; owner y \
        => (); 3 | 1 cells
    side 3; x = (0, 1, 2, 3); side 1; cells 5; y = slice ~x None None -1; y; owner y => ~(3, 2, 1, 0); 3 | 5 cells
    side 3; x = (0, 1, 2, 3); side 1; cells 4; slice ~x None None -1; x => stop cells; (0, 1, 2, 3)
    side 3; x = (0, 1, 2, 3); side 1; y = slice ~x 1 3 None; y; owner y => ~(1, 2); 3 | 3 cells
    side 3; x = (0, 1, 2, 3); side 1; y = slice ~x 3 0 -2; y; owner y => ~(3, 1); 3 | 3 cells
    side 3; x = (0, 1, 2, 3); side 1; cells 1; y = slice ~x 9223372036854775807 None 9223372036854775807; y; \
        owner y => ~(); 3 | 1 cells

    A slice of a lent list holds its elements as they were stored.
    x = []; y = [x, ~x, 1]; slice ~y None None None => ~[x, ~x, 1] | 4 cells
    x = []; y = [x, ~x, 1]; slice y None None None => [x, ~x, 1] | 4 cells
    x = []; y = (x, ~x, 1); slice ~y None None -1 => ~(1, ~x, x) | 4 cells

    What is no slice is refused.
    slice {} None None None => TypeError: item
    slice 5 None None None => TypeError: item
    slice None None None None => TypeError: item
    slice KeyError None None None => TypeError: item
    slice bound(None, append) None None None => TypeError: item
    slice lambda() None None None => TypeError: item
    slice 'abc' 'a' None 0 => TypeError: index
    slice 'abc' 'a' None 1 => TypeError: index
    slice [1] None 'a' 1 => TypeError: index
    slice [1] None None 'a' => TypeError: index
    slice 'abc' None None 0 => ValueError: slice
    slice [1] None None 0 => ValueError: slice
";

#[test]
fn slices_are_read(rt: HostRuntime) -> Result<(), Fail> {
    all_answer(rt.alloc(), CASES)?;
    Ok(())
}
