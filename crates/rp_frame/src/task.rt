//! What waits for the end of a part.

use crate::display::Display;
use crate::leaving::Leaving;
use crate::spot::{Adds, Each, Made, Spot};
use rp_base::{BinOp, Name, Oid, UnOp};
use rp_tree::{Arg, Branch, Clause, Except, Expr, Named, Place, Stmt, Target, Test, Trailer};

/// What an expression does with the value of a part, or that of a statement.
#[derive(Clone, Copy)]
pub enum ExprTask<'u> {
    /// With the value of the operands before these.
    Operands(&'u [(BinOp, Expr)]),
    /// With the right operand; the left one is at hand, and these are behind.
    Operand(BinOp, &'u [(BinOp, Expr)]),
    Not,
    /// With the test of a conditional expression: its value where the test is true, and where it is not.
    Cond(&'u Expr, &'u Expr),
    Unary(UnOp),
    /// With the base of a power.
    Power(&'u Expr),
    /// With the exponent; the base is at hand.
    Exponent,
    /// With the first operand of these tests.
    Tests(&'u [(Test, Expr)]),
    /// With the right operand of a test; the left one is at hand, and these are behind.
    Test(Test, &'u [(Test, Expr)]),
    /// With an operand of `and`, where all are to be true, or else of `or`; these are behind.
    Joined(bool, &'u [Expr]),
    /// With the value before these trailers.
    Trailers(&'u [Trailer]),
    /// With the key of an item; the container is at hand, and these trailers are behind.
    Key(&'u [Trailer]),
    /// With an element of a display; so many before it are at hand, and these are behind.
    Items(Display, u32, &'u [Expr]),
    /// With an argument of a call; the callee and, upon it, so many arguments before it are at hand, and these
    /// arguments and trailers are behind.
    Argument(u32, &'u [Arg], &'u [Trailer]),
    /// With the lower bound of a slice; what is sliced is at hand, and its upper bound, its step, and these trailers
    /// are behind.
    SliceFrom(&'u Option<Expr>, &'u Option<Expr>, &'u [Trailer]),
    /// With the upper bound of a slice; what is sliced and, upon it, the lower bound are at hand.
    SliceTo(&'u Option<Expr>, &'u [Trailer]),
    /// With the step of a slice; what is sliced and, upon it, both bounds are at hand.
    SliceStep(&'u [Trailer]),
    /// With a key of a dict display; so many keys and values before it are at hand, and its value and these pairs are
    /// behind.
    DictKey(u32, &'u Expr, &'u [(Expr, Expr)]),
    /// With the value of a key of a dict display; so many keys and values before it are at hand, and these pairs are
    /// behind.
    DictValue(u32, &'u [(Expr, Expr)]),
    /// With what the first clause of a comprehension of this code block goes over; the clauses behind it, and what it
    /// makes.
    Comprehension(usize, &'u Clause, &'u [Clause], Made<'u>),
    /// With what is spread over arguments of a call; the callee and, upon it, so many arguments before it are at hand.
    StarArgument(u32, &'u [Arg], &'u [Trailer]),
    /// With an argument with a name; the callee and, upon it, so many arguments without a name and so many with one are
    /// at hand, each of those a name and then a value.
    NamedArgument(u32, u32, Name, &'u [Arg], &'u [Trailer]),
    /// With what is spread over arguments with names; the callee and, upon it, so many arguments without a name and so
    /// many with one are at hand.
    StarsArgument(u32, u32, &'u [Arg], &'u [Trailer]),
    /// With an argument without a name behind some with one; the callee and, upon it, so many arguments without a name
    /// and so many with one are at hand.
    LaterArgument(u32, u32, &'u [Arg], &'u [Trailer]),
    /// With what is spread over arguments without a name behind some with one; the callee and, upon it, so many
    /// arguments without a name and so many with one are at hand.
    LaterStar(u32, u32, &'u [Arg], &'u [Trailer]),
    /// With a default of a function of this code block, with a name or, for a lambda, without; so many before it are at
    /// hand, and these parameters are behind.
    Default(Option<Name>, usize, u32, &'u [(Named, Option<Expr>)]),
    /// With what `__contains__` gave for a test; the container is at hand, and these tests are behind.
    Contained(Test, &'u [(Test, Expr)]),
    /// With what `__len__` gave for `len`; these trailers are behind.
    Length(&'u [Trailer]),
}

/// What a statement does with the value of an expression.
#[derive(Clone, Copy)]
pub enum StmtTask<'u> {
    Evaluate,
    /// Stores it to these places.
    Assign(&'u [Place]),
    /// With the test of a branch: its block, the branches behind, and the block of `else`.
    Branch(&'u [Stmt], &'u [Branch], &'u [Stmt]),
    /// With the test of a loop: the block of a turn.
    Test(&'u [Stmt]),
    /// With the test of `assert`: its message.
    Assert(&'u Option<Expr>),
    /// With the message of `assert`, whose test was false.
    Fail,
    /// With the object whose attribute is stored to; the value is at hand.
    StoreAttr(Name),
    /// With the container of the item that is stored to: its key; the value is at hand.
    StoreItem(&'u Expr),
    /// With the key of the item that is stored to; the container is at hand, and below it the value.
    StoreKey,
    /// With the object whose attribute is deleted.
    DeleteAttr(Name),
    /// With the container of the item that is deleted: its key.
    DeleteItem(&'u Expr),
    /// With the key of the item that is deleted; the container is at hand.
    DeleteKey,
    /// With the right side of an augmented assignment to a name, whose value is at hand.
    AugmentName(Name, BinOp),
    /// With what a `for` statement goes over.
    For(Each<'u>),
    /// With the value of `raise`.
    Raise,
    /// With the object whose attribute is augmented: the operator and the right side.
    AugmentAttr(Name, BinOp, &'u Expr),
    /// With the right side of an augmented assignment to an attribute; the object and, upon it, the attribute's value
    /// are at hand.
    AugmentedAttr(Name, BinOp),
    /// With the container of the item that is augmented: its key, the operator and the right side.
    AugmentItem(&'u Expr, BinOp, &'u Expr),
    /// With the key of the item that is augmented; the container is at hand.
    AugmentKey(BinOp, &'u Expr),
    /// With the item that is augmented, which `__getitem__` gave; the container and, upon it, the key are at hand: the
    /// operator and the right side.
    AugmentGot(BinOp, &'u Expr),
    /// With the right side of an augmented assignment to an item; the container and, upon it, the key and the item are
    /// at hand.
    AugmentedItem(BinOp),
    /// With the value that is unpacked over a target.
    Unpack(&'u Target),
    /// With the value in an `except` clause; the exception is at hand, and these clauses are behind.
    Handler(&'u Except, &'u [Except]),
    /// With a test of a clause of a comprehension; these tests and clauses are behind.
    Where(&'u [Expr], &'u [Clause], Adds<'u>),
    /// With the element that a comprehension adds to the list at a place.
    AddElement(Oid),
    /// With the key that a comprehension adds to the dict at a place, whose value is behind.
    AddKey(Oid, &'u Expr),
    /// With the value of the key at hand.
    AddEntry(Oid),
    /// With the value that `return` gives back.
    Return,
    /// With the function that a `def` binds to this name.
    Define(Name),
    /// With the function of a `def` in the block of a class of this name, which is the last of so many of its
    /// statements; so many functions of earlier ones are at hand.
    Method(Name, &'u [Stmt], u32, u32),
}

/// What waits for the end of a statement or a block.
#[derive(Clone, Copy)]
pub enum FlowTask<'u> {
    /// The statements behind it.
    Block(&'u [Stmt]),
    /// A loop: the turns that it may still make, its test and its block.
    While(u64, &'u Expr, &'u [Stmt]),
    /// The places behind one that a value was stored to; the value is at hand.
    Store(&'u [Place]),
    /// The places behind one that was deleted.
    Delete(&'u [Place]),
    /// A `for` loop: the turns that it may still make, and where it then stands in the value at hand.
    For(u64, Spot, Each<'u>),
    /// The targets behind one that an element was stored to; their elements are at hand, the first one upon the others.
    StoreEach(&'u [Target]),
    /// The block of a class of this name, of which so many statements are done; so many functions of these are at hand.
    Class(Name, &'u [Stmt], u32, u32),
    /// The tests of a clause of a comprehension, and the clauses behind it.
    Clause(&'u [Expr], &'u [Clause], Adds<'u>),
    /// The `except` clauses of a `try` statement, and its block of `else`.
    Try(&'u [Except], &'u [Stmt]),
    /// A handler, whose exception is bound to the name; what was handled before, or None, is at hand.
    Handled(Option<Name>),
    /// The block of `finally`.
    Finally(&'u [Stmt]),
    /// What left the part before the block of `finally`; the exception, the value of `return`, or None is at hand.
    Leave(Leaving),
}

/// What waits for the end of a part.
#[derive(Clone, Copy)]
pub enum Task<'u> {
    Expr(ExprTask<'u>),
    Stmt(StmtTask<'u>),
    Flow(FlowTask<'u>),
}
