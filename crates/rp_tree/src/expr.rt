//! Expressions and their parts.

use crate::parts::{Block, Const, Guard, Named, Test};
use rp_base::{BinOp, Line, Name, Text, UnOp};

/// An expression (Python Language Reference, Expressions). Parentheses around one make no node.
#[derive(Drop)]
#[cycle(expr)]
pub struct Expr {
    /// The line of the first token, parentheses that make no node left out.
    pub line: Line,
    /// What the expression is.
    pub form: Box<ExprForm>,
}

/// The forms of an expression.
#[derive(Drop)]
#[cycle(expr)]
pub enum ExprForm {
    /// A name that is read.
    Name(Name),
    /// An integer literal, at least 0.
    Int(i64),
    /// A string literal, adjacent ones joined, by the characters that it stands for.
    Text(Text),
    /// `None`, `True` or `False`.
    Const(Const),
    /// An expression list with a comma, or `()`.
    Tuple(Vec<Expr>),
    /// A list display of expressions.
    List(Vec<Expr>),
    /// A dictionary display of keys and values.
    Dict(Vec<(Expr, Expr)>),
    /// A list comprehension: its code block, the element, and at least one clause.
    ListOf(Block, Expr, Vec<Clause>),
    /// A dictionary comprehension: its code block, key, value, and at least one clause.
    DictOf(Block, Expr, Expr, Vec<Clause>),
    /// A lambda: its code block, its parameters and what it gives.
    Lambda(Block, Box<Params>, Expr),
    /// A conditional expression, `yes if test else no`.
    Cond {
        /// What is asked.
        test: Expr,
        /// The value where it is true.
        yes: Expr,
        /// The value where it is false.
        no: Expr,
    },
    /// Two operands or more of `or`.
    Or(Vec<Expr>),
    /// Two operands or more of `and`.
    And(Vec<Expr>),
    /// `not` of an operand.
    Not(Expr),
    /// A chain of comparisons: the first operand, then each operator with its right operand.
    Compare(Expr, Vec<(Test, Expr)>),
    /// A chain of binary operators of one level: the first operand, then each operator with its right operand.
    Chain(Expr, Vec<(BinOp, Expr)>),
    /// A unary arithmetic or bitwise operation.
    Unary(UnOp, Expr),
    /// The power operator: base and exponent.
    Power(Expr, Expr),
    /// A primary: the atom, then what trails it from left to right.
    Primary(Expr, Vec<Trailer>),
}

/// Parameters of a function or of a lambda (Python Language Reference, Function definitions).
#[derive(Drop)]
#[cycle(expr)]
pub struct Params {
    /// The parameters without a star, each with its default.
    pub plain: Vec<(Named, Option<Expr>)>,
    /// `*NAME`, which takes the positional arguments that are left.
    pub list: Option<Named>,
    /// `**NAME`, which takes the keyword arguments that are left.
    pub dict: Option<Named>,
}

/// A clause of a comprehension (Python Language Reference, Displays for lists, sets and dictionaries).
#[derive(Drop)]
#[cycle(expr)]
pub struct Clause {
    /// `for target in iterable`.
    pub walk: Walk,
    /// The tests behind it, each after `if`.
    pub tests: Vec<Expr>,
}

/// What a `for` statement or a clause goes over (Python Language Reference, The for statement).
#[derive(Drop)]
#[cycle(expr)]
pub struct Walk {
    /// What each element is assigned to.
    pub target: Target,
    /// The iterable.
    pub of: Expr,
    /// The mark of walking.
    pub guard: Option<Guard>,
}

/// What a value is assigned to (Python Language Reference, Assignment statements, target).
#[derive(Drop)]
#[cycle(expr)]
pub enum Target {
    /// One place.
    Place(Place),
    /// A list of targets, over which the elements of the value are dealt out.
    Group(Vec<Target>),
}

/// What is bound, stored to or deleted: an identifier, an attribute reference or a subscription.
#[derive(Drop)]
#[cycle(expr)]
pub enum Place {
    /// A name.
    Name(Named),
    /// The attribute of an object.
    Attr(Expr, Named, Option<Guard>),
    /// The item of a container at a key.
    Item(Expr, Expr, Option<Guard>),
}

/// What trails an atom (Python Language Reference, Primaries).
#[derive(Drop)]
#[cycle(expr)]
pub enum Trailer {
    /// An attribute reference.
    Attr(Named, Option<Guard>),
    /// A subscription.
    Item(Expr, Option<Guard>),
    /// A slicing.
    Slice(Box<Slice>, Option<Guard>),
    /// A call.
    Call(Vec<Arg>, Option<Guard>),
}

/// A slice, `from:to:step` (Python Language Reference, Slicings).
#[derive(Drop)]
#[cycle(expr)]
pub struct Slice {
    /// The lower bound.
    pub from: Option<Expr>,
    /// The upper bound.
    pub to: Option<Expr>,
    /// The stride.
    pub step: Option<Expr>,
}

/// An argument of a call (Python Language Reference, Calls).
#[derive(Drop)]
#[cycle(expr)]
pub enum Arg {
    /// A positional argument.
    Plain(Expr),
    /// `*expression`.
    Star(Expr),
    /// `name=expression`.
    Key(Name, Expr),
    /// `**expression`.
    Stars(Expr),
}
