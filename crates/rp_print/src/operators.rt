//! Constants and operators as they are spelled.

ghost use Rattle.std.specs.Prelude.{◌≡◌, IsTrue};
ghost use Rattle.std.specs.Char.{is_ascii};
ghost use Rattle.std.specs.List.{list_all};
ghost use Rattle.rp_print.specs.Operators.{binary_text, const_text, order_text, test_text, unary_text};

use rp_base::{BinOp, CmpOp, UnOp};
use rp_tree::{Const, Test};

pub(crate) fn const_text(value: Const) -> &'static str
    ensures text { result.now ≡ const_text value }
    ensures ascii { IsTrue (list_all is_ascii result.now) }
{
    match value {
        Const::Nil => "None",
        Const::Truth(true) => "True",
        Const::Truth(false) => "False",
    }
}

pub(crate) fn binary_text(op: BinOp) -> &'static str
    ensures text { result.now ≡ binary_text op }
    ensures ascii { IsTrue (list_all is_ascii result.now) }
{
    match op {
        BinOp::Add => "+",
        BinOp::Sub => "-",
        BinOp::Mul => "*",
        BinOp::FloorDiv => "//",
        BinOp::Mod => "%",
        BinOp::Pow => "**",
        BinOp::BitAnd => "&",
        BinOp::BitOr => "|",
        BinOp::BitXor => "^",
        BinOp::LShift => "<<",
        BinOp::RShift => ">>",
    }
}

pub(crate) fn unary_text(op: UnOp) -> &'static str
    ensures text { result.now ≡ unary_text op }
    ensures ascii { IsTrue (list_all is_ascii result.now) }
{
    match op {
        UnOp::Neg => "-",
        UnOp::Pos => "+",
        UnOp::Invert => "~",
    }
}

fn order_text(op: CmpOp) -> &'static str
    ensures text { result.now ≡ order_text op }
    ensures ascii { IsTrue (list_all is_ascii result.now) }
{
    match op {
        CmpOp::Lt => "<",
        CmpOp::Le => "<=",
        CmpOp::Gt => ">",
        CmpOp::Ge => ">=",
        CmpOp::Eq => "==",
        CmpOp::Ne => "!=",
    }
}

pub(crate) fn test_text(test: Test) -> &'static str
    ensures text { result.now ≡ test_text test }
    ensures ascii { IsTrue (list_all is_ascii result.now) }
{
    match test {
        Test::Order(op) => order_text(op),
        Test::Within => "in",
        Test::NotWithin => "not in",
        Test::Is => "is",
        Test::IsNot => "is not",
    }
}
