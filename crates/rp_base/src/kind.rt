//! The kinds of exceptions, and which stands under which.

ghost use Rattle.std.specs.Prelude.{◌≡◌, ◌↔◌, ℕ, IsTrue};
ghost use Rattle.rp_base.specs.Kind.{is_under, kind_name, reaches};

/// The kinds of exceptions.
#[derive(Clone, Copy, Debug, PartialEq, Eq, Hash)]
pub enum Kind {
    Exception,
    ArithmeticError,
    ZeroDivisionError,
    OverflowError,
    LookupError,
    IndexError,
    KeyError,
    NameError,
    UnboundLocalError,
    RuntimeError,
    RecursionError,
    ValueError,
    TypeError,
    AttributeError,
    AssertionError,
    Unauthorized,
    Forbidden,
    ForbiddenAttribute,
}

impl Kind {
    /// All kinds.
    pub const ALL: [Kind; 18] = [
        Kind::Exception,
        Kind::ArithmeticError,
        Kind::ZeroDivisionError,
        Kind::OverflowError,
        Kind::LookupError,
        Kind::IndexError,
        Kind::KeyError,
        Kind::NameError,
        Kind::UnboundLocalError,
        Kind::RuntimeError,
        Kind::RecursionError,
        Kind::ValueError,
        Kind::TypeError,
        Kind::AttributeError,
        Kind::AssertionError,
        Kind::Unauthorized,
        Kind::Forbidden,
        Kind::ForbiddenAttribute,
    ];

    /// The name, as a script writes it.
    pub fn as_str(self) -> &'static str
        ensures { result.now ≡ kind_name self }
    {
        match self {
            Kind::Exception => "Exception",
            Kind::ArithmeticError => "ArithmeticError",
            Kind::ZeroDivisionError => "ZeroDivisionError",
            Kind::OverflowError => "OverflowError",
            Kind::LookupError => "LookupError",
            Kind::IndexError => "IndexError",
            Kind::KeyError => "KeyError",
            Kind::NameError => "NameError",
            Kind::UnboundLocalError => "UnboundLocalError",
            Kind::RuntimeError => "RuntimeError",
            Kind::RecursionError => "RecursionError",
            Kind::ValueError => "ValueError",
            Kind::TypeError => "TypeError",
            Kind::AttributeError => "AttributeError",
            Kind::AssertionError => "AssertionError",
            Kind::Unauthorized => "Unauthorized",
            Kind::Forbidden => "Forbidden",
            Kind::ForbiddenAttribute => "ForbiddenAttribute",
        }
    }
}

/// Whether a handler of the kind `handler` takes an exception of the kind `kind`: whether it is that kind
/// or stands under it.
pub fn is_kind(kind: Kind, handler: Kind) -> bool
    ensures value { result ≡ is_under kind handler }
    ensures reaches { IsTrue result ↔ ((n : ℕ) × IsTrue (reaches n kind handler)) }
{
    kind == handler || handler == Kind::Exception || is_directly_under(kind, handler)
}

fn is_directly_under(kind: Kind, above: Kind) -> bool
    ensures { result ≡ reaches 1 kind above }
{
    match kind {
        Kind::Exception => false,
        Kind::ZeroDivisionError | Kind::OverflowError => above == Kind::ArithmeticError,
        Kind::IndexError | Kind::KeyError => above == Kind::LookupError,
        Kind::UnboundLocalError => above == Kind::NameError,
        Kind::RecursionError => above == Kind::RuntimeError,
        Kind::ForbiddenAttribute => above == Kind::Forbidden || above == Kind::AttributeError,
        Kind::ArithmeticError
        | Kind::LookupError
        | Kind::NameError
        | Kind::RuntimeError
        | Kind::ValueError
        | Kind::TypeError
        | Kind::AttributeError
        | Kind::AssertionError
        | Kind::Unauthorized
        | Kind::Forbidden => above == Kind::Exception,
    }
}
