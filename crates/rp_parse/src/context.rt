//! What a statement stands in.

ghost use Rattle.std.specs.Prelude.{◌≡◌, ◌≢◌, ◌-◌, IfErr, IfOk, None, Some, false, true};
ghost use Rattle.std.specs.List.{list_all};
ghost use Rattle.rp_grammar.specs.Statements as stmt_grammar;
ghost use Rattle.rp_parse.specs.Gives.{context_of};

use crate::fault::Stop;
use crate::parameters::Parameters;
use rp_tree::Named;

/// What a statement stands in.
#[derive(Clone, Copy)]
pub struct Context<'c> {
    /// The block of a loop of the same function.
    pub in_loop: bool,
    /// The block of a handler of the same function.
    pub in_handler: bool,
    /// A class, at any depth.
    pub in_class: bool,
    /// A function, by its parameters.
    pub function: Option<&'c Parameters>,
}

impl<'c> Context<'c> {
    /// No block at all.
    pub fn top() -> Self
        ensures { context_of result ≡ stmt_grammar.top }
    {
        Context {
            in_loop: false,
            in_handler: false,
            in_class: false,
            function: None,
        }
    }

    /// The block of a loop.
    pub fn with_loop(self) -> Self
        ensures { context_of result ≡ stmt_grammar.in_loop (context_of self.entry) }
    {
        Context {
            in_loop: true,
            ..self
        }
    }

    /// The block of a handler.
    pub fn with_handler(self) -> Self
        ensures { context_of result ≡ stmt_grammar.in_handler (context_of self.entry) }
    {
        Context {
            in_handler: true,
            ..self
        }
    }

    /// The block of a class.
    pub fn with_class(self) -> Self
        ensures { context_of result ≡ stmt_grammar.in_class (context_of self.entry) }
    {
        Context {
            in_class: true,
            ..self
        }
    }
}

/// The block of a function with these parameters.
pub fn function_block<'n>(parameters: &'n Parameters, context: Context<'_>) -> Context<'n>
    ensures { context_of result ≡ record {
      loop = false;
      handler = false;
      class = context.entry.in_class;
      function = Some parameters.now;
    } }
{
    Context {
        in_loop: false,
        in_handler: false,
        in_class: context.in_class,
        function: Some(parameters),
    }
}

/// Whether `global` may name this: it is no parameter of the function.
fn is_free(context: &Context<'_>, named: &Named) -> bool
    ensures { result ≡ stmt_grammar.is_free (context_of context.now).function named.now }
{
    match context.function {
        None => true,
        Some(parameters) => !parameters.have(named.name),
    }
}

/// Whether `global` may name all of these.
pub fn are_free(context: &Context<'_>, names: &[Named]) -> bool
    ensures { result ≡ list_all (stmt_grammar.is_free (context_of context.now).function) names.now }
{
    let mut rest = names;
    'names: while let [named, others @ ..] = rest {
        if !is_free(context, named) {
            return false;
        }
        rest = others;
    }
    true
}

/// How statements are read.
#[derive(Clone, Copy)]
pub struct Setting<'c> {
    /// The greatest height of the expressions and blocks within the statements.
    pub height: u8,
    /// What the statements stand in.
    pub context: Context<'c>,
    /// Whether they are members of a class.
    pub members: bool,
}

impl<'c> Setting<'c> {
    /// The statements of a script, which have height at most 200.
    pub fn top() -> Self
        ensures { (result.height ≡ 199) × (context_of result.context ≡ stmt_grammar.top) × (result.members ≡ false) }
    {
        Setting {
            height: 199,
            context: Context::top(),
            members: false,
        }
    }

    /// The statements of a block within, which stand in this context and are no members of a class.
    pub fn block<'n>(self, context: Context<'n>) -> Setting<'n>
        ensures height { result.height ≡ self.entry.height }
        ensures context { context_of result.context ≡ context_of context.entry }
        ensures members { result.members ≡ false }
    {
        Setting {
            height: self.height,
            context,
            members: false,
        }
    }

    /// The statements of a block of a statement that is no member of a class.
    pub fn no_member<'n>(self, context: Context<'n>) -> Result<Setting<'n>, Stop<'static>>
        ensures ok { IfOk result (λ x. (self.entry.members ≡ false) × (x.height ≡ self.entry.height)
            × (context_of x.context ≡ context_of context.entry) × (x.members ≡ false)) }
        ensures err { IfErr result (λ e. (self.entry.members ≡ true) × (e ≡ Stop.Syntax None)) }
    {
        if self.members {
            return Err(Stop::Syntax(None));
        }
        Ok(self.block(context))
    }

    /// The same, for members of a class.
    pub fn with_members(self) -> Self
        ensures height { result.height ≡ self.entry.height }
        ensures context { context_of result.context ≡ context_of self.entry.context }
        ensures members { result.members ≡ true }
    {
        Setting {
            members: true,
            ..self
        }
    }

    /// The statements that are one lower.
    pub fn below(self) -> Self
        requires { self.height ≢ 0 }
        ensures height { result.height ≡ self.entry.height - 1 }
        ensures context { context_of result.context ≡ context_of self.entry.context }
        ensures members { result.members ≡ self.entry.members }
    {
        Setting {
            height: self.height - 1,
            ..self
        }
    }
}
