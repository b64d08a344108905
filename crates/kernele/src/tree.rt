// Trees of the language, shared where they are held more than once.
ghost use Rattle.std.specs.Prelude.{◌≡◌, IfOk};
ghost use Rattle.kernele.specs.Spelling.{primitive_words};
ghost use Rattle.kernele.specs.View.{program_of};

use ids::text::Text;
use std::alloc::AllocError;
use std::sync::Arc;

/// What a definition binds: a name, or nothing.
pub enum Pattern {
    Name(Text),
    Ignore,
}

// By hand, so that what drops one elsewhere calls this and is not proved anew for all that it holds.
impl Drop for Pattern {
    fn drop(self) {
        match self {
            Pattern::Name(_) | Pattern::Ignore => {}
        }
    }
}

impl Pattern {
    /// The same pattern, whose name is shared. Fails only for want of memory.
    pub fn share(&self) -> Result<Pattern, AllocError>
        ensures { IfOk result (λ p. p ≡ self.now) }
    {
        match self {
            Pattern::Name(name) => Ok(Pattern::Name(name.share()?)),
            Pattern::Ignore => Ok(Pattern::Ignore),
        }
    }
}

/// What the language itself does with one value.
#[derive(Clone, Copy, PartialEq, Eq)]
pub enum Primitive {
    /// Throws it as a problem.
    Throw,
    /// Makes a broken reference, of this problem.
    BreakRef,
    /// Tells how far it is known.
    StateRef,
}

impl Primitive {
    /// What stands before the value in the canonical spelling.
    pub fn words(self) -> &'static str
        ensures { result.now ≡ primitive_words self }
    {
        match self {
            Primitive::Throw => "throw(",
            Primitive::BreakRef => "Ref.broken(",
            Primitive::StateRef => "Ref.state(",
        }
    }
}

/// An expression.
#[cycle(tree)]
pub enum Expr {
    Null,
    Bool(bool),
    Int(i64),
    Text(Text),
    Noun(Text),
    Def(Pattern, Arc<Expr>),
    Var(Text, Arc<Expr>),
    Assign(Text, Arc<Expr>),
    Call(Arc<Expr>, Text, Arc<Vec<Expr>>),
    List(Arc<Vec<Expr>>),
    Same(Arc<Expr>, Arc<Expr>),
    /// Names for the items of a list.
    DefList(Arc<Vec<Pattern>>, Arc<Expr>),
    /// A block in braces, with a scope of its own.
    Hide(Arc<Vec<Expr>>),
    /// A condition, and a block for each of its answers.
    If(Arc<Expr>, Arc<Vec<Expr>>, Arc<Vec<Expr>>),
    While(Arc<Expr>, Arc<Vec<Expr>>),
    /// What each item of a list is bound to, the list, and the body.
    For(Pattern, Arc<Expr>, Arc<Vec<Expr>>),
    /// A body, what its problem is bound to, and the handler.
    Try(Arc<Vec<Expr>>, Pattern, Arc<Vec<Expr>>),
    /// A primitive, of the value of this.
    Primitive(Primitive, Arc<Expr>),
    /// What the object is bound to, and its methods.
    Object(Pattern, Arc<Vec<Method>>),
    /// The name of the ejector, and the block that it ends.
    Escape(Text, Arc<Vec<Expr>>),
    /// A message to a receiver: its verb and its arguments.
    Send(Arc<Expr>, Text, Arc<Vec<Expr>>),
    /// A value, and the block that runs when it is known.
    When(Arc<Expr>, Arc<Vec<Expr>>),
    /// The same, and what a problem is bound to, and its handler.
    WhenCatch(Arc<Expr>, Arc<Vec<Expr>>, Pattern, Arc<Vec<Expr>>),
    /// A promise and its resolver.
    NewPromise,
}

// By hand, so that what drops one elsewhere calls this and is not proved anew for all that it holds.
impl Drop for Expr {
    #[cycle(drop)]
    fn drop(self) {
        match self {
            Expr::Null
            | Expr::Bool(_)
            | Expr::Int(_)
            | Expr::Text(_)
            | Expr::Noun(_)
            | Expr::Def(_, _)
            | Expr::Var(_, _)
            | Expr::Assign(_, _)
            | Expr::Call(_, _, _)
            | Expr::List(_)
            | Expr::Same(_, _)
            | Expr::DefList(_, _)
            | Expr::Hide(_)
            | Expr::If(_, _, _)
            | Expr::While(_, _)
            | Expr::For(_, _, _)
            | Expr::Try(_, _, _)
            | Expr::Primitive(_, _)
            | Expr::Object(_, _)
            | Expr::Escape(_, _)
            | Expr::Send(_, _, _)
            | Expr::When(_, _)
            | Expr::WhenCatch(_, _, _, _)
            | Expr::NewPromise => {}
        }
    }
}

/// What an object does when it is called by this verb with as many arguments as there are parameters.
#[cycle(tree)]
#[derive(Drop)]
pub struct Method {
    pub verb: Text,
    pub parameters: Arc<Vec<Pattern>>,
    pub body: Arc<Vec<Expr>>,
}

/// Expressions that are evaluated in order.
#[derive(Drop)]
pub struct Block(pub Arc<Vec<Expr>>);

/// A whole script or asked text.
pub struct Program(pub Block);

// By hand, so that what drops one elsewhere calls this and is not proved anew for all that it holds.
impl Drop for Program {
    fn drop(self) {
        let Program(_) = self;
    }
}

impl Program {
    /// The same program, shared. Fails only for want of memory.
    pub fn share(&self) -> Result<Program, AllocError>
        ensures { IfOk result (λ p. program_of p ≡ program_of self.now) }
    {
        Ok(Program(Block(Arc::try_clone(&self.0.0)?)))
    }
}
