// Trees of the language whose names are resolved.

use crate::index::MethodIndex;
use ids::text::Text;
use kernele::tree::{Pattern, Primitive};
use std::sync::Arc;
use values::verb::Verb;

/// Where what a name stands for is found.
#[derive(Clone, Copy)]
pub enum NounPlace {
    /// At this position in the frame, counted from its oldest name.
    Frame(usize),
    /// Outside the frame: among the vat's top nouns.
    Top,
}

/// A name that an object or a `when` captures, and where it is found when the object or the message of the `when` is made.
#[derive(Drop)]
pub struct Capture {
    pub name: Text,
    pub place: NounPlace,
}

/// An expression whose names are resolved.
#[cycle(code)]
pub enum Code {
    Null,
    Bool(bool),
    Int(i64),
    Text(Text),
    Noun(Text, NounPlace),
    Def(Pattern, Arc<Code>),
    Var(Text, Arc<Code>),
    /// The name is looked up behind the right side.
    Assign(Text, NounPlace, Arc<Code>),
    Call(Arc<Code>, Verb, Arc<Vec<Code>>),
    List(Arc<Vec<Code>>),
    Same(Arc<Code>, Arc<Code>),
    /// Names for the items of a list.
    DefList(Arc<Vec<Pattern>>, Arc<Code>),
    /// A block in braces, with a scope of its own.
    Hide(Arc<Vec<Code>>),
    /// A condition, and a block for each of its answers.
    If(Arc<Code>, Arc<Vec<Code>>, Arc<Vec<Code>>),
    While(Arc<Code>, Arc<Vec<Code>>),
    /// What each item of a list is bound to, the list, and the body.
    For(Pattern, Arc<Code>, Arc<Vec<Code>>),
    /// A body, what its problem is bound to, and the handler.
    Try(Arc<Vec<Code>>, Pattern, Arc<Vec<Code>>),
    /// A primitive, of the value of this.
    Primitive(Primitive, Arc<Code>),
    /// What the object is bound to, what it captures, its methods, and their index if they are many.
    Object(Pattern, Arc<Vec<Capture>>, Arc<Vec<MethodCode>>, Option<Arc<MethodIndex>>),
    /// The name of the ejector, and the block that it ends.
    Escape(Text, Arc<Vec<Code>>),
    /// A message to a receiver: its verb and its arguments.
    Send(Arc<Code>, Verb, Arc<Vec<Code>>),
    /// A value, what is captured behind it, and the block that runs when the value is known.
    When(Arc<Code>, Arc<Vec<Capture>>, Arc<Vec<Code>>),
    /// The same, and what a problem is bound to, and its handler.
    WhenCatch(Arc<Code>, Arc<Vec<Capture>>, Arc<Vec<Code>>, Pattern, Arc<Vec<Code>>),
    /// A promise and its resolver.
    NewPromise,
}

// By hand, so that what drops one elsewhere calls this and is not proved anew for all that it holds.
impl Drop for Code {
    #[cycle(drop)]
    fn drop(self) {
        match self {
            Code::Null
            | Code::Bool(_)
            | Code::Int(_)
            | Code::Text(_)
            | Code::Noun(_, _)
            | Code::Def(_, _)
            | Code::Var(_, _)
            | Code::Assign(_, _, _)
            | Code::Call(_, _, _)
            | Code::List(_)
            | Code::Same(_, _)
            | Code::DefList(_, _)
            | Code::Hide(_)
            | Code::If(_, _, _)
            | Code::While(_, _)
            | Code::For(_, _, _)
            | Code::Try(_, _, _)
            | Code::Primitive(_, _)
            | Code::Object(_, _, _, _)
            | Code::Escape(_, _)
            | Code::Send(_, _, _)
            | Code::When(_, _, _)
            | Code::WhenCatch(_, _, _, _, _)
            | Code::NewPromise => {}
        }
    }
}

/// What an object does when it is called by this verb with as many arguments as there are parameters.
#[cycle(code)]
#[derive(Drop)]
pub struct MethodCode {
    pub verb: Text,
    pub parameters: Arc<Vec<Pattern>>,
    pub body: Arc<Vec<Code>>,
}
