// What messages are sent on.
ghost use Rattle.std.specs.Prelude.{Some};
ghost use Rattle.ids.specs.Names.{reference_text};

use crate::names::{EjId, ObjId, PromId};
use std::fmt;

/// What a message can be sent on: a promise, an object or an ejector. Their order is that of lists of references.
#[derive(Clone, Copy, PartialEq, Eq, PartialOrd, Ord, Hash)]
pub enum Reference {
    Promise(PromId),
    Object(ObjId),
    Ejector(EjId),
}

impl fmt::Display for Reference {
    ghost output = { λ r. Some (reference_text r) };

    fn fmt<W: fmt::Write>(&self, f: &mut fmt::Formatter<W>) -> fmt::Result {
        match self {
            Reference::Promise(promise) => write!(f, "{promise}"),
            Reference::Object(object) => write!(f, "{object}"),
            Reference::Ejector(ejector) => write!(f, "{ejector}"),
        }
    }
}
