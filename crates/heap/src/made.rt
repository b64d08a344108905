// What an object is made of.
ghost use Rattle.std.specs.Prelude.{◌++◌};
ghost use Rattle.code.specs.View.{methods_of_codes};
ghost use Rattle.code.specs.Frames.{only_names, fits_methods};
ghost use Rattle.code.specs.Index.{index_in, index_fits};
ghost use Rattle.code.specs.Props.{fits_methods-prop, index_fits-prop};
ghost use Rattle.heap.specs.Names.{names_of};
ghost use Rattle.kernele_scopes.specs.Scope.{name_of};

use crate::state::Noun;
use code::code::MethodCode;
use code::index::MethodIndex;
use ids::names::PromId;
use kernele::tree::Pattern;
use std::sync::Arc;

/// An object that a definition made. Sharing it costs nothing that grows with it.
pub struct Plain {
    /// What its definition names it in its methods.
    pub own: Pattern,
    /// The names that it captured, the newest last.
    pub captured: Arc<Vec<Noun>>,
    pub methods: Arc<Vec<MethodCode>>,
    /// Where its methods stand, if they are many: one for all objects that a definition makes.
    pub index: Option<Arc<MethodIndex>>,
    pub ghost fits: { fits_methods (names_of captured.value.items ++ only_names (name_of own)) methods.value.items } by { fits_methods-prop (names_of captured.value.items ++ only_names (name_of own)) methods.value.items },
    pub ghost indexed: { index_fits (index_in index) (methods_of_codes methods.value.items) } by { index_fits-prop (index_in index) (methods_of_codes methods.value.items) },
}

// By hand, so that what drops one elsewhere calls this and is not proved anew for all that it holds.
impl Drop for Plain {
    fn drop(self) {
        let Plain {
            own: _,
            captured: _,
            methods: _,
            index: _,
        } = self;
    }
}

/// What an object is: a definition made it, or it resolves a promise.
#[derive(Drop)]
pub enum Made {
    Plain(Plain),
    Resolver(PromId),
}
