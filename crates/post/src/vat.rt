// What is known of vats by their names.
ghost use Rattle.std.specs.Prelude.{◌≡◌, IfOk};
ghost use Rattle.kernele_scopes.specs.Check.{scopes_of};
ghost use Rattle.kernele_scopes.specs.Scope.{asked_scopes};

use ids::names::VatNo;
use ids::text::Text;
use kernele_scopes::{Outer, TopName};
use std::alloc::{AllocError, Global};
use std::sync::Arc;

/// What is known of a vat by its name. Sharing it costs nothing that grows with it.
pub struct Vat {
    pub number: VatNo,
    /// The names of the earlier vats that its script knows.
    pub earlier: Arc<Vec<Text>>,
    /// The names that its script defines at the top.
    pub tops: Arc<Vec<TopName>>,
    /// What a program that is asked of it finds in scope.
    outer: Arc<Outer>,
    ghost scoped: { scopes_of outer.value ≡ asked_scopes earlier.value.items tops.value.items },
}

// By hand, so that what drops one elsewhere calls this and is not proved anew for all that it holds.
impl Drop for Vat {
    fn drop(self) {
        let Vat {
            number: _,
            earlier: _,
            tops: _,
            outer: _,
        } = self;
    }
}

impl Vat {
    ghost use Rattle.post.specs.MessageView.{vat_of};

    /// A vat of this number, whose script knows these earlier vats and defines these names at the top. Fails only for want of
    /// memory.
    pub fn new(
        alloc: Global,
        number: VatNo,
        earlier: Vec<Text>,
        tops: Vec<TopName>,
    ) -> Result<Vat, AllocError>
        ensures { IfOk result (λ v. vat_of v ≡ record { number = number; earlier = earlier.items; tops = tops.items }) }
    {
        let outer = Outer::for_asked(alloc, &earlier, &tops)?;
        Ok(Vat {
            number,
            earlier: Arc::new(alloc, earlier)?,
            tops: Arc::new(alloc, tops)?,
            outer: Arc::new(alloc, outer)?,
        })
    }

    /// What a program that is asked of it finds in scope: it was found once, when the vat was born.
    pub fn outer(&self) -> &Outer
        ensures { scopes_of result.now ≡ asked_scopes (vat_of self.now).earlier (vat_of self.now).tops }
    {
        self.outer.as_ref()
    }

    /// The same vat, whose names are shared. Fails only for want of memory.
    pub fn share(&self) -> Result<Vat, AllocError>
        ensures { IfOk result (λ v. vat_of v ≡ vat_of self.now) }
    {
        Ok(Vat {
            number: self.number,
            earlier: Arc::try_clone(&self.earlier)?,
            tops: Arc::try_clone(&self.tops)?,
            outer: Arc::try_clone(&self.outer)?,
        })
    }
}

impl Clone for Vat {
    ghost use Rattle.post.specs.MessageView.{vat_of};

    ghost is_clone = { λ a b. vat_of b ≡ vat_of a };

    fn clone(&self) -> Result<Vat, AllocError> {
        self.share()
    }
}
