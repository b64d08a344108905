// A text that many hold: it changes only where nobody else sees it.
ghost use Rattle.std.specs.Prelude.{◌≡◌, ◌++◌, ℕ, List, IfOk, OnOk, string_bytes, nat_eq, Some};
ghost use Rattle.std.proofs.Common.{refl, rules};
ghost use Rattle.std.specs.Ordering.{nat_cmp};
ghost use Rattle.std.specs.Hash as fed;
ghost use Rattle.std.specs.Cmp.Lexicographic.{pointwise, slice_cmp, nat_list_eq_equiv, nat_list_cmp_total, texts_ties, texts_po};
ghost use Rattle.std.specs.Cmp.{partial_equiv_from_equiv};
ghost use Rattle.std.specs.Cmp.Rules.{hashing};

use std::alloc::{AllocError, Global};
use std::cmp::Ordering;
use std::fmt;
use std::fmt::{Debug, Display, Formatter, Write};
use std::hash::{Hash, Hasher};
use std::marker::Model;
use std::sync::Arc;

/// A shared text: a name, a verb or a literal. Clauses see its bytes.
pub struct Text {
    shared: Arc<String>,
}

// By hand, so that what drops one elsewhere calls this and is not proved anew for all that it holds.
impl Drop for Text {
    fn drop(self) {
        let Text { shared: _ } = self;
    }
}

impl Model for Text {
    ghost use Rattle.std.specs.Prelude.{List, ℕ, string_bytes};
    ghost use Rattle.std.specs.Arc.{arc_value};

    ghost Value = { List ℕ };

    ghost view = { λ t. string_bytes (arc_value t.shared) };
}

impl Text {
    /// A text of its own.
    pub fn new(alloc: Global, text: &str) -> Result<Text, AllocError>
        ensures { IfOk result (λ t. t ≡ text.now) }
    {
        Text::from_string(String::from_str(alloc, text)?)
    }

    /// A string as a text, not copied.
    pub fn from_string(text: String) -> Result<Text, AllocError>
        ensures { IfOk result (λ t. t ≡ string_bytes text) }
    {
        let alloc = text.allocator().clone()?;
        Ok(Text {
            shared: Arc::new(alloc, text)?,
        })
    }

    /// The same text, shared.
    pub fn share(&self) -> Result<Text, AllocError>
        ensures { IfOk result (λ t. t ≡ self.now) }
    {
        Ok(Text {
            shared: Arc::try_clone(&self.shared)?,
        })
    }

    /// Adds a text at the end, in place where nobody else holds this one, else in a copy of it.
    pub fn push_str(&mut self, more: &str) -> Result<(), AllocError>
        ensures { OnOk result (self.new ≡ self.old ++ more.now) }
    {
        match Arc::get_mut(&mut self.shared) {
            Some(own) => own.push_str(more),
            None => self.push_to_copy(more),
        }
    }

    fn push_to_copy(&mut self, more: &str) -> Result<(), AllocError>
        ensures { OnOk result (self.new ≡ self.old ++ more.now) }
    {
        let alloc = self.shared.allocator().clone()?;
        let text = self.shared.as_str();
        let mut both = String::with_capacity(alloc, text.len() + more.len())?;
        both.push_str(text)?;
        both.push_str(more)?;
        *self = Text::from_string(both)?;
        Ok(())
    }

    /// What the text reads.
    pub fn as_str(&self) -> &str
        ensures { result.now ≡ self.now }
    {
        self.shared.as_str()
    }
}

impl Clone for Text {
    ghost is_clone = { λ x y. y ≡ x };

    fn clone(&self) -> Result<Text, AllocError> {
        self.share()
    }
}

impl PartialEq for Text {
    ghost eq = { λ x y. pointwise nat_eq x y };

    ghost laws = { partial_equiv_from_equiv nat_list_eq_equiv };

    fn eq(&self, other: &Self) -> bool {
        self.as_str() == other.as_str()
    }
}

impl Eq for Text {
    ghost laws = { nat_list_eq_equiv };
}

impl PartialOrd for Text {
    ghost partial_cmp = { λ x y. Some (slice_cmp nat_cmp x y) };

    ghost laws = { texts_po };

    fn partial_cmp(&self, other: &Self) -> Option<Ordering> {
        Some(self.cmp(other))
    }
}

/// In order of bytes.
impl Ord for Text {
    ghost cmp = { λ x y. slice_cmp nat_cmp x y };

    ghost total = { nat_list_cmp_total };

    ghost matches_partial_cmp = { λ x y. refl };

    ghost matches_eq = { texts_ties };

    fn cmp(&self, other: &Self) -> Ordering {
        self.as_str().cmp(other.as_str())
    }
}

impl Hash for Text {
    ghost hash_input = { λ t. fed.str t };

    ghost respects_eq = { Prim.search (hashing, rules) };

    fn hash<H: Hasher>(&self, state: &mut H) {
        self.as_str().hash(state);
    }
}

impl Display for Text {
    ghost output = { λ t. Some t };

    fn fmt<W: Write>(&self, f: &mut Formatter<W>) -> fmt::Result {
        f.pad(self.as_str())
    }
}

impl Debug for Text {
    fn fmt<W: Write>(&self, f: &mut Formatter<W>) -> fmt::Result {
        let text = self.as_str();
        Debug::fmt(&text, f)
    }
}
