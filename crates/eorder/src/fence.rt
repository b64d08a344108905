// Fences.
ghost use Rattle.std.specs.Prelude.{◌≡◌, ◌≤◌, [], ◌∷◌, ◌↔◌, length, insert, IsTrue, IsOk, IfOk, OnOk, MatchResult};
ghost use Rattle.eorder.specs.Fences.{member, Rises, with_name, joined, cell_of};

use ids::names::MsgId;
use smallvec::SmallVec;
use std::alloc::{AllocError, Global};
use std::cmp::Ordering;
use std::marker::Model;

/// The newest messages behind a reference: a set of names, mostly of one. Clauses see the names, which rise.
#[derive(Drop)]
pub struct Fence {
    names: SmallVec<MsgId, 1>,
}

impl Model for Fence {
    ghost use Rattle.std.specs.Prelude.{List};
    ghost use Rattle.ids.specs.declared.names.MsgId.{MsgId};
    ghost use Rattle.eorder.specs.Fences.{Rises};

    ghost Value = { List MsgId };

    ghost view = { λ f. f.names.items };

    ghost invariant = { λ f. Rises f.names.items };
}

impl Fence {
    /// No names.
    pub fn empty(alloc: Global) -> Fence
        ensures { result ≡ [] }
    {
        Fence {
            names: SmallVec::new(alloc),
        }
    }

    /// The fence of a message's target after it is sent: the message alone. It takes no memory.
    pub fn alone(alloc: Global, message: MsgId) -> Fence
        ensures { result ≡ message ∷ [] }
    {
        let mut names = SmallVec::new(alloc);
        names.push_reserved(message);
        Fence { names }
    }

    /// Whether it names no message.
    pub fn is_empty(&self) -> bool
        ensures { IsTrue result ↔ (self.now ≡ []) }
    {
        self.names.is_empty()
    }

    /// Whether it names this message.
    pub fn contains(&self, message: MsgId) -> bool
        ensures { result ≡ member self.now message }
    {
        self.names().contains(&message)
    }

    /// The names, in their order, each once.
    pub fn names(&self) -> &[MsgId]
        ensures names { result.now ≡ self.now }
        ensures rise { Rises self.now }
    {
        self.names.as_slice()
    }

    /// Whether both have the same names.
    pub fn is_same(&self, other: &Fence) -> bool
        ensures { IsTrue result ↔ (self.now ≡ other.now) }
    {
        self.names() == other.names()
    }

    /// A copy, which takes memory only for two names or more.
    pub fn share(&self) -> Result<Fence, AllocError>
        ensures same { IfOk result (λ f. f ≡ self.now) }
        ensures small { length self.now ≤ 1 → IsOk result }
    {
        let names = SmallVec::from_slice(*self.names.allocator(), self.names())?;
        Ok(Fence { names })
    }

    /// With the names of another, which came in.
    pub fn join(mut self, other: &Fence) -> Result<Fence, AllocError>
        ensures { IfOk result (λ f. f ≡ joined self other.now) }
    {
        let names = other.names();
        for name in names {
            self.insert(*name)?;
        }
        Ok(self)
    }

    /// What a cell has of it: an empty fence is absent.
    pub fn into_cell(self) -> Option<Fence>
        ensures { result ≡ cell_of self }
    {
        if self.is_empty() { None } else { Some(self) }
    }

    // The place of a name, or the one where it is missing.
    fn place(&self, message: MsgId) -> Result<usize, usize>
        ensures { MatchResult result (λ _. with_name message self.now ≡ self.now) (λ i. (i ≤ length self.now) × (with_name message self.now ≡ insert self.now i message)) }
    {
        let names = self.names();
        for (place, name) in names.iter().enumerate() {
            match message.cmp(name) {
                Ordering::Less => return Err(place),
                Ordering::Equal => return Ok(place),
                Ordering::Greater => {}
            }
        }
        Err(names.len())
    }

    fn insert(&mut self, message: MsgId) -> Result<(), AllocError>
        ensures { OnOk result (self.new ≡ with_name message self.old) }
    {
        if let Err(place) = self.place(message) {
            self.names.insert(place, message)?;
        }
        Ok(())
    }
}

impl Clone for Fence {
    ghost use Rattle.std.specs.Prelude.{◌≡◌};

    ghost is_clone = { λ a b. b ≡ a };

    fn clone(&self) -> Result<Fence, AllocError> {
        self.share()
    }
}
