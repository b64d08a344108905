// What a turn publishes.
ghost use Rattle.std.specs.Prelude.{◌≡◌, ◌<◌, [], Some, OnOk, OnErr, length, slice_get};
ghost use Rattle.post.specs.MessageView.{published_of};
ghost use Rattle.eval_rules.specs.Outbox.{and_publication, is_published};
ghost use Rattle.eval_rules.specs.PublicationsView.{publications_of, EachOnce};

use cells::few::Few;
use ids::names::PromId;
use post::published::Published;
use std::alloc::{AllocError, Global};

/// What promises are published as, each once, in the order of publishing.
#[derive(Drop)]
pub struct Publications {
    published: Few<PromId, Published>,
}

impl Publications {
    /// Nothing is published. It takes no memory.
    pub fn new(alloc: Global) -> Publications
        ensures { publications_of result ≡ [] }
    {
        Publications {
            published: Few::new(alloc),
        }
    }

    /// How many promises are published.
    pub fn len(&self) -> usize
        ensures count { result ≡ length (publications_of self.now) }
        ensures each_once { EachOnce (publications_of self.now) }
    {
        self.published.len()
    }

    /// The promise at a place in the order of publishing, and what it is published as.
    pub fn at(&self, place: usize) -> (PromId, &Published)
        requires { place < length (publications_of self.now) }
        ensures { slice_get (publications_of self.now) place ≡ Some (result.0, published_of result.1.now) }
    {
        let (promise, published) = self.published.at(place);
        (*promise, published)
    }

    /// Whether a promise is published.
    pub fn has(&self, promise: PromId) -> bool
        ensures { result ≡ is_published promise (publications_of self.now) }
    {
        self.published.contains_key(&promise)
    }

    /// Publishes a promise, unless it is published. Fails only for want of memory.
    pub fn add(&mut self, promise: PromId, published: Published) -> Result<(), AllocError>
        ensures ok { OnOk result (publications_of self.new ≡ and_publication promise (published_of published) (publications_of self.old)) }
        ensures err { OnErr result (publications_of self.new ≡ publications_of self.old) }
    {
        if self.has(promise) {
            return Ok(());
        }
        self.published.insert(promise, published)
    }
}
