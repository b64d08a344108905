// What promises were resolved to.
ghost use Rattle.std.specs.Prelude.{◌≡◌, option_map};
ghost use Rattle.refs.specs.Walks.{Resolutions};
ghost use Rattle.values.specs.View.{val_of};

use ids::names::PromId;
use values::value::Value;

/// What knows of promises what they were resolved to.
pub trait Resolve {
    ghost resolutions: { Self → Resolutions };

    /// What a promise was resolved to, if it was.
    fn resolution(&self, promise: PromId) -> Option<&Value>
        ensures { option_map (λ v. val_of v.now) result ≡ resolutions self.now promise };
}
