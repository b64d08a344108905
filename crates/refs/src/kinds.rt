// What the end of a value is in a vat.
ghost use Rattle.std.specs.Prelude.{◌≡◌};
ghost use Rattle.refs.specs.Kinds.{kind_in, local, near};
ghost use Rattle.values.specs.View.{val_of};

use ids::names::VatNo;
use values::value::Value;

/// What an end is in a vat.
#[derive(Clone, Copy, PartialEq, Eq)]
pub enum Kind {
    /// Data, and the vat's own objects and ejectors.
    Near,
    /// Objects and ejectors of another vat.
    Far,
    /// An unresolved promise whose home is the vat.
    LocalPromise,
    /// An unresolved promise of another vat.
    RemotePromise,
    Broken,
}

/// What a value that is an end is in a vat.
pub fn kind_of(value: &Value, vat: VatNo) -> Kind
    ensures { result ≡ kind_in vat (val_of value.now) }
{
    match value {
        Value::Null | Value::Bool(_) | Value::Int(_) | Value::Text(_) | Value::List(_) =>
            Kind::Near,
        Value::Object(object) => near_in(object.vat == vat),
        Value::Ejector(ejector) => near_in(ejector.vat == vat),
        Value::Promise(promise) => local_in(promise.home == vat),
        Value::Broken(_) => Kind::Broken,
    }
}

/// An object's or an ejector's kind, by whether it is the vat's own.
fn near_in(own: bool) -> Kind
    ensures { result ≡ near own }
{
    if own { Kind::Near } else { Kind::Far }
}

/// An unresolved promise's kind, by whether its home is the vat.
fn local_in(own: bool) -> Kind
    ensures { result ≡ local own }
{
    if own {
        Kind::LocalPromise
    } else {
        Kind::RemotePromise
    }
}
