// Where the methods of an object stand, so that a call finds one without a scan of all.
ghost use Rattle.std.specs.Prelude.{◌≡◌, ◌<◌, ◌↔◌, IfOk, IsSome, OnOk, Some, length};
ghost use Rattle.std.specs.HashMap.{Updates};
ghost use Rattle.code.specs.View.{methods_of_codes};
ghost use Rattle.code.specs.Index.{same_key, key_of, found_at, Indexes, index_in, index_fits};

use crate::code::MethodCode;
use std::alloc::{AllocError, Global};
use std::collections::HashMap;
use std::sync::Arc;
use values::verb::Verb;

/// What a method is found by: its verb, and how many parameters it has.
#[derive(PartialEq, Eq, Hash, Drop)]
pub struct MethodKey {
    pub verb: Verb,
    pub count: usize,
}

/// Where the first method with each key stands.
#[derive(Drop)]
pub struct MethodIndex {
    positions: HashMap<MethodKey, usize>,
}

/// How many methods are scanned: of so few a scan is quicker than an index.
const FEW_METHODS: usize = 8;

/// The index of these methods, if they are many.
pub fn index_many(
    alloc: Global,
    methods: &[MethodCode],
) -> Result<Option<Arc<MethodIndex>>, AllocError>
    ensures fits { IfOk result (λ index. index_fits (index_in index) (methods_of_codes methods.now)) }
    ensures many { IfOk result (λ index. IsSome index ↔ (8 < length methods.now)) }
{
    if methods.len() <= FEW_METHODS {
        return Ok(None);
    }
    let index = index_all(alloc, methods)?;
    Ok(Some(Arc::new(alloc, index)?))
}

/// The index of these methods.
fn index_all(alloc: Global, methods: &[MethodCode]) -> Result<MethodIndex, AllocError>
    ensures { IfOk result (λ index. Indexes index (methods_of_codes methods.now)) }
{
    let mut positions = HashMap::with_capacity(alloc, methods.len())?;
    let mut rest = methods;
    // From the last one on, so that of methods with the same key the first stays.
    while let Some((method, before)) = rest.split_last() {
        put(&mut positions, method, before.len())?;
        rest = before;
    }
    Ok(MethodIndex { positions })
}

/// Lets the key of a method stand for a position.
fn put(
    positions: &mut HashMap<MethodKey, usize>,
    method: &MethodCode,
    position: usize,
) -> Result<(), AllocError>
    ensures { OnOk result (Updates same_key positions.old positions.new
        (key_of method.now.verb (length method.now.parameters.value.items)) (Some position)) }
{
    let verb = Verb::new(method.verb.share()?);
    let count = method.parameters.len();
    positions.insert(MethodKey { verb, count }, position)?;
    Ok(())
}

impl MethodIndex {
    /// Where the first method with this verb and so many parameters stands.
    pub fn find(&self, verb: &Verb, count: usize) -> Result<Option<usize>, AllocError>
        ensures { IfOk result (λ position. position ≡ found_at self.now verb.now count) }
    {
        let verb = verb.share()?;
        Ok(self.positions.get(&MethodKey { verb, count }).copied())
    }
}

/// The same index, shared. Fails only for want of memory.
pub fn share_index(index: &Option<Arc<MethodIndex>>) -> Result<Option<Arc<MethodIndex>>, AllocError>
    ensures { IfOk result (λ shared. index_in shared ≡ index_in index.now) }
{
    match index {
        Some(index) => Ok(Some(Arc::try_clone(index)?)),
        None => Ok(None),
    }
}
