// The programs of deliveries: their names are resolved once, before they are sent.
ghost use Rattle.std.specs.Prelude.{◌≡◌, [], true, false, IfOk};
ghost use Rattle.kernele.specs.View.{program_of};
ghost use Rattle.code.specs.Frames.{fits_all};
ghost use Rattle.code.specs.Props.{fits_all-prop};
ghost use Rattle.code.specs.View.{trees_of_codes};

use code::code::Code;
use code_resolver::resolve;
use kernele::tree::Program;
use std::alloc::{AllocError, Global};
use std::sync::Arc;

/// A vat's script. Its names are resolved for its own scope, whose names are the vat's top nouns.
#[derive(Drop)]
pub struct Script {
    pub items: Arc<Vec<Code>>,
    pub ghost fits: { fits_all true [] items.value.items } by { fits_all-prop true [] items.value.items },
}

/// A program that is asked of a vat. Its names are resolved for a frame that begins without names.
#[derive(Drop)]
pub struct Question {
    pub items: Arc<Vec<Code>>,
    pub ghost fits: { fits_all false [] items.value.items } by { fits_all-prop false [] items.value.items },
}

impl Script {
    /// This program as a script. Fails only for want of memory.
    pub fn new(alloc: Global, program: &Program) -> Result<Script, AllocError>
        ensures { IfOk result (λ s. trees_of_codes s.items.value.items ≡ program_of program.now) }
    {
        let resolved = resolve(alloc, program, true)?;
        Ok(Script {
            items: resolved.items,
        })
    }

    /// The same script, shared. Fails only for want of memory.
    pub fn share(&self) -> Result<Script, AllocError>
        ensures { IfOk result (λ s. trees_of_codes s.items.value.items ≡ trees_of_codes self.now.items.value.items) }
    {
        Ok(Script {
            items: Arc::try_clone(&self.items)?,
        })
    }
}

impl Question {
    /// This program as a question. Fails only for want of memory.
    pub fn new(alloc: Global, program: &Program) -> Result<Question, AllocError>
        ensures { IfOk result (λ q. trees_of_codes q.items.value.items ≡ program_of program.now) }
    {
        let resolved = resolve(alloc, program, false)?;
        Ok(Question {
            items: resolved.items,
        })
    }

    /// The same question, shared. Fails only for want of memory.
    pub fn share(&self) -> Result<Question, AllocError>
        ensures { IfOk result (λ q. trees_of_codes q.items.value.items ≡ trees_of_codes self.now.items.value.items) }
    {
        Ok(Question {
            items: Arc::try_clone(&self.items)?,
        })
    }
}
