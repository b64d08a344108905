// What `return`, methods that may return and functions stand for.
ghost use Rattle.std.specs.Prelude.{IfOk, ◌≡◌};
ghost use Rattle.kernele.specs.Tree.{noun as noun_tree};
ghost use Rattle.kernele.specs.View.{tree_of, trees_of};
ghost use Rattle.ereader_forms.specs.Forms.{return_tree, return_name as name_of_return, returning as returning_trees, function_tree, block_of as block_trees};

use ereader_nodes::nodes::{call, escape, method, object, one};
use ids::text::Text;
use kernele::tree::{Expr, Pattern};
use std::alloc::{AllocError, Global};
use std::sync::Arc;

/// The name of the ejector that ends a method that may return.
fn return_name(alloc: Global) -> Result<Text, AllocError>
    ensures { IfOk result (λ x. x ≡ name_of_return) }
{
    Ok(Text::new(alloc, "__return")?)
}

/// That ejector, as an expression.
fn return_noun(alloc: Global) -> Result<Arc<Expr>, AllocError>
    ensures { IfOk result (λ e. tree_of e.value ≡ noun_tree name_of_return) }
{
    let name = return_name(alloc)?;
    Ok(Arc::new(alloc, Expr::Noun(name))?)
}

/// What `return` stands for.
pub fn returned(alloc: Global, value: Expr) -> Result<Expr, AllocError>
    ensures { IfOk result (λ e. tree_of e ≡ return_tree (tree_of value)) }
{
    let args = one(alloc, value)?;
    let ejector = return_noun(alloc)?;
    let run = Text::new(alloc, "run")?;
    call(alloc, ejector, run, args)
}

/// The block of a method that may return: null, where it does not.
fn returning(alloc: Global, body: Vec<Expr>) -> Result<Vec<Expr>, AllocError>
    ensures { IfOk result (λ es. trees_of es.items ≡ returning_trees (trees_of body.items)) }
{
    let mut items = body;
    items.push(Expr::Null)?;
    let name = return_name(alloc)?;
    let whole = escape(alloc, name, items)?;
    one(alloc, whole)
}

/// The block of a method, which may return if `returns`.
pub fn block_of(alloc: Global, returns: bool, body: Vec<Expr>) -> Result<Vec<Expr>, AllocError>
    ensures { IfOk result (λ es. trees_of es.items ≡ block_trees returns (trees_of body.items)) }
{
    if returns {
        returning(alloc, body)
    } else {
        Ok(body)
    }
}

/// An object with one method, which may return, and what it is bound to.
pub fn function(
    alloc: Global,
    pattern: Pattern,
    parameters: Vec<Pattern>,
    body: Vec<Expr>,
) -> Result<Expr, AllocError>
    ensures { IfOk result (λ e. tree_of e ≡ function_tree pattern parameters.items (trees_of body.items)) }
{
    let verb = Text::new(alloc, "run")?;
    let body = returning(alloc, body)?;
    let run = method(alloc, verb, parameters, body)?;
    let methods = vec![in alloc; run]?;
    object(alloc, pattern, methods)
}
