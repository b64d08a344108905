//! Reads the tokens of a text into a program's tree.
#![tactic(auto)]

ghost use Rattle.std.specs.Prelude.{◌≡◌, ◌↔◌, [], IfOk, IfErr, Some};
ghost use Rattle.kernele.specs.Tree.{Trees};
ghost use Rattle.kernele.specs.View.{trees_of, program_of};
ghost use Rattle.ereader.specs.Brackets.{IsTooDeep};
ghost use Rattle.ereader_grammar.specs.Grammar as grammar;
ghost use Rattle.ereader_grammar.specs.Reading.{program_at, all_at, within_at};
ghost use Rattle.ereader_parser.specs.View.{left_of};
ghost use Rattle.ereader.specs.Texts.{Answers};
ghost use Rattle.ereader_grammar.specs.View.{plain};
ghost use Rattle.ereader.specs.View.{GivesAll, IsPlace, Stops, Accepts, IsRefusal};

mod depth;
pub mod fault;
pub mod theorems;

use crate::fault::ReadFault;
use ereader_parser::Reader;
use ereader_signs::stop::ReadStop;
use etoken::token::Placed;
use etoken::tokens::tokens;
use kernele::tree::{Block, Expr, Program};
use std::alloc::Global;
use std::sync::Arc;

/// The program that a text spells.
///
/// # Errors
///
/// `TooLong` for a text of too many bytes, then the first fault of its tokens, then what `read_tokens` refuses.
pub fn read(alloc: Global, text: &str) -> Result<Program, ReadFault>
    ensures { Answers text.now result }
{
    let tokens = tokens(alloc, text)?;
    read_tokens(alloc, &tokens, text.len())
}

/// The program that the tokens of a text of `length` bytes spell.
///
/// # Errors
///
/// `TooDeep` if more than 100 brackets are open at once. Then `Unexpected` if the tokens spell no
/// program, with the offset of the first token that can't follow those before it, or the text's
/// length. `Memory` if memory runs out.
pub fn read_tokens(alloc: Global, tokens: &[Placed], length: usize) -> Result<Program, ReadFault>
    // What is read is what the tokens spell.
    ensures found { IfOk result (λ p. grammar.Program (plain tokens.now) (program_of p)) }
    // What they spell is read, unless memory runs out or too many brackets are open.
    ensures only { (ts : Trees) → grammar.Program (plain tokens.now) ts → Accepts result ts }
    ensures deep { (result ≡ Err ReadFault.TooDeep) ↔ IsTooDeep (plain tokens.now) }
    ensures refusal { IfErr result (λ e. IsRefusal e tokens.now length) }
{
    if depth::is_too_deep(tokens) {
        return Err(ReadFault::TooDeep);
    }
    let items = read_items(alloc, tokens, length)?;
    Ok(Program(Block(Arc::new(alloc, items)?)))
}

/// The items of the program that the tokens spell, or where reading stops, as an offset.
fn read_items(alloc: Global, tokens: &[Placed], length: usize) -> Result<Vec<Expr>, ReadFault>
    ensures ok { IfOk result (λ es. program_at (plain tokens.now) ≡ Some (trees_of es.items, [])) }
    ensures err { IfErr result (λ e. Stops e tokens.now length (program_at (plain tokens.now))) }
{
    let mut reader = Reader {
        alloc,
        rest: tokens,
    };
    match all_items(&mut reader, tokens.len()) {
        Ok(items) => Ok(items),
        Err(ReadStop::Memory) => Err(ReadFault::Memory),
        Err(ReadStop::Unexpected) => {
            let index = tokens.len().saturating_sub(reader.rest.len());
            Err(ReadFault::Unexpected(place_at(tokens, index, length)))
        }
    }
}

/// The items that all the tokens of a reader spell, where parts lie within one another at most `left` deep.
fn all_items(reader: &mut Reader, left: usize) -> Result<Vec<Expr>, ReadStop>
    ensures { GivesAll result (all_at (within_at left) (left_of reader.old)) }
{
    let items = reader.block(left)?;
    if !reader.rest.is_empty() {
        return Err(ReadStop::Unexpected);
    }
    Ok(items)
}

/// Where the token with this index stands, or the text's end.
fn place_at(tokens: &[Placed], index: usize, length: usize) -> usize
    ensures { IsPlace tokens.now length result }
{
    match tokens.get(index) {
        Some(placed) if placed.offset < length => placed.offset,
        _ => length,
    }
}
