// What names stand for, and programs in their own names.
ghost use Rattle.std.specs.Prelude.{◌≡◌, ◌++◌, ◌∷◌, [], IfOk, codes, string_bytes};
ghost use Rattle.std.specs.Option.{option_map};
ghost use Rattle.code.specs.View.{trees_of_codes};
ghost use Rattle.heap.specs.View.{bind_of, nouns_of};
ghost use Rattle.stepper_questions.specs.Deliveries.{captured_line, captured_lines};
ghost use Rattle.stepper_questions.specs.DeliveriesView.{braced, spelled_if_any, word_line};
ghost use Rattle.stepper_streams.specs.Outlet.{Tells};

use code::code::Code;
use code_unresolver::unresolve;
use heap::state::Noun;
use kernele::print;
use std::alloc::{AllocError, Global};
use std::io::Write;
use std::sync::Arc;
use stepper_printing::show::put_binding;
use stepper_streams::outlet::Outlet;

/// The canonical spelling of a program, in its own names; none of an empty one.
pub(crate) type ProgramText = Option<String>;

/// The spelling of the program that code was made from. Fails only for want of memory.
pub(crate) fn program_text(alloc: Global, items: &Arc<Vec<Code>>) -> Result<ProgramText, AllocError>
    ensures { IfOk result (λ text. option_map string_bytes text ≡ spelled_if_any (trees_of_codes items.now.value.items)) }
{
    let codes = items.as_slice();
    if codes.is_empty() {
        return Ok(None);
    }
    let program = unresolve(alloc, items)?;
    Ok(Some(print(alloc, &program)?))
}

fn put_word<W: Write>(word: &str, out: &mut Outlet<W>)
    ensures { Tells W.contents out.old out.new (word.now ++ (10 ∷ [])) }
{
    out.put(word);
    out.put("\n");
}

fn put_word_and<W: Write>(word: &str, text: &str, out: &mut Outlet<W>)
    ensures { Tells W.contents out.old out.new (word.now ++ (codes " " ++ (text.now ++ (10 ∷ [])))) }
{
    out.put(word);
    out.put(" ");
    out.put(text);
    out.put("\n");
}

/// Puts a line of a word, and a program behind it, if it is not empty.
pub(crate) fn put_program<W: Write>(word: &str, program: &ProgramText, out: &mut Outlet<W>)
    ensures { Tells W.contents out.old out.new (word_line word.now (option_map string_bytes program.now)) }
{
    match program {
        Some(text) => put_word_and(word, text.as_str(), out),
        None => put_word(word, out),
    }
}

fn put_braced<W: Write>(text: &str, out: &mut Outlet<W>)
    ensures { Tells W.contents out.old out.new ((codes "{ " ++ text.now) ++ codes " }") }
{
    out.put("{ ");
    out.put(text);
    out.put(" }");
}

/// Puts a block in its braces.
pub(crate) fn put_block<W: Write>(program: &ProgramText, out: &mut Outlet<W>)
    ensures { Tells W.contents out.old out.new (braced (option_map string_bytes program.now)) }
{
    match program {
        Some(text) => put_braced(text.as_str(), out),
        None => out.put("{ }"),
    }
}

fn put_noun<W: Write>(noun: &Noun, out: &mut Outlet<W>)
    ensures { Tells W.contents out.old out.new (captured_line (noun.now.name, bind_of noun.now.binding)) }
{
    out.put(" ");
    out.put(noun.name.as_str());
    out.put(" = ");
    put_binding(&noun.binding, out);
    out.put("\n");
}

/// Puts what captured names stand for, in the order in which they were captured.
pub(crate) fn put_captured<W: Write>(nouns: &[Noun], out: &mut Outlet<W>)
    ensures { Tells W.contents out.old out.new (captured_lines (nouns_of nouns.now)) }
{
    for noun in nouns {
        put_noun(noun, out);
    }
}
