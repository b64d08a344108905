// What public calls answer to a text, as a text.

use ereader::fault::ReadFault;
use ereader::{read, read_tokens};
use etoken::fault::TokenFault;
use etoken::token::{Placed, Token};
use etoken::tokens::tokens;
use ids::text::Text;
use kernele::print;
use kernele::tree::{Expr, Pattern, Program};
use kernele_scopes::{NameKind, TopName, captured_by_when, captured_names, top_names};
use std::alloc::{AllocError, Global};
use std::fmt::Write;

/// What is asked of a text.
#[derive(Clone, Copy)]
pub enum Asked {
    /// Its tokens, each behind its offset.
    Tokens,
    /// The canonical spelling of what is read of it.
    Spelling,
    /// The same, where its tokens are read by themselves.
    SpellingOfTokens,
    /// The names that it defines.
    Names,
    /// What its first item, an object or a `when`, captures.
    Captures,
}

/// The answer, or the refusal.
pub(crate) fn answer(alloc: Global, asked: Asked, text: &str) -> Result<String, AllocError> {
    let mut out = String::new(alloc);
    write_answer(alloc, asked, text, &mut out)?;
    Ok(out)
}

/// Writes why a text has no tokens, as it is told of a whole text.
fn write_refusal(fault: TokenFault, out: &mut String) -> Result<(), AllocError> {
    let refusal = ReadFault::from(fault);
    write!(out, "{refusal}")
}

fn write_answer(
    alloc: Global,
    asked: Asked,
    text: &str,
    out: &mut String,
) -> Result<(), AllocError> {
    match asked {
        Asked::Tokens => match tokens(alloc, text) {
            Ok(list) => write_tokens(&list, out),
            Err(fault) => write_refusal(fault, out),
        },
        Asked::SpellingOfTokens => match tokens(alloc, text) {
            Ok(list) => {
                let outcome = read_tokens(alloc, &list, text.len());
                write_of_reading(alloc, Asked::Spelling, outcome, out)
            }
            Err(fault) => write_refusal(fault, out),
        },
        Asked::Spelling | Asked::Names | Asked::Captures => write_of_reading(
            alloc,
            asked,
            read(alloc, text),
            out,
        ),
    }
}

fn write_of_reading(
    alloc: Global,
    asked: Asked,
    outcome: Result<Program, ReadFault>,
    out: &mut String,
) -> Result<(), AllocError> {
    match outcome {
        Ok(program) => write_of_program(alloc, asked, &program, out),
        Err(fault) => write!(out, "{fault}"),
    }
}

fn write_of_program(
    alloc: Global,
    asked: Asked,
    program: &Program,
    out: &mut String,
) -> Result<(), AllocError> {
    match asked {
        Asked::Names => write_names(&top_names(alloc, program)?, out),
        Asked::Captures => write_captures(alloc, program, out),
        Asked::Spelling | Asked::Tokens | Asked::SpellingOfTokens => {
            out.push_str(&print(alloc, program)?)
        }
    }
}

fn write_tokens(list: &[Placed], out: &mut String) -> Result<(), AllocError> {
    for placed in list {
        write!(out, "{}:", placed.offset)?;
        write_token(&placed.token, out)?;
        out.push(' ')?;
    }
    let _ = out.pop();
    Ok(())
}

/// Writes a token as a short word.
fn write_token(token: &Token, out: &mut String) -> Result<(), AllocError> {
    match token {
        Token::Int(number) => write!(out, "{number}"),
        Token::Text(text) => write!(out, "\"{text}\""),
        Token::Name(name) => out.push_str(name.as_str()),
        Token::Word(word) => write!(out, "{word:?}"),
        Token::Sign(sign) => write!(out, "{sign:?}"),
    }
}

fn write_names(names: &[TopName], out: &mut String) -> Result<(), AllocError> {
    for found in names {
        let kind = match found.kind {
            NameKind::Definition => "def",
            NameKind::Variable => "var",
        };
        write!(out, "{kind} {} ", found.name)?;
    }
    let _ = out.pop();
    Ok(())
}

fn write_captures(alloc: Global, program: &Program, out: &mut String) -> Result<(), AllocError> {
    match program.0.0.first() {
        Some(Expr::Object(pattern, methods)) => {
            write_words(&captured_names(alloc, pattern, methods)?, out)
        }
        Some(Expr::When(_, body)) => {
            write_words(&captured_by_when(alloc, body, &Pattern::Ignore, &[])?, out)
        }
        Some(Expr::WhenCatch(_, body, pattern, handler)) => {
            write_words(&captured_by_when(alloc, body, pattern, handler)?, out)
        }
        _ => Ok(()),
    }
}

fn write_words(words: &[Text], out: &mut String) -> Result<(), AllocError> {
    for word in words {
        write!(out, "{word} ")?;
    }
    let _ = out.pop();
    Ok(())
}
