// The canonical spelling of a program.
ghost use Rattle.std.specs.Prelude.{◌≡◌, ◌++◌, IfOk, OnOk, string_bytes, codes, map, true};
ghost use Rattle.kernele.specs.View.{tree_of, trees_of, methods_of, program_of};
ghost use Rattle.kernele.specs.Spelling.{spelling, spelled, spelled_parts, spelled_items, spelled_methods, joined, bracketed, in_braces, methods_in_braces, bound_name, needs_brackets as brackets_test, is_bare_receiver as bare_receiver_test, as_part, message};
ghost use Rattle.kernele.specs.Halves.{beginning, rest_of};

use crate::tree::{Expr, Method, Pattern, Program};
use ids::quote::write_quoted;
use ids::text::Text;
use std::alloc::{AllocError, Global};
use std::fmt::Write;
use std::sync::Arc;

/// A program in its canonical spelling.
pub fn print(alloc: Global, program: &Program) -> Result<String, AllocError>
    ensures { IfOk result (λ s. string_bytes s ≡ spelling (program_of program.now)) }
{
    let mut out = String::new(alloc);
    write_items(&program.0.0, &mut out)?;
    Ok(out)
}

/// Writes the items of a block.
#[cycle(print)]
fn write_items(items: &[Expr], out: &mut String) -> Result<(), AllocError>
    ensures { OnOk result (string_bytes out.new ≡ string_bytes out.old ++ joined (codes "; ") (spelled_items (trees_of items.now))) }
{
    if let Some((first, rest)) = items.split_first() {
        write_expr(first, out)?;
        for item in rest {
            out.push_str("; ")?;
            write_expr(item, out)?;
        }
    }
    Ok(())
}

/// Writes an expression as it stands in a block.
#[cycle(print)]
fn write_expr(e: &Expr, out: &mut String) -> Result<(), AllocError>
    ensures { OnOk result (string_bytes out.new ≡ string_bytes out.old ++ spelled (tree_of e.now)) }
{
    write_beginning(e, out)?;
    write_rest(e, out)
}

/// Writes what an expression begins with, up to and with the first expression, block or name in it.
#[cycle(print)]
fn write_beginning(e: &Expr, out: &mut String) -> Result<(), AllocError>
    ensures { OnOk result (string_bytes out.new ≡ string_bytes out.old ++ beginning (tree_of e.now)) }
{
    match e {
        Expr::Null => out.push_str("null"),
        Expr::Bool(true) => out.push_str("true"),
        Expr::Bool(false) => out.push_str("false"),
        Expr::Int(n) => write!(out, "{n}"),
        Expr::Text(text) => write_quoted(text.as_str(), out),
        Expr::Noun(name) | Expr::Assign(name, _) => out.push_str(name.as_str()),
        Expr::Def(pattern, _) | Expr::Object(pattern, _) => write_bound("def ", pattern, out),
        Expr::Var(name, _) => write_name("var ", name, out),
        Expr::Call(receiver, _, _) | Expr::Send(receiver, _, _) => {
            write_bracketed(!is_bare_receiver(receiver), receiver, out)
        }
        Expr::List(items) => write_parts("[", items, "]", out),
        Expr::Same(left, _) => write_part("(", left, out),
        Expr::DefList(patterns, _) => write_patterns("def [", patterns, out),
        Expr::Hide(body) => write_block("", body, out),
        Expr::If(condition, _, _) => write_part("if (", condition, out),
        Expr::While(condition, _) => write_part("while (", condition, out),
        Expr::For(pattern, _, _) => write_bound("for ", pattern, out),
        Expr::Try(body, _, _) => write_block("try ", body, out),
        Expr::Primitive(primitive, value) => write_part(primitive.words(), value, out),
        Expr::Escape(name, _) => write_name("escape ", name, out),
        Expr::When(value, _) | Expr::WhenCatch(value, _, _, _) => write_part("when (", value, out),
        Expr::NewPromise => out.push_str("Ref.promise()"),
    }
}

/// Writes what stands behind that.
#[cycle(print)]
fn write_rest(e: &Expr, out: &mut String) -> Result<(), AllocError>
    ensures { OnOk result (string_bytes out.new ≡ string_bytes out.old ++ rest_of (tree_of e.now)) }
{
    match e {
        Expr::Null
        | Expr::Bool(_)
        | Expr::Int(_)
        | Expr::Text(_)
        | Expr::Noun(_)
        | Expr::List(_)
        | Expr::Hide(_)
        | Expr::NewPromise => Ok(()),
        Expr::Def(_, value) | Expr::Var(_, value) | Expr::Assign(_, value) => {
            write_part(" := ", value, out)
        }
        Expr::Call(_, verb, args) => write_message(".", verb, args, out),
        Expr::Send(_, verb, args) => write_message(" <- ", verb, args, out),
        Expr::Same(_, right) => {
            write_part(" == ", right, out)?;
            out.push_str(")")
        }
        Expr::DefList(_, value) => write_part("] := ", value, out),
        Expr::If(_, first, second) => {
            write_block(") ", first, out)?;
            write_block(" else ", second, out)
        }
        Expr::While(_, body) => write_block(") ", body, out),
        Expr::For(_, list, body) => {
            write_part(" in ", list, out)?;
            write_block(" ", body, out)
        }
        Expr::Try(_, pattern, handler) => write_catch(pattern, handler, out),
        Expr::Primitive(_, _) => out.push_str(")"),
        Expr::Object(_, methods) => write_methods(methods, out),
        Expr::Escape(_, body) => write_block(" ", body, out),
        Expr::When(_, body) => write_block(") -> ", body, out),
        Expr::WhenCatch(_, body, pattern, handler) => {
            write_block(") -> ", body, out)?;
            write_catch(pattern, handler, out)
        }
    }
}

/// Writes a word, and a verb with its arguments behind it.
#[cycle(print)]
fn write_message(
    word: &str,
    verb: &Text,
    args: &Arc<Vec<Expr>>,
    out: &mut String,
) -> Result<(), AllocError>
    ensures { OnOk result (string_bytes out.new ≡ string_bytes out.old ++ (word.now ++ message verb.now (spelled_parts (trees_of args.now.value.items)))) }
{
    write_name(word, verb, out)?;
    write_parts("(", args, ")", out)
}

/// Writes what a problem is bound to, and its handler.
#[cycle(print)]
fn write_catch(
    pattern: &Pattern,
    handler: &Arc<Vec<Expr>>,
    out: &mut String,
) -> Result<(), AllocError>
    ensures { OnOk result (string_bytes out.new ≡ string_bytes out.old ++ (codes " catch " ++ bound_name pattern.now ++ codes " " ++ in_braces (spelled_items (trees_of handler.now.value.items)))) }
{
    write_bound(" catch ", pattern, out)?;
    write_block(" ", handler, out)
}

/// Writes methods in braces, a space before each and before the braces.
#[cycle(print)]
fn write_methods(methods: &[Method], out: &mut String) -> Result<(), AllocError>
    ensures { OnOk result (string_bytes out.new ≡ string_bytes out.old ++ (codes " " ++ methods_in_braces (spelled_methods (methods_of methods.now)))) }
{
    out.push_str(" {")?;
    for method in methods {
        write_method_head(&method.verb, &method.parameters, out)?;
        write_block(" ", &method.body, out)?;
    }
    out.push_str(" }")
}

/// Writes a word, and a block in its braces behind it.
#[cycle(print)]
fn write_block(word: &str, body: &Arc<Vec<Expr>>, out: &mut String) -> Result<(), AllocError>
    ensures { OnOk result (string_bytes out.new ≡ string_bytes out.old ++ (word.now ++ in_braces (spelled_items (trees_of body.now.value.items)))) }
{
    out.push_str(word)?;
    let items = body.as_slice();
    if items.is_empty() {
        return out.push_str("{ }");
    }
    out.push_str("{ ")?;
    write_items(items, out)?;
    out.push_str(" }")
}

/// Writes arguments, or the items of a list, in their brackets.
#[cycle(print)]
fn write_parts(
    opening: &str,
    parts: &Arc<Vec<Expr>>,
    closing: &str,
    out: &mut String,
) -> Result<(), AllocError>
    ensures { OnOk result (string_bytes out.new ≡ string_bytes out.old ++ (opening.now ++ joined (codes ", ") (spelled_parts (trees_of parts.now.value.items)) ++ closing.now)) }
{
    let Some((first, rest)) = parts.split_first() else {
        out.push_str(opening)?;
        return out.push_str(closing);
    };
    write_part(opening, first, out)?;
    for part in rest {
        write_part(", ", part, out)?;
    }
    out.push_str(closing)
}

/// Writes a word, and a part of another expression behind it.
#[cycle(print)]
fn write_part(word: &str, e: &Expr, out: &mut String) -> Result<(), AllocError>
    ensures { OnOk result (string_bytes out.new ≡ string_bytes out.old ++ (word.now ++ as_part (tree_of e.now) (spelled (tree_of e.now)))) }
{
    out.push_str(word)?;
    write_bracketed(needs_brackets(e), e, out)
}

/// Writes an expression, in round brackets where they are wanted.
#[cycle(print)]
fn write_bracketed(wanted: bool, e: &Expr, out: &mut String) -> Result<(), AllocError>
    ensures { OnOk result (string_bytes out.new ≡ string_bytes out.old ++ bracketed wanted (spelled (tree_of e.now))) }
{
    if !wanted {
        return write_expr(e, out);
    }
    out.push_str("(")?;
    write_expr(e, out)?;
    out.push_str(")")
}

/// Writes a method up to its block, behind a space.
fn write_method_head(
    verb: &Text,
    parameters: &[Pattern],
    out: &mut String,
) -> Result<(), AllocError>
    ensures { OnOk result (string_bytes out.new ≡ string_bytes out.old ++ (codes " method " ++ message verb.now (map bound_name parameters.now))) }
{
    out.push_str(" method ")?;
    out.push_str(verb.as_str())?;
    write_patterns("(", parameters, out)?;
    out.push_str(")")
}

/// Writes a word, and a name behind it.
fn write_name(word: &str, name: &Text, out: &mut String) -> Result<(), AllocError>
    ensures { OnOk result (string_bytes out.new ≡ string_bytes out.old ++ (word.now ++ name.now)) }
{
    out.push_str(word)?;
    out.push_str(name.as_str())
}

/// Writes a word, and behind it what a pattern binds.
fn write_bound(word: &str, pattern: &Pattern, out: &mut String) -> Result<(), AllocError>
    ensures { OnOk result (string_bytes out.new ≡ string_bytes out.old ++ (word.now ++ bound_name pattern.now)) }
{
    out.push_str(word)?;
    out.push_str(bound_text(pattern))
}

/// Writes a word, and patterns behind it, with commas between them.
fn write_patterns(word: &str, patterns: &[Pattern], out: &mut String) -> Result<(), AllocError>
    ensures { OnOk result (string_bytes out.new ≡ string_bytes out.old ++ (word.now ++ joined (codes ", ") (map bound_name patterns.now))) }
{
    let Some((first, rest)) = patterns.split_first() else {
        return out.push_str(word);
    };
    write_bound(word, first, out)?;
    for pattern in rest {
        write_bound(", ", pattern, out)?;
    }
    Ok(())
}

/// What a pattern binds, as it is written.
fn bound_text(pattern: &Pattern) -> &str
    ensures { result.now ≡ bound_name pattern.now }
{
    match pattern {
        Pattern::Name(name) => name.as_str(),
        Pattern::Ignore => "_",
    }
}

fn needs_brackets(e: &Expr) -> bool
    ensures { result ≡ brackets_test (tree_of e.now) }
{
    match e {
        Expr::Def(_, _) | Expr::DefList(_, _) | Expr::Var(_, _) | Expr::Assign(_, _) => true,
        Expr::Null
        | Expr::Bool(_)
        | Expr::Int(_)
        | Expr::Text(_)
        | Expr::Noun(_)
        | Expr::Call(_, _, _)
        | Expr::List(_)
        | Expr::Same(_, _)
        | Expr::Hide(_)
        | Expr::If(_, _, _)
        | Expr::While(_, _)
        | Expr::For(_, _, _)
        | Expr::Try(_, _, _)
        | Expr::Primitive(_, _)
        | Expr::Object(_, _)
        | Expr::Escape(_, _)
        | Expr::Send(_, _, _)
        | Expr::When(_, _)
        | Expr::WhenCatch(_, _, _, _)
        | Expr::NewPromise => false,
    }
}

fn is_bare_receiver(e: &Expr) -> bool
    ensures { result ≡ bare_receiver_test (tree_of e.now) }
{
    match e {
        Expr::Def(_, _)
        | Expr::DefList(_, _)
        | Expr::Var(_, _)
        | Expr::Assign(_, _)
        | Expr::Hide(_)
        | Expr::If(_, _, _)
        | Expr::While(_, _)
        | Expr::For(_, _, _)
        | Expr::Try(_, _, _)
        | Expr::Primitive(_, _)
        | Expr::Object(_, _)
        | Expr::Escape(_, _)
        | Expr::When(_, _)
        | Expr::WhenCatch(_, _, _, _)
        | Expr::NewPromise => false,
        Expr::Null
        | Expr::Bool(_)
        | Expr::Int(_)
        | Expr::Text(_)
        | Expr::Noun(_)
        | Expr::Call(_, _, _)
        | Expr::Send(_, _, _)
        | Expr::List(_)
        | Expr::Same(_, _) => true,
    }
}
