// A text between quotation marks.
ghost use Rattle.std.specs.Prelude.{◌≡◌, ◌++◌, OnOk, string_bytes, flat_map, encode_utf8};
ghost use Rattle.ids.specs.Quoted.{quoted, quoted_byte};

use std::alloc::AllocError;

/// Writes a text between quotation marks at the end of a string, with a backslash before quotation
/// marks and backslashes, and in place of line feeds, tabs and carriage returns.
pub fn write_quoted(text: &str, out: &mut String) -> Result<(), AllocError>
    ensures { OnOk result (string_bytes out.new ≡ string_bytes out.old ++ quoted text.now) }
{
    out.push('"')?;
    for character in text.chars() {
        write_quoted_character(character, out)?;
    }
    out.push('"')
}

fn write_quoted_character(character: char, out: &mut String) -> Result<(), AllocError>
    ensures { OnOk result (string_bytes out.new ≡ string_bytes out.old ++ flat_map quoted_byte (encode_utf8 character)) }
{
    match character {
        '"' => out.push_str("\\\""),
        '\\' => out.push_str("\\\\"),
        '\n' => out.push_str("\\n"),
        '\t' => out.push_str("\\t"),
        '\r' => out.push_str("\\r"),
        _ => out.push(character),
    }
}
