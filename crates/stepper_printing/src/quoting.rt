// Texts between quotation marks, as they are printed.
ghost use Rattle.std.specs.Prelude.{◌≡◌, ◌≤◌, take, length};
ghost use Rattle.std.specs.List.{flat_map};
ghost use Rattle.ids.specs.Quoted.{quoted, quoted_byte};
ghost use Rattle.stepper_printing.specs.Plain.{is_plain, PutsFirst};
ghost use Rattle.stepper_streams.specs.Outlet.{Tells};

use std::io::Write;
use stepper_streams::outlet::Outlet;

/// Whether a byte stands as it is between quotation marks.
fn is_plain(byte: u8) -> bool
    ensures { result ≡ is_plain byte }
{
    byte != b'"' && byte != b'\\' && byte != b'\n' && byte != b'\t' && byte != b'\r'
}

/// How many bytes in front stand as they are between quotation marks.
fn plain_len(bytes: &[u8]) -> usize
    ensures within { result ≤ length bytes.now }
    ensures plain { flat_map quoted_byte (take result bytes.now) ≡ take result bytes.now }
{
    let mut len = 0;
    for byte in bytes {
        if !is_plain(*byte) {
            return len;
        }
        len += 1;
    }
    len
}

/// Puts a byte, with a backslash before quotation marks and backslashes, and in place of line feeds, tabs and carriage returns.
fn put_byte<W: Write>(byte: u8, out: &mut Outlet<W>)
    ensures { Tells W.contents out.old out.new (quoted_byte byte) }
{
    match byte {
        b'"' => out.put("\\\""),
        b'\\' => out.put("\\\\"),
        b'\n' => out.put("\\n"),
        b'\t' => out.put("\\t"),
        b'\r' => out.put("\\r"),
        _ => out.give(&[byte]),
    }
}

/// Puts the first byte, if there is one, and answers what stands behind it.
fn put_first<'b, W: Write>(bytes: &'b [u8], out: &mut Outlet<W>) -> &'b [u8]
    ensures { PutsFirst W.contents out.old out.new bytes.now result.now }
{
    match bytes.split_first() {
        Some((byte, rest)) => {
            put_byte(*byte, out);
            rest
        }
        None => bytes,
    }
}

/// Puts bytes: those that stand as they are all at once.
fn put_bytes<W: Write>(bytes: &[u8], out: &mut Outlet<W>)
    ensures { Tells W.contents out.old out.new (flat_map quoted_byte bytes.now) }
{
    let mut rest = bytes;
    'runs: while !rest.is_empty() {
        let (plain, behind) = rest.split_at(plain_len(rest));
        out.give(plain);
        rest = put_first(behind, out);
    }
}

/// Puts a text between quotation marks.
pub fn put_quoted<W: Write>(text: &str, out: &mut Outlet<W>)
    ensures { Tells W.contents out.old out.new (quoted text.now) }
{
    out.put("\"");
    put_bytes(text.as_bytes(), out);
    out.put("\"");
}
