//! Keys as they stand in lines.

ghost use Rattle.std.specs.Prelude.{◌≡◌, ◌<◌, ◌++◌, ◌∷◌, [], IfOk, OnOk, codes, flat_map};
ghost use Rattle.std.specs.List.{list_any};
ghost use Rattle.std.specs.Str.{chars};
ghost use Rattle.toml_walk.specs.Shown.{is_bare_byte, is_quoted_byte, is_bare, upper_digit, four_digits};
ghost use Rattle.toml_walk.specs.Shown.{numbered_escape, shown_char, quoted_text, spelled_key};

use std::alloc::{AllocError, Global};

fn is_bare_byte(b: u8) -> bool
    ensures { result ≡ is_bare_byte b }
{
    (b'a' <= b && b <= b'z')
        || (b'A' <= b && b <= b'Z')
        || (b'0' <= b && b <= b'9')
        || b == b'_'
        || b == b'-'
}

// Whether a byte is none of a bare key.
fn has_quoted(key: &[u8]) -> bool
    ensures { result ≡ list_any is_quoted_byte key.now }
{
    for b in key {
        if !is_bare_byte(*b) {
            return true;
        }
    }
    false
}

fn is_bare(key: &str) -> bool
    ensures { result ≡ is_bare key.now }
{
    !(key.is_empty() || has_quoted(key.as_bytes()))
}

fn upper_digit(d: u32) -> u8
    requires { d < 16 }
    ensures { result ≡ upper_digit d }
{
    if d < 10 { 48 + d as u8 } else { 55 + d as u8 }
}

fn push_four(n: u32, text: &mut Vec<u8>) -> Result<(), AllocError>
    ensures { OnOk result (text.new.items ≡ text.old.items ++ four_digits n) }
{
    let digits = [
        upper_digit(n / 4096 % 16),
        upper_digit(n / 256 % 16),
        upper_digit(n / 16 % 16),
        upper_digit(n % 16),
    ];
    text.extend_from_slice(&digits)
}

fn push_numbered(c: u32, text: &mut Vec<u8>) -> Result<(), AllocError>
    ensures { OnOk result (text.new.items ≡ text.old.items ++ numbered_escape c) }
{
    if c < 65536 {
        text.extend_from_slice(b"\\u")?;
        return push_four(c, text);
    }
    text.extend_from_slice(b"\\U")?;
    push_four(c / 65536, text)?;
    push_four(c, text)
}

fn push_printable(c: u32, text: &mut Vec<u8>) -> Result<(), AllocError>
    requires { c < 127 }
    ensures { OnOk result (text.new.items ≡ text.old.items ++ c ∷ []) }
{
    Ok(text.push(c as u8)?)
}

// A character of a basic string.
fn push_char(c: char, text: &mut Vec<u8>) -> Result<(), AllocError>
    ensures { OnOk result (text.new.items ≡ text.old.items ++ shown_char c) }
{
    match c {
        '"' => text.extend_from_slice(b"\\\""),
        '\\' => text.extend_from_slice(b"\\\\"),
        '\u{8}' => text.extend_from_slice(b"\\b"),
        '\t' => text.extend_from_slice(b"\\t"),
        '\n' => text.extend_from_slice(b"\\n"),
        '\u{c}' => text.extend_from_slice(b"\\f"),
        '\r' => text.extend_from_slice(b"\\r"),
        _ => {
            let n = c as u32;
            if 32 <= n && n <= 126 {
                push_printable(n, text)
            } else {
                push_numbered(n, text)
            }
        }
    }
}

// The characters of a basic string.
fn chars_of(alloc: Global, key: &str) -> Result<Vec<u8>, AllocError>
    ensures { IfOk result (λ text. text.items ≡ flat_map shown_char (chars key.now)) }
{
    let mut text = Vec::new(alloc);
    for c in key.chars() {
        push_char(c, &mut text)?;
    }
    Ok(text)
}

fn push_quoted(alloc: Global, key: &str, path: &mut Vec<u8>) -> Result<(), AllocError>
    ensures { OnOk result (path.new.items ≡ path.old.items ++ quoted_text (chars key.now)) }
{
    let text = chars_of(alloc, key)?;
    path.extend_from_slice(b"\"")?;
    path.extend_from_slice(&text)?;
    path.extend_from_slice(b"\"")
}

/// Pushes a key as TOML writes it in printable ASCII: a bare key as it is, and any other as a basic string (TOML 1.0).
pub(crate) fn push_shown(alloc: Global, key: &str, path: &mut Vec<u8>) -> Result<(), AllocError>
    ensures { OnOk result (path.new.items ≡ path.old.items ++ spelled_key key.now) }
{
    if is_bare(key) {
        path.extend_from_slice(key.as_bytes())
    } else {
        push_quoted(alloc, key, path)
    }
}
