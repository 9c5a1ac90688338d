//! What stands in a reply, part by part.

ghost use Rattle.std.specs.Prelude.{◌≡◌, ◌<◌, ℕ, List, decimal, map};
ghost use Rattle.reply_text.specs.Fields.{field_of};
ghost use Rattle.reply_text.specs.Parts.{joined_text, enclosed_text, list_text, hex_digit, escaped, quoted, file_text, pair_text, part_text, field_text, object_text};

use crate::out::Out;
use itoa::Buffer;
use media_base::{Failed, FileNo, TagText};

/// What has a text of its own.
pub trait Spelled {
    ghost text: { Self → List ℕ };

    fn put_in<W, O: Out<W>>(&self, out: &mut O, sink: &mut W) -> Result<(), Failed>
        ensures { O.Puts out.old sink.old out.new sink.new (text self.now) result };
}

fn put_joined<T: Spelled, W, O: Out<W>>(
    items: &[T],
    separator: &[u8],
    out: &mut O,
    sink: &mut W,
) -> Result<(), Failed>
    ensures { O.Puts out.old sink.old out.new sink.new (joined_text separator.now T.text items.now) result }
{
    let mut before: &[u8] = b"";
    for item in items {
        out.put(before, sink)?;
        item.put_in(out, sink)?;
        before = separator;
    }
    Ok(())
}

fn put_enclosed<T: Spelled, W, O: Out<W>>(
    opening: &[u8],
    items: &[T],
    separator: &[u8],
    closing: &[u8],
    out: &mut O,
    sink: &mut W,
) -> Result<(), Failed>
    ensures { O.Puts out.old sink.old out.new sink.new
        (enclosed_text opening.now separator.now T.text closing.now items.now) result }
{
    out.put(opening, sink)?;
    put_joined(items, separator, out, sink)?;
    out.put(closing, sink)
}

fn put_list<T: Spelled, W, O: Out<W>>(items: &[T], out: &mut O, sink: &mut W) -> Result<(), Failed>
    ensures { O.Puts out.old sink.old out.new sink.new (list_text T.text items.now) result }
{
    put_enclosed(b"[", items, b",", b"]", out, sink)
}

impl Spelled for u64 {
    ghost text = { decimal };

    fn put_in<W, O: Out<W>>(&self, out: &mut O, sink: &mut W) -> Result<(), Failed> {
        let mut digits = Buffer::new();
        out.put(digits.format(*self).as_bytes(), sink)
    }
}

impl Spelled for FileNo {
    ghost text = { file_text };

    fn put_in<W, O: Out<W>>(&self, out: &mut O, sink: &mut W) -> Result<(), Failed> {
        let mut digits = Buffer::new();
        out.put(digits.format(self.0).as_bytes(), sink)
    }
}

/// Two files and their distance.
pub type Pair = (FileNo, FileNo, u8);

impl Spelled for Pair {
    ghost text = { pair_text };

    fn put_in<W, O: Out<W>>(&self, out: &mut O, sink: &mut W) -> Result<(), Failed> {
        let (j, k, distance) = *self;
        let numbers = [u64::from(j.0), u64::from(k.0), u64::from(distance)];
        put_list(&numbers, out, sink)
    }
}

fn hex_digit(n: u8) -> u8
    requires { n < 16 }
    ensures { result ≡ hex_digit n }
{
    if n < 10 { b'0' + n } else { b'a' - 10 + n }
}

/// A byte of a text in quotes.
impl Spelled for u8 {
    ghost text = { escaped };

    fn put_in<W, O: Out<W>>(&self, out: &mut O, sink: &mut W) -> Result<(), Failed> {
        match *self {
            b'"' => out.put(b"\\\"", sink),
            b'\\' => out.put(b"\\\\", sink),
            0x08 => out.put(b"\\b", sink),
            b'\t' => out.put(b"\\t", sink),
            b'\n' => out.put(b"\\n", sink),
            0x0c => out.put(b"\\f", sink),
            b'\r' => out.put(b"\\r", sink),
            byte if byte < 0x20 => {
                let (high, low) = (hex_digit(byte / 16), hex_digit(byte % 16));
                out.put(&[b'\\', b'u', b'0', b'0', high, low], sink)
            }
            byte => out.put(&[byte], sink),
        }
    }
}

impl Spelled for &str {
    ghost text = { λ text. quoted text.now };

    fn put_in<W, O: Out<W>>(&self, out: &mut O, sink: &mut W) -> Result<(), Failed> {
        put_enclosed(b"\"", self.as_bytes(), b"", b"\"", out, sink)
    }
}

impl Spelled for TagText {
    ghost text = { quoted };

    fn put_in<W, O: Out<W>>(&self, out: &mut O, sink: &mut W) -> Result<(), Failed> {
        self.as_str().put_in(out, sink)
    }
}

/// What stands behind a field's name.
#[derive(Clone, Copy)]
pub enum Part<'a> {
    Number(u64),
    Flag(bool),
    Text(&'a str),
    Tags(&'a [TagText]),
    Files(&'a [FileNo]),
    Pairs(&'a [Pair]),
}

impl Spelled for Part<'_> {
    ghost use Rattle.reply_text.specs.Fields.{part_of};

    ghost text = { λ part. part_text (part_of part) };

    fn put_in<W, O: Out<W>>(&self, out: &mut O, sink: &mut W) -> Result<(), Failed> {
        match *self {
            Part::Number(n) => n.put_in(out, sink),
            Part::Flag(true) => out.put(b"true", sink),
            Part::Flag(false) => out.put(b"false", sink),
            Part::Text(text) => text.put_in(out, sink),
            Part::Tags(tags) => put_list(tags, out, sink),
            Part::Files(files) => put_list(files, out, sink),
            Part::Pairs(pairs) => put_list(pairs, out, sink),
        }
    }
}

/// A name, which wants no escape, and what stands behind it.
pub type Field<'a> = (&'a str, Part<'a>);

impl Spelled for Field<'_> {
    ghost use Rattle.reply_text.specs.Fields.{field_of};

    ghost text = { λ field. field_text (field_of field) };

    fn put_in<W, O: Out<W>>(&self, out: &mut O, sink: &mut W) -> Result<(), Failed> {
        let (name, part) = self;
        out.put(b"\"", sink)?;
        out.put(name.as_bytes(), sink)?;
        out.put(b"\":", sink)?;
        part.put_in(out, sink)
    }
}

/// The object of these fields, in their order.
pub fn put_object<W, O: Out<W>>(
    fields: &[Field<'_>],
    out: &mut O,
    sink: &mut W,
) -> Result<(), Failed>
    ensures { O.Puts out.old sink.old out.new sink.new (object_text (map field_of fields.now)) result }
{
    put_enclosed(b"{", fields, b",", b"}", out, sink)
}
