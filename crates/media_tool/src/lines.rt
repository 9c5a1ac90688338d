ghost use Rattle.std.specs.Prelude.{◌≡◌, ◌++◌, IfNone, IfSome};
ghost use Rattle.media_tool.specs.Lines.{HasNoFeed, with_feed};

use memchr::memchr;

/// The first line, without the line feed that ends it, and the bytes behind that.
pub fn split_line(bytes: &[u8]) -> Option<(&[u8], &[u8])>
    ensures none { IfNone result (HasNoFeed bytes.now) }
    ensures line { IfSome result (λ parts. HasNoFeed parts.0.now) }
    ensures whole { IfSome result (λ parts. bytes.now ≡ with_feed parts.0.now ++ parts.1.now) }
{
    match memchr(b'\n', bytes) {
        None => None,
        Some(at) => {
            let (line, ended) = bytes.split_at(at);
            let (_, rest) = ended.split_at(1);
            Some((line, rest))
        }
    }
}
