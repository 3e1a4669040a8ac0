//! Attributes, one after the other in the body of a message: each a header, [`AttributeHeader`],
//! and its content, padded with zeros.

ghost use Rattle.std.specs.Prelude.{List, ◌≡◌, ◌+◌, ◌^◌, ◌<◌, ◌≤◌, ◌++◌, length, true, false, OnOk};
ghost use Rattle.std.specs.Prelude.{OnErr, IfNone, IfSome, IsOk};
ghost use Rattle.std.specs.Vec.{vec_len, vec_capacity};
ghost use Rattle.netlink_codec.specs.Numbers.{alignment, attribute_header_length, kind_limit};
ghost use Rattle.netlink_codec.specs.Numbers.{longest_content};
ghost use Rattle.netlink_codec.specs.Messages.{pad};
ghost use Rattle.netlink_codec.specs.Attributes.{Attribute, Holds, attribute_of, attribute_text};
ghost use Rattle.netlink_codec.specs.Attributes.{attributes, has_attribute, first_attribute};
ghost use Rattle.netlink_codec.specs.Attributes.{after_attribute, attribute_header_text};
ghost use Rattle.netlink_codec.specs.Attributes.{zero_padding};

use crate::attribute_header::{
    ATTRIBUTE_HEADER_LENGTH, AttributeHeader, put_attribute_header, read_attribute_header,
};
use crate::messages::{ALIGNMENT, append_parts, padded};
use std::alloc::AllocError;
use std::iter::FusedIterator;
use std::marker::Model;

/// The bits of a kind (`NLA_TYPE_MASK`). The two above them are flags.
const KIND_MASK: u16 = 0x3fff;

/// An attribute, which borrows its content.
#[derive(Clone, Copy, Debug, PartialEq, Eq)]
pub struct Attr<'a> {
    /// The low 14 bits of the kind.
    pub kind: u16,
    /// The content, without padding.
    pub body: &'a [u8],
}

/// The attributes of a message's body, in order. The walk ends where fewer than 4 bytes remain, or
/// the attribute's length is below 4 or above what remains; the rest is passed over. Nothing is
/// copied, and nothing allocated.
pub fn walk_attrs(body: &[u8]) -> Attrs<'_>
    ensures held { Holds body.now result }
    ensures only { (row : List Attribute) → Holds body.now row → result ≡ row }
    ensures walk { result ≡ attributes body.now }
{
    Attrs::new(body)
}

/// Appends an attribute to `out`: its length, which counts its header of 4 bytes and its content,
/// its kind, its content, and zeros up to a multiple of 4 bytes.
///
/// `AllocError` is out of memory, and then `out` has what it had. It doesn't come where `out` has
/// room for the attribute with its padding.
#[inline(always)]
pub fn put_attr(out: &mut Vec<u8>, kind: u16, body: &[u8]) -> Result<(), AllocError>
    requires kind { kind < kind_limit }
    requires content { length body.now ≤ longest_content }
    ensures ok { OnOk result (out.new.items
        ≡ out.old.items ++ attribute_text (record { kind = kind; content = body.now })) }
    ensures err { OnErr result (out.new.items ≡ out.old.items) }

    // Where there is room it succeeds, and room is never lost.
    ensures room { vec_len out.old + pad (attribute_header_length + length body.now)
        ≤ vec_capacity out.old → IsOk result }
    ensures capacity { vec_capacity out.old ≤ vec_capacity out.new }
{
    let header = attr_header(kind, body.len());
    append_parts(
        out,
        &header,
        body,
        &[0; ALIGNMENT][..attr_padding(body.len())],
    )
}

/// The header of an attribute of this kind, whose content has `content` bytes: the length of header
/// and content in 2 bytes, and the kind in 2, each with its lowest byte first.
pub fn attr_header(kind: u16, content: usize) -> [u8; ATTRIBUTE_HEADER_LENGTH]
    requires { content ≤ longest_content }
    ensures { result ≡ attribute_header_text kind (attribute_header_length + content) }
{
    put_attribute_header(AttributeHeader {
        length: (ATTRIBUTE_HEADER_LENGTH + content) as u16,
        kind,
    })
}

/// How many zeros follow a content of `content` bytes, so that the next attribute begins at a
/// multiple of 4.
pub fn attr_padding(content: usize) -> usize
    requires { content < 2 ^ 32 }
    ensures below { result < alignment }
    ensures value { result ≡ length (zero_padding (attribute_header_length + content)) }
{
    let length = ATTRIBUTE_HEADER_LENGTH + content;
    padded(length) - length
}

/// The attributes of a body, seen as the list of those that are still to come.
#[derive(Debug, Drop)]
pub struct Attrs<'a> {
    rest: &'a [u8],
}

impl<'a> Model for Attrs<'a> {
    ghost use Rattle.std.specs.Prelude.{List};
    ghost use Rattle.netlink_codec.specs.Attributes.{Attribute, attributes};

    ghost Value = { List Attribute };

    ghost view = { λ walk. attributes walk.rest.now };
}

impl<'a> Clone for Attrs<'a> {
    ghost use Rattle.std.specs.Prelude.{◌≡◌, ⊤};

    ghost is_clone = { λ walk copy. copy ≡ walk };

    ghost is_infallible = { λ _. ⊤ };

    fn clone(&self) -> Result<Self, AllocError> {
        Ok(Attrs { rest: self.rest })
    }
}

impl<'a> Attrs<'a> {
    ghost use Rattle.std.specs.Prelude.{◌≡◌};
    ghost use Rattle.netlink_codec.specs.Attributes.{attributes};

    pub(crate) fn new(body: &'a [u8]) -> Attrs<'a>
        ensures { result ≡ attributes body.now }
    {
        Attrs { rest: body }
    }
}

impl<'a> Iterator for Attrs<'a> {
    ghost use Rattle.std.specs.Iterator.{YieldsFirstBy, item_count};
    ghost use Rattle.netlink_codec.specs.Attributes.{attribute_of};

    type Item = Attr<'a>;

    ghost next_gives = { YieldsFirstBy attribute_of (λ rest. rest) };

    ghost remaining = { item_count (λ rest. rest) };

    fn next(&mut self) -> Option<Attr<'a>> {
        let (attr, rest) = read_attr(self.rest)?;
        self.rest = rest;
        Some(attr)
    }
}

impl<'a> FusedIterator for Attrs<'a> {}

/// The first attribute of the bytes, and the bytes after it and its padding.
fn read_attr(bytes: &[u8]) -> Option<(Attr<'_>, &[u8])>
    ensures there { IfSome result (λ step. has_attribute bytes.now ≡ true) }
    ensures attr { IfSome result (λ step. attribute_of step.0 ≡ first_attribute bytes.now) }
    ensures rest { IfSome result (λ step. step.1.now ≡ after_attribute bytes.now) }
    ensures none { IfNone result (has_attribute bytes.now ≡ false) }
{
    if bytes.len() < ATTRIBUTE_HEADER_LENGTH {
        return None;
    }
    let header = read_attribute_header(bytes);
    let length = header.length as usize;
    if length < ATTRIBUTE_HEADER_LENGTH || bytes.len() < length {
        return None;
    }
    let attr = Attr {
        kind: header.kind & KIND_MASK,
        body: &bytes[ATTRIBUTE_HEADER_LENGTH..length],
    };
    let used = padded(length).min(bytes.len());
    Some((attr, &bytes[used..]))
}
