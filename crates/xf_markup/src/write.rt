ghost use Rattle.std.specs.Prelude.{◌≡◌, ◌++◌, [], map, true, IfOk, OnOk};
ghost use Rattle.std.specs.List.{list_all};
ghost use Rattle.xf_markup.specs.Depth.{depth};
ghost use Rattle.xf_markup.specs.Reading.{Tree};
ghost use Rattle.xf_markup.specs.Written.{is_other, quote_of, written_attrs, joined_bytes, written, written_piece, is_spelt, unplaced};
ghost use Rattle.xf_markup.specs.declared.tree.Node.{Node};

use crate::tree::{Attr, Node, Piece};
use std::alloc::Global;
use xf_num::NoMemory;

// Appends the bytes.
fn put(out: &mut Vec<u8>, bytes: &[u8]) -> Result<(), NoMemory>
    ensures { OnOk result (out.new.items ≡ out.old.items ++ bytes.now) }
{
    out.extend_from_slice(bytes)?;
    Ok(())
}

// Whether the value has no `"`.
fn is_plain(value: &[u8]) -> bool
    ensures { result ≡ list_all (is_other 34) value.now }
{
    value.iter().all(|byte| *byte != b'"')
}

// The quote that the value stands in.
fn quote_of(value: &[u8]) -> u8
    ensures { result ≡ quote_of value.now }
{
    if is_plain(value) { b'"' } else { b'\'' }
}

fn put_attrs(attrs: &[Attr], out: &mut Vec<u8>) -> Result<(), NoMemory>
    ensures { OnOk result (out.new.items ≡ out.old.items ++ written_attrs attrs.now) }
{
    for attr in attrs {
        let value = attr.value.as_slice();
        let quote = [quote_of(value)];
        put(out, b" ")?;
        put(out, attr.name.as_slice())?;
        put(out, b"=")?;
        put(out, &quote)?;
        put(out, value)?;
        put(out, &quote)?;
    }
    Ok(())
}

#[cycle(write)]
fn put_pieces(pieces: &[Piece], out: &mut Vec<u8>) -> Result<(), NoMemory>
    ensures { OnOk result (out.new.items ≡ out.old.items ++ joined_bytes (map written_piece pieces.now)) }
{
    for piece in pieces {
        match piece {
            Piece::Words(text) => put(out, text.as_slice())?,
            Piece::Inner(node) => put_node(node, out)?,
        }
    }
    Ok(())
}

#[cycle(write)]
fn put_node(node: &Node, out: &mut Vec<u8>) -> Result<(), NoMemory>
    ensures { OnOk result (out.new.items ≡ out.old.items ++ written node.now) }
{
    put(out, b"<")?;
    put(out, node.name.as_slice())?;
    put_attrs(node.attrs.as_slice(), out)?;
    put(out, b">")?;
    put_pieces(node.pieces.as_slice(), out)?;
    put(out, b"</")?;
    put(out, node.name.as_slice())?;
    put(out, b">")?;
    Ok(())
}

/// The bytes of the tree: for each element an open tag, what it holds, and an end tag.
///
/// It asks that each name, value and text is spelt as it must be, that no element has two attributes of one name, and
/// that no text is empty or stands beside another. What it writes has the same tree but for places, with as many
/// levels. The error is want of memory.
pub fn write_tree(alloc: Global, node: &Node) -> Result<Vec<u8>, NoMemory>
    requires { is_spelt node.now ≡ true }
    ensures bytes { IfOk result (λ text. text.items ≡ written node.now) }
    ensures tree { IfOk result (λ text. (n : Node) × Tree n text.items × (unplaced n ≡ unplaced node.now) × (depth n ≡ depth node.now)) }
{
    let mut out = Vec::new(alloc);
    put_node(node, &mut out)?;
    Ok(out)
}
