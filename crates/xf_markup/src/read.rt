ghost use Rattle.std.specs.Prelude.{◌≡◌, ◌≤◌, ℕ, List, length, drop};
ghost use Rattle.xf_markup.specs.Reading.{Answers, Tree, ShallowTree, IsUnread, IsTooDeep, IsTree, IsFaultOf};
ghost use Rattle.xf_text.specs.declared.fault.Kind.TheVariants.{Syntax, Depth};
ghost use Rattle.xf_markup.specs.declared.tree.Node.{Node};

use crate::cut::front;
use crate::fault::syntax_at;
use crate::growing::Growing;
use crate::head::head;
use crate::tree::Node;
use std::alloc::Global;
use xf_text::Stop;

// The bytes from an offset on.
fn rest_of(text: &[u8], at: usize) -> &[u8]
    requires { at ≤ length text.now }
    ensures { result.now ≡ drop at text.now }
{
    &text[at..]
}

/// The tree of the text.
///
/// F2 (`Syntax`) exactly where a token that is none or does not fit, or the end of the text, comes before the first
/// element is closed, or another token than a comment or whitespace after it: its place is the first byte of that
/// token, or the length of the text. F7 (`Depth`) exactly where no such token comes before a tag that opens level
/// 201: its place is the `<` of that tag. `Memory` where memory is wanting.
pub fn read_tree(alloc: Global, text: &[u8]) -> Result<Node, Stop>
    ensures answers { Answers result text.now }
    ensures tree { (n : Node) → ShallowTree n text.now → IsTree n result }
    ensures unread { (p : ℕ) → IsUnread p text.now → IsFaultOf Syntax p result }
    ensures deep { (p : ℕ) → IsTooDeep p text.now → IsFaultOf Depth p result }
{
    scan(alloc, text)
}

// Takes one token after the other.
fn scan(alloc: Global, text: &[u8]) -> Result<Node, Stop>
    ensures { Answers result text.now }
{
    let mut growing = Growing::new(alloc);
    let mut at = head(text);
    while at < text.len() {
        let rest = rest_of(text, at);
        let found = front(alloc, rest)?;
        match found {
            Some(cut) => {
                let size = cut.size();
                match growing.take(alloc, rest, cut, at as u64) {
                    Ok(()) => {}
                    Err(stop) => return Err(stop),
                }
                at += size;
            }
            None => return Err(syntax_at(at as u64)),
        }
    }
    growing.finish(text.len() as u64)
}

/// Does nothing: its clauses are the laws of reading. A text has at most one tree and at most one place of each
/// fault, and no two of these at once.
pub fn one_outcome()
    ensures tree { (text : List ℕ) (n m : Node) → Tree n text → Tree m text → n ≡ m }
    ensures unread { (text : List ℕ) (p q : ℕ) → IsUnread p text → IsUnread q text → p ≡ q }
    ensures deep { (text : List ℕ) (p q : ℕ) → IsTooDeep p text → IsTooDeep q text → p ≡ q }
    ensures tree_or_unread { (text : List ℕ) (n : Node) (p : ℕ) → Tree n text → IsUnread p text → ⊥ }
    ensures tree_or_deep { (text : List ℕ) (n : Node) (p : ℕ) → ShallowTree n text → IsTooDeep p text → ⊥ }
    ensures unread_or_deep { (text : List ℕ) (p q : ℕ) → IsUnread q text → IsTooDeep p text → ⊥ }
{}
