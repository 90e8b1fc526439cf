use xf_num::{Row, Text};

/// An attribute of an element: its name, and its value as it stands between the quotes.
#[derive(Debug, Drop)]
pub struct Attr {
    pub name: Text,
    pub value: Text,
}

/// An element: its name, its attributes in their order, what it holds, and the offset in bytes of its `<`.
#[cycle(tree)]
#[derive(Debug, Drop)]
pub struct Node {
    pub name: Text,
    pub attrs: Row<Attr>,
    pub pieces: Row<Piece>,
    pub place: u64,
}

/// What an element holds: the whole text between two tags, which is never empty, or an element.
#[cycle(tree)]
#[derive(Debug, Drop)]
pub enum Piece {
    Words(Text),
    Inner(Node),
}
