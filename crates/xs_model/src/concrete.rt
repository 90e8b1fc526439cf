use xf_num::{Row, Text};

/// A name and its value: an attribute.
#[derive(Debug, Drop)]
pub struct Pair {
    pub name: Text,
    pub value: Text,
}

/// Attributes in order.
pub type Pairs = Row<Pair>;

/// A child of a constraint: its name, its attributes and its text. The constraint's own text is a part without a name.
#[derive(Debug, Drop)]
pub struct Part {
    pub name: Text,
    pub attrs: Pairs,
    pub text: Text,
}

/// Parts in order.
pub type Parts = Row<Part>;

/// One constraint after expansion.
#[derive(Debug, Drop)]
pub struct Concrete {
    pub name: Text,
    pub attrs: Pairs,
    pub parts: Parts,
    pub place: u64,
}

/// Constraints after expansion, in order.
pub type Concretes = Row<Concrete>;
