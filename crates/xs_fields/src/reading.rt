use crate::condition::Condition;

/// What a part of a unit denotes, and the first condition that it misses. The value is what is denoted where none is
/// missed; else nothing is said of it.
#[derive(Debug, Drop)]
pub struct Reading<T> {
    pub value: T,
    pub missed: Option<Condition>,
}
