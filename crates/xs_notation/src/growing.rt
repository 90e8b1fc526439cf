ghost use Rattle.std.specs.Prelude.{◌≡◌, IfOk};
ghost use Rattle.xs_expr.specs.Operators.{by_name};
ghost use Rattle.xs_notation.specs.Parse.{begin, closed, finished, opened, parted, placed, step, worded};

use crate::raw::Raw;
use std::alloc::Global;
use xf_num::{NoMemory, Row, Stack};
use xs_expr::operator;
use xs_model::Op;

/// A call whose parenthesis is open, and its operands so far.
#[derive(Debug, Drop)]
pub struct Frame {
    pub op: Op,
    pub before: Row<Raw>,
}

/// An expression that is being read: the open calls, and the operand behind which a mark is awaited, if there is one.
#[derive(Debug, Drop)]
pub struct Growing {
    pub frames: Stack<Frame>,
    pub current: Option<Raw>,
}

impl Growing {
    /// Nothing is read yet.
    pub fn new(alloc: Global) -> Growing
        ensures { result ≡ begin }
    {
        Growing {
            frames: Stack::new(alloc),
            current: None,
        }
    }

    /// The expression that was read, where no call is open.
    pub fn finish(self) -> Option<Raw>
        ensures { result ≡ finished self.frames self.current }
    {
        let Growing { frames, current } = self;
        if frames.len() == 0 { current } else { None }
    }
}

/// The operator with that name.
fn named(name: &[u8]) -> Option<Op>
    ensures { result ≡ by_name name.now }
{
    operator(name)
}

/// The word before a `(` opens a call, where it is the name of an operator.
fn opened(alloc: Global, state: Growing) -> Result<Option<Growing>, NoMemory>
    ensures { IfOk result (λ r. r ≡ opened state.frames state.current) }
{
    let Growing {
        mut frames,
        current,
    } = state;
    match current {
        Some(Raw::Word(word)) => match named(word.as_slice()) {
            Some(op) => {
                let before = Row::new(alloc);
                frames.push(Frame { op, before })?;
                Ok(Some(Growing {
                    frames,
                    current: None,
                }))
            }
            None => Ok(None),
        },
        _ => Ok(None),
    }
}

/// A `,` ends an operand that is not the last.
fn parted(state: Growing) -> Result<Option<Growing>, NoMemory>
    ensures { IfOk result (λ r. r ≡ parted state.frames state.current) }
{
    let Growing {
        mut frames,
        current,
    } = state;
    match (frames.pop(), current) {
        (Some(frame), Some(operand)) => {
            let Frame { op, mut before } = frame;
            before.push(operand)?;
            frames.push(Frame { op, before })?;
            Ok(Some(Growing {
                frames,
                current: None,
            }))
        }
        _ => Ok(None),
    }
}

/// A `)` ends the last operand, where there is one, and the call.
fn closed(state: Growing) -> Result<Option<Growing>, NoMemory>
    ensures { IfOk result (λ r. r ≡ closed state.frames state.current) }
{
    let Growing {
        mut frames,
        current,
    } = state;
    match frames.pop() {
        Some(frame) => {
            let Frame { op, mut before } = frame;
            match current {
                Some(operand) => before.push(operand)?,
                None => {
                    if !before.is_empty() {
                        return Ok(None);
                    }
                }
            }
            Ok(Some(Growing {
                frames,
                current: Some(Raw::Call(op, before)),
            }))
        }
        None => Ok(None),
    }
}

/// A word, where an operand is awaited.
fn placed(alloc: Global, word: &[u8], state: Growing) -> Result<Option<Growing>, NoMemory>
    ensures { IfOk result (λ r. r ≡ placed word.now state.frames state.current) }
{
    let Growing { frames, current } = state;
    match current {
        Some(_) => Ok(None),
        None => {
            let mut text = Row::new(alloc);
            text.extend(word)?;
            Ok(Some(Growing {
                frames,
                current: Some(Raw::Word(text)),
            }))
        }
    }
}

/// A word that is not empty.
fn worded(alloc: Global, word: &[u8], state: Growing) -> Result<Option<Growing>, NoMemory>
    ensures { IfOk result (λ r. r ≡ worded word.now state.frames state.current) }
{
    if word.is_empty() {
        return Ok(None);
    }
    placed(alloc, word, state)
}

/// What is read with one token more; None where the token does not fit.
pub fn step(alloc: Global, token: &[u8], state: Growing) -> Result<Option<Growing>, NoMemory>
    ensures { IfOk result (λ r. r ≡ step token.now state) }
{
    if token == b"(".as_slice() {
        opened(alloc, state)
    } else if token == b")".as_slice() {
        closed(state)
    } else if token == b",".as_slice() {
        parted(state)
    } else {
        worded(alloc, token, state)
    }
}
