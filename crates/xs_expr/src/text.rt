ghost use Rattle.std.specs.Prelude.{◌≡◌, ◌++◌, [], codes, All, IfOk, OnOk, length, map};
ghost use Rattle.std.specs.Fmt.{signed_decimal};
ghost use Rattle.std.specs.List.{AllByRecursion};
ghost use Rattle.xs_model.specs.Bounds.{HasVariables};
ghost use Rattle.xs_expr.specs.Text.{name_of, joined_from, written};
ghost use Rattle.xs_model.specs.Names.{words};
ghost use Rattle.xs_model.specs.Sound.{IsSoundDecl};

use itoa::Buffer;
use std::alloc::Global;
use xf_num::NoMemory;
use xs_model::{Decls, Expr, Op, word};

/// The expression as text: the direct words of its variables, and no whitespace.
///
/// Asks that the declarations are as those of a sound instance, and that each variable of the expression is one of
/// them.
pub fn write_expr(alloc: Global, e: &Expr, decls: &Decls) -> Result<Vec<u8>, NoMemory>
    requires sound { AllByRecursion IsSoundDecl decls.now }
    requires variables { HasVariables (length (words decls.now)) e.now }
    ensures { IfOk result (λ text. text.items ≡ written (words decls.now) e.now) }
{
    let mut out = Vec::new(alloc);
    write_node(alloc, e, decls, &mut out)?;
    Ok(out)
}

#[cycle(write)]
fn write_node(alloc: Global, e: &Expr, decls: &Decls, out: &mut Vec<u8>) -> Result<(), NoMemory>
    requires sound { AllByRecursion IsSoundDecl decls.now }
    requires variables { HasVariables (length (words decls.now)) e.now }
    ensures { OnOk result (out.new.items ≡ out.old.items ++ written (words decls.now) e.now) }
{
    match e {
        Expr::Int(value) => write_int(*value, out)?,
        Expr::Var(variable) => {
            let word = word(alloc, decls, *variable)?;
            out.extend_from_slice(word.as_slice())?;
        }
        Expr::Node(op, items) => {
            write_head(*op, out)?;
            write_operands(alloc, items.as_slice(), decls, out)?;
            out.extend_from_slice(b")")?;
        }
    }
    Ok(())
}

#[cycle(write)]
fn write_operands(
    alloc: Global,
    items: &[Expr],
    decls: &Decls,
    out: &mut Vec<u8>,
) -> Result<(), NoMemory>
    requires sound { AllByRecursion IsSoundDecl decls.now }
    requires variables { All (HasVariables (length (words decls.now))) items.now }
    ensures { OnOk result (out.new.items ≡ out.old.items ++ joined_from [] (map (written (words decls.now)) items.now)) }
{
    let mut before: &[u8] = b"";
    for item in items {
        out.extend_from_slice(before)?;
        write_node(alloc, item, decls, out)?;
        before = b",";
    }
    Ok(())
}

/// Appends the name of an operator and an open parenthesis.
fn write_head(op: Op, out: &mut Vec<u8>) -> Result<(), NoMemory>
    ensures { OnOk result (out.new.items ≡ out.old.items ++ (name_of op ++ codes "(")) }
{
    out.extend_from_slice(name_of(op))?;
    out.extend_from_slice(b"(")?;
    Ok(())
}

fn write_int(value: i128, out: &mut Vec<u8>) -> Result<(), NoMemory>
    ensures { OnOk result (out.new.items ≡ out.old.items ++ signed_decimal value) }
{
    let mut buffer = Buffer::new();
    out.extend_from_slice(buffer.format(value).as_bytes())?;
    Ok(())
}

/// The name of an operator.
#[tactic(auto, unfolding(crate::specs::Text::name_of))]
pub(crate) fn name_of(op: Op) -> &'static [u8]
    ensures { result.now ≡ name_of op }
{
    match op {
        Op::Neg => b"neg",
        Op::Abs => b"abs",
        Op::Sqr => b"sqr",
        Op::Add => b"add",
        Op::Mul => b"mul",
        Op::Sub => b"sub",
        Op::Dist => b"dist",
        Op::Div => b"div",
        Op::Mod => b"mod",
        Op::Pow => b"pow",
        Op::Min => b"min",
        Op::Max => b"max",
        Op::Lt => b"lt",
        Op::Le => b"le",
        Op::Gt => b"gt",
        Op::Ge => b"ge",
        Op::Ne => b"ne",
        Op::Eq => b"eq",
        Op::Set => b"set",
        Op::In => b"in",
        Op::NotIn => b"notin",
        Op::Not => b"not",
        Op::And => b"and",
        Op::Or => b"or",
        Op::Xor => b"xor",
        Op::Iff => b"iff",
        Op::Imp => b"imp",
        Op::If => b"if",
    }
}
