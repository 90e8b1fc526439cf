ghost use Rattle.xs_notation.specs.Law.{OneNotation, WrittenAgain};

/// The law of the notation: the tokens from which an expression is read are those that it is written with, and from
/// these it is read again.
pub fn one_notation()
    ensures { OneNotation }
{}

/// The law of what `write_expr` of `xs_expr` writes: the text of an expression is read again as that expression, with
/// every condition met that is asked of it but the limit on its depth.
///
/// The expression is well formed, no set, over variables of sound declarations of different names, and its integers
/// are at most 2^126 - 1; the declarations of an accepted instance are such. Where the text keeps the limit on its depth
/// too, it is answered with the expression.
pub fn written_again()
    ensures { WrittenAgain }
{}
