// An expression: 1 to 15 words in prefix order.
//
// `and`, `or` and `implies` stand before two operands and `not` before one; a number is a term.
ghost use Rattle.std.specs.Prelude.{◌≡◌, true};
ghost use Rattle.expression.specs.inner.Formed.{formed};

use crate::tokens::Tokens;

#[derive(Clone, Copy)]
pub struct Expression {
    pub(crate) words: Tokens,
    ghost ok: { formed words ≡ true },
}
