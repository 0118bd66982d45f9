// The value of an expression where some marks are shown: term i holds where mark i is not among them.
ghost use Rattle.std.specs.Prelude.{◌≡◌, ℕ, ◌<◌, false, ◌≤◌, length, Decides, slice_index_or};
ghost use Rattle.std.specs.Slice.Iter.{iter_rest};
ghost use Rattle.watch.specs.Marks.{Has, has};
ghost use Rattle.expression.specs.Formulas.{TrueOf};
ghost use Rattle.expression.specs.Values.{eval};
ghost use Rattle.expression.specs.Expressions.{formula};
ghost use Rattle.expression.specs.inner.Parsing.{first, others, parsed};

use crate::expression::Expression;
use crate::token::Token;
use std::{array, slice};
use watch::{MARK_SETS, MarkSet};

// Whether the mark of the term is in the set. Beyond a byte there are no marks.
fn is_shown(term: u32, shown: MarkSet) -> bool
    ensures { result ≡ has term shown.bits }
{
    u8::try_from(term).is_ok_and(|mark| shown.has(mark))
}

// The value of the expression with which the words begin. Its words are taken off.
fn value_of(words: &mut slice::Iter<'_, Token>, shown: MarkSet) -> bool
    ensures value { result ≡ eval (first (parsed (iter_rest words.old))) shown.bits }
    ensures rest { parsed (iter_rest words.new) ≡ others (parsed (iter_rest words.old)) }
    ensures bound { length (iter_rest words.new) ≤ length (iter_rest words.old) }
{
    // No whole expression lacks an operand; one that is missing counts as a term that holds.
    let Some(word) = words.next() else {
        return true;
    };
    // Both operands are read, whatever the first one says, so the operators are `&` and `|`.
    match *word {
        Token::Term(term) => !is_shown(term, shown),
        Token::Not => !value_of(words, shown),
        Token::And => value_of(words, shown) & value_of(words, shown),
        Token::Or => value_of(words, shown) | value_of(words, shown),
        Token::Implies => !value_of(words, shown) | value_of(words, shown),
    }
}

impl Expression {
    // The value where exactly these marks are shown.
    pub fn value(&self, shown: MarkSet) -> bool
        ensures value { result ≡ eval (formula self.now) shown.bits }
        ensures truth { Decides result (TrueOf (λ i. Has i shown.bits → ⊥) (formula self.now)) }
    {
        value_of(&mut self.tokens().iter(), shown)
    }

    // The value at each set of marks, the set as a number being its place.
    pub fn truths(&self) -> [bool; MARK_SETS]
        ensures size { length result ≡ 256 }
        ensures values { (s : ℕ) → s < 256 → slice_index_or result s false ≡ eval (formula self.now) s }
    {
        // There are 256 sets, so the number of one fits.
        array::from_fn(|set| self.value(MarkSet { bits: set as u8 }))
    }
}
