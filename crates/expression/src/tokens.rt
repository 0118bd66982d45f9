// At most 15 words, kept without the heap. The library's `ArrayVec` is not `Copy`, and an expression is.
ghost use Rattle.std.specs.Prelude.{◌≡◌, ◌<◌, [], ◌∷◌, ◌++◌, length, MatchOption};
ghost use Rattle.expression.specs.Writing.{most_words};

use crate::token::Token;
use std::marker::Model;

const MOST_WORDS: usize = 15;

// What stands behind the last word, so that equal lists are equal values.
const BLANK: Token = Token::Term(0);

// Seen as the list of its words.
#[derive(Clone, Copy)]
pub(crate) struct Tokens {
    cells: [Token; MOST_WORDS],
    len: usize,
}

impl Model for Tokens {
    ghost use Rattle.std.specs.Prelude.{List};
    ghost use Rattle.expression.specs.declared.token.Token.{Token};

    ghost Value = { List Token };

    ghost use Rattle.expression.specs.inner.Padding.{front, IsPadded, padded, padded_front};

    ghost view = { front };

    ghost invariant = { IsPadded };

    ghost inverse = { padded };

    ghost inverse_ok = { padded_front };
}

impl Tokens {
    pub(crate) fn new() -> Tokens
        ensures { result ≡ [] }
    {
        Tokens {
            cells: [BLANK; MOST_WORDS],
            len: 0,
        }
    }

    pub(crate) fn one(token: Token) -> Tokens
        ensures { result ≡ token ∷ [] }
    {
        let mut cells = [BLANK; MOST_WORDS];
        cells[0] = token;
        Tokens { cells, len: 1 }
    }

    // One word more, if there is room for it.
    pub(crate) fn push(&mut self, token: Token) -> Option<()>
        ensures { MatchOption result (length self.old ≡ most_words) (λ _. (length self.old < most_words) × (self.new ≡ self.old ++ token ∷ [])) }
    {
        if self.len == MOST_WORDS {
            return None;
        }
        self.cells[self.len] = token;
        self.len += 1;
        Some(())
    }

    pub(crate) fn as_slice(&self) -> &[Token]
        ensures { result.now ≡ self.now }
    {
        &self.cells[..self.len]
    }
}
