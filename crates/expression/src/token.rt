// The words of an expression: four operators, and the numbers of terms.
ghost use Rattle.std.specs.Prelude.{◌≡◌, true, MatchOption, ◌≢◌};
ghost use Rattle.expression.specs.Writing.{spelled, in_range};
ghost use Rattle.expression.specs.inner.Parsing.{operands};

use text::number;

#[derive(Clone, Copy, PartialEq, Eq, Debug)]
pub enum Token {
    And,
    Or,
    Implies,
    Not,
    Term(u32),
}

impl Token {
    // The token that the word spells.
    pub(crate) fn of(word: &[u8]) -> Option<Token>
        ensures { MatchOption result ((t : Token) → in_range t ≡ true → word.now ≢ spelled t) (λ t. (in_range t ≡ true) × (word.now ≡ spelled t)) }
    {
        match word {
            b"and" => Some(Token::And),
            b"or" => Some(Token::Or),
            b"implies" => Some(Token::Implies),
            b"not" => Some(Token::Not),
            _ => number(word).map(Token::Term),
        }
    }

    // How many operands stand behind the token.
    pub(crate) fn operands(self) -> usize
        ensures { result ≡ operands self }
    {
        match self {
            Token::And | Token::Or | Token::Implies => 2,
            Token::Not => 1,
            Token::Term(_) => 0,
        }
    }
}
