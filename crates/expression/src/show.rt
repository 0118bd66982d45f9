// How an expression is written: its words in prefix order, with single spaces between them.
ghost use Rattle.std.specs.Prelude.{◌≡◌, map, Some};
ghost use Rattle.std.specs.Fmt.{WritesOnOk};
ghost use Rattle.text.specs.Words.{joined};
ghost use Rattle.expression.specs.Writing.{written, spelled, writing, Fits};
ghost use Rattle.expression.specs.Expressions.{formula};

use crate::expression::Expression;
use crate::token::Token;
use std::fmt;

impl Expression {
    // The words of the expression.
    pub fn tokens(&self) -> &[Token]
        ensures words { result.now ≡ written (formula self.now) }
        ensures fits { Fits (formula self.now) }
    {
        self.words.as_slice()
    }
}

impl fmt::Display for Token {
    ghost output = { λ t. Some (spelled t) };

    fn fmt<W: fmt::Write>(&self, f: &mut fmt::Formatter<W>) -> fmt::Result {
        match self {
            Token::And => f.write_str("and"),
            Token::Or => f.write_str("or"),
            Token::Implies => f.write_str("implies"),
            Token::Not => f.write_str("not"),
            Token::Term(term) => write!(f, "{term}"),
        }
    }
}

// Writes the words with single spaces between them.
fn show<W: fmt::Write>(words: &[Token], f: &mut fmt::Formatter<W>) -> fmt::Result
    ensures { WritesOnOk W.write_str_gives f.old result (joined (map spelled words.now)) f.new }
{
    let Some((first, others)) = words.split_first() else {
        return Ok(());
    };
    write!(f, "{first}")?;
    for word in others {
        write!(f, " {word}")?;
    }
    Ok(())
}

impl fmt::Display for Expression {
    ghost output = { λ e. Some (writing (formula e)) };

    fn fmt<W: fmt::Write>(&self, f: &mut fmt::Formatter<W>) -> fmt::Result {
        show(self.tokens(), f)
    }
}
