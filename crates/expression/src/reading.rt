// How an expression is read: the line's words first, then the one expression that they are.
ghost use Rattle.std.specs.Prelude.{◌≡◌, Ok, MatchOption, MatchResult, ◌≢◌};
ghost use Rattle.text.specs.Lines.{Ends};
ghost use Rattle.expression.specs.Formulas.{Formula, term};
ghost use Rattle.expression.specs.Writing.{writing, Fits};
ghost use Rattle.expression.specs.Expressions.{formula, Accepted, Refused};
ghost use Rattle.expression.specs.inner.Drafts.{Drafts};
ghost use Rattle.expression.specs.inner.Parsing.{whole};

use crate::expression::Expression;
use crate::fault::Fault;
use crate::token::Token;
use crate::tokens::Tokens;
use text::{Words, is_clean, unended};

// The words of the line, if there are at most 15 and each is one of an expression.
fn tokens_of(line: &[u8]) -> Option<Tokens>
    ensures { Drafts line.now result }
{
    let mut tokens = Tokens::new();
    for word in Words::of(line) {
        tokens.push(Token::of(word)?)?;
    }
    Some(tokens)
}

// Whether the words are one whole expression: each word but the first is an operand of one before it,
// and no operand is missing.
fn is_whole(words: &[Token]) -> bool
    ensures { result ≡ whole 1 words.now }
{
    let mut wanted: usize = 1;
    for word in words {
        let Some(others) = wanted.checked_sub(1) else {
            return false;
        };
        wanted = others + word.operands();
    }
    wanted == 0
}

// The expression that the line writes.
fn parse(line: &[u8]) -> Option<Expression>
    ensures { MatchOption result ((f : Formula) → Fits f → line.now ≢ writing f) (λ e. line.now ≡ writing (formula e)) }
{
    let words = tokens_of(line)?;
    // Not by `then`: its closure would have to be told what was asked.
    if !is_whole(words.as_slice()) {
        return None;
    }
    Some(Expression { words })
}

impl Expression {
    // The expression of term 1 alone.
    pub fn blank() -> Expression
        ensures { formula result ≡ term 1 }
    {
        Expression {
            words: Tokens::one(Token::Term(1)),
        }
    }

    // Takes the expression that the text writes, which one line feed may end. A refused text changes nothing.
    pub fn read(&mut self, text: &[u8]) -> Result<(), Fault>
        ensures cases { MatchResult result (λ _. Accepted self.new text.now) (λ fault. Refused fault text.now × (self.new ≡ self.old)) }
        ensures back { (e : Expression) → Ends (writing (formula e)) text.now → (result ≡ Ok tt) × (self.new ≡ e) }
    {
        let line = unended(text);
        if !is_clean(line) {
            return Err(Fault::Bytes);
        }
        *self = parse(line).ok_or(Fault::Form)?;
        Ok(())
    }
}
