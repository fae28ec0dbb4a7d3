// Words and signs that stand for values, and their places.
// Each function takes one of a few.

ghost use Rattle.std.specs.Prelude.{◌≡◌, ◌<◌, length, IfOk};
ghost use Rattle.dpl_grammar.specs.Classes.{keyword};
ghost use Rattle.dpl_grammar.specs.Reader.{means_at};
ghost use Rattle.dpl_grammar.specs.Gives.{Gives};
ghost use Rattle.dpl_spelling.specs.Declarations.{scalar_kind as scalar_kind_rule, create_word as create_word_rule};
ghost use Rattle.dpl_spelling.specs.Statements.{write_word as write_word_rule, reduce_operator as reduce_operator_rule};
ghost use Rattle.dpl_spelling.specs.Reading.{at};

use crate::token::{Parsed, Tokens, is_keyword, is_sign, keyword, means};
use dpl_syntax::{Keyword, Place, Sign, Token};
use dpl_tree::{CreateWord, Op, ScalarKind};

/// A reserved word that stands for a value: its place with the value, and the tokens after it.
pub fn word_means<T: Copy>(wanted: Keyword, value: T, tokens: Tokens<'_>) -> Parsed<'_, (Place, T)>
    ensures gives { Gives (λ x. (x.0, x.1.now)) result (means_at (keyword wanted) value tokens.now) }
    ensures shorter { IfOk result (λ x. length x.1.now < length tokens.now) }
{
    let (next, rest) = keyword(wanted, tokens)?;
    Ok(((next.at, value), rest))
}

/// "int" | "bool"
pub fn scalar_kind(tokens: Tokens<'_>) -> Parsed<'_, (Place, ScalarKind)>
    ensures gives { Gives (λ x. (x.0, x.1.now)) result (at scalar_kind_rule 0 tokens.now) }
    ensures shorter { IfOk result (λ x. length x.1.now < length tokens.now) }
{
    if is_keyword(tokens, Keyword::Int) {
        word_means(Keyword::Int, ScalarKind::Int, tokens)
    } else {
        word_means(Keyword::Bool, ScalarKind::Bool, tokens)
    }
}

/// "blockDist" | "cyclicDist"
pub fn create_word(tokens: Tokens<'_>) -> Parsed<'_, (Place, CreateWord)>
    ensures gives { Gives (λ x. (x.0, x.1.now)) result (at create_word_rule 0 tokens.now) }
    ensures shorter { IfOk result (λ x. length x.1.now < length tokens.now) }
{
    if is_keyword(tokens, Keyword::BlockDist) {
        word_means(Keyword::BlockDist, CreateWord::Block, tokens)
    } else {
        word_means(Keyword::CyclicDist, CreateWord::Cyclic, tokens)
    }
}

/// "write" | "writeln": whether it ends the line
pub fn write_word(tokens: Tokens<'_>) -> Parsed<'_, (Place, bool)>
    ensures gives { Gives (λ x. (x.0, x.1.now)) result (at write_word_rule 0 tokens.now) }
    ensures shorter { IfOk result (λ x. length x.1.now < length tokens.now) }
{
    if is_keyword(tokens, Keyword::Write) {
        word_means(Keyword::Write, false, tokens)
    } else {
        word_means(Keyword::Writeln, true, tokens)
    }
}

/// redop = "+" | "*" | "&&" | "||" | "&" | "|" | "^" | "min" | "max"
pub fn reduce_operator(tokens: Tokens<'_>) -> Parsed<'_, (Place, Op)>
    ensures gives { Gives (λ x. (x.0, x.1.now)) result (at reduce_operator_rule 0 tokens.now) }
    ensures shorter { IfOk result (λ x. length x.1.now < length tokens.now) }
{
    if is_sign(tokens, Sign::Plus) {
        means(Sign::Plus, Op::Sum, tokens)
    } else if is_sign(tokens, Sign::Star) {
        means(Sign::Star, Op::Product, tokens)
    } else if is_sign(tokens, Sign::AndAnd) {
        means(Sign::AndAnd, Op::AllOf, tokens)
    } else if is_sign(tokens, Sign::OrOr) {
        means(Sign::OrOr, Op::AnyOf, tokens)
    } else if is_sign(tokens, Sign::And) {
        means(Sign::And, Op::BitAnd, tokens)
    } else if is_sign(tokens, Sign::Or) {
        means(Sign::Or, Op::BitOr, tokens)
    } else if is_sign(tokens, Sign::Caret) {
        means(Sign::Caret, Op::BitXor, tokens)
    } else if is_keyword(tokens, Keyword::Min) {
        word_means(Keyword::Min, Op::Least, tokens)
    } else {
        word_means(Keyword::Max, Op::Greatest, tokens)
    }
}
