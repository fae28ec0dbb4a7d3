// The levels of operators between operands, from `+` and `-` to `||`.
// What a level's operators are, and how one of them is read.

ghost use Rattle.std.specs.Prelude.{◌≡◌, ◌<◌, length, IfOk};
ghost use Rattle.dpl_grammar.specs.Gives.{Gives};
ghost use Rattle.dpl_grammar.specs.Reader.{next_in};
ghost use Rattle.dpl_grammar.specs.Reading.{first};
ghost use Rattle.dpl_spelling.specs.Reading.{at};
ghost use Rattle.dpl_expressions.specs.Levels.{operator_rule, further_rule};

use crate::token::{Parsed, Tokens, is_sign, means};
use dpl_syntax::{Place, Sign};
use dpl_tree::Infix;

/// A level of operators between operands.
#[derive(Clone, Copy)]
pub enum Level {
    /// `+` and `-`
    Sum,
    /// `<`, `<=`, `>` and `>=`
    Relation,
    /// `==` and `!=`
    Equality,
    /// `&&`
    And,
    /// `||`
    Or,
}

impl Level {
    /// Whether the next token is an operator of the level.
    #[tactic(auto, using(dpl_grammar::proofs::Classes::next_in_either), unfolding(dpl_spelling::specs::Expressions::further))]
    pub fn is_next(self, tokens: Tokens<'_>) -> bool
        ensures { result ≡ next_in (first (further_rule self)) tokens.now }
    {
        match self {
            Level::Sum => is_sign(tokens, Sign::Plus) || is_sign(tokens, Sign::Minus),
            Level::Relation => {
                is_sign(tokens, Sign::Less)
                    || is_sign(tokens, Sign::LessEqual)
                    || is_sign(tokens, Sign::Greater)
                    || is_sign(tokens, Sign::GreaterEqual)
            }
            Level::Equality => is_sign(tokens, Sign::Equal) || is_sign(tokens, Sign::NotEqual),
            Level::And => is_sign(tokens, Sign::AndAnd),
            Level::Or => is_sign(tokens, Sign::OrOr),
        }
    }

    /// An operator of the level, with its place.
    pub fn operator(self, room: u32, tokens: Tokens<'_>) -> Parsed<'_, (Place, Infix)>
        ensures gives { Gives (λ x. (x.0, x.1.now)) result (at (operator_rule self) room tokens.now) }
        ensures shorter { IfOk result (λ x. length x.1.now < length tokens.now) }
    {
        match self {
            Level::Sum if is_sign(tokens, Sign::Plus) => means(Sign::Plus, Infix::Add, tokens),
            Level::Sum => means(Sign::Minus, Infix::Subtract, tokens),
            Level::Relation if is_sign(tokens, Sign::Less) => means(
                Sign::Less,
                Infix::Less,
                tokens,
            ),
            Level::Relation if is_sign(tokens, Sign::LessEqual) => means(
                Sign::LessEqual,
                Infix::LessEqual,
                tokens,
            ),
            Level::Relation if is_sign(tokens, Sign::Greater) => means(
                Sign::Greater,
                Infix::Greater,
                tokens,
            ),
            Level::Relation => means(Sign::GreaterEqual, Infix::GreaterEqual, tokens),
            Level::Equality if is_sign(tokens, Sign::Equal) => means(
                Sign::Equal,
                Infix::Equal,
                tokens,
            ),
            Level::Equality => means(Sign::NotEqual, Infix::NotEqual, tokens),
            Level::And => means(Sign::AndAnd, Infix::And, tokens),
            Level::Or => means(Sign::OrOr, Infix::Or, tokens),
        }
    }
}
