// What stands before a body: conditions, loop variables, intents, and the heads of loops.
// There is a function for each rule of the grammar.

ghost use Rattle.std.specs.Prelude.{◌≡◌, ◌+◌, ◌∷◌, ◌<◌, ◌≤◌, length, map, IfOk};
ghost use Rattle.dpl_grammar.specs.Classes.{keyword as keyword_class};
ghost use Rattle.dpl_grammar.specs.Gives.{Gives};
ghost use Rattle.dpl_grammar.specs.Rule.{many, maybe};
ghost use Rattle.dpl_tree.specs.Declarations.{optional};
ghost use Rattle.dpl_tree.specs.Statements.{intent_view, next_intent_view, next_name_view, variables_view, with_view};
ghost use Rattle.dpl_spelling.specs.Expressions.{after_comma, name as name_rule};
ghost use Rattle.dpl_spelling.specs.Declarations.{if_there};
ghost use Rattle.dpl_spelling.specs.Statements.{condition as condition_rule, variables as variables_rule, intent as intent_rule};
ghost use Rattle.dpl_spelling.specs.Statements.{with_intents as with_intents_rule, loop_head as loop_head_rule, parallel_head as parallel_head_rule};
ghost use Rattle.dpl_statements.specs.Heads.{guard_view, head_view, parallel_view};
ghost use Rattle.dpl_spelling.specs.Reading.{at};

use dpl_expressions::chain::expression;
use dpl_expressions::item::item;
use dpl_expressions::token::{
    Parsed, Tokens, deeper, is_keyword, is_name, is_sign, keyword, name, passed_on, sign,
};
use dpl_expressions::word::reduce_operator;
use dpl_syntax::{Keyword, Place, Sign, Token};
use dpl_tree::{Arena, Expr, Intent, Item, NextIntent, NextName, Variables, With};
use std::alloc::AllocError;

/// A word and an expression, which a body follows.
#[derive(Clone, Copy)]
pub struct Guard<'t> {
    pub at: Place,
    pub value: &'t Expr<'t>,
}

/// A loop's word, its variables and what it runs over.
#[derive(Clone, Copy)]
pub struct Head<'t> {
    pub at: Place,
    pub variables: Variables<'t>,
    pub within: Place,
    pub over: Item<'t>,
}

/// word expr
#[tactic(auto, unfolding(dpl_spelling::specs::Statements::condition))]
pub fn condition<'t>(
    arena: Arena<'t>,
    room: u32,
    wanted: Keyword,
    tokens: Tokens<'t>,
) -> Parsed<'t, Guard<'t>>
    ensures gives { Gives (λ x. (guard_view x.0, x.1.now)) result (at (condition_rule wanted) room tokens.now) }
    ensures shorter { IfOk result (λ x. length x.1.now < length tokens.now) }
{
    let (word, rest) = keyword(wanted, tokens)?;
    let (value, rest) = expression(arena, room, rest)?;
    Ok((Guard { at: word.at, value }, rest))
}

/// "," name
#[tactic(auto, unfolding(dpl_spelling::specs::Expressions::after_comma))]
fn next_name(tokens: Tokens<'_>) -> Parsed<'_, NextName<'_>>
    ensures gives { Gives (λ x. (next_name_view x.0, x.1.now)) result (at (after_comma name_rule) 0 tokens.now) }
    ensures shorter { IfOk result (λ x. length x.1.now < length tokens.now) }
{
    let (comma, rest) = sign(Sign::Comma, tokens)?;
    let (name, rest) = name(rest)?;
    Ok((
        NextName {
            comma: comma.at,
            name,
        },
        rest,
    ))
}

/// [ "," name ]
#[tactic(auto, unfolding(dpl_spelling::specs::Expressions::after_comma))]
fn maybe_next_name(tokens: Tokens<'_>) -> Parsed<'_, Option<NextName<'_>>>
    ensures gives { Gives (λ x. (optional next_name_view x.0, x.1.now)) result (at (maybe (after_comma name_rule)) 0 tokens.now) }
    ensures shorter { IfOk result (λ x. length x.1.now ≤ length tokens.now) }
{
    if !is_sign(tokens, Sign::Comma) {
        return Ok((None, tokens));
    }
    let (next, rest) = next_name(tokens)?;
    Ok((Some(next), rest))
}

/// The one name, and the other if it is there.
fn one_or_two<'t>(
    arena: Arena<'t>,
    first: NextName<'t>,
    second: Option<NextName<'t>>,
) -> Result<&'t [NextName<'t>], AllocError>
    ensures { IfOk result (λ names. map next_name_view names.now ≡ next_name_view first.entry ∷ if_there (optional next_name_view second.entry)) }
{
    let mut names = Vec::new(arena.alloc());
    names.push(first)?;
    if let Some(second) = second {
        names.push(second)?;
    }
    arena.list(names)
}

/// vars = name | "(" name "," name [ "," name ] ")"
#[tactic(auto, unfolding(dpl_spelling::specs::Statements::variables, dpl_spelling::specs::Expressions::after_comma))]
fn variables<'t>(arena: Arena<'t>, room: u32, tokens: Tokens<'t>) -> Parsed<'t, Variables<'t>>
    ensures gives { Gives (λ x. (variables_view x.0, x.1.now)) result (at variables_rule room tokens.now) }
    ensures shorter { IfOk result (λ x. length x.1.now < length tokens.now) }
{
    if is_name(tokens) {
        let (name, rest) = name(tokens)?;
        return Ok((Variables::One(name), rest));
    }
    let (open, _, rest) = deeper(room, Sign::OpenRound, tokens)?;
    let (first, rest) = name(rest)?;
    let (second, rest) = next_name(rest)?;
    let (third, rest) = maybe_next_name(rest)?;
    let (close, rest) = sign(Sign::CloseRound, rest)?;
    let variables = Variables::Many {
        from: open.at,
        first,
        others: one_or_two(arena, second, third)?,
        upto: close.at,
    };
    Ok((variables, rest))
}

/// intent = "ref" name | redop "reduce" name
#[tactic(auto, unfolding(dpl_spelling::specs::Statements::intent))]
fn intent<'t>(tokens: Tokens<'t>) -> Parsed<'t, Intent<'t>>
    ensures gives { Gives (λ x. (intent_view x.0, x.1.now)) result (at intent_rule 0 tokens.now) }
    ensures shorter { IfOk result (λ x. length x.1.now < length tokens.now) }
{
    if is_keyword(tokens, Keyword::Ref) {
        let (word, rest) = keyword(Keyword::Ref, tokens)?;
        let (name, rest) = name(rest)?;
        return Ok((Intent::Ref(word.at, name), rest));
    }
    let ((at, op), rest) = reduce_operator(tokens)?;
    let (word, rest) = keyword(Keyword::Reduce, rest)?;
    let (name, rest) = name(rest)?;
    Ok((Intent::Reduce(at, op, word.at, name), rest))
}

/// "," intent
#[tactic(auto, unfolding(dpl_spelling::specs::Expressions::after_comma))]
fn next_intent<'t>(tokens: Tokens<'t>) -> Parsed<'t, NextIntent<'t>>
    ensures gives { Gives (λ x. (next_intent_view x.0, x.1.now)) result (at (after_comma intent_rule) 0 tokens.now) }
    ensures shorter { IfOk result (λ x. length x.1.now < length tokens.now) }
{
    let (comma, rest) = sign(Sign::Comma, tokens)?;
    let (intent, rest) = intent(rest)?;
    Ok((
        NextIntent {
            comma: comma.at,
            intent,
        },
        rest,
    ))
}

/// { "," intent }
fn other_intents<'t>(arena: Arena<'t>, tokens: Tokens<'t>) -> Parsed<'t, &'t [NextIntent<'t>]>
    ensures gives { Gives (λ x. (map next_intent_view x.0.now, x.1.now)) result (at (many (after_comma intent_rule)) 0 tokens.now) }
    ensures shorter { IfOk result (λ x. length x.1.now ≤ length tokens.now) }
{
    let mut others = Vec::new(arena.alloc());
    let mut rest = tokens;
    'each: while is_sign(rest, Sign::Comma) {
        let (other, after) = next_intent(rest)?;
        others.push(other)?;
        rest = passed_on(after);
    }
    Ok((arena.list(others)?, rest))
}

/// with = "with" "(" intent { "," intent } ")"
#[tactic(auto, unfolding(dpl_spelling::specs::Statements::with_intents, dpl_spelling::specs::Statements::intent, dpl_spelling::specs::Expressions::listed, dpl_spelling::specs::Expressions::after_comma))]
fn with_intents<'t>(arena: Arena<'t>, room: u32, tokens: Tokens<'t>) -> Parsed<'t, With<'t>>
    ensures gives { Gives (λ x. (with_view x.0, x.1.now)) result (at with_intents_rule room tokens.now) }
    ensures shorter { IfOk result (λ x. length x.1.now < length tokens.now) }
{
    let (word, rest) = keyword(Keyword::With, tokens)?;
    let (open, _, rest) = deeper(room, Sign::OpenRound, rest)?;
    let (first, rest) = intent(rest)?;
    let (others, rest) = other_intents(arena, rest)?;
    let (close, rest) = sign(Sign::CloseRound, rest)?;
    let with = With {
        at: word.at,
        from: open.at,
        first,
        others,
        upto: close.at,
    };
    Ok((with, rest))
}

/// [ with ]
#[tactic(auto, unfolding(dpl_spelling::specs::Statements::with_intents))]
fn maybe_with<'t>(arena: Arena<'t>, room: u32, tokens: Tokens<'t>) -> Parsed<'t, Option<With<'t>>>
    ensures gives { Gives (λ x. (optional with_view x.0, x.1.now)) result (at (maybe with_intents_rule) room tokens.now) }
    ensures shorter { IfOk result (λ x. length x.1.now ≤ length tokens.now) }
{
    if !is_keyword(tokens, Keyword::With) {
        return Ok((None, tokens));
    }
    let (with, rest) = with_intents(arena, room, tokens)?;
    Ok((Some(with), rest))
}

/// word vars "in" item
#[tactic(auto, unfolding(dpl_spelling::specs::Statements::loop_head))]
pub fn loop_head<'t>(
    arena: Arena<'t>,
    room: u32,
    wanted: Keyword,
    tokens: Tokens<'t>,
) -> Parsed<'t, Head<'t>>
    ensures gives { Gives (λ x. (head_view x.0, x.1.now)) result (at (loop_head_rule wanted) room tokens.now) }
    ensures shorter { IfOk result (λ x. length x.1.now < length tokens.now) }
{
    let (word, rest) = keyword(wanted, tokens)?;
    let (variables, rest) = variables(arena, room, rest)?;
    let (within, rest) = keyword(Keyword::In, rest)?;
    let (over, rest) = item(arena, room, rest)?;
    let head = Head {
        at: word.at,
        variables,
        within: within.at,
        over,
    };
    Ok((head, rest))
}

/// word vars "in" item [ with ]
#[tactic(auto, unfolding(dpl_spelling::specs::Statements::parallel_head))]
pub fn parallel_head<'t>(
    arena: Arena<'t>,
    room: u32,
    wanted: Keyword,
    tokens: Tokens<'t>,
) -> Parsed<'t, (Head<'t>, Option<With<'t>>)>
    ensures gives { Gives (λ x. (parallel_view x.0.0 x.0.1, x.1.now)) result (at (parallel_head_rule wanted) room tokens.now) }
    ensures shorter { IfOk result (λ x. length x.1.now < length tokens.now) }
{
    let (head, rest) = loop_head(arena, room, wanted, tokens)?;
    let (with, rest) = maybe_with(arena, room, rest)?;
    Ok(((head, with), rest))
}
