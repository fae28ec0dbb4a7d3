// Declarations, their types and initial values: a function for each rule of the grammar.
// `room` is how many levels of nesting are left.

ghost use Rattle.std.specs.Prelude.{◌≡◌, ◌<◌, ◌≤◌, true, false, None, Some, length, IfOk};
ghost use Rattle.dpl_language.specs.Tree.{Declare as DeclareTree};
ghost use Rattle.dpl_grammar.specs.Classes.{keyword as keyword_class};
ghost use Rattle.dpl_grammar.specs.Gives.{Gives};
ghost use Rattle.dpl_grammar.specs.Rule.{◌⟶◌, ◌⨾◌, ◌∎, maybe, means as means_rule, either};
ghost use Rattle.dpl_tree.specs.Declarations.{optional, type_view, typed_view, init_view, initial_view, declare_view};
ghost use Rattle.dpl_spelling.specs.Declarations.{sync_type as sync_type_rule, domain_type as domain_type_rule, array_type as array_type_rule};
ghost use Rattle.dpl_spelling.specs.Declarations.{declared_type as declared_type_rule, typed as typed_rule, created as created_rule, init as init_rule};
ghost use Rattle.dpl_spelling.specs.Declarations.{initial as initial_rule, declared as declared_rule, declare_end as declare_end_rule};
ghost use Rattle.dpl_spelling.specs.Declarations.{declaration as declaration_rule, config_declaration as config_declaration_rule};
ghost use Rattle.dpl_tree.specs.Statements.{stmt_view};
ghost use Rattle.dpl_statements.specs.Nodes.{declared_part};
ghost use Rattle.dpl_spelling.specs.Reading.{at};

use crate::begins::begins_expression;
use crate::map::maybe_mapped;
use dpl_expressions::item::item;
use dpl_expressions::list::items;
use dpl_expressions::token::{
    Parsed, Tokens, contextual, deeper, is_keyword, is_sign, keyword, name, number, sign,
};
use dpl_expressions::word::{create_word, scalar_kind, word_means};
use dpl_syntax::{Contextual, Keyword, Place, Sign, Token};
use dpl_tree::{
    Arena, ArrayType, Create, Declare, DeclaredType, DomainType, Init, Initial, Stmt, Typed,
};

/// "sync" ("int" | "bool")
#[tactic(auto, unfolding(dpl_spelling::specs::Declarations::sync_type))]
fn sync_type(tokens: Tokens<'_>) -> Parsed<'_, DeclaredType<'_>>
    ensures gives { Gives (λ x. (type_view x.0, x.1.now)) result (at sync_type_rule 0 tokens.now) }
    ensures shorter { IfOk result (λ x. length x.1.now < length tokens.now) }
{
    let (word, rest) = keyword(Keyword::Sync, tokens)?;
    let ((at, kind), rest) = scalar_kind(rest)?;
    Ok((DeclaredType::Sync(word.at, at, kind), rest))
}

/// "domain" "(" number ")" [ "dmapped" map ]
#[tactic(auto, unfolding(dpl_spelling::specs::Declarations::domain_type))]
fn domain_type<'t>(arena: Arena<'t>, room: u32, tokens: Tokens<'t>) -> Parsed<'t, DeclaredType<'t>>
    ensures gives { Gives (λ x. (type_view x.0, x.1.now)) result (at domain_type_rule room tokens.now) }
    ensures shorter { IfOk result (λ x. length x.1.now < length tokens.now) }
{
    let (word, rest) = keyword(Keyword::Domain, tokens)?;
    let (open, _, rest) = deeper(room, Sign::OpenRound, rest)?;
    let ((rank_at, rank), rest) = number(rest)?;
    let (close, rest) = sign(Sign::CloseRound, rest)?;
    let (mapped, rest) = maybe_mapped(arena, room, rest)?;
    let declared = DomainType {
        at: word.at,
        from: open.at,
        rank_at,
        rank,
        upto: close.at,
        mapped,
    };
    Ok((DeclaredType::Domain(declared), rest))
}

/// "[" item { "," item } "]" ("int" | "bool")
#[tactic(auto, unfolding(dpl_spelling::specs::Declarations::array_type))]
fn array_type<'t>(arena: Arena<'t>, room: u32, tokens: Tokens<'t>) -> Parsed<'t, DeclaredType<'t>>
    ensures gives { Gives (λ x. (type_view x.0, x.1.now)) result (at array_type_rule room tokens.now) }
    ensures shorter { IfOk result (λ x. length x.1.now < length tokens.now) }
{
    let (open, room, rest) = deeper(room, Sign::OpenSquare, tokens)?;
    let (over, rest) = items(arena, room, rest)?;
    let (close, rest) = sign(Sign::CloseSquare, rest)?;
    let ((kind_at, kind), rest) = scalar_kind(rest)?;
    let declared = ArrayType {
        from: open.at,
        over,
        upto: close.at,
        kind_at,
        kind,
    };
    Ok((DeclaredType::Array(declared), rest))
}

/// type = "int" | "bool" | "sync" .. | "domain" .. | "[" ..
#[tactic(auto, unfolding(dpl_spelling::specs::Declarations::declared_type, dpl_spelling::specs::Declarations::sync_type, dpl_spelling::specs::Declarations::domain_type))]
fn declared_type<'t>(
    arena: Arena<'t>,
    room: u32,
    tokens: Tokens<'t>,
) -> Parsed<'t, DeclaredType<'t>>
    ensures gives { Gives (λ x. (type_view x.0, x.1.now)) result (at declared_type_rule room tokens.now) }
    ensures shorter { IfOk result (λ x. length x.1.now < length tokens.now) }
{
    if is_keyword(tokens, Keyword::Int) || is_keyword(tokens, Keyword::Bool) {
        let ((at, kind), rest) = scalar_kind(tokens)?;
        Ok((DeclaredType::Scalar(at, kind), rest))
    } else if is_keyword(tokens, Keyword::Sync) {
        sync_type(tokens)
    } else if is_keyword(tokens, Keyword::Domain) {
        domain_type(arena, room, tokens)
    } else {
        array_type(arena, room, tokens)
    }
}

/// ":" type
#[tactic(auto, unfolding(dpl_spelling::specs::Declarations::typed))]
fn typed<'t>(arena: Arena<'t>, room: u32, tokens: Tokens<'t>) -> Parsed<'t, Typed<'t>>
    ensures gives { Gives (λ x. (typed_view x.0, x.1.now)) result (at typed_rule room tokens.now) }
    ensures shorter { IfOk result (λ x. length x.1.now < length tokens.now) }
{
    let (colon, rest) = sign(Sign::Colon, tokens)?;
    let (declared, rest) = declared_type(arena, room, rest)?;
    Ok((
        Typed {
            colon: colon.at,
            declared,
        },
        rest,
    ))
}

/// ("blockDist" | "cyclicDist") "." "createDomain" "(" item { "," item } ")"
#[tactic(auto, unfolding(dpl_spelling::specs::Declarations::created))]
fn created<'t>(arena: Arena<'t>, room: u32, tokens: Tokens<'t>) -> Parsed<'t, Init<'t>>
    ensures gives { Gives (λ x. (init_view x.0, x.1.now)) result (at created_rule room tokens.now) }
    ensures shorter { IfOk result (λ x. length x.1.now < length tokens.now) }
{
    let ((at, word), rest) = create_word(tokens)?;
    let (dot, rest) = sign(Sign::Dot, rest)?;
    let (method, rest) = contextual(Contextual::CreateDomain, rest)?;
    let (open, room, rest) = deeper(room, Sign::OpenRound, rest)?;
    let (items, rest) = items(arena, room, rest)?;
    let (close, rest) = sign(Sign::CloseRound, rest)?;
    let create = Create {
        at,
        word,
        dot: dot.at,
        method: method.at,
        from: open.at,
        items,
        upto: close.at,
    };
    Ok((Init::Create(create), rest))
}

/// init = item [ "dmapped" map ] | ("blockDist" | "cyclicDist") ..
#[tactic(auto, using(dpl_spelling::proofs::Ways::read_init))]
fn init<'t>(arena: Arena<'t>, room: u32, tokens: Tokens<'t>) -> Parsed<'t, Init<'t>>
    ensures gives { Gives (λ x. (init_view x.0, x.1.now)) result (at init_rule room tokens.now) }
    ensures shorter { IfOk result (λ x. length x.1.now < length tokens.now) }
{
    if !begins_expression(tokens) {
        return created(arena, room, tokens);
    }
    let (item, rest) = item(arena, room, tokens)?;
    let (mapped, rest) = maybe_mapped(arena, room, rest)?;
    Ok((Init::Item(item, mapped), rest))
}

/// "=" init
#[tactic(auto, unfolding(dpl_spelling::specs::Declarations::initial))]
fn initial<'t>(arena: Arena<'t>, room: u32, tokens: Tokens<'t>) -> Parsed<'t, Initial<'t>>
    ensures gives { Gives (λ x. (initial_view x.0, x.1.now)) result (at initial_rule room tokens.now) }
    ensures shorter { IfOk result (λ x. length x.1.now < length tokens.now) }
{
    let (equals, rest) = sign(Sign::Assign, tokens)?;
    let (init, rest) = init(arena, room, rest)?;
    Ok((
        Initial {
            equals: equals.at,
            init,
        },
        rest,
    ))
}

/// [ "=" init ]
#[tactic(auto, unfolding(dpl_spelling::specs::Declarations::initial))]
fn maybe_initial<'t>(
    arena: Arena<'t>,
    room: u32,
    tokens: Tokens<'t>,
) -> Parsed<'t, Option<Initial<'t>>>
    ensures gives { Gives (λ x. (optional initial_view x.0, x.1.now)) result (at (maybe initial_rule) room tokens.now) }
    ensures shorter { IfOk result (λ x. length x.1.now ≤ length tokens.now) }
{
    if !is_sign(tokens, Sign::Assign) {
        return Ok((None, tokens));
    }
    let (initial, rest) = initial(arena, room, tokens)?;
    Ok((Some(initial), rest))
}

/// ":" type [ "=" init ] | "=" init
#[tactic(auto, unfolding(dpl_spelling::specs::Declarations::declared, dpl_spelling::specs::Declarations::typed))]
fn declared<'t>(
    arena: Arena<'t>,
    room: u32,
    tokens: Tokens<'t>,
) -> Parsed<'t, (Option<Typed<'t>>, Option<Initial<'t>>)>
    ensures gives { Gives (λ x. (declared_part x.0.0 x.0.1, x.1.now)) result (at declared_rule room tokens.now) }
    ensures shorter { IfOk result (λ x. length x.1.now < length tokens.now) }
{
    if is_sign(tokens, Sign::Colon) {
        let (typed, rest) = typed(arena, room, tokens)?;
        let (initial, rest) = maybe_initial(arena, room, rest)?;
        return Ok(((Some(typed), initial), rest));
    }
    let (initial, rest) = initial(arena, room, tokens)?;
    Ok(((None, Some(initial)), rest))
}

/// declrest = name ( ":" type [ "=" init ] | "=" init ) ";", behind its words
#[tactic(auto, unfolding(dpl_spelling::specs::Declarations::declare_end))]
fn declare_end<'t>(
    arena: Arena<'t>,
    room: u32,
    config: Option<Place>,
    word: (Place, bool),
    tokens: Tokens<'t>,
) -> Parsed<'t, Stmt<'t>>
    ensures gives { Gives (λ x. (stmt_view x.0, x.1.now)) result (at (declare_end_rule ∎ ⟶ λ make. make config word) room tokens.now) }
    ensures shorter { IfOk result (λ x. length x.1.now < length tokens.now) }
{
    let (name, rest) = name(tokens)?;
    let ((typed, initial), rest) = declared(arena, room, rest)?;
    let (semicolon, rest) = sign(Sign::Semicolon, rest)?;
    let declare = Declare {
        config,
        at: word.0,
        constant: word.1,
        name,
        typed,
        initial,
        semicolon: semicolon.at,
    };
    Ok((Stmt::Declare(arena.node(declare)?), rest))
}

/// "const" | "var": whether what it declares is constant
fn declaration_word(tokens: Tokens<'_>) -> Parsed<'_, (Place, bool)>
    ensures gives { Gives (λ x. (x.0, x.1.now)) result
        (at (either (means_rule (keyword_class Keyword.Const) true) (means_rule (keyword_class Keyword.Var) false)) 0 tokens.now) }
    ensures shorter { IfOk result (λ x. length x.1.now < length tokens.now) }
{
    if is_keyword(tokens, Keyword::Const) {
        word_means(Keyword::Const, true, tokens)
    } else {
        word_means(Keyword::Var, false, tokens)
    }
}

/// ("const" | "var") declrest
#[tactic(auto, unfolding(dpl_spelling::specs::Declarations::declaration))]
pub fn declaration<'t>(arena: Arena<'t>, room: u32, tokens: Tokens<'t>) -> Parsed<'t, Stmt<'t>>
    ensures gives { Gives (λ x. (stmt_view x.0, x.1.now)) result (at declaration_rule room tokens.now) }
    ensures shorter { IfOk result (λ x. length x.1.now < length tokens.now) }
{
    let (word, rest) = declaration_word(tokens)?;
    declare_end(arena, room, None, word, rest)
}

/// "config" "const" declrest
#[tactic(auto, unfolding(dpl_spelling::specs::Declarations::config_declaration))]
pub fn config_declaration<'t>(
    arena: Arena<'t>,
    room: u32,
    tokens: Tokens<'t>,
) -> Parsed<'t, Stmt<'t>>
    ensures gives { Gives (λ x. (stmt_view x.0, x.1.now)) result (at config_declaration_rule room tokens.now) }
    ensures shorter { IfOk result (λ x. length x.1.now < length tokens.now) }
{
    let (config, rest) = keyword(Keyword::Config, tokens)?;
    let (word, rest) = word_means(Keyword::Const, true, rest)?;
    declare_end(arena, room, Some(config.at), word, rest)
}
