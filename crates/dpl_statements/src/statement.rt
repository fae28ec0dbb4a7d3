// Statements, blocks and bodies: a function for each rule of the grammar.
// A body that is no block goes one level deeper, from its first token on.

ghost use Rattle.std.specs.Prelude.{◌≡◌, ◌+◌, ◌<◌, ◌≤◌, length, map, IfOk};
ghost use Rattle.dpl_language.specs.Tree.{Block as BlockTree};
ghost use Rattle.dpl_grammar.specs.Gives.{Gives};
ghost use Rattle.dpl_grammar.specs.Rule.{below, many};
ghost use Rattle.dpl_tree.specs.Statements.{head_word, parallel_word, stmt_view, body_view};
ghost use Rattle.dpl_spelling.specs.Nested.{StatementBelow};
ghost use Rattle.dpl_spelling.specs.Statements.{block as block_rule, part as part_rule, body as body_rule, if_else as if_else_rule};
ghost use Rattle.dpl_spelling.specs.Statements.{headed as headed_rule, for_loop as for_loop_rule, parallel_loop as parallel_loop_rule};
ghost use Rattle.dpl_spelling.specs.Statements.{simple_statement as simple_statement_rule};
ghost use Rattle.dpl_spelling.specs.Statements.{plain_statement as plain_statement_rule, statement as statement_rule};
ghost use Rattle.dpl_spelling.specs.Reading.{at, late_at};

use crate::assignment::named_statement;
use crate::begins::{begins_plain, begins_simple, begins_statement};
use crate::declaration::declaration;
use crate::head::{condition, loop_head, parallel_head};
use crate::output::output;
use crate::takes_else::body_takes_else;
use dpl_expressions::token::{
    Parsed, Tokens, deeper, descend, is_keyword, is_name, is_sign, keyword, passed_on, sign,
    unexpected,
};
use dpl_syntax::{Keyword, Sign, Token};
use dpl_tree::{Arena, Body, Else, For, HeadWord, Headed, If, Parallel, ParallelWord, Stmt};

/// stmt = block | a statement that is no block
#[cycle(statement)]
#[tactic(auto, unfolding(dpl_spelling::specs::Statements::statement, dpl_spelling::specs::Statements::block))]
pub fn statement<'t>(arena: Arena<'t>, room: u32, tokens: Tokens<'t>) -> Parsed<'t, Stmt<'t>>
    ensures gives { Gives (λ x. (stmt_view x.0, x.1.now)) result (late_at statement_rule room tokens.now) }
    ensures shorter { IfOk result (λ x. length x.1.now < length tokens.now) }
{
    if is_sign(tokens, Sign::OpenCurly) {
        block(arena, room, tokens)
    } else {
        plain_statement(arena, room, tokens)
    }
}

/// { stmt }, in a bracket in which there is so much room
#[cycle(statement)]
fn statements<'t>(arena: Arena<'t>, room: u32, tokens: Tokens<'t>) -> Parsed<'t, &'t [Stmt<'t>]>
    ensures gives { Gives (λ x. (map stmt_view x.0.now, x.1.now)) result (at (many (below StatementBelow)) (room + 1) tokens.now) }
    ensures shorter { IfOk result (λ x. length x.1.now ≤ length tokens.now) }
{
    let mut stmts = Vec::new(arena.alloc());
    let mut rest = tokens;
    'each: while begins_statement(rest) {
        let (stmt, after) = statement(arena, room, rest)?;
        stmts.push(stmt)?;
        rest = passed_on(after);
    }
    Ok((arena.list(stmts)?, rest))
}

/// block = "{" { stmt } "}"
#[cycle(statement)]
#[tactic(auto, using(crate::proofs::Blocks::stmts_of_view), unfolding(dpl_spelling::specs::Statements::block))]
fn block<'t>(arena: Arena<'t>, room: u32, tokens: Tokens<'t>) -> Parsed<'t, Stmt<'t>>
    ensures gives { Gives (λ x. (stmt_view x.0, x.1.now)) result (at (block_rule BlockTree) room tokens.now) }
    ensures shorter { IfOk result (λ x. length x.1.now < length tokens.now) }
{
    let (open, room, rest) = deeper(room, Sign::OpenCurly, tokens)?;
    let (stmts, rest) = statements(arena, room, rest)?;
    let (close, rest) = sign(Sign::CloseCurly, rest)?;
    Ok((Stmt::block(arena, open.at, stmts, close.at)?, rest))
}

/// stmt, as a part: a block on this level, any other statement one level deeper
#[cycle(statement)]
#[tactic(auto, using(dpl_spelling::proofs::Ways::read_part, dpl_spelling::proofs::Plain::plain_with_room, dpl_spelling::proofs::Plain::plain_without_room, dpl_spelling::proofs::Plain::plain_not_begun))]
fn part<'t>(arena: Arena<'t>, room: u32, tokens: Tokens<'t>) -> Parsed<'t, Stmt<'t>>
    ensures gives { Gives (λ x. (stmt_view x.0, x.1.now)) result (late_at part_rule room tokens.now) }
    ensures shorter { IfOk result (λ x. length x.1.now < length tokens.now) }
{
    if is_sign(tokens, Sign::OpenCurly) {
        return block(arena, room, tokens);
    }
    if !begins_plain(tokens) {
        return Err(unexpected(tokens));
    }
    let room = descend(room, tokens)?;
    plain_statement(arena, room, tokens)
}

/// word stmt | block, for the words `do` and `then`
#[cycle(statement)]
#[tactic(auto, using(crate::proofs::Blocks::stmts_of_view), unfolding(dpl_spelling::specs::Statements::body, dpl_spelling::specs::Statements::block))]
fn body<'t>(
    arena: Arena<'t>,
    room: u32,
    wanted: Keyword,
    tokens: Tokens<'t>,
) -> Parsed<'t, Body<'t>>
    ensures gives { Gives (λ x. (body_view x.0, x.1.now)) result (late_at (body_rule wanted) room tokens.now) }
    ensures shorter { IfOk result (λ x. length x.1.now < length tokens.now) }
{
    if is_keyword(tokens, wanted) {
        let (word, rest) = keyword(wanted, tokens)?;
        let (stmt, rest) = part(arena, room, rest)?;
        return Ok((Body::Word(word.at, arena.node(stmt)?), rest));
    }
    let (open, room, rest) = deeper(room, Sign::OpenCurly, tokens)?;
    let (stmts, rest) = statements(arena, room, rest)?;
    let (close, rest) = sign(Sign::CloseCurly, rest)?;
    Ok((Body::block(open.at, stmts, close.at), rest))
}

/// "if" expr ( "then" stmt | block ) [ "else" stmt ]
#[cycle(statement)]
#[tactic(auto, unfolding(dpl_spelling::specs::Statements::if_else, dpl_spelling::specs::Statements::consequence, dpl_spelling::specs::Statements::alternative))]
fn if_else<'t>(arena: Arena<'t>, room: u32, tokens: Tokens<'t>) -> Parsed<'t, Stmt<'t>>
    ensures gives { Gives (λ x. (stmt_view x.0, x.1.now)) result (late_at if_else_rule room tokens.now) }
    ensures shorter { IfOk result (λ x. length x.1.now < length tokens.now) }
{
    let (guard, rest) = condition(arena, room, Keyword::If, tokens)?;
    let (body, rest) = body(arena, room, Keyword::Then, rest)?;
    if body_takes_else(&body) || !is_keyword(rest, Keyword::Else) {
        let node = If {
            at: guard.at,
            condition: guard.value,
            body,
            otherwise: Else::Absent,
        };
        return Ok((Stmt::If(arena.node(node)?), rest));
    }
    let (word, rest) = keyword(Keyword::Else, rest)?;
    let (stmt, rest) = part(arena, room, rest)?;
    let node = If {
        at: guard.at,
        condition: guard.value,
        body,
        otherwise: Else::Do(word.at, arena.node(stmt)?),
    };
    Ok((Stmt::If(arena.node(node)?), rest))
}

/// ("while" | "on") expr body
#[cycle(statement)]
#[tactic(auto, unfolding(dpl_spelling::specs::Statements::headed))]
fn headed<'t>(
    arena: Arena<'t>,
    room: u32,
    wanted: Keyword,
    word: HeadWord,
    tokens: Tokens<'t>,
) -> Parsed<'t, Stmt<'t>>
    ensures gives { Gives (λ x. (stmt_view x.0, x.1.now)) result (late_at (headed_rule wanted (head_word word)) room tokens.now) }
    ensures shorter { IfOk result (λ x. length x.1.now < length tokens.now) }
{
    let (guard, rest) = condition(arena, room, wanted, tokens)?;
    let (body, rest) = body(arena, room, Keyword::Do, rest)?;
    let node = Headed {
        word,
        at: guard.at,
        value: guard.value,
        body,
    };
    Ok((Stmt::Headed(arena.node(node)?), rest))
}

/// "for" vars "in" item body
#[cycle(statement)]
#[tactic(auto, unfolding(dpl_spelling::specs::Statements::for_loop))]
fn for_loop<'t>(arena: Arena<'t>, room: u32, tokens: Tokens<'t>) -> Parsed<'t, Stmt<'t>>
    ensures gives { Gives (λ x. (stmt_view x.0, x.1.now)) result (late_at for_loop_rule room tokens.now) }
    ensures shorter { IfOk result (λ x. length x.1.now < length tokens.now) }
{
    let (head, rest) = loop_head(arena, room, Keyword::For, tokens)?;
    let (body, rest) = body(arena, room, Keyword::Do, rest)?;
    let node = For {
        at: head.at,
        variables: head.variables,
        within: head.within,
        over: head.over,
        body,
    };
    Ok((Stmt::For(arena.node(node)?), rest))
}

/// ("forall" | "coforall") vars "in" item [ with ] body
#[cycle(statement)]
#[tactic(auto, unfolding(dpl_spelling::specs::Statements::parallel_loop))]
fn parallel_loop<'t>(
    arena: Arena<'t>,
    room: u32,
    wanted: Keyword,
    word: ParallelWord,
    tokens: Tokens<'t>,
) -> Parsed<'t, Stmt<'t>>
    ensures gives { Gives (λ x. (stmt_view x.0, x.1.now)) result (late_at (parallel_loop_rule wanted (parallel_word word)) room tokens.now) }
    ensures shorter { IfOk result (λ x. length x.1.now < length tokens.now) }
{
    let ((head, with), rest) = parallel_head(arena, room, wanted, tokens)?;
    let (body, rest) = body(arena, room, Keyword::Do, rest)?;
    let node = Parallel {
        word,
        at: head.at,
        variables: head.variables,
        within: head.within,
        over: head.over,
        with,
        body,
    };
    Ok((Stmt::Parallel(arena.node(node)?), rest))
}

/// A statement that is no block and has no body.
#[tactic(auto, unfolding(dpl_spelling::specs::Statements::simple_statement, dpl_spelling::specs::Statements::named_statement, dpl_spelling::specs::Declarations::declaration))]
fn simple_statement<'t>(arena: Arena<'t>, room: u32, tokens: Tokens<'t>) -> Parsed<'t, Stmt<'t>>
    ensures gives { Gives (λ x. (stmt_view x.0, x.1.now)) result (at simple_statement_rule room tokens.now) }
    ensures shorter { IfOk result (λ x. length x.1.now < length tokens.now) }
{
    if is_keyword(tokens, Keyword::Const) || is_keyword(tokens, Keyword::Var) {
        declaration(arena, room, tokens)
    } else if is_sign(tokens, Sign::Semicolon) {
        let (semicolon, rest) = sign(Sign::Semicolon, tokens)?;
        Ok((Stmt::Nothing(semicolon.at), rest))
    } else if is_name(tokens) {
        named_statement(arena, room, tokens)
    } else {
        output(arena, room, tokens)
    }
}

/// A statement that is no block.
#[cycle(statement)]
#[tactic(auto, using(dpl_spelling::proofs::Ways::read_plain))]
fn plain_statement<'t>(arena: Arena<'t>, room: u32, tokens: Tokens<'t>) -> Parsed<'t, Stmt<'t>>
    ensures gives { Gives (λ x. (stmt_view x.0, x.1.now)) result (late_at plain_statement_rule room tokens.now) }
    ensures shorter { IfOk result (λ x. length x.1.now < length tokens.now) }
{
    if begins_simple(tokens) {
        simple_statement(arena, room, tokens)
    } else if is_keyword(tokens, Keyword::If) {
        if_else(arena, room, tokens)
    } else if is_keyword(tokens, Keyword::While) {
        headed(arena, room, Keyword::While, HeadWord::While, tokens)
    } else if is_keyword(tokens, Keyword::For) {
        for_loop(arena, room, tokens)
    } else if is_keyword(tokens, Keyword::Forall) {
        parallel_loop(arena, room, Keyword::Forall, ParallelWord::Forall, tokens)
    } else if is_keyword(tokens, Keyword::Coforall) {
        parallel_loop(
            arena,
            room,
            Keyword::Coforall,
            ParallelWord::Coforall,
            tokens,
        )
    } else {
        headed(arena, room, Keyword::On, HeadWord::On, tokens)
    }
}
