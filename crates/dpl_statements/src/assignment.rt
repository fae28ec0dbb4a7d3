// Statements that begin with a name, assignments and calls of cells: a function for each rule of the grammar.
// The name is read first; each rule that goes on with it is told it.

ghost use Rattle.std.specs.Prelude.{◌≡◌, ◌<◌, ◌≤◌, length, IfOk};
ghost use Rattle.dpl_grammar.specs.Classes.{sign as sign_class, contextual as contextual_class};
ghost use Rattle.dpl_grammar.specs.Gives.{Gives};
ghost use Rattle.dpl_tree.specs.View.{name_view};
ghost use Rattle.dpl_tree.specs.Statements.{target_view, sign_view, call_view, stmt_view};
ghost use Rattle.dpl_spelling.specs.Statements.{element as element_rule, target_end as target_end_rule, assign_by as assign_by_rule};
ghost use Rattle.dpl_spelling.specs.Statements.{assign_sign as assign_sign_rule, assignment_end as assignment_end_rule, write_call as write_call_rule};
ghost use Rattle.dpl_spelling.specs.Statements.{read_call as read_call_rule, reset_call as reset_call_rule, cell_call as cell_call_rule};
ghost use Rattle.dpl_spelling.specs.Statements.{call_end as call_end_rule, named_statement as named_statement_rule};
ghost use Rattle.dpl_spelling.specs.Parts.{told};
ghost use Rattle.dpl_spelling.specs.Reading.{at};

use dpl_expressions::chain::expression;
use dpl_expressions::item::item;
use dpl_expressions::list::exprs;
use dpl_expressions::token::{
    Parsed, Tokens, contextual, deeper, is_contextual, is_sign, keyword, name, sign,
};
use dpl_syntax::{Contextual, Keyword, Sign, Token};
use dpl_tree::{
    Arena, Assign, AssignSign, Assignment, BracketPair, Call, CellCall, Element, Name, ReadWord,
    Stmt, Target, WriteWord,
};

/// "[" expr { "," expr } "]" | "(" expr { "," expr } ")", behind a name
#[tactic(auto, unfolding(dpl_spelling::specs::Parts::told, dpl_spelling::specs::Statements::target_end))]
fn element<'t>(
    arena: Arena<'t>,
    room: u32,
    name: Name<'t>,
    shape: (BracketPair, Sign, Sign),
    tokens: Tokens<'t>,
) -> Parsed<'t, Target<'t>>
    ensures gives { Gives (λ x. (target_view x.0, x.1.now)) result
        (at (told (name_view name.entry) (element_rule shape.0 (sign_class shape.1) (sign_class shape.2))) room tokens.now) }
    ensures shorter { IfOk result (λ x. length x.1.now < length tokens.now) }
{
    let (open, room, rest) = deeper(room, shape.1, tokens)?;
    let (exprs, rest) = exprs(arena, room, rest)?;
    let (close, rest) = sign(shape.2, rest)?;
    let element = Element {
        name,
        shape: shape.0,
        from: open.at,
        exprs,
        upto: close.at,
    };
    Ok((Target::Element(arena.node(element)?), rest))
}

/// [ "[" expr { "," expr } "]" | "(" expr { "," expr } ")" ], behind a target's name
#[tactic(auto, unfolding(dpl_spelling::specs::Parts::told, dpl_spelling::specs::Statements::target_end))]
fn target_end<'t>(
    arena: Arena<'t>,
    room: u32,
    name: Name<'t>,
    tokens: Tokens<'t>,
) -> Parsed<'t, Target<'t>>
    ensures gives { Gives (λ x. (target_view x.0, x.1.now)) result (at (told (name_view name.entry) target_end_rule) room tokens.now) }
    ensures shorter { IfOk result (λ x. length x.1.now ≤ length tokens.now) }
{
    if is_sign(tokens, Sign::OpenSquare) {
        let shape = (BracketPair::Square, Sign::OpenSquare, Sign::CloseSquare);
        element(arena, room, name, shape, tokens)
    } else if is_sign(tokens, Sign::OpenRound) {
        let shape = (BracketPair::Round, Sign::OpenRound, Sign::CloseRound);
        element(arena, room, name, shape, tokens)
    } else {
        Ok((Target::Whole(name), tokens))
    }
}

/// An operator of an assignment that is one sign.
fn assign_by(wanted: Sign, op: Assign, tokens: Tokens<'_>) -> Parsed<'_, AssignSign>
    ensures gives { Gives (λ x. (sign_view x.0, x.1.now)) result (at (assign_by_rule (sign_class wanted) op) 0 tokens.now) }
    ensures shorter { IfOk result (λ x. length x.1.now < length tokens.now) }
{
    let (next, rest) = sign(wanted, tokens)?;
    Ok((
        AssignSign {
            at: next.at,
            op,
            last: next.at,
        },
        rest,
    ))
}

/// assignop = "=" | "+=" | "-=" | "*=" | "/=" | "%=" | "reduce" "="
#[tactic(auto, unfolding(dpl_spelling::specs::Statements::assign_sign))]
fn assign_sign(tokens: Tokens<'_>) -> Parsed<'_, AssignSign>
    ensures gives { Gives (λ x. (sign_view x.0, x.1.now)) result (at assign_sign_rule 0 tokens.now) }
    ensures shorter { IfOk result (λ x. length x.1.now < length tokens.now) }
{
    if is_sign(tokens, Sign::Assign) {
        return assign_by(Sign::Assign, Assign::Set, tokens);
    }
    if is_sign(tokens, Sign::PlusAssign) {
        return assign_by(Sign::PlusAssign, Assign::SetAdd, tokens);
    }
    if is_sign(tokens, Sign::MinusAssign) {
        return assign_by(Sign::MinusAssign, Assign::SetSubtract, tokens);
    }
    if is_sign(tokens, Sign::StarAssign) {
        return assign_by(Sign::StarAssign, Assign::SetMultiply, tokens);
    }
    if is_sign(tokens, Sign::SlashAssign) {
        return assign_by(Sign::SlashAssign, Assign::SetDivide, tokens);
    }
    if is_sign(tokens, Sign::PercentAssign) {
        return assign_by(Sign::PercentAssign, Assign::SetRemainder, tokens);
    }
    let (word, rest) = keyword(Keyword::Reduce, tokens)?;
    let (equals, rest) = sign(Sign::Assign, rest)?;
    Ok((
        AssignSign {
            at: word.at,
            op: Assign::SetReduce,
            last: equals.at,
        },
        rest,
    ))
}

/// target assignop item ";", behind the target's name
#[tactic(auto, unfolding(dpl_spelling::specs::Parts::told, dpl_spelling::specs::Statements::assignment_end))]
fn assignment_end<'t>(
    arena: Arena<'t>,
    room: u32,
    name: Name<'t>,
    tokens: Tokens<'t>,
) -> Parsed<'t, Stmt<'t>>
    ensures gives { Gives (λ x. (stmt_view x.0, x.1.now)) result (at (told (name_view name.entry) assignment_end_rule) room tokens.now) }
    ensures shorter { IfOk result (λ x. length x.1.now < length tokens.now) }
{
    let (target, rest) = target_end(arena, room, name, tokens)?;
    let (op, rest) = assign_sign(rest)?;
    let (value, rest) = item(arena, room, rest)?;
    let (semicolon, rest) = sign(Sign::Semicolon, rest)?;
    let assignment = Assignment {
        target,
        sign: op,
        value,
        semicolon: semicolon.at,
    };
    Ok((Stmt::Assigned(arena.node(assignment)?), rest))
}

/// word "(" expr ")", for a word that writes
#[tactic(auto, using(dpl_spelling::proofs::Below::below_expression))]
fn write_call<'t>(
    arena: Arena<'t>,
    room: u32,
    wanted: Contextual,
    word: WriteWord,
    tokens: Tokens<'t>,
) -> Parsed<'t, Call<'t>>
    ensures gives { Gives (λ x. (call_view x.0, x.1.now)) result (at (write_call_rule (contextual_class wanted) word) room tokens.now) }
    ensures shorter { IfOk result (λ x. length x.1.now < length tokens.now) }
{
    let (next, rest) = contextual(wanted, tokens)?;
    let (open, room, rest) = deeper(room, Sign::OpenRound, rest)?;
    let (value, rest) = expression(arena, room, rest)?;
    let (close, rest) = sign(Sign::CloseRound, rest)?;
    Ok((Call::Write(next.at, word, open.at, value, close.at), rest))
}

/// word "(" ")", for a word that reads
fn read_call<'t>(
    room: u32,
    wanted: Contextual,
    word: ReadWord,
    tokens: Tokens<'t>,
) -> Parsed<'t, Call<'t>>
    ensures gives { Gives (λ x. (call_view x.0, x.1.now)) result (at (read_call_rule (contextual_class wanted) word) room tokens.now) }
    ensures shorter { IfOk result (λ x. length x.1.now < length tokens.now) }
{
    let (next, rest) = contextual(wanted, tokens)?;
    let (open, _, rest) = deeper(room, Sign::OpenRound, rest)?;
    let (close, rest) = sign(Sign::CloseRound, rest)?;
    Ok((Call::Read(next.at, word, open.at, close.at), rest))
}

/// "reset" "(" ")"
#[tactic(auto, unfolding(dpl_spelling::specs::Statements::reset_call))]
fn reset_call<'t>(room: u32, tokens: Tokens<'t>) -> Parsed<'t, Call<'t>>
    ensures gives { Gives (λ x. (call_view x.0, x.1.now)) result (at reset_call_rule room tokens.now) }
    ensures shorter { IfOk result (λ x. length x.1.now < length tokens.now) }
{
    let (next, rest) = contextual(Contextual::Reset, tokens)?;
    let (open, _, rest) = deeper(room, Sign::OpenRound, rest)?;
    let (close, rest) = sign(Sign::CloseRound, rest)?;
    Ok((Call::Reset(next.at, open.at, close.at), rest))
}

/// cellcall = ("writeEF" | "writeFF" | "writeXF") "(" expr ")" | ("reset" | "readFE" | "readFF") "(" ")"
#[tactic(auto, unfolding(dpl_spelling::specs::Statements::cell_call, dpl_spelling::specs::Statements::reset_call))]
fn cell_call<'t>(arena: Arena<'t>, room: u32, tokens: Tokens<'t>) -> Parsed<'t, Call<'t>>
    ensures gives { Gives (λ x. (call_view x.0, x.1.now)) result (at cell_call_rule room tokens.now) }
    ensures shorter { IfOk result (λ x. length x.1.now < length tokens.now) }
{
    if is_contextual(tokens, Contextual::WriteEF) {
        write_call(arena, room, Contextual::WriteEF, WriteWord::WriteEF, tokens)
    } else if is_contextual(tokens, Contextual::WriteFF) {
        write_call(arena, room, Contextual::WriteFF, WriteWord::WriteFF, tokens)
    } else if is_contextual(tokens, Contextual::WriteXF) {
        write_call(arena, room, Contextual::WriteXF, WriteWord::WriteXF, tokens)
    } else if is_contextual(tokens, Contextual::Reset) {
        reset_call(room, tokens)
    } else if is_contextual(tokens, Contextual::ReadFE) {
        read_call(room, Contextual::ReadFE, ReadWord::ReadFE, tokens)
    } else {
        read_call(room, Contextual::ReadFF, ReadWord::ReadFF, tokens)
    }
}

/// "." cellcall ";", behind a cell's name
#[tactic(auto, unfolding(dpl_spelling::specs::Parts::told, dpl_spelling::specs::Statements::call_end))]
fn call_end<'t>(
    arena: Arena<'t>,
    room: u32,
    name: Name<'t>,
    tokens: Tokens<'t>,
) -> Parsed<'t, Stmt<'t>>
    ensures gives { Gives (λ x. (stmt_view x.0, x.1.now)) result (at (told (name_view name.entry) call_end_rule) room tokens.now) }
    ensures shorter { IfOk result (λ x. length x.1.now < length tokens.now) }
{
    let (dot, rest) = sign(Sign::Dot, tokens)?;
    let (call, rest) = cell_call(arena, room, rest)?;
    let (semicolon, rest) = sign(Sign::Semicolon, rest)?;
    let call = CellCall {
        name,
        dot: dot.at,
        call,
        semicolon: semicolon.at,
    };
    Ok((Stmt::Call(arena.node(call)?), rest))
}

/// target assignop item ";" | name "." cellcall ";"
#[tactic(auto, unfolding(dpl_spelling::specs::Parts::told, dpl_spelling::specs::Statements::named_statement, dpl_spelling::specs::Statements::call_end))]
pub fn named_statement<'t>(arena: Arena<'t>, room: u32, tokens: Tokens<'t>) -> Parsed<'t, Stmt<'t>>
    ensures gives { Gives (λ x. (stmt_view x.0, x.1.now)) result (at named_statement_rule room tokens.now) }
    ensures shorter { IfOk result (λ x. length x.1.now < length tokens.now) }
{
    let (name, rest) = name(tokens)?;
    if is_sign(rest, Sign::Dot) {
        call_end(arena, room, name, rest)
    } else {
        assignment_end(arena, room, name, rest)
    }
}
