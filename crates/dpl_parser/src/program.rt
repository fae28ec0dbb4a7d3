// Programs: the rule of the grammar that the whole text is read by, and what a parse promises.
// Below it a function for each rule of `use` lines and of what stands at the top.

ghost use Rattle.std.specs.Prelude.{◌≡◌, ◌⊎◌, ◌++◌, ◌<◌, ◌≤◌, ℕ, length, map, IfOk, IfErr, IsErrOf};
ghost use Rattle.dpl_syntax.specs.declared.refusal.Refusal.{Refusal};
ghost use Rattle.dpl_grammar.specs.Classes.{contextual as contextual_class, keyword as keyword_class};
ghost use Rattle.dpl_grammar.specs.Reader.{next_in};
ghost use Rattle.dpl_grammar.specs.Gives.{Gives};
ghost use Rattle.dpl_grammar.specs.Rule.{many};
ghost use Rattle.dpl_tree.specs.Statements.{module_name_view, next_module_view, use_view, stmt_view, program_view};
ghost use Rattle.dpl_spelling.specs.Nested.{begins, StatementBelow};
ghost use Rattle.dpl_spelling.specs.Expressions.{after_comma};
ghost use Rattle.dpl_spelling.specs.Grammar.{Program as Spelled, used as used_rule, module_name as module_name_rule, use_line as use_line_rule, top as top_rule};
ghost use Rattle.dpl_spelling.specs.Grammar.{program as program_rule};
ghost use Rattle.dpl_spelling.specs.Reading.{at};
ghost use Rattle.dpl_spelling.specs.Theorem.{Spells, Refuses};

use dpl_expressions::token::{
    Parsed, Tokens, contextual, end, is_contextual, is_keyword, is_sign, keyword, passed_on, sign,
    unexpected,
};
use dpl_statements::begins::begins_statement;
use dpl_statements::declaration::config_declaration;
use dpl_statements::statement::statement;
use dpl_syntax::{Contextual, Keyword, Refusal, Sign, Stop, Token};
use dpl_tree::{Arena, Module, ModuleName, NextModule, Program, Stmt, Use};

/// Why tokens give no tree: `P1` or `P2`, or out of memory. The refusal has no place where the tokens stop without the
/// end of the text.
pub type ParseStop = Stop;

/// How many levels of nesting a program may have.
const LEVELS: u32 = 64;

/// The tree that the tokens spell.
///
/// All tokens are read, and the last of them is the end of the text. Brackets, prefix operators and bodies nest at
/// most 64 levels deep; a body that is a block goes no deeper than the block.
///
/// # Errors
/// The refusal of the tokens: `P1` at the first one with which they begin no program, or `P2` at the first one
/// that goes 65 levels deep, whichever is earlier, and `P1` where both are at one token. Or out of memory.
pub fn parse<'t>(arena: Arena<'t>, tokens: Tokens<'t>) -> Result<Program<'t>, ParseStop>
    // What is read is spelled so.
    ensures found { IfOk result (λ tree. Spells 64 tokens.now (program_view tree)) }
    // Nothing else is spelled so, in whatever number of levels.
    ensures only { IfOk result (λ tree. (d : ℕ) (t : Spelled) → Spells d tokens.now t → program_view tree ≡ t) }
    // What is spelled is read, unless memory runs out.
    ensures complete { IfErr result (λ stop. (t : Spelled) → Spells 64 tokens.now t → stop ≡ Stop.Memory) }
    // A refusal is that of the tokens.
    ensures refused { (refusal : Refusal) → IsErrOf result (Stop.Refused refusal) → Refuses tokens.now refusal }
    // The refusal of the tokens is told, unless memory runs out.
    ensures told { (refusal : Refusal) → Refuses tokens.now refusal → IsErrOf result (Stop.Refused refusal) ⊎ IsErrOf result Stop.Memory }
{
    let (tree, rest) = program(arena, LEVELS, tokens)?;
    if rest.is_empty() {
        Ok(tree)
    } else {
        Err(unexpected(rest))
    }
}

/// A module's name, by its word.
fn used(wanted: Contextual, word: Module, tokens: Tokens<'_>) -> Parsed<'_, ModuleName>
    ensures gives { Gives (λ x. (module_name_view x.0, x.1.now)) result (at (used_rule (contextual_class wanted) word) 0 tokens.now) }
    ensures shorter { IfOk result (λ x. length x.1.now < length tokens.now) }
{
    let (next, rest) = contextual(wanted, tokens)?;
    Ok((ModuleName { at: next.at, word }, rest))
}

/// module = "BlockDist" | "CyclicDist" | "BlockCycDist"
#[tactic(auto, unfolding(dpl_spelling::specs::Grammar::module_name))]
fn module_name(tokens: Tokens<'_>) -> Parsed<'_, ModuleName>
    ensures gives { Gives (λ x. (module_name_view x.0, x.1.now)) result (at module_name_rule 0 tokens.now) }
    ensures shorter { IfOk result (λ x. length x.1.now < length tokens.now) }
{
    if is_contextual(tokens, Contextual::BlockDist) {
        used(Contextual::BlockDist, Module::Block, tokens)
    } else if is_contextual(tokens, Contextual::CyclicDist) {
        used(Contextual::CyclicDist, Module::Cyclic, tokens)
    } else {
        used(Contextual::BlockCycDist, Module::BlockCyclic, tokens)
    }
}

/// "," module
#[tactic(auto, unfolding(dpl_spelling::specs::Expressions::after_comma))]
fn next_module(tokens: Tokens<'_>) -> Parsed<'_, NextModule>
    ensures gives { Gives (λ x. (next_module_view x.0, x.1.now)) result (at (after_comma module_name_rule) 0 tokens.now) }
    ensures shorter { IfOk result (λ x. length x.1.now < length tokens.now) }
{
    let (comma, rest) = sign(Sign::Comma, tokens)?;
    let (module, rest) = module_name(rest)?;
    let next = NextModule {
        comma: comma.at,
        module,
    };
    Ok((next, rest))
}

/// { "," module }
fn other_modules<'t>(arena: Arena<'t>, tokens: Tokens<'t>) -> Parsed<'t, &'t [NextModule]>
    ensures gives { Gives (λ x. (map next_module_view x.0.now, x.1.now)) result (at (many (after_comma module_name_rule)) 0 tokens.now) }
    ensures shorter { IfOk result (λ x. length x.1.now ≤ length tokens.now) }
{
    let mut others = Vec::new(arena.alloc());
    let mut rest = tokens;
    'each: while is_sign(rest, Sign::Comma) {
        let (other, after) = next_module(rest)?;
        others.push(other)?;
        rest = passed_on(after);
    }
    Ok((arena.list(others)?, rest))
}

/// use = "use" module { "," module } ";"
#[tactic(auto, unfolding(dpl_spelling::specs::Grammar::use_line, dpl_spelling::specs::Expressions::listed))]
fn use_line<'t>(arena: Arena<'t>, tokens: Tokens<'t>) -> Parsed<'t, Use<'t>>
    ensures gives { Gives (λ x. (use_view x.0, x.1.now)) result (at use_line_rule 0 tokens.now) }
    ensures shorter { IfOk result (λ x. length x.1.now < length tokens.now) }
{
    let (word, rest) = keyword(Keyword::Use, tokens)?;
    let (first, rest) = module_name(rest)?;
    let (others, rest) = other_modules(arena, rest)?;
    let (semicolon, rest) = sign(Sign::Semicolon, rest)?;
    let line = Use {
        at: word.at,
        first,
        others,
        semicolon: semicolon.at,
    };
    Ok((line, rest))
}

/// { use }
fn use_lines<'t>(arena: Arena<'t>, tokens: Tokens<'t>) -> Parsed<'t, &'t [Use<'t>]>
    ensures { Gives (λ x. (map use_view x.0.now, x.1.now)) result (at (many use_line_rule) 0 tokens.now) }
{
    let mut lines = Vec::new(arena.alloc());
    let mut rest = tokens;
    'each: while is_keyword(rest, Keyword::Use) {
        let (line, after) = use_line(arena, rest)?;
        lines.push(line)?;
        rest = passed_on(after);
    }
    Ok((arena.list(lines)?, rest))
}

/// Whether the next token begins a statement of the program itself.
#[tactic(auto, using(dpl_grammar::proofs::Classes::next_in_either))]
fn begins_top(tokens: Tokens<'_>) -> bool
    ensures { result ≡ next_in (begins StatementBelow ++ keyword_class Keyword.Config) tokens.now }
{
    begins_statement(tokens) || is_keyword(tokens, Keyword::Config)
}

/// top = stmt | "config" "const" declrest
#[tactic(auto, using(dpl_spelling::proofs::Ways::read_top))]
fn top<'t>(arena: Arena<'t>, room: u32, tokens: Tokens<'t>) -> Parsed<'t, Stmt<'t>>
    ensures gives { Gives (λ x. (stmt_view x.0, x.1.now)) result (at top_rule room tokens.now) }
    ensures shorter { IfOk result (λ x. length x.1.now < length tokens.now) }
{
    if begins_statement(tokens) {
        statement(arena, room, tokens)
    } else {
        config_declaration(arena, room, tokens)
    }
}

/// { top }
fn tops<'t>(arena: Arena<'t>, room: u32, tokens: Tokens<'t>) -> Parsed<'t, &'t [Stmt<'t>]>
    ensures { Gives (λ x. (map stmt_view x.0.now, x.1.now)) result (at (many top_rule) room tokens.now) }
{
    let mut stmts = Vec::new(arena.alloc());
    let mut rest = tokens;
    'each: while begins_top(rest) {
        let (stmt, after) = top(arena, room, rest)?;
        stmts.push(stmt)?;
        rest = passed_on(after);
    }
    Ok((arena.list(stmts)?, rest))
}

/// program = { use } { top } END
#[tactic(auto, using(dpl_statements::proofs::Blocks::stmts_of_view, dpl_spelling::proofs::Ways::read_uses), unfolding(dpl_spelling::specs::Grammar::program, dpl_spelling::specs::Grammar::tops))]
fn program<'t>(arena: Arena<'t>, room: u32, tokens: Tokens<'t>) -> Parsed<'t, Program<'t>>
    ensures { Gives (λ x. (program_view x.0, x.1.now)) result (at program_rule room tokens.now) }
{
    let (uses, rest) = use_lines(arena, tokens)?;
    let (stmts, rest) = tops(arena, room, rest)?;
    let (end, rest) = end(rest)?;
    let program = Program {
        uses,
        stmts,
        end: end.at,
    };
    Ok((program, rest))
}
