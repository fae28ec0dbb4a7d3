// The maps of domains, and their arguments: a function for each rule of the grammar.
// What an argument's name may be is told by the value that stands there, behind which `=` may follow.

ghost use Rattle.std.specs.Prelude.{◌≡◌, ◌+◌, ◌<◌, ◌≤◌, length, IfOk};
ghost use Rattle.dpl_language.specs.Phrases.{bare_name};
ghost use Rattle.dpl_grammar.specs.Gives.{Gives};
ghost use Rattle.dpl_grammar.specs.Rule.{maybe};
ghost use Rattle.dpl_tree.specs.View.{expr_view, item_view};
ghost use Rattle.dpl_tree.specs.Declarations.{optional, start_view, map_view, mapped_view};
ghost use Rattle.dpl_spelling.specs.Declarations.{item_name, start_name, box_argument as box_argument_rule, start_argument as start_argument_rule};
ghost use Rattle.dpl_spelling.specs.Declarations.{block_map as block_map_rule, cyclic_map as cyclic_map_rule, block_cyclic_map as block_cyclic_map_rule};
ghost use Rattle.dpl_spelling.specs.Declarations.{map as map_rule, mapped as mapped_rule};
ghost use Rattle.dpl_spelling.specs.Parts.{place_of_word as word_place, told};
ghost use Rattle.dpl_statements.specs.Nodes.{argument_part};
ghost use Rattle.dpl_spelling.specs.Reading.{at};

use crate::start::start;
use dpl_expressions::item::item;
use dpl_expressions::token::{Parsed, Tokens, deeper, is_keyword, is_sign, keyword, sign};
use dpl_syntax::{Contextual, Keyword, Place, Sign, Token};
use dpl_tree::{
    Arena, ArgumentName, BlockCyclicMap, BlockMap, CyclicMap, Expr, Item, Map, Mapped, Start,
};

/// Where the expression stands, if it is the word alone.
fn place_of_word(expr: &Expr<'_>, word: Contextual) -> Option<Place>
    ensures { result ≡ word_place word (bare_name (expr_view expr.now)) }
{
    match expr {
        Expr::Named(name) if name.text == word.text() => Some(name.at),
        _ => None,
    }
}

/// The same of an item.
fn item_word(item: &Item<'_>, word: Contextual) -> Option<Place>
    ensures { result ≡ word_place word (item_name (item_view item.now)) }
{
    match item {
        Item::One(expr) => place_of_word(expr, word),
        Item::Range(_) => None,
    }
}

/// The same of where a map starts.
fn start_word(start: &Start<'_>, word: Contextual) -> Option<Place>
    ensures { result ≡ word_place word (start_name (start_view start.now)) }
{
    match start {
        Start::Expr(expr) => place_of_word(expr, word),
        Start::Tuple { .. } => None,
    }
}

/// [ "boundingBox" "=" ] item, in a bracket in which there is so much room
#[tactic(auto, using(dpl_spelling::proofs::Below::below_item), unfolding(dpl_spelling::specs::Declarations::box_argument, dpl_spelling::specs::Declarations::argument_end))]
fn box_argument<'t>(
    arena: Arena<'t>,
    room: u32,
    tokens: Tokens<'t>,
) -> Parsed<'t, (Option<ArgumentName>, Item<'t>)>
    ensures gives { Gives (λ x. (argument_part x.0.0 (item_view x.0.1), x.1.now)) result (at box_argument_rule (room + 1) tokens.now) }
    ensures shorter { IfOk result (λ x. length x.1.now < length tokens.now) }
{
    let (first, rest) = item(arena, room, tokens)?;
    match item_word(&first, Contextual::BoundingBox) {
        Some(at) if is_sign(rest, Sign::Assign) => {
            let (equals, rest) = sign(Sign::Assign, rest)?;
            let (value, rest) = item(arena, room, rest)?;
            Ok((
                (
                    Some(ArgumentName {
                        at,
                        equals: equals.at,
                    }),
                    value,
                ),
                rest,
            ))
        }
        _ => Ok(((None, first), rest)),
    }
}

/// [ word "=" ] start, in a bracket in which there is so much room
#[tactic(auto, using(dpl_spelling::proofs::Below::below_start), unfolding(dpl_spelling::specs::Declarations::start_argument, dpl_spelling::specs::Declarations::argument_end))]
fn start_argument<'t>(
    arena: Arena<'t>,
    room: u32,
    word: Contextual,
    tokens: Tokens<'t>,
) -> Parsed<'t, (Option<ArgumentName>, Start<'t>)>
    ensures gives { Gives (λ x. (argument_part x.0.0 (start_view x.0.1), x.1.now)) result (at (start_argument_rule word) (room + 1) tokens.now) }
    ensures shorter { IfOk result (λ x. length x.1.now < length tokens.now) }
{
    let (first, rest) = start(arena, room, tokens)?;
    match start_word(&first, word) {
        Some(at) if is_sign(rest, Sign::Assign) => {
            let (equals, rest) = sign(Sign::Assign, rest)?;
            let (value, rest) = start(arena, room, rest)?;
            Ok((
                (
                    Some(ArgumentName {
                        at,
                        equals: equals.at,
                    }),
                    value,
                ),
                rest,
            ))
        }
        _ => Ok(((None, first), rest)),
    }
}

/// "blockDist" "(" [ "boundingBox" "=" ] item ")", behind `new`
#[tactic(auto, unfolding(dpl_spelling::specs::Parts::told, dpl_spelling::specs::Declarations::block_map))]
fn block_map<'t>(arena: Arena<'t>, room: u32, new: Place, tokens: Tokens<'t>) -> Parsed<'t, Map<'t>>
    ensures gives { Gives (λ x. (map_view x.0, x.1.now)) result (at (told new block_map_rule) room tokens.now) }
    ensures shorter { IfOk result (λ x. length x.1.now < length tokens.now) }
{
    let (word, rest) = keyword(Keyword::BlockDist, tokens)?;
    let (open, room, rest) = deeper(room, Sign::OpenRound, rest)?;
    let ((argument, bounding_box), rest) = box_argument(arena, room, rest)?;
    let (close, rest) = sign(Sign::CloseRound, rest)?;
    let map = BlockMap {
        new,
        word: word.at,
        from: open.at,
        argument,
        bounding_box,
        upto: close.at,
    };
    Ok((Map::Block(map), rest))
}

/// "cyclicDist" "(" [ "startIdx" "=" ] start ")", behind `new`
#[tactic(auto, unfolding(dpl_spelling::specs::Parts::told, dpl_spelling::specs::Declarations::cyclic_map))]
fn cyclic_map<'t>(
    arena: Arena<'t>,
    room: u32,
    new: Place,
    tokens: Tokens<'t>,
) -> Parsed<'t, Map<'t>>
    ensures gives { Gives (λ x. (map_view x.0, x.1.now)) result (at (told new cyclic_map_rule) room tokens.now) }
    ensures shorter { IfOk result (λ x. length x.1.now < length tokens.now) }
{
    let (word, rest) = keyword(Keyword::CyclicDist, tokens)?;
    let (open, room, rest) = deeper(room, Sign::OpenRound, rest)?;
    let ((argument, start), rest) = start_argument(arena, room, Contextual::StartIdx, rest)?;
    let (close, rest) = sign(Sign::CloseRound, rest)?;
    let map = CyclicMap {
        new,
        word: word.at,
        from: open.at,
        argument,
        start,
        upto: close.at,
    };
    Ok((Map::Cyclic(map), rest))
}

/// "blockCycDist" "(" [ "startIdx" "=" ] start "," [ "blocksize" "=" ] start ")", behind `new`
#[tactic(auto, unfolding(dpl_spelling::specs::Parts::told, dpl_spelling::specs::Declarations::block_cyclic_map))]
fn block_cyclic_map<'t>(
    arena: Arena<'t>,
    room: u32,
    new: Place,
    tokens: Tokens<'t>,
) -> Parsed<'t, Map<'t>>
    ensures gives { Gives (λ x. (map_view x.0, x.1.now)) result (at (told new block_cyclic_map_rule) room tokens.now) }
    ensures shorter { IfOk result (λ x. length x.1.now < length tokens.now) }
{
    let (word, rest) = keyword(Keyword::BlockCycDist, tokens)?;
    let (open, room, rest) = deeper(room, Sign::OpenRound, rest)?;
    let ((start_name, start), rest) = start_argument(arena, room, Contextual::StartIdx, rest)?;
    let (comma, rest) = sign(Sign::Comma, rest)?;
    let ((size_name, size), rest) = start_argument(arena, room, Contextual::Blocksize, rest)?;
    let (close, rest) = sign(Sign::CloseRound, rest)?;
    let map = BlockCyclicMap {
        new,
        word: word.at,
        from: open.at,
        start_argument: start_name,
        start,
        comma: comma.at,
        size_argument: size_name,
        size,
        upto: close.at,
    };
    Ok((Map::BlockCyclic(map), rest))
}

/// map = "new" "blockDist" .. | "new" "cyclicDist" .. | "new" "blockCycDist" ..
#[tactic(auto, unfolding(dpl_spelling::specs::Parts::told, dpl_spelling::specs::Declarations::map, dpl_spelling::specs::Declarations::block_map, dpl_spelling::specs::Declarations::cyclic_map))]
fn map<'t>(arena: Arena<'t>, room: u32, tokens: Tokens<'t>) -> Parsed<'t, Map<'t>>
    ensures gives { Gives (λ x. (map_view x.0, x.1.now)) result (at map_rule room tokens.now) }
    ensures shorter { IfOk result (λ x. length x.1.now < length tokens.now) }
{
    let (new, rest) = keyword(Keyword::New, tokens)?;
    if is_keyword(rest, Keyword::BlockDist) {
        block_map(arena, room, new.at, rest)
    } else if is_keyword(rest, Keyword::CyclicDist) {
        cyclic_map(arena, room, new.at, rest)
    } else {
        block_cyclic_map(arena, room, new.at, rest)
    }
}

/// "dmapped" map
#[tactic(auto, unfolding(dpl_spelling::specs::Declarations::mapped))]
fn mapped<'t>(arena: Arena<'t>, room: u32, tokens: Tokens<'t>) -> Parsed<'t, Mapped<'t>>
    ensures gives { Gives (λ x. (mapped_view x.0, x.1.now)) result (at mapped_rule room tokens.now) }
    ensures shorter { IfOk result (λ x. length x.1.now < length tokens.now) }
{
    let (word, rest) = keyword(Keyword::Dmapped, tokens)?;
    let (map, rest) = map(arena, room, rest)?;
    Ok((Mapped { at: word.at, map }, rest))
}

/// [ "dmapped" map ]
#[tactic(auto, unfolding(dpl_spelling::specs::Declarations::mapped))]
pub fn maybe_mapped<'t>(
    arena: Arena<'t>,
    room: u32,
    tokens: Tokens<'t>,
) -> Parsed<'t, Option<Mapped<'t>>>
    ensures gives { Gives (λ x. (optional mapped_view x.0, x.1.now)) result (at (maybe mapped_rule) room tokens.now) }
    ensures shorter { IfOk result (λ x. length x.1.now ≤ length tokens.now) }
{
    if !is_keyword(tokens, Keyword::Dmapped) {
        return Ok((None, tokens));
    }
    let (mapped, rest) = mapped(arena, room, tokens)?;
    Ok((Some(mapped), rest))
}
