// Which token of a text doesn't run yet: the first of the words of tasks.
// specs/Classes.antt of dpl_grammar says which words these are.
#![tactic(auto)]

ghost use Rattle.std.specs.Prelude.{◌≡◌};
ghost use Rattle.dpl_grammar.specs.Classes.{in_class, task_words, first_of};

use dpl_syntax::{Keyword, Kind, Place, Token};

// A program needs such a word to name a locale, a task or a cell.
fn is_task_word(token: &Token<'_>) -> bool
    ensures { result ≡ in_class task_words token.now }
{
    match token.kind {
        Kind::Keyword(word) => matches!(
            word,
            Keyword::Coforall
                | Keyword::On
                | Keyword::Sync
                | Keyword::Locales
                | Keyword::NumLocales
                | Keyword::Here
        ),
        _ => false,
    }
}

/// Where the first token of a text stands that needs what doesn't run yet: locales, tasks or cells.
/// None, if all of it runs.
pub fn closed(tokens: &[Token<'_>]) -> Option<Place>
    ensures { result ≡ first_of task_words tokens.now }
{
    for token in tokens {
        if is_task_word(token) {
            return Some(token.at);
        }
    }
    None
}
