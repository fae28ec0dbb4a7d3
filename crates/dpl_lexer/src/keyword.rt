// Reserved and contextual words, found by their texts.
// Their texts stand in dpl_syntax.

ghost use Rattle.std.specs.Prelude.{◌≡◌, ◌≢◌, ◌<◌, IfSome, IfNone, true};
ghost use Rattle.dpl_syntax.specs.Gaps.{next_is};
ghost use Rattle.dpl_syntax.specs.Text.{is_letter};
ghost use Rattle.dpl_lexer.specs.Scan.{special_text, specials_before, special_at};
ghost use Rattle.dpl_lexer.specs.declared.keyword.Special.{Special};

use dpl_syntax::{Contextual, Keyword};

/// A word that is no name, or not everywhere.
#[derive(Clone, Copy)]
pub enum Special {
    Keyword(Keyword),
    Contextual(Contextual),
}

/// All of them, by their first bytes.
const SPECIALS: [Special; 59] = [
    Special::Contextual(Contextual::BlockDist),
    Special::Contextual(Contextual::BlockCycDist),
    Special::Contextual(Contextual::CyclicDist),
    Special::Keyword(Keyword::Locales),
    Special::Keyword(Keyword::Bool),
    Special::Keyword(Keyword::By),
    Special::Keyword(Keyword::BlockCycDist),
    Special::Keyword(Keyword::BlockDist),
    Special::Contextual(Contextual::BoundingBox),
    Special::Contextual(Contextual::Blocksize),
    Special::Keyword(Keyword::Config),
    Special::Keyword(Keyword::Const),
    Special::Keyword(Keyword::Coforall),
    Special::Keyword(Keyword::CyclicDist),
    Special::Contextual(Contextual::CreateDomain),
    Special::Contextual(Contextual::Contains),
    Special::Keyword(Keyword::Dmapped),
    Special::Keyword(Keyword::Do),
    Special::Keyword(Keyword::Domain),
    Special::Contextual(Contextual::Dim),
    Special::Keyword(Keyword::Else),
    Special::Contextual(Contextual::Expand),
    Special::Keyword(Keyword::False),
    Special::Keyword(Keyword::For),
    Special::Keyword(Keyword::Forall),
    Special::Contextual(Contextual::First),
    Special::Keyword(Keyword::Here),
    Special::Contextual(Contextual::High),
    Special::Keyword(Keyword::If),
    Special::Keyword(Keyword::In),
    Special::Keyword(Keyword::Int),
    Special::Contextual(Contextual::Id),
    Special::Contextual(Contextual::Last),
    Special::Contextual(Contextual::Low),
    Special::Contextual(Contextual::LowBound),
    Special::Keyword(Keyword::Max),
    Special::Keyword(Keyword::Min),
    Special::Keyword(Keyword::New),
    Special::Keyword(Keyword::NumLocales),
    Special::Keyword(Keyword::On),
    Special::Keyword(Keyword::Reduce),
    Special::Keyword(Keyword::Ref),
    Special::Contextual(Contextual::Reset),
    Special::Contextual(Contextual::ReadFE),
    Special::Contextual(Contextual::ReadFF),
    Special::Keyword(Keyword::Sync),
    Special::Contextual(Contextual::StartIdx),
    Special::Contextual(Contextual::Size),
    Special::Keyword(Keyword::Then),
    Special::Keyword(Keyword::True),
    Special::Keyword(Keyword::Use),
    Special::Keyword(Keyword::Var),
    Special::Keyword(Keyword::While),
    Special::Keyword(Keyword::With),
    Special::Keyword(Keyword::Write),
    Special::Keyword(Keyword::Writeln),
    Special::Contextual(Contextual::WriteEF),
    Special::Contextual(Contextual::WriteFF),
    Special::Contextual(Contextual::WriteXF),
];

/// How many of them begin with a byte before A, and so on up to the byte after z.
const BEFORE: [usize; 59] = [
    0, 0, 2, 3, 3, 3, 3, 3, 3, 3, 3, 3, 4, 4, 4, 4, 4, 4, 4, 4, 4, 4, 4, 4, 4, 4, 4, 4, 4, 4, 4, 4,
    4, 4, 10, 16, 20, 22, 26, 26, 28, 32, 32, 32, 35, 37, 39, 40, 40, 40, 45, 48, 50, 51, 52, 59,
    59, 59, 59,
];

/// How one of them is spelled.
fn special_text(special: Special) -> &'static [u8]
    ensures { result.now ≡ special_text special }
{
    match special {
        Special::Keyword(keyword) => keyword.text(),
        Special::Contextual(word) => word.text(),
    }
}

/// How many of them begin with a byte before the letter, which is counted from A.
#[tactic(auto, unfolding(crate::specs::Scan::specials_before))]
fn specials_before(letter: usize) -> usize
    requires { letter < 59 }
    ensures { result ≡ specials_before letter }
{
    BEFORE[letter]
}

/// One of them by its place.
#[tactic(auto, unfolding(crate::specs::Scan::special_at))]
fn special_at(place: usize) -> Special
    requires { place < 59 }
    ensures { result ≡ special_at place }
{
    SPECIALS[place]
}

/// Which of them a word is, if it is one.
pub fn special_of(word: &[u8]) -> Option<Special>
    requires { next_is is_letter word.now ≡ true }
    ensures some { IfSome result (λ s. word.now ≡ special_text s) }
    ensures none { IfNone result ((s : Special) → word.now ≢ special_text s) }
{
    let letter = usize::from(word[0] - b'A');
    let from = specials_before(letter);
    let upto = specials_before(letter + 1);
    for i in from..upto {
        let special = special_at(i);
        if special_text(special) == word {
            return Some(special);
        }
    }
    None
}
