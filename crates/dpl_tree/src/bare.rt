// What an expression is by itself: a bare name, or no such thing.
// A name in round brackets is none.

ghost use Rattle.std.specs.Prelude.{◌≡◌, option_map};
ghost use Rattle.dpl_language.specs.Phrases.{bare_name};
ghost use Rattle.dpl_tree.specs.View.{name_view, expr_view};

use crate::expression::{Expr, Name};

impl<'t> Expr<'t> {
    /// The bare name that the expression is.
    pub fn bare_name(&self) -> Option<&Name<'t>>
        ensures { option_map (λ x. name_view x.now) result ≡ bare_name (expr_view self.now) }
    {
        match self {
            Expr::Named(name) => Some(name),
            Expr::Number(_, _)
            | Expr::Truth(_, _)
            | Expr::Locales(_)
            | Expr::LocaleCount(_)
            | Expr::Here(_)
            | Expr::Grouped { .. }
            | Expr::Domain { .. }
            | Expr::Prefixed { .. }
            | Expr::Reduced(_)
            | Expr::Chain(_)
            | Expr::Postfixed(_) => None,
        }
    }
}
