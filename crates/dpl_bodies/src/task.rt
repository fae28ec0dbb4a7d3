// The rule on the body of a coforall, C10, deed by deed.
// A task writes no outer name.

ghost use Rattle.std.specs.Prelude.{◌≡◌, map};
ghost use Rattle.dpl_rules.specs.Bodies.{task_holds as task_holds_of, task_deed as task_deed_of, task_breaches as task_breaches_of};
ghost use Rattle.dpl_rules.specs.Breaches.{least_from};
ghost use Rattle.dpl_deeds.specs.View.{holding_view, deed_view};

use dpl_deeds::{Deed, Holding};
use dpl_syntax::{Breach, Code};
use dpl_types::owed;

// Whether a coforall's body may hold this.
fn holds(holding: Holding) -> bool
    ensures { result ≡ task_holds_of (holding_view holding) }
{
    match holding {
        Holding::CellCall | Holding::On | Holding::Here => true,
        Holding::Print
        | Holding::Forall
        | Holding::Coforall
        | Holding::Reduction
        | Holding::Declaration
        | Holding::ReduceIntent => false,
    }
}

// What one deed of a coforall's body breaks.
fn task_deed(depth: usize, deed: &Deed<'_>, first: &mut Option<Breach>)
    ensures { first.new ≡ least_from first.old (task_deed_of depth (deed_view deed.now)) }
{
    match deed {
        Deed::Reads(_, _) | Deed::ReadsAt(_, _, _) => {}
        Deed::Writes(at, declared, _) | Deed::WritesAt(at, declared, _, _) => {
            owed(
                declared.origin.depth > depth,
                *at,
                Code::NotInCoforall,
                first,
            );
        }
        Deed::Holds(at, holding) => {
            owed(holds(*holding), *at, Code::NotInCoforall, first);
        }
    }
}

/// Tells what the deeds of a coforall's intents and body break, where so many scopes are open around the coforall.
#[tactic(auto, using(dpl_types::proofs::Breaches::least_from_append))]
pub fn task_breaches(depth: usize, deeds: &[Deed<'_>], first: &mut Option<Breach>)
    ensures { first.new ≡ least_from first.old (task_breaches_of depth (map deed_view deeds.now)) }
{
    for deed in deeds {
        task_deed(depth, deed, first);
    }
}
