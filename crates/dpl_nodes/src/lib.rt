// Typed trees: what a checked program is run from, each seen as a plain tree over slots.
// Nothing here has a name, a bracket or a place that no fault tells, and nothing ill typed can be written down.
// A typed tree is seen as a desugared one over slots (`step_view`, and `typed_view` of dpl_typed), and elaboration (dpl_checker) promises
// that it is the program's. So there is one meaning, that of plain trees, and contracts speak of no other.
#![tactic(auto)]

pub mod fold;
pub mod placing;
pub mod spot;
pub mod step;
pub mod stop;
pub mod tree;

pub use fold::{Fold, IntFold, TruthFold};
pub use placing::{MapExpr, Placing, StartExpr};
pub use spot::Spot;
pub use step::{
    Argument, ArrayDeclaration, ArrayName, Beginning, Changed, DeclaredOver, DomainName, Else,
    Initial, IntDeed, Intent, Names, Rank, Step, StepWord, TruthDeed, TruthTarget,
};
pub use stop::NoNode;
pub use tree::{
    BoolExpr, Comparison, DomainExpr, DomainMethod, DomainPost, Dots, IndexExpr, IntExpr, IntLink,
    IntOperator, Junction, PromotedInt, PromotedIntLink, PromotedTruth, PromotedTruthLink,
    RangeCut, RangeExpr, RangeMethod, RangesExpr, Stride, TruthLink,
};
