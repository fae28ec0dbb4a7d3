// Expressions, in one walk: the type of each and where it breaks the rules on names, types and ranks; what it does that a loop around it
// may forbid; and, where there is a type, the node that is run, which stands for the lowered tree over the slots of its names.
#![tactic(auto)]

pub mod expression;
mod inside;
