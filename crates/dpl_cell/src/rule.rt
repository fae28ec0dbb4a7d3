//! The rule of a board's words, told to the table that has them.
//! `specs/Rule.antt` says what it is.
use crate::view::View;
use atomic_table::TableRule;
use dpl_history::{CellOp, CellState};
use std::alloc::Global;

/// What a board is made with.
#[derive(Drop)]
pub(crate) struct Plan {
    pub(crate) cells: Vec<CellState, Global>,
    pub(crate) tasks: u64,
}

pub(crate) struct CellRule;

impl TableRule<CellOp, View, Plan> for CellRule {
    ghost use Rattle.dpl_cell.specs.Rule.{Keeps, first_view};

    ghost holds = { Keeps };

    ghost first = { first_view };
}
