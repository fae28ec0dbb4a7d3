//! A seat at a board: what a task acts with.
//! It has no bytes. What it knows of the board is for the proofs.
use crate::view::View;
use dpl_history::CellOp;
use std::marker::Model;

pub(crate) type Token = atomic_table::Seat<CellOp, View>;

/// What one task, or the gatherer, acts with. A seat may go to another thread.
#[derive(Drop)]
pub struct Seat {
    pub(crate) token: Token,
}

// Between two calls a seat holds no cell, and acts as one of the numbers for which it answers.
impl Model for Seat {
    ghost use Rattle.std.specs.Prelude.{◌≡◌, None, []};
    ghost use Rattle.dpl_cell.specs.Seats.{SeatValue, Has};
    ghost use Rattle.dpl_cell.specs.Shown.{shown_seat};

    ghost Value = { SeatValue };

    ghost view = { λ s. shown_seat s.token.table_id s.token.me.0 };

    ghost invariant = { λ s. (s.token.me.0.held ≡ None) × (s.token.me.1 ≡ []) × Has s.token.me.0.number s.token.me.0.numbers };
}
