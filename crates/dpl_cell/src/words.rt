//! The words of a board's cells, and the steps of a seat's token on them.
//! Of n cells, word c is the state of cell c, word n + c its value, and one last word is there for a board without cells.
ghost use Rattle.std.specs.Prelude.{◌≡◌, ◌≢◌, ℕ, ◌+◌, ◌<◌, [], ◌∷◌, length, vec_len, All, None, Some, MatchResult, IfOk};
ghost use Rattle.std.specs.Int.{w64, cast_signed};
ghost use Rattle.dpl_history.specs.Cells.{effect};
ghost use Rattle.dpl_history.specs.Histories.{legal, Legal, AllUpTo};
ghost use Rattle.dpl_history.specs.Looks.{fits, Agrees};
ghost use Rattle.dpl_cell.specs.Seats.{Has, AnswersForAll};
ghost use Rattle.dpl_cell.specs.Calls.{Joined};
ghost use Rattle.dpl_cell.specs.Rule.{cell_of, first_view, numbers_from, AreOpening};
ghost use Rattle.dpl_cell.specs.Steps.{hold, SeesMiss, Took, Ends, Publishes, without_first, with_first};
ghost use Rattle.dpl_history.specs.declared.cell.CellState.{CellState};
ghost use Rattle.dpl_history.specs.declared.cell.Reply.{Reply};
ghost use Rattle.dpl_cell.specs.Shown.{shown_seat};
ghost use Rattle.dpl_cell.specs.declared.view.Hold.{Hold};

use crate::rule::{CellRule, Plan};
use crate::seat::Token;
use crate::steps::{Gather, GiveFirst, Look, Publish, ReadValue, Seize, Take, Vouch, WriteValue};
use crate::view::View;
use atomic_table::Table;
use dpl_history::{CellOp, CellState, Reply, apply};
use std::alloc::{AllocError, Global};

// The words of a state: empty, full, and busy while a seat holds the cell.
const EMPTY: u64 = 0;

const FULL: u64 = 1;

const BUSY: u64 = 2;

#[derive(Drop)]
pub(crate) struct Words {
    table: Table<CellOp, View, Plan, CellRule, Global>,
    count: usize,
    ghost sized: { count ≡ length table.shared.key.cells.items },
    ghost wide: { table.shared.table_id.words ≡ count + count + 1 },
    ghost flat: { table.shared.table_id.slots ≡ 0 },
}

impl Words {
    // The words of a plan's cells, and a token that answers for all its numbers.
    pub(crate) fn new(alloc: Global, plan: &Plan) -> Result<(Words, Token), AllocError>
        ensures words { IfOk result (λ w. w.0.table.shared.key ≡ plan.now) }
        ensures own { IfOk result (λ w. w.1.table_id ≡ w.0.table.shared.table_id) }
        ensures token { IfOk result (λ w. w.1.me ≡ (first_view plan.now, [])) }
    {
        let words = opening_words(alloc, &plan.cells)?;
        let (table, token) = Table::of_words(alloc, words.as_slice(), plan)?;
        Ok((
            Words {
                table,
                count: plan.cells.len(),
            },
            token,
        ))
    }

    // Gives the first of a token's numbers to a token of its own.
    pub(crate) fn split(&self, token: &mut Token) -> Token
        requires own { token.old.table_id ≡ self.now.table.shared.table_id }
        requires idle { token.old.me.0.held ≡ None }
        requires numbers { (k : ℕ) × (n : ℕ) × (token.old.me.0.numbers ≡ k ∷ numbers_from (k + 1) n) }
        ensures own { (token.new.table_id ≡ token.old.table_id) × (result.table_id ≡ token.old.table_id) }
        ensures left { token.new.me ≡ (without_first token.old.me.0, token.old.me.1) }
        ensures right { result.me ≡ (with_first token.old.me.0, []) }
    {
        self.table.shared.split_seat::<GiveFirst>(token)
    }

    // Whether the state word is `FIT`. Where it is not, that is a miss.
    fn look<const FIT: u64>(&self, token: &mut Token, cell: usize) -> Result<(), u64>
        requires own { token.old.table_id ≡ self.now.table.shared.table_id }
        requires cell { cell < self.now.count }
        requires acts { Has token.old.me.0.number token.old.me.0.numbers }
        ensures same { (token.new.table_id ≡ token.old.table_id) × (token.new.me.1 ≡ token.old.me.1) }
        ensures told { MatchResult result
            (λ _. token.new.me.0 ≡ token.old.me.0)
            (λ w. (w ≢ FIT) × SeesMiss token.old.me.0 cell w token.new.me.0) }
    {
        let found = self.table.shared.load::<Look<FIT>>(token, cell);
        if found == FIT { Ok(()) } else { Err(found) }
    }

    // Takes a cell whose state word is `FIT`, or misses. While a task waits it only looks, which leaves the word's cache
    // line shared.
    fn take<const FIT: u64>(&self, token: &mut Token, cell: usize) -> Result<u64, u64>
        requires own { token.old.table_id ≡ self.now.table.shared.table_id }
        requires cell { cell < self.now.count }
        requires state { FIT < 2 }
        requires idle { token.old.me.0.held ≡ None }
        requires acts { Has token.old.me.0.number token.old.me.0.numbers }
        ensures same { (token.new.table_id ≡ token.old.table_id) × (token.new.me.1 ≡ token.old.me.1) }
        ensures told { MatchResult result
            (λ w. (w ≡ FIT) × Took token.old.me.0 cell w token.new.me.0)
            (λ w. (w ≢ FIT) × SeesMiss token.old.me.0 cell w token.new.me.0) }
    {
        self.look::<FIT>(token, cell)?;
        let found = self
            .table
            .shared
            .compare_exchange::<Take>(token, cell, FIT, BUSY);
        if found == FIT { Ok(found) } else { Err(found) }
    }

    // Takes a cell that is not busy, or misses.
    fn seize(&self, token: &mut Token, cell: usize) -> Result<u64, u64>
        requires own { token.old.table_id ≡ self.now.table.shared.table_id }
        requires cell { cell < self.now.count }
        requires idle { token.old.me.0.held ≡ None }
        requires acts { Has token.old.me.0.number token.old.me.0.numbers }
        ensures same { (token.new.table_id ≡ token.old.table_id) × (token.new.me.1 ≡ token.old.me.1) }
        ensures told { MatchResult result
            (λ w. (w < 2) × Took token.old.me.0 cell w token.new.me.0)
            (λ w. (w ≡ 2) × SeesMiss token.old.me.0 cell w token.new.me.0) }
    {
        let found = self.table.shared.swap::<Seize>(token, cell, BUSY);
        if found == BUSY { Err(found) } else { Ok(found) }
    }

    // Takes the cell for an operation and answers its state word, or misses and answers what was seen.
    pub(crate) fn grab(&self, token: &mut Token, cell: usize, op: CellOp) -> Result<u64, u64>
        requires own { token.old.table_id ≡ self.now.table.shared.table_id }
        requires cell { cell < self.now.count }
        requires idle { token.old.me.0.held ≡ None }
        requires acts { Has token.old.me.0.number token.old.me.0.numbers }
        ensures same { (token.new.table_id ≡ token.old.table_id) × (token.new.me.1 ≡ token.old.me.1) }
        ensures told { MatchResult result
            (λ w. fits w op × Took token.old.me.0 cell w token.new.me.0)
            (λ w. (fits w op → ⊥) × SeesMiss token.old.me.0 cell w token.new.me.0) }
    {
        match op {
            CellOp::ReadFE | CellOp::ReadFF | CellOp::WriteFF(_) => self.take::<FULL>(token, cell),
            CellOp::WriteEF(_) => self.take::<EMPTY>(token, cell),
            CellOp::WriteXF(_) | CellOp::Reset => self.seize(token, cell),
        }
    }

    // The value word of the held cell.
    fn read(&self, token: &mut Token, cell: usize) -> u64
        requires own { token.old.table_id ≡ self.now.table.shared.table_id }
        requires cell { cell < self.now.count }
        requires held { (h : Hold) × (token.old.me.0.held ≡ Some h) × (h.cell ≡ cell) }
        ensures same { (token.new.table_id ≡ token.old.table_id) × (token.new.me ≡ token.old.me) }
        ensures read { (h : Hold) → token.old.me.0.held ≡ Some h → result ≡ h.value }
    {
        self.table
            .shared
            .load::<ReadValue>(token, self.count + cell)
    }

    // Writes the value word of the held cell.
    fn write(&self, token: &mut Token, cell: usize, value: u64)
        requires own { token.old.table_id ≡ self.now.table.shared.table_id }
        requires cell { cell < self.now.count }
        requires held { (h : Hold) × (token.old.me.0.held ≡ Some h) × (h.cell ≡ cell) }
        ensures same { token.new.table_id ≡ token.old.table_id }
        ensures held { (h : Hold) → token.old.me.0.held ≡ Some h
            → token.new.me ≡ (record token.old.me.0 { held = Some (record h { value = value }) }, token.old.me.1) }
    {
        self.table
            .shared
            .store::<WriteValue>(token, self.count + cell, value);
    }

    // Gives the held cell back, as the operation leaves it. The operation's event is made by this one step.
    fn publish(&self, token: &mut Token, cell: usize, state: u64, op: &CellOp)
        requires own { token.old.table_id ≡ self.now.table.shared.table_id }
        requires cell { cell < self.now.count }
        requires state { state < 2 }
        requires held { (h : Hold) × (c : CellState) × (r : Reply)
            × (token.old.me.0.held ≡ Some h) × (h.cell ≡ cell)
            × (effect op.now h.before ≡ Some (c, r)) × (c ≡ cell_of state h.value) }
        ensures same { token.new.table_id ≡ token.old.table_id }
        ensures told { Publishes token.old.me op.now token.new.me }
    {
        self.table
            .shared
            .compare_exchange_with::<Publish>(token, cell, BUSY, state, op);
    }

    // Does the operation on the held cell, whose state word was `state`, and gives it back.
    pub(crate) fn finish(&self, token: &mut Token, cell: usize, state: u64, op: CellOp) -> Reply
        requires own { token.old.table_id ≡ self.now.table.shared.table_id }
        requires cell { cell < self.now.count }
        requires fits { fits state op }
        requires held { (n : ℕ) × (token.old.me.0.held ≡ Some (hold cell (cell_of state n) n)) }
        ensures same { token.new.table_id ≡ token.old.table_id }
        ensures told { Ends token.old.me cell op result token.new.me }
    {
        let value = self.read(token, cell);
        let mut after = to_cell(state, value);
        let Some(reply) = apply(&mut after, op) else {
            unreachable!()
        };
        match after {
            CellState::Empty => self.publish(token, cell, EMPTY, &op),
            CellState::Full(left) => {
                self.write(token, cell, to_word(left));
                self.publish(token, cell, FULL, &op);
            }
        }
        reply
    }

    // The token takes in what another knows, and is told what the rule says of it.
    pub(crate) fn join(&self, token: &mut Token, other: Token)
        requires own { token.old.table_id ≡ self.now.table.shared.table_id }
        requires other { other.table_id ≡ self.now.table.shared.table_id }
        requires idle { (token.old.me.0.held ≡ None) × (other.me.0.held ≡ None) × (other.me.1 ≡ []) }
        requires acts { Has token.old.me.0.number token.old.me.0.numbers }
        ensures own { token.new.table_id ≡ token.old.table_id }
        ensures idle { (token.new.me.0.held ≡ None) × (token.new.me.1 ≡ token.old.me.1) }
        ensures opening { token.new.me.0.opening ≡ token.old.me.0.opening }
        ensures tasks { token.new.me.0.tasks ≡ token.old.me.0.tasks }
        ensures joined { Joined (shown_seat token.old.table_id token.old.me.0) (shown_seat other.table_id other.me.0)
            (shown_seat token.new.table_id token.new.me.0) }
        ensures legal { Legal token.new.me.0.opening token.new.me.0.history }
        ensures ours { AllUpTo token.new.me.0.tasks token.new.me.0.history }
    {
        self.table.shared.join_seat::<Gather>(token, other);
        self.table.shared.load::<Vouch>(token, 0);
    }

    // Ends the sharing, and writes what the words stand for into the cells.
    pub(crate) fn close(self, token: Token, cells: &mut Vec<CellState>)
        requires own { token.table_id ≡ self.table.shared.table_id }
        requires idle { token.me.0.held ≡ None }
        requires acts { Has token.me.0.number token.me.0.numbers }
        requires all { AnswersForAll (shown_seat token.table_id token.me.0) }
        requires cells { vec_len cells.old ≡ self.count }
        ensures legal { legal token.me.0.opening token.me.0.history cells.new.items }
        ensures ours { AllUpTo token.me.0.tasks token.me.0.history }
        ensures misses { All (Agrees token.me.0.opening token.me.0.history) token.me.0.misses }
    {
        let Words { table, count } = self;
        let closed = table.close_with(token);
        for cell in 0..count {
            cells[cell] = to_cell(closed.word(cell), closed.word(count + cell));
        }
        closed.free();
    }
}

// The words with which a board of these cells begins.
fn opening_words(alloc: Global, cells: &Vec<CellState>) -> Result<Vec<u64>, AllocError>
    ensures { IfOk result (λ ws. AreOpening cells.now.items ws.items) }
{
    let mut words = Vec::from_elem(alloc, EMPTY, 2 * cells.len() + 1)?;
    for cell in 0..cells.len() {
        if let CellState::Full(value) = cells[cell] {
            words[cell] = FULL;
            words[cells.len() + cell] = to_word(value);
        }
    }
    Ok(words)
}

// The value word of a full cell.
fn to_word(value: i64) -> u64
    ensures { cast_signed w64 result ≡ value }
{
    value.cast_unsigned()
}

// The cell that a state word and a value word stand for.
fn to_cell(state: u64, value: u64) -> CellState
    ensures { result ≡ cell_of state value }
{
    if state == EMPTY {
        CellState::Empty
    } else {
        CellState::Full(value.cast_signed())
    }
}
