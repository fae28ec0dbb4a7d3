//! Scripts that are played together, and what comes of them: the cells that they leave, how each task ends, and the first fault.
//! What the clauses say isn't tested again; the rows show that tasks run at once, get on, and are told as they should be.
ghost use Rattle.std.specs.Prelude.{◌≡◌, ◌<◌, ◌≤◌, vec_len, IfOk};

use crate::gates::{Shut, enter_and_make};
use crate::scripts::{Deed, Script, play_together};
use dpl_cell::{Board, CellOp, CellState};
use dpl_frame::{Fault, FaultCode, Turn};
use dpl_loop::{Meeting, OpenGate};
use dpl_syntax::Place;
use dpl_task::{Gathered, Refusal, TaskEnd};
use std::alloc::{AllocError, Global};
use std::sync::Wait;
use std::test::Fail;
use std::thread::Threads;

const TRIES: u64 = 100_000_000;

const EMPTY: CellState = CellState::Empty;

// A place in the first line.
fn at(column: u32) -> Place {
    Place { line: 1, column }
}

// The fault of a code in the first line.
fn fault(code: FaultCode, column: u32) -> Fault {
    Fault {
        code,
        at: at(column),
        turn: Turn::Absent,
    }
}

fn call(column: u32, cell: usize, op: CellOp) -> Deed {
    Deed::Call(at(column), cell, op)
}

// So many rounds, each of which takes the value out of a cell and puts the next one into another.
fn rounds(alloc: Global, from: usize, to: usize, count: u64) -> Result<Script, AllocError> {
    let mut deeds = Vec::new(alloc);
    for _made in 0..count {
        deeds.push(call(1, from, CellOp::ReadFE))?;
        deeds.push(Deed::PutNext(at(2), to))?;
    }
    Ok(Script { deeds })
}

// A task for each of 64 cells, which takes what comes into it and hands the next value on to the cell behind it; the last to the first.
fn ring(alloc: Global, count: u64) -> Result<Vec<Script>, AllocError>
    ensures { IfOk result (λ all. vec_len all ≡ 64) }
{
    let mut all = Vec::new(alloc);
    for cell in 0..64usize {
        all.push(rounds(alloc, cell, (cell + 1) % 64, count)?)?;
    }
    Ok(all)
}

// 64 tasks that count up in one cell.
fn counters(alloc: Global, count: u64) -> Result<Vec<Script>, AllocError>
    ensures { IfOk result (λ all. vec_len all ≡ 64) }
{
    let mut all = Vec::new(alloc);
    for _made in 0..64usize {
        all.push(rounds(alloc, 0, 0, count)?)?;
    }
    Ok(all)
}

// 64 tasks of which each stops at a place of its own.
fn stoppers(alloc: Global) -> Result<Vec<Script>, AllocError>
    ensures { IfOk result (λ all. vec_len all ≡ 64) }
{
    let mut all = Vec::new(alloc);
    for task in 0..64u32 {
        all.push(Script {
            deeds: Vec::from_slice(alloc, &[Deed::Divide(at(task))])?,
        })?;
    }
    Ok(all)
}

// The scripts of two tasks.
fn two(alloc: Global, zero: &[Deed], one: &[Deed]) -> Result<Vec<Script>, AllocError>
    ensures { IfOk result (λ all. vec_len all ≡ 2) }
{
    let mut all = Vec::new(alloc);
    all.push(Script {
        deeds: Vec::from_slice(alloc, zero)?,
    })?;
    all.push(Script {
        deeds: Vec::from_slice(alloc, one)?,
    })?;
    Ok(all)
}

// Whether all tasks have ended, so many of them, and left these cells.
fn ended(gathered: &Gathered, tasks: usize, left: &[CellState]) -> bool {
    for end in gathered.ends.as_slice() {
        if *end != TaskEnd::Ended {
            return false;
        }
    }
    gathered.first_fault().is_none()
        && gathered.ends.len() == tasks
        && gathered.cells.as_slice() == left
}

// One value goes from task 0 to task 1, and another one back.
#[test]
fn values_handed_over(rt: HostRuntime) -> Result<(), Fail> {
    let zero = [
        call(1, 0, CellOp::WriteEF(1)),
        call(2, 1, CellOp::ReadFE),
        Deed::PutNext(at(3), 2),
    ];
    let one = [
        call(1, 0, CellOp::ReadFE),
        call(2, 1, CellOp::WriteEF(2)),
        Deed::PutNext(at(3), 3),
    ];
    let all = two(rt.alloc(), &zero, &one)?;
    let cells = Vec::from_slice(rt.alloc(), &[EMPTY, EMPTY, EMPTY, EMPTY])?;
    let Ok(gathered) = play_together(&rt, rt.alloc(), all, cells, &OpenGate, TRIES) else {
        panic!(rt; "nothing is refused")
    };
    assert!(rt;
        ended(
            &gathered,
            2,
            &[EMPTY, EMPTY, CellState::Full(3), CellState::Full(2)]
        )
    );
    Ok(())
}

#[test]
fn sixty_four_tasks_a_hundred_rounds(rt: HostRuntime) -> Result<(), Fail> {
    let all = counters(rt.alloc(), 100)?;
    let cells = Vec::from_slice(rt.alloc(), &[CellState::Full(0)])?;
    let Ok(gathered) = play_together(&rt, rt.alloc(), all, cells, &OpenGate, TRIES) else {
        panic!(rt; "nothing is refused")
    };
    assert!(rt; ended(&gathered, 64, &[CellState::Full(6400)]));
    Ok(())
}

// A token goes round 64 cells, a hundred times.
#[test]
fn a_ring_of_sixty_four(rt: HostRuntime) -> Result<(), Fail> {
    let all = ring(rt.alloc(), 100)?;
    let mut cells = Vec::from_elem(rt.alloc(), EMPTY, 64)?;
    cells[0] = CellState::Full(0);
    let mut left = cells.clone()?;
    left[0] = CellState::Full(6400);
    let Ok(gathered) = play_together(&rt, rt.alloc(), all, cells, &OpenGate, TRIES) else {
        panic!(rt; "nothing is refused")
    };
    assert!(rt; ended(&gathered, 64, left.as_slice()));
    Ok(())
}

// Each of two tasks waits for what the other would write: both stay, and the fault is the lower one's.
#[test]
fn a_cycle_of_two(rt: HostRuntime) -> Result<(), Fail> {
    let zero = [call(5, 0, CellOp::ReadFE), call(6, 1, CellOp::WriteEF(1))];
    let one = [call(7, 1, CellOp::ReadFE), call(8, 0, CellOp::WriteEF(1))];
    let all = two(rt.alloc(), &zero, &one)?;
    let cells = Vec::from_slice(rt.alloc(), &[EMPTY, EMPTY])?;
    let Ok(gathered) = play_together(&rt, rt.alloc(), all, cells, &OpenGate, 1000) else {
        panic!(rt; "nothing is refused")
    };
    let ends = [
        TaskEnd::Waiting(at(5), 0, CellOp::ReadFE),
        TaskEnd::Waiting(at(7), 1, CellOp::ReadFE),
    ];
    assert!(rt; gathered.ends.as_slice() == ends.as_slice());
    assert!(rt; gathered.cells.as_slice() == [EMPTY, EMPTY].as_slice());
    assert!(rt; gathered.first_fault() == Some((0, fault(FaultCode::CellStuck, 5))));
    Ok(())
}

// A task goes on when another faults, and the lowest fault is told, whichever came first.
#[test]
fn the_lowest_fault(rt: HostRuntime) -> Result<(), Fail> {
    let zero = [
        call(1, 0, CellOp::ReadFE),
        call(2, 0, CellOp::WriteEF(5)),
        call(3, 7, CellOp::Reset),
    ];
    let one = [
        call(1, 0, CellOp::WriteEF(4)),
        Deed::Divide(at(9)),
        call(2, 0, CellOp::Reset),
    ];
    let all = two(rt.alloc(), &zero, &one)?;
    let cells = Vec::from_slice(rt.alloc(), &[EMPTY])?;
    let Ok(gathered) = play_together(&rt, rt.alloc(), all, cells, &OpenGate, TRIES) else {
        panic!(rt; "nothing is refused")
    };
    let (outside, divided) = (
        fault(FaultCode::Outside, 3),
        fault(FaultCode::ZeroDivisor, 9),
    );
    let ends = [TaskEnd::Faulted(outside), TaskEnd::Faulted(divided)];
    assert!(rt; gathered.ends.as_slice() == ends.as_slice());
    assert!(rt; gathered.first_fault() == Some((0, outside)));
    assert!(rt; gathered.cells.as_slice() == [CellState::Full(5)].as_slice());
    Ok(())
}

// Each task gets its own frame: how it ends tells which script it played.
#[test]
fn sixty_four_frames(rt: HostRuntime) -> Result<(), Fail> {
    let all = stoppers(rt.alloc())?;
    let none = Vec::new(rt.alloc());
    let Ok(gathered) = play_together(&rt, rt.alloc(), all, none, &OpenGate, 1) else {
        panic!(rt; "nothing is refused")
    };
    let mut ends = Vec::new(rt.alloc());
    for task in 0..64u32 {
        ends.push(TaskEnd::Faulted(fault(FaultCode::ZeroDivisor, task)))?;
    }
    assert!(rt; gathered.ends.as_slice() == ends.as_slice());
    Ok(())
}

#[test]
fn no_tasks_and_no_cells(rt: HostRuntime) -> Result<(), Fail> {
    let none = Vec::new(rt.alloc());
    let cells = Vec::from_slice(rt.alloc(), &[CellState::Full(3)])?;
    let Ok(gathered) = play_together(&rt, rt.alloc(), none, cells, &OpenGate, 1) else {
        panic!(rt; "nothing is refused")
    };
    assert!(rt; ended(&gathered, 0, &[CellState::Full(3)]));
    let all = two(rt.alloc(), &[], &[])?;
    let Ok(gathered) = play_together(&rt, rt.alloc(), all, Vec::new(rt.alloc()), &OpenGate, 1)
    else {
        panic!(rt; "nothing is refused")
    };
    assert!(rt; ended(&gathered, 2, &[]));
    Ok(())
}

// Tasks 0 and 1 meet at the gate, which the others pass.
#[test]
fn tasks_that_meet(rt: HostRuntime) -> Result<(), Fail> {
    let all = counters(rt.alloc(), 1)?;
    let cells = Vec::from_slice(rt.alloc(), &[CellState::Full(0)])?;
    let Ok(gathered) = play_together(
        &rt,
        rt.alloc(),
        all,
        cells,
        &Meeting::new(u64::MAX, TRIES),
        TRIES,
    ) else {
        panic!(rt; "the two meet")
    };
    assert!(rt; ended(&gathered, 64, &[CellState::Full(64)]));
    Ok(())
}

// The same tasks one after another: the one that is made first meets no other.
#[test]
fn tasks_that_do_not_meet(rt: HostRuntime) -> Result<(), Fail> {
    let Ok((board, mut seats)) = Board::new(rt.alloc(), Vec::new(rt.alloc()), 2) else {
        panic!(rt; "there is memory for the board")
    };
    let _gatherer = board.last_seat(&mut seats);
    let one = board.last_seat(&mut seats);
    let zero = board.last_seat(&mut seats);
    assert!(rt;
        enter_and_make(rt.alloc(), &Meeting::new(u64::MAX, 1000), 0, &board, zero)
            == Err(Refusal::Gate)
    );
    assert!(rt;
        enter_and_make(rt.alloc(), &Meeting::new(u64::MAX, 1000), 1, &board, one)
            == Err(Refusal::Gate)
    );
    Ok(())
}

// The gate refuses one of 64 tasks, which ends all, or a task that isn't there, which ends none.
#[test]
fn an_entry_refused(rt: HostRuntime) -> Result<(), Fail> {
    let cells = Vec::from_slice(rt.alloc(), &[CellState::Full(0)])?;
    let refused = play_together(
        &rt,
        rt.alloc(),
        counters(rt.alloc(), 1)?,
        cells,
        &Shut { to: 63 },
        TRIES,
    );
    assert!(rt; matches!(&refused, Err(Refusal::Gate)));
    let cells = Vec::from_slice(rt.alloc(), &[CellState::Full(0)])?;
    let Ok(gathered) = play_together(
        &rt,
        rt.alloc(),
        counters(rt.alloc(), 1)?,
        cells,
        &Shut { to: 64 },
        TRIES,
    ) else {
        panic!(rt; "no task is refused")
    };
    assert!(rt; ended(&gathered, 64, &[CellState::Full(64)]));
    Ok(())
}

// Where the address space is too small for 64 threads, as by `ulimit -v`, a start is refused; the tasks that were started end all the same.
#[test]
fn a_start_refused(rt: HostRuntime) -> Result<(), Fail> {
    let all = counters(rt.alloc(), 1)?;
    let cells = Vec::from_slice(rt.alloc(), &[CellState::Full(0)])?;
    match play_together(&rt, rt.alloc(), all, cells, &OpenGate, TRIES) {
        Ok(gathered) => assert!(rt; ended(&gathered, 64, &[CellState::Full(64)])),
        Err(why) => assert!(rt; why == Refusal::Thread),
    }
    Ok(())
}

// Whether there was memory for two tasks that have nothing to do.
fn plays<R: Threads + Wait + Sync>(rt: &R, alloc: Global) -> bool {
    let Ok(all) = two(alloc, &[], &[]) else {
        return false;
    };
    let Ok(cells) = Vec::from_slice(alloc, &[EMPTY]) else {
        return false;
    };
    play_together(rt, alloc, all, cells, &OpenGate, 1).is_ok()
}

// Under `rt try --test --fail-alloc N` the Nth growth is refused: then the tasks run in one of two coforalls at least.
#[test]
fn a_growth_refused(rt: HostRuntime) {
    let first = plays(&rt, rt.alloc());
    let second = plays(&rt, rt.alloc());
    assert!(rt; first || second);
}
