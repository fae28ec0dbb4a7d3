// What a walk hands back beside a value: a fault in one word, and a truth value in one word.
// Results of one word and one tag stay in registers; the turn that a fault names stands beside them.

ghost use Rattle.std.specs.Prelude.{◌≡◌, ◌↔◌, ◌<◌, ◌/◌, Some, option_map, IsTrue};
ghost use Rattle.dpl_language.specs.Values.{fault, Fault as FaultValue, Index as IndexValue, InNone, InTurn, in_the_turn};
ghost use Rattle.dpl_frame.specs.Faults.{code_of, turn_view, fault_view, fault_of, fault_in, halt_rank, Faulted, Refused, OutOfMemory};

use dpl_domain::Index;
use dpl_nodes::Spot;
use dpl_syntax::{FaultCode, Place};
use std::alloc::AllocError;
use std::marker::Model;

// The number of a code in a word.
fn number_of(code: FaultCode) -> u64
    ensures below { result < 8 }
    ensures back { code_of result ≡ code }
{
    match code {
        FaultCode::Outside => 0,
        FaultCode::ZeroDivisor => 1,
        FaultCode::PastLimit => 2,
        FaultCode::EmptyEnd => 3,
        FaultCode::Budget => 4,
        FaultCode::NoLocale => 5,
        FaultCode::CellStuck => 6,
        FaultCode::ArrayTooLarge => 7,
    }
}

// The code that a number stands for.
fn numbered(number: u64) -> FaultCode
    ensures { result ≡ code_of number }
{
    match number {
        0 => FaultCode::Outside,
        1 => FaultCode::ZeroDivisor,
        2 => FaultCode::PastLimit,
        3 => FaultCode::EmptyEnd,
        4 => FaultCode::Budget,
        5 => FaultCode::NoLocale,
        6 => FaultCode::CellStuck,
        _ => FaultCode::ArrayTooLarge,
    }
}

/// The turn in which a fault arose, of a forall or of an assignment to a whole array, by the coordinates of its index; or none.
#[derive(Clone, Copy, PartialEq, Eq, Debug)]
pub enum Turn {
    Absent,
    Line(i64),
    Plane(i64, i64),
    Space(i64, i64, i64),
}

impl Turn {
    /// The turn of an index.
    pub fn of(index: Index) -> Turn
        ensures { turn_view result ≡ InTurn index }
    {
        let (outer, middle, inner) = index.numbers();
        match index.rank() {
            1 => Turn::Line(inner),
            2 => Turn::Plane(middle, inner),
            _ => Turn::Space(outer, middle, inner),
        }
    }

    /// The index of the turn, if there is one.
    pub fn index(&self) -> Option<Index>
        ensures { (t : IndexValue) → turn_view self.now ≡ InTurn t → result ≡ Some t }
    {
        match self {
            Turn::Absent => None,
            Turn::Line(i) => Some(Index::new(&[*i]).unwrap()),
            Turn::Plane(i, j) => Some(Index::new(&[*i, *j]).unwrap()),
            Turn::Space(i, j, k) => Some(Index::new(&[*i, *j, *k]).unwrap()),
        }
    }
}

/// A fault: which it is, where it arose, and in which turn, if in one.
#[derive(Clone, Copy, PartialEq, Eq, Debug)]
pub struct Fault {
    pub code: FaultCode,
    pub at: Place,
    pub turn: Turn,
}

// What a code's number counts in a word: the places of a line and a column are below it.
const CODE: u64 = 4_398_046_511_104;

// A fault in a word: its code, its line and its column.
fn packed(code: FaultCode, at: Spot) -> u64
    ensures fault { fault_of result ≡ fault code at }
    ensures code { result / 4398046511104 < 8 }
{
    let place = at.place();
    (number_of(code) * 2_097_152 + u64::from(place.line)) * 2_097_152 + u64::from(place.column)
}

// The fault of a word, in a turn.
fn unpacked(word: u64, turn: Turn) -> Fault
    ensures { fault_view result ≡ in_the_turn (turn_view turn) (fault_of word) }
{
    Fault {
        code: numbered(word / CODE),
        at: Place {
            line: (word / 2_097_152 % 2_097_152) as u32,
            column: (word % 2_097_152) as u32,
        },
        turn,
    }
}

/// Why a walk ended early, in one word: a fault, by its code, its line and its column; that a gate refused an entry, or that memory ran
/// out. The turn that a fault names stands beside it.
#[derive(Drop)]
pub struct Alarm {
    word: u64,
}

impl Model for Alarm {
    ghost use Rattle.dpl_frame.specs.Faults.{Halt, halt_of};

    ghost Value = { Halt };

    ghost view = { λ a. halt_of a.word };
}

impl Alarm {
    /// The fault of a code, at a place, in no turn.
    #[cold]
    #[inline(never)]
    pub fn new(code: FaultCode, at: Spot, turn: &mut Turn) -> Alarm
        ensures alarm { result ≡ Faulted (fault code at) }
        ensures no_turn { turn_view turn.new ≡ InNone }
    {
        *turn = Turn::Absent;
        Alarm {
            word: packed(code, at),
        }
    }

    /// A gate refused an entry.
    #[cold]
    #[inline(never)]
    pub fn refused() -> Alarm
        ensures { result ≡ Refused }
    {
        Alarm { word: 8 * CODE }
    }

    /// Memory ran out.
    #[cold]
    #[inline(never)]
    pub fn out_of_memory() -> Alarm
        ensures { result ≡ OutOfMemory }
    {
        Alarm { word: 9 * CODE }
    }

    /// Whether memory ran out.
    pub fn is_out_of_memory(&self) -> bool
        ensures { IsTrue result ↔ (self.now ≡ OutOfMemory) }
    {
        9 <= self.word / CODE
    }

    /// Which of several is told, the least first: 0 where memory ran out, 1 where an entry was refused, and 2 for a fault.
    pub fn rank(&self) -> u32
        ensures { result ≡ halt_rank self.now }
    {
        match self.word / CODE {
            0..=7 => 2,
            8 => 1,
            _ => 0,
        }
    }

    /// The fault, in the turn that stands beside it; none where something was refused.
    #[cold]
    #[inline(never)]
    pub fn fault(self, turn: &Turn) -> Option<Fault>
        ensures { option_map fault_view result ≡ fault_in (turn_view turn.now) self }
    {
        if self.word / CODE < 8 {
            Some(unpacked(self.word, *turn))
        } else {
            None
        }
    }

    /// The fault, in the turn that stands beside it. Nothing is said of what is handed back where something was refused.
    #[cold]
    #[inline(never)]
    pub fn in_turn(self, turn: &Turn) -> Trap
        ensures { (f : FaultValue) → self ≡ Faulted f → result ≡ in_the_turn (turn_view turn.now) f }
    {
        Trap {
            word: self.word,
            turn: *turn,
        }
    }
}

impl From<AllocError> for Alarm {
    ghost use Rattle.std.specs.Prelude.{◌≡◌};
    ghost use Rattle.dpl_frame.specs.Faults.{OutOfMemory};

    ghost from_gives = { λ _ e. e ≡ OutOfMemory };

    fn from(_: AllocError) -> Alarm {
        Alarm::out_of_memory()
    }
}

/// A fault, with the turn of a reduction in which it arose, if in one.
#[derive(Drop)]
pub struct Trap {
    word: u64,
    turn: Turn,
}

impl Model for Trap {
    ghost use Rattle.dpl_language.specs.Values.{Fault, in_the_turn};
    ghost use Rattle.dpl_frame.specs.Faults.{fault_of, turn_view};

    ghost Value = { Fault };

    ghost view = { λ t. in_the_turn (turn_view t.turn) (fault_of t.word) };
}

impl Trap {
    /// The fault of a code, at a place, in no turn.
    #[cold]
    #[inline(never)]
    pub fn new(code: FaultCode, at: Spot) -> Trap
        ensures { result ≡ fault code at }
    {
        Trap {
            word: packed(code, at),
            turn: Turn::Absent,
        }
    }

    /// The fault.
    #[cold]
    #[inline(never)]
    pub fn fault(self) -> Fault
        ensures { fault_view result ≡ self }
    {
        unpacked(self.word, self.turn)
    }
}

/// A truth value that a walk hands back, in a whole word.
#[derive(Clone, Copy)]
pub struct Truth {
    word: u64,
}

impl Model for Truth {
    ghost use Rattle.std.specs.Prelude.{Bool, ◌<◌, nat_lt, if◌then◌else◌};

    ghost Value = { Bool };

    ghost view = { λ t. nat_lt 0 t.word };

    ghost invariant = { λ t. t.word < 2 };

    ghost inverse = { λ b. record { word = if b then 1 else 0 } };
}

impl Truth {
    /// The truth value in a word.
    pub fn new(b: bool) -> Truth
        ensures { result ≡ b }
    {
        Truth { word: u64::from(b) }
    }

    /// The truth value.
    pub fn get(self) -> bool
        ensures { result ≡ self }
    {
        self.word != 0
    }
}
