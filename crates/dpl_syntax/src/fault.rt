// The faults of the language, by their codes: the definition has no others (Values.antt of dpl_language passes them on).

/// Which fault it is.
#[derive(Clone, Copy, PartialEq, Eq, Debug)]
pub enum FaultCode {
    /// `F1`: an index outside an array.
    Outside,
    /// `F2`: a division by zero.
    ZeroDivisor,
    /// `F3`: a bound, a stride, a count, a domain or a number of tasks past its limit.
    PastLimit,
    /// `F4`: an end of an empty range.
    EmptyEnd,
    /// `F5`: a loop with more turns than the budget.
    Budget,
    /// `F6`: a locale that isn't there.
    NoLocale,
    /// `F7`: an operation on a cell that stays blocked.
    CellStuck,
    /// `F8`: an array past its limit.
    ArrayTooLarge,
}
