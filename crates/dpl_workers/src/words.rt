// Operators of reductions on words. Calls in a cycle take one by a bound of its own, since they take none that names a type.

ghost use Rattle.std.specs.Prelude.{◌≡◌, ℤ};
ghost use Rattle.dpl_language.specs.Tree.{Op};
ghost use Rattle.dpl_language.specs.Values.{Value};
ghost use Rattle.dpl_language.specs.Arithmetic.{combined as combined_of, unit_of};

use dpl_loop::Operator;

/// An operator on values that are words.
pub(crate) trait OnWords {
    // The value that a word stands for, and which operator it is.
    ghost value: { ℤ → Value };

    ghost op: { Self → Op };

    /// What the operator gives over nothing.
    fn none(&self) -> i64
        ensures { value result ≡ unit_of (op self.now) };

    /// Two words put together.
    fn both(&self, a: i64, b: i64) -> i64
        ensures { value result ≡ combined_of (op self.now) (value a) (value b) };
}

/// The operator of a reduction whose items are words.
#[derive(Drop)]
pub(crate) struct Words<'a, O> {
    pub(crate) operator: &'a O,
}

impl<'a, O: Operator<Item = i64>> OnWords for Words<'a, O> {
    ghost value = { O.value };

    ghost op = { λ words. O.op words.operator.now };

    #[inline(always)]
    fn none(&self) -> i64 {
        self.operator.over_none()
    }

    #[inline(always)]
    fn both(&self, a: i64, b: i64) -> i64 {
        self.operator.combined(a, b)
    }
}
