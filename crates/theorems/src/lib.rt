// What is promised beyond one call: demand 3 of two calls, a lifted list beside the list before the lift, a list read back, flags that
// stay, packed replies taken apart, and document 01's table. The code does nothing: its contracts say which numbers the names of
// operations, roundings and flags have.
#![tactic(auto)]

ghost use Rattle.std.specs.Prelude.{◌≡◌};
ghost use Rattle.significand.specs.Width.{k64};
ghost use Rattle.significand.specs.Tables.{tables_length};
ghost use Rattle.kinds.specs.Flag.{invalid, division_by_zero, overflow, underflow, inexact};

use plate::{Flag, Operation, Rounding, TABLES};

// Each name has the number that the document gives its operation, rounding or flag.
pub fn operations_named()
    ensures { (Operation.RECIPROCAL.0 ≡ 1) × (Operation.ROOT.0 ≡ 2) × (Operation.INVERSE_ROOT.0 ≡ 3) }
{}

pub fn roundings_named()
    ensures { (Rounding.NEAREST.0 ≡ 0) × (Rounding.UP.0 ≡ 1) × (Rounding.DOWN.0 ≡ 2) × (Rounding.TOWARD_ZERO.0 ≡ 3) }
{}

// How many numbers the lent tables are.
pub fn tables_named()
    ensures { TABLES ≡ tables_length k64 }
{}

pub fn flags_named()
    ensures operand_flags { (Flag.INVALID.0 ≡ invalid) × (Flag.DIVISION_BY_ZERO.0 ≡ division_by_zero) }
    ensures rounding_flags { (Flag.OVERFLOW.0 ≡ overflow) × (Flag.UNDERFLOW.0 ≡ underflow) × (Flag.INEXACT.0 ≡ inexact) }
{}
