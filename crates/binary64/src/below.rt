// The pattern below the exact result of each operation on a positive finite operand, through the raw unit.
ghost use Rattle.std.specs.Prelude.{T, length};
ghost use Rattle.significand.specs.Width.{k64};
ghost use Rattle.significand.specs.Call.{is_lent};
ghost use Rattle.ieee.specs.Format.{binary64};
ghost use Rattle.pattern.specs.Parts.{FieldsOf};
ghost use Rattle.pattern.specs.Operand.{Ordinary};
ghost use Rattle.binary64.specs.Found.{FoundFor};

use floors64::floor_of;
use kinds::{Op, Refusal};
use neighbour::scales::scales_of;
use neighbour::{Neighbour, lower};
use pattern::format::Binary64;
use pattern::operand::scale;
use pattern::parts::Parts;

// Refused where the entry that it needs is not M.
#[inline(always)]
pub fn below(op: Op, x: Parts, tables: &[u64]) -> Result<Neighbour, Refusal>
    requires { Ordinary binary64 x.unsigned × FieldsOf binary64 x × (T (is_lent k64 op (length tables.now))) }
    ensures { FoundFor op x.unsigned tables.now result }
{
    let s = scale::<Binary64>(x);
    let y = s.significand;
    let k = scales_of::<Binary64>(op, s.exponent);
    let g = raw64::answer(op, y, k.parity, tables)?;
    let q = floor_of(op, y, k.parity, g);
    Ok(lower::<Binary64>(q.quotient, q.more, k.scale))
}
