// Patterns of both formats, in 64 bits: their parts, an operand's significand and scale, and how an answer is put together.
#![tactic(auto)]

pub mod answer;
pub mod format;
pub mod operand;
pub mod parts;
