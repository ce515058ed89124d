// The row of a root's table, and the law of all three tables, which `factors`, `roots` and `inverse_roots` hold as arrays in read-only memory:
// `tables/Rows.entry` gives the rule of each at every entry, from one computed test of the whole array. `tools/make_tables.py` writes them.
#![tactic(auto)]

// A row of a root's table: R, then M.
#[derive(Clone, Copy)]
pub struct Row(pub u64, pub u64);
