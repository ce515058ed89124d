// The cutter list: what a map, an offset, a centre and a list are, and what the list call answers. Definitions and theorems only, no code.
#![tactic(auto)]
