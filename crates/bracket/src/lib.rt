// Down and up for the list: where the lower and the upper list of a map agree, and how far apart two entries are. Theorems only, no code.
#![tactic(auto)]
