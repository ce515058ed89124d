// IEEE 754: formats, the numbers around an exact result, rounded answers and flags. Definitions and theorems only, no code.
#![tactic(auto)]
