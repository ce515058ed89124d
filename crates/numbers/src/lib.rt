// Whole numbers: the greatest that passes a test, polynomials, powers and squares. Definitions and laws only, no code.
#![tactic(auto)]
