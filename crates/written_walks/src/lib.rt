// What the walks and the strict gate find where KLVs were written: docs/RULES.md, "L8. Writers". No code.
#![tactic(auto)]
