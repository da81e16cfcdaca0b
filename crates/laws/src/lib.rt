// Definitions that every layer uses, with their laws, in specs/ and proofs/: tests on Bool, the first refusal of a list, and fields packed by their widths.
#![tactic(auto)]
