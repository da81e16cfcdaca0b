// What is claimed of the library: one record of its published theorems, in specs/Claims.antt, and its proof. There is no code here.
#![tactic(auto)]
