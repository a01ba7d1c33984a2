// What is wrong with contents: 01's refusals 8 to 12. Reading and writing judge by this alone; 9 goes by where the parts end, which is said.
#![tactic(auto)]
