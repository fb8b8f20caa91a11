// What the words of a scorer tree hold while it is asked window by window of 64 documents: definitions and laws, no
// code.
#![tactic(auto)]
