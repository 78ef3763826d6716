// No code: specs/Program.antt is the suite at which every contract of the program cites the scheme.
#![tactic(auto)]
