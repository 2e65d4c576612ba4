// No step lets a ring, or an offcut of it, pass the box which that ring had at its start. No code.
#![tactic(auto)]
