// Laws of walks by hand over a lent slice of structs, and of a call that such a slice is lent to, for a function that nothing else covers. No code.
#![tactic(auto)]
