// Document 01's starred bench examples, from a job's bytes to the tray, by computing the definition of finishing. No code.
#![tactic(auto)]
