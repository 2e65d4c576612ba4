// Document 01's listing, worked: the job's bytes to the text. No code.
#![tactic(auto)]
