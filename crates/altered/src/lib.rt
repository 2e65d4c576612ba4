// A step on a work space that others altered and that passes the tests is the forest's step: definitions and laws. No code.
#![tactic(auto)]
