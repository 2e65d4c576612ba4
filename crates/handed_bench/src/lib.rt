// The tests of a work space and the records in a window, worked: answers that are computed. No code.
#![tactic(auto)]
