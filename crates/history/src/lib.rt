// What a work space is after any list of calls, by the histories of its states: laws only.
#![tactic(auto)]
