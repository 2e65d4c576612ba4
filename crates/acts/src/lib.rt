// What each act writes, words and forest in step, and that any list of steps on words is the forest's run: definitions and laws. No code.
#![tactic(auto)]
