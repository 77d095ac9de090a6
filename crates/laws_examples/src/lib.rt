// The barn examples hold of the definitions, and the demands apply to calls on them: nothing here runs.
#![tactic(auto)]
