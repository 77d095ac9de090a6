// What holds of segments of lists and of machines, and the worked cases of resends: nothing here runs.
#![tactic(auto)]
