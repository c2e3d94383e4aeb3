// Two engines that agree: theorems alone, over any list of the owner's and serving's calls.
#![tactic(auto)]
