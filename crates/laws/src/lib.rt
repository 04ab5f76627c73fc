// Laws over any element type: tables that loops fill, folds, firsts, masks. There is no code here; specs/ has them all.
#![tactic(auto)]
