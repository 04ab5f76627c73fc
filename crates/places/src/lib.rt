// Sixteen places at a vertex hold its edges in edge order, so that a walk over a vertex's edges is a walk over its places. There is no code here;
// specs/ says what places are, and what a walk over them is.
#![tactic(auto)]
