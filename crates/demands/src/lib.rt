// The letter's three demands, stated and proved over the very definitions that the contracts of the libraries cite. Theorems only: no
// code stands here. specs/ has the statements, in the letter's words, and proofs/ their proofs; docs/DEMANDS.md walks through them.
//
//   Demand1   every contract leaves one outcome; refused exactly when the table says, and all is then as it was; a run stops before the
//             step refused
//   Demand2   a step gives what the rule gives; closed squares are not altered, no answer depends on them, and no water enters one
//   Demand3   a trial taken back was never made
//   Played    demands 2 and 3 and the account, of any series as it is played by either engine
//   Account   document 02, #108: no water is lost and none made
//   Worked    the worked cases of document 01 that are to be proved, as one list

#![tactic(auto)]
