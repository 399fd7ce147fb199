// From the timing rules to the machine's words: a compiled table's board is the module's, and the machine's store shows the rules' store.
// Promises, as theorems (specs/): the machine started on a module's table answers and shows what the timing rules say, for every history of calls.
// Builds on prescribed, timing, machine and model.
#![tactic(auto)]
