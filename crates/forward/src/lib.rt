// What record, table and image hold while a call is unfinished, looking forward from words at rest: a staging, a
// commit, a cleaning and what it keeps of a chunk. Definitions and laws, in specs/ and proofs/; no code.
#![tactic(auto)]
