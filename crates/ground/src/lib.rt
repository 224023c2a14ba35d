// Lists that words are stored into, and the laws that know nothing of MIDI: of tests and of stores.
//
// There is no code here. The definitions of specs/ say what a lent output holds after a store, and
// proofs/ has what every other crate cites.
#![tactic(auto)]
