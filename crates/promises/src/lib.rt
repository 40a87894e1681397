// The promises: the three demands as theorems over the definitions that the contracts cite. Every call with its input is one
// type (specs/Asking), and so are the calls of a cart in use (specs/Using): a new call is a constructor more. No functions.

#![tactic(auto)]
